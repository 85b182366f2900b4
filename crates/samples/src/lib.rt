// Worked cases, by the definitions that the contracts of the calls use.

#![tactic(auto)]

ghost use Rattle.std.specs.Prelude.{◌≡◌, map};
ghost use Rattle.samples.specs.Cases.{cases, given};

// What each of the cases gives, worked out.
pub fn worked_cases()
    ensures { map (λ c. given c.source c.question) cases ≡ map (λ c. c.gives) cases }
{}
