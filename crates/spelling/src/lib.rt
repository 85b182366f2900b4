// What a sheet spells, and why one is refused. Each function is there to carry a theorem, for every text.

#![tactic(auto)]

ghost use Rattle.std.specs.Prelude.{ℕ, List};
ghost use Rattle.two_way.specs.Automaton.{Automaton, Lawful};
ghost use Rattle.spelling.specs.Reading.{sheet_read};
ghost use Rattle.spelling.specs.Spells.{Spells};
ghost use Rattle.spelling.specs.Judged.{FirstMet, Spelled};

// A sheet is read as the one rule that it spells, and refused exactly where it spells none.
pub fn read_as_spelled()
    ensures { (b : List ℕ) → Spelled b (sheet_read b) }
{}

// A sheet is refused by the first condition met, and taken where none is.
pub fn refused_by_the_first()
    ensures { (b : List ℕ) → FirstMet b (sheet_read b) }
{}

// Every rule that a sheet spells keeps the laws.
pub fn spelled_lawfully()
    ensures { (b : List ℕ) (A : Automaton) → Spells b A → Lawful A }
{}
