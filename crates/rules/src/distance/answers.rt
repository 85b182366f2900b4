// How a distance rule is made, and what it answers.
ghost use Rattle.std.specs.Prelude.{◌≡◌, ℕ, ◌+◌, ◌<◌, List, IfOk, MatchBool, MatchResult};
ghost use Rattle.two_way.specs.Runs.{Word};
ghost use Rattle.rules.specs.Distance.{has, counted, distance_step, distance_rule, Ranged, out_of_range, DistanceDecides};
ghost use Rattle.rules.specs.Steps.{pair_of};
ghost use Rattle.rules.specs.Kinds.{of_distance};
ghost use Rattle.std.proofs.Common.{rules, arith};

use super::DistanceRule;
use crate::rule::{Direction, Move, Rule, onward};
use refusals::{Fault, Refusal};

// Whether there is a distance rule with these numbers; and if so, what it decides.
fn ranged(distance: u8, letters: u8, set: u16) -> bool
    ensures answer { MatchBool result (Ranged distance letters set) (Ranged distance letters set → ⊥) }
    ensures decides { MatchBool result ((w : List ℕ) → Word (distance_rule distance letters set) w → DistanceDecides (distance_rule distance letters set) distance set w) (Unit {0}) }
{
    if distance < 1 || distance > 29 || letters < 1 || letters > 16 {
        return false;
    }
    (set as u32) < 1 << letters
}

impl DistanceRule {
    pub fn new(distance: u8, letters: u8, set: u16) -> Result<DistanceRule, Refusal>
        ensures answer { MatchResult result (λ x. Ranged distance letters set × (of_distance x ≡ distance_rule distance letters set)) (λ e. (Ranged distance letters set → ⊥) × (e ≡ out_of_range)) }
        ensures decides { IfOk result (λ x. (w : List ℕ) → Word (of_distance x) w → DistanceDecides (of_distance x) distance set w) }
    {
        if ranged(distance, letters, set) {
            Ok(DistanceRule {
                distance,
                letters,
                set,
            })
        } else {
            Err(Refusal::unplaced(Fault::DistanceRange))
        }
    }

    fn has(&self, letter: u8) -> bool
        requires { letter < 16 }
        ensures { result ≡ has self.now.set letter }
    {
        (self.set >> letter) % 2 == 1
    }

    // The step of a state that counts marks back, on a letter.
    fn counted(&self, state: u8, letter: u8) -> Move
        requires { letter < 16 }
        ensures { pair_of result ≡ counted self.now.distance self.now.set state letter }
    {
        if state < self.distance {
            return Move {
                to: state + 1,
                direction: Direction::Left,
            };
        }
        Move {
            to: if self.has(letter) {
                self.accept()
            } else {
                self.reject()
            },
            direction: Direction::Right,
        }
    }

    fn step(&self, state: u8, column: u8) -> Move
        ensures { pair_of result ≡ distance_step self.now.distance self.now.letters self.now.set state column }
    {
        let direction = onward(self.letters, column);
        if state == 0 {
            Move {
                to: if direction == Direction::Right { 0 } else { 1 },
                direction,
            }
        } else if state > self.distance {
            Move {
                to: state,
                direction,
            }
        } else if column < self.letters {
            self.counted(state, column)
        } else {
            Move {
                to: self.reject(),
                direction,
            }
        }
    }
}

impl Rule for DistanceRule {
    ghost meaning = { of_distance };

    ghost lawful = { first_of (Prim.search rules, Prim.grind (arith, Self.row.coded.inj)) };

    fn states(&self) -> u8 {
        self.distance + 3
    }

    fn letters(&self) -> u8 {
        self.letters
    }

    fn start(&self) -> u8 {
        0
    }

    fn accept(&self) -> u8 {
        self.distance + 1
    }

    fn reject(&self) -> u8 {
        self.distance + 2
    }

    fn next(&self, state: u8, column: u8) -> Option<Move> {
        if state < self.states() && column < self.letters + 2 {
            Some(self.step(state, column))
        } else {
            None
        }
    }
}
