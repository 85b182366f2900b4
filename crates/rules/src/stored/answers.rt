// How a stored rule is made, and what it answers.
ghost use Rattle.std.specs.Prelude.{◌≡◌, MatchBool};
ghost use Rattle.two_way.specs.Automaton.{Lawful};
ghost use Rattle.two_way.specs.Pairs.{blank};
ghost use Rattle.rules.specs.Steps.{at, stored, Sizes, Kept};
ghost use Rattle.rules.specs.Kinds.{of_stored, Loaded};
ghost use Rattle.std.proofs.Common.{rules, arith};

use super::StoredRule;
use crate::numbers::Numbers;
use crate::rule::{Direction, Move, Rule};

// Both states keep themselves: R at the letter and the left end, L at the right end.
fn blank_steps() -> [[(u8, u8); 18]; 32]
    ensures kept { Kept 2 1 0 1 (at result) }
    ensures value { stored 2 1 1 0 1 result ≡ blank 1 }
{
    let mut steps = [[(0, 1); 18]; 32];
    steps[0][2] = (0, 0);
    steps[1] = [(1, 1); 18];
    steps[1][2] = (1, 0);
    steps
}

impl StoredRule {
    // Two states, one letter, every word rejected.
    pub fn new() -> StoredRule
        ensures { of_stored result ≡ blank 1 }
    {
        let steps = blank_steps();
        StoredRule {
            numbers: Numbers {
                states: 2,
                letters: 1,
                start: 1,
                accept: 0,
                reject: 1,
            },
            steps,
        }
    }

    // The rule with these numbers and steps, where they keep the laws. Steps past the states and the columns are not looked at.
    pub fn from_steps(numbers: Numbers, steps: &[[(u8, u8); 18]; 32]) -> Option<StoredRule>
        ensures { Loaded (stored numbers.states numbers.letters numbers.start numbers.accept numbers.reject steps.now) result }
    {
        if numbers.keep_laws(steps) {
            let steps = *steps;
            Some(StoredRule { numbers, steps })
        } else {
            None
        }
    }
}

impl Rule for StoredRule {
    ghost meaning = { of_stored };

    ghost lawful = { first_of (Prim.search rules, Prim.grind (arith, Self.row.coded.inj)) };

    fn states(&self) -> u8 {
        self.numbers.states
    }

    fn letters(&self) -> u8 {
        self.numbers.letters
    }

    fn start(&self) -> u8 {
        self.numbers.start
    }

    fn accept(&self) -> u8 {
        self.numbers.accept
    }

    fn reject(&self) -> u8 {
        self.numbers.reject
    }

    fn next(&self, state: u8, column: u8) -> Option<Move> {
        if state >= self.numbers.states || column >= self.numbers.letters + 2 {
            return None;
        }
        let (to, direction) = self.steps[state as usize][column as usize];
        Some(Move {
            to,
            direction: if direction == 1 {
                Direction::Right
            } else {
                Direction::Left
            },
        })
    }
}
