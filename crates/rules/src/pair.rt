// Two rules over the same letters, one after the other.
ghost use Rattle.std.specs.Prelude.{◌≡◌, ◌≤◌};
ghost use Rattle.two_way.specs.Pairs.{blank, pair, fits, shifted, composed_step, first_next};
ghost use Rattle.rules.specs.Pair.{checked, PairLaw};
ghost use Rattle.rules.specs.Steps.{told};
ghost use Rattle.rules.specs.Kinds.{of_pair};
ghost use Rattle.two_way.proofs.Composed.{pair_lawful};

use crate::rule::{Direction, Move, Rule, onward};
use refusals::{Fault, Refusal};

// Runs the first rule; where that accepts, goes back to the left end and runs the second. Two rules fit where they have the same letters
// and at most 32 states together; a pair that does not fit rejects every word.
#[derive(Clone, Copy, Debug, Drop)]
pub struct PairRule<A, B> {
    pub first: A,
    pub second: B,
}

// A step where the two do not fit.
fn blank_next(letters: u8, state: u8, column: u8) -> Option<Move>
    requires { letters ≤ 16 }
    ensures { told result ≡ (blank letters).next state column }
{
    if state < 2 && column < letters + 2 {
        Some(Move {
            to: state,
            direction: onward(letters, column),
        })
    } else {
        None
    }
}

impl<A: Rule, B: Rule> PairRule<A, B> {
    pub fn new(first: A, second: B) -> Self
        ensures parts { (result.first ≡ first) × (result.second ≡ second) }
        ensures meaning { of_pair A.Rule.meaning B.Rule.meaning result ≡ pair (A.Rule.meaning first) (B.Rule.meaning second) }
    {
        PairRule { first, second }
    }

    // Refuses two rules that do not fit; and says what the pair decides.
    pub fn check(&self) -> Result<(), Refusal>
        ensures answer { result ≡ checked (fits (A.Rule.meaning self.now.first) (B.Rule.meaning self.now.second)) }
        ensures law { PairLaw (A.Rule.meaning self.now.first) (B.Rule.meaning self.now.second) }
    {
        if self.fits() {
            Ok(())
        } else {
            Err(Refusal::unplaced(Fault::PairMisfit))
        }
    }

    fn fits(&self) -> bool
        ensures { result ≡ fits (A.Rule.meaning self.now.first) (B.Rule.meaning self.now.second) }
    {
        self.first.states() + self.second.states() <= 32
            && self.first.letters() == self.second.letters()
    }

    // A step of the second rule, whose states come after the first's.
    fn second_next(&self, state: u8, column: u8) -> Option<Move>
        ensures { told result ≡ shifted (A.Rule.meaning self.now.first).states ((B.Rule.meaning self.now.second).next state column) }
    {
        let step = self.second.next(state, column)?;
        Some(Move {
            to: self.first.states() + step.to,
            direction: step.direction,
        })
    }

    // The step of a state of the first rule: its accept goes back to the left end, its reject on to the second's.
    fn first_next(&self, state: u8, column: u8) -> Option<Move>
        ensures { told result ≡ first_next (A.Rule.meaning self.now.first) (B.Rule.meaning self.now.second) state column }
    {
        let letters = self.first.letters();
        if state == self.first.accept() {
            if column == letters {
                self.second_next(self.second.start(), column)
            } else {
                Some(Move {
                    to: state,
                    direction: Direction::Left,
                })
            }
        } else if state == self.first.reject() {
            Some(Move {
                to: self.first.states() + self.second.reject(),
                direction: onward(letters, column),
            })
        } else {
            self.first.next(state, column)
        }
    }

    fn composed_next(&self, state: u8, column: u8) -> Option<Move>
        ensures { told result ≡ composed_step (A.Rule.meaning self.now.first) (B.Rule.meaning self.now.second) state column }
    {
        let before = self.first.states();
        if column >= self.first.letters() + 2 {
            None
        } else if state < before {
            self.first_next(state, column)
        } else {
            self.second_next(state - before, column)
        }
    }
}

impl<A: Rule, B: Rule> Rule for PairRule<A, B> {
    ghost meaning = { of_pair A.Rule.meaning B.Rule.meaning };

    ghost lawful = { λ x. pair_lawful _ _ (A.Rule.lawful x.first) (B.Rule.lawful x.second) };

    fn states(&self) -> u8 {
        if self.fits() {
            self.first.states() + self.second.states()
        } else {
            2
        }
    }

    fn letters(&self) -> u8 {
        self.first.letters()
    }

    fn start(&self) -> u8 {
        if self.fits() { self.first.start() } else { 1 }
    }

    fn accept(&self) -> u8 {
        if self.fits() {
            self.first.states() + self.second.accept()
        } else {
            0
        }
    }

    fn reject(&self) -> u8 {
        if self.fits() {
            self.first.states() + self.second.reject()
        } else {
            1
        }
    }

    fn next(&self, state: u8, column: u8) -> Option<Move> {
        if self.fits() {
            self.composed_next(state, column)
        } else {
            blank_next(self.first.letters(), state, column)
        }
    }
}
