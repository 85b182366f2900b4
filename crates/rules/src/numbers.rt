// The numbers of a rule, and the test that steps keep the laws.
ghost use Rattle.std.specs.Prelude.{◌≡◌, ◌<◌, ◌≤◌, Decides, MatchBool};
ghost use Rattle.two_way.specs.Automaton.{Lawful};
ghost use Rattle.rules.specs.Steps.{allowed, at, stored, Sizes, RowKept, Kept};

use crate::rule::onward;

// All that a rule is but its steps. Columns are numbered by letter, then the left end, then the right end.
#[derive(Clone, Copy, PartialEq, Eq, Debug)]
pub struct Numbers {
    pub states: u8,
    pub letters: u8,
    pub start: u8,
    pub accept: u8,
    pub reject: u8,
}

impl Numbers {
    // Whether the rule with these numbers and these steps keeps the laws.
    pub(crate) fn keep_laws(self, steps: &[[(u8, u8); 18]; 32]) -> bool
        ensures { MatchBool result (Sizes self.states self.letters self.start self.accept self.reject × Kept self.states self.letters self.accept self.reject (at steps.now) × Lawful (stored self.states self.letters self.start self.accept self.reject steps.now)) (Lawful (stored self.states self.letters self.start self.accept self.reject steps.now) → ⊥) }
    {
        if self.states < 2 || self.states > 32 || self.letters < 1 || self.letters > 16 {
            return false;
        }
        if self.start >= self.states || self.accept >= self.states || self.reject >= self.states {
            return false;
        }
        self.accept != self.reject && self.allow_all(steps)
    }

    // A step is a pair of numbers here, not a Move: whoever gives it may give a direction that there is not.
    fn allow(self, state: u8, column: u8, step: (u8, u8)) -> bool
        ensures { result ≡ allowed self.states self.letters self.accept self.reject state column step }
    {
        let (to, direction) = step;
        let onward = u8::from(onward(self.letters, column));
        if state == self.accept || state == self.reject {
            to == state && direction == onward
        } else if column < self.letters {
            to < self.states && direction < 2
        } else {
            to < self.states && direction == onward
        }
    }

    fn allow_row(self, steps: &[[(u8, u8); 18]; 32], state: u8) -> bool
        requires { (self.letters ≤ 16) × (state < 32) }
        ensures { Decides result (RowKept self.states self.letters self.accept self.reject (at steps.now) state) }
    {
        (0..self.letters + 2).all(|column| {
            self.allow(state, column, steps[state as usize][column as usize])
        })
    }

    fn allow_all(self, steps: &[[(u8, u8); 18]; 32]) -> bool
        requires { (self.letters ≤ 16) × (self.states ≤ 32) }
        ensures { Decides result (Kept self.states self.letters self.accept self.reject (at steps.now)) }
    {
        (0..self.states).all(|state| self.allow_row(steps, state))
    }
}
