ghost use Rattle.rules.specs.Steps.{at, Sizes, Kept};

use crate::numbers::Numbers;

pub mod answers;

// A rule that holds its steps: a row for each state, and in it a step for each column.
// They are held as they are given, directions as numbers: a type would refuse callers whose steps, past the states and the columns, are none.
#[derive(Clone, Copy, Debug)]
pub struct StoredRule {
    numbers: Numbers,
    steps: [[(u8, u8); 18]; 32],
    ghost sizes: { Sizes numbers.states numbers.letters numbers.start numbers.accept numbers.reject },
    ghost kept: { Kept numbers.states numbers.letters numbers.accept numbers.reject (at steps) },
}
