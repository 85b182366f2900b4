// Crossing tables as keys.
ghost use Rattle.std.specs.Prelude.{◌≡◌};
ghost use Rattle.std.proofs.Common.{ap};
ghost use Rattle.register.specs.Tables.{blank_table, answer_at, alike_tables};
ghost use Rattle.std.proofs.lemmas.Slice.Eq.{bytes_eq-Decides};
ghost use Rattle.register.specs.declared.tables.CrossingTable.{CrossingTable};
ghost use Rattle.register.specs.CrossingTableKeyLemmas.{equal};

use crate::keys::{Blank, Key};

// The byte of a rule that never comes out of the word; it stands at states that the rule has not, too.
// A byte, not a None: a table is 33 bytes of memory that C lends.
pub const NEVER: u8 = 255;

// Where a rule comes out of a word: the state that it is in then, for each state in which it enters from the right, and at 32
// for its first arrival from the left.
#[derive(Clone, Copy, PartialEq, Eq)]
#[repr(C)]
pub struct CrossingTable {
    answers: [u8; 33],
}

impl CrossingTable {
    pub fn new(answers: [u8; 33]) -> CrossingTable
        ensures { result ≡ record { answers = answers } }
    {
        CrossingTable { answers }
    }

    // The answer at a place; none where the rule never comes out, and past the last place.
    pub fn answer(&self, index: usize) -> Option<u8>
        ensures { result ≡ answer_at self.now index }
    {
        let answer = *self.answers.get(index)?;
        if answer == NEVER { None } else { Some(answer) }
    }
}

impl Key for CrossingTable {
    ghost alike = { alike_tables };

    ghost decides = { λ x y.
        let d = bytes_eq-Decides x.answers y.answers in
        ((λ t. equal x y (d.0 t)), (λ e. d.1 (ap (λ (t : CrossingTable). t.answers) e))) };

    fn same(&self, other: &CrossingTable) -> bool {
        self == other
    }
}

// Never at every place: no word has this table.
impl Blank for CrossingTable {
    ghost blank = { blank_table };

    fn blank() -> CrossingTable {
        CrossingTable {
            answers: [NEVER; 33],
        }
    }
}
