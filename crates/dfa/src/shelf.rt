// The rows in use of a one-way table.
ghost use Rattle.std.specs.Prelude.{◌≡◌, ℕ, ◌<◌, length, take, Some, None, IfOk, MatchResult};
ghost use Rattle.dfa.specs.Shelved.{unshelved};
ghost use Rattle.dfa.specs.Asked.{verdict_in, row_at, next_row};

use crate::rows::DfaRow;
use refusals::{Fault, Refusal};
use two_way::Verdict;

// One row at least, and how many cells of each lead on.
#[derive(Clone, Copy)]
pub struct Shelf<'a> {
    rows: &'a [DfaRow],
    letters: u8,
    ghost some: { 0 < length rows.now },
}

impl<'a> Shelf<'a> {
    // The first rows of a table, this many; refused where they are none, or more than it has.
    pub fn new(rows: usize, letters: u8, dfa: &'a [DfaRow]) -> Result<Shelf<'a>, Refusal>
        ensures refused { MatchResult result (λ _. unshelved rows dfa.now ≡ None) (λ refusal. unshelved rows dfa.now ≡ Some refusal) }
        ensures rows { IfOk result (λ shelf. shelf.rows.now ≡ take rows dfa.now) }
        ensures letters { IfOk result (λ shelf. shelf.letters ≡ letters) }
    {
        if rows == 0 {
            return Err(Refusal::unplaced(Fault::NoRows));
        }
        let rows = dfa
            .get(..rows)
            .ok_or(Refusal::unplaced(Fault::DamagedTable))?;
        Ok(Shelf { rows, letters })
    }

    pub fn rows(&self) -> &'a [DfaRow]
        ensures { result.now ≡ self.now.rows.now }
    {
        self.rows
    }

    pub fn letters(&self) -> u8
        ensures { result ≡ self.now.letters }
    {
        self.letters
    }

    // The verdict of a row that leads on to rows of the shelf alone; none where a cell or the verdict is damaged.
    pub fn verdict(&self, row: &DfaRow) -> Option<Verdict>
        ensures { result ≡ verdict_in self.now.letters (length self.now.rows.now) row.now }
    {
        row.sound_verdict(self.letters as usize, self.rows.len())
    }

    // The verdict of the row with this number.
    pub(crate) fn verdict_at(&self, row: usize) -> Option<Verdict>
        requires { row < length self.now.rows.now }
        ensures { result ≡ verdict_in self.now.letters (length self.now.rows.now) (row_at self.now.rows.now row) }
    {
        self.verdict(&self.rows[row])
    }

    // The number of the row to which a letter leads from the row with this number, where that has a verdict.
    pub(crate) fn next_row(&self, row: usize, letter: u8) -> Option<usize>
        requires { row < length self.now.rows.now }
        ensures { result ≡ next_row self.now.letters (length self.now.rows.now) self.now.rows.now row letter }
    {
        let row = &self.rows[row];
        self.verdict(row)?;
        Some(row.cell(letter as usize) as usize)
    }
}
