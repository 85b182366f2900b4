// A row: for each letter the row that it leads to, and the verdict of the words that end here.
ghost use Rattle.std.specs.Prelude.{◌≡◌, take, slice_index};
ghost use Rattle.dfa.specs.Rows.{row_of, blank_row};

use two_way::Verdict;

#[repr(C)]
#[derive(Clone, Copy, Debug)]
pub struct DfaRow {
    cells: [u16; 16],
    // A number, not a Verdict: the row is lent memory, for C too, and may hold any byte.
    verdict: u8,
}

impl DfaRow {
    ghost use Rattle.dfa.specs.Asked.{leads, verdict_in};

    pub fn new(cells: [u16; 16], verdict: u8) -> DfaRow
        ensures { result ≡ row_of cells verdict }
    {
        DfaRow { cells, verdict }
    }

    // Zeros. Not `Default`, since no build leaves such a row in use.
    pub fn blank() -> DfaRow
        ensures { result ≡ blank_row }
    {
        DfaRow {
            cells: [0; 16],
            verdict: 0,
        }
    }

    // The row that a letter leads to; 0 past the last letter.
    pub fn cell(&self, letter: usize) -> u16
        ensures { result ≡ slice_index self.now.cells letter }
    {
        self.cells.get(letter).copied().unwrap_or(0)
    }

    // The number of the verdict: 1 accepts, 2 rejects, 3 loops; any other is damage.
    pub fn verdict(&self) -> u8
        ensures { result ≡ self.now.verdict }
    {
        self.verdict
    }

    // The verdict, where the cells of the letters are rows in use, of which there are so many; none where a cell or the verdict is damaged.
    pub fn sound_verdict(&self, letters: usize, rows: usize) -> Option<Verdict>
        ensures { result ≡ verdict_in letters rows self.now }
    {
        if self.leads_on(letters, rows) {
            Verdict::try_from(self.verdict).ok()
        } else {
            None
        }
    }

    // A row has sixteen cells, and past them a letter leads to row 0.
    fn leads_on(&self, letters: usize, rows: usize) -> bool
        ensures { result ≡ leads letters rows self.now }
    {
        self.first_cells(letters)
            .iter()
            .all(|cell| (*cell as usize) < rows)
    }

    // The cells of the first letters; all sixteen where the letters are more.
    fn first_cells(&self, letters: usize) -> &[u16]
        ensures { result.now ≡ take letters self.now.cells }
    {
        &self.cells[..letters.min(self.cells.len())]
    }
}
