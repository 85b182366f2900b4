// The steps that the lines of a sheet give.
ghost use Rattle.std.specs.Prelude.{◌≡◌, ℕ, ◌<◌, ◌&&◌, if◌then◌else◌, replicate, Some, None, ◌==◌, slice_index_or};
ghost use Rattle.loading.specs.Cells.{cell};

use rules::Move;

// One step at most for each state and column.
#[derive(Clone, Copy)]
pub struct Steps {
    cells: [[Option<Move>; 18]; 32],
}

impl Steps {
    pub(crate) fn none() -> Steps
        ensures { result.cells ≡ replicate 32 (replicate 18 None) }
    {
        Steps {
            cells: [[None; 18]; 32],
        }
    }

    pub(crate) fn at(&self, state: u8, column: u8) -> Option<Move>
        requires { (state < 32) × (column < 18) }
        ensures { result ≡ cell self.now.cells state column }
    {
        self.cells[state as usize][column as usize]
    }

    pub(crate) fn put(&mut self, state: u8, column: u8, step: Move)
        requires { (state < 32) × (column < 18) }
        ensures { (q c : ℕ) → cell self.new.cells q c ≡ (if q == state && c == column then Some step else cell self.old.cells q c) }
    {
        put(&mut self.cells[state as usize], column, step);
    }
}

fn put(row: &mut [Option<Move>; 18], column: u8, step: Move)
    requires { column < 18 }
    ensures { (c : ℕ) → slice_index_or row.new c None ≡ (if c == column then Some step else slice_index_or row.old c None) }
{
    row[column as usize] = Some(step);
}
