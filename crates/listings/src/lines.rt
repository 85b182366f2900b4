// The lines of a listing.
ghost use Rattle.std.specs.Prelude.{◌∷◌, length, decimal};
ghost use Rattle.std.specs.List.{range_with_len, flat_map};
ghost use Rattle.text.specs.Parts.{tab};
ghost use Rattle.listings.specs.Listing.{line, cell_of, head_fields, row_fields};
ghost use Rattle.listings.specs.Listed.{shelf_rows, shelf_listing};
ghost use Rattle.listings.specs.Placed.{Placed, Continues};

use crate::writing::Writer;
use dfa::{DfaRow, Shelf};

pub(crate) fn put_listing(shelf: &Shelf, writer: &mut Writer) -> Option<()>
    ensures placed { Placed writer.old (shelf_listing shelf.now) result writer.new }
    ensures continues { Continues writer.old writer.new }
{
    put_head(shelf, writer)?;
    put_rows(shelf, writer)
}

fn put_head(shelf: &Shelf, writer: &mut Writer) -> Option<()>
    ensures placed { Placed writer.old (line (head_fields (length shelf.now.rows.now) shelf.now.letters)) result writer.new }
    ensures continues { Continues writer.old writer.new }
{
    writer.put(b"shelf")?;
    writer.put_field(shelf.rows().len() as u64)?;
    writer.put_field(shelf.letters() as u64)?;
    writer.put(b"\n")
}

fn put_rows(shelf: &Shelf, writer: &mut Writer) -> Option<()>
    ensures placed { Placed writer.old (shelf_rows shelf.now) result writer.new }
    ensures continues { Continues writer.old writer.new }
{
    for (number, row) in shelf.rows().iter().enumerate() {
        put_row(number, row, shelf.letters(), writer)?;
    }
    Some(())
}

fn put_row(number: usize, row: &DfaRow, letters: u8, writer: &mut Writer) -> Option<()>
    ensures placed { Placed writer.old (line (row_fields letters number row.now)) result writer.new }
    ensures continues { Continues writer.old writer.new }
{
    writer.put(b"row")?;
    writer.put_field(number as u64)?;
    writer.put_field(row.verdict() as u64)?;
    put_cells(row, letters, writer)?;
    writer.put(b"\n")
}

fn put_cells(row: &DfaRow, letters: u8, writer: &mut Writer) -> Option<()>
    ensures placed { Placed writer.old (flat_map (λ a. tab ∷ decimal (cell_of row.now a)) (range_with_len 0 letters)) result writer.new }
    ensures continues { Continues writer.old writer.new }
{
    // Not over the row's cells: letters past the last cell are listed too.
    for letter in 0..letters {
        writer.put_field(row.cell(letter as usize) as u64)?;
    }
    Some(())
}
