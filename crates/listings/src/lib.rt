// The text of a one-way table.

#![tactic(auto)]

ghost use Rattle.std.specs.Prelude.{◌≡◌, length, OnOk, Some, MatchResult};
ghost use Rattle.text.specs.Output.{room, put};
ghost use Rattle.listings.specs.Listing.{ListedAlone};
ghost use Rattle.dfa.specs.Shelved.{unshelved};
ghost use Rattle.listings.specs.Listed.{sound, shelf_listing, Shelved, listed_answer, listed_bytes};

mod lines;
mod writing;

use alphabets::Alphabet;
use dfa::{DfaRow, Shelf};
use engine::Engine;
use lines::put_listing;
use refusals::{Fault, Refusal};
use rules::Rule;
use writing::Writer;

// Writes the listing of the engine's rows in use, and answers how many bytes it has.
pub fn write_listing<R: Rule, L: Alphabet>(
    engine: &Engine<R, L>,
    dfa: &[DfaRow],
    out: &mut [u8],
) -> Result<usize, Refusal>
    ensures answer { result ≡ listed_answer engine.now.rows (L.Alphabet.letters engine.now.alphabet) dfa.now out.old }
    ensures out { out.new ≡ listed_bytes engine.now.rows (L.Alphabet.letters engine.now.alphabet) dfa.now out.old }
    ensures law { OnOk result (ListedAlone engine.now.rows (L.Alphabet.letters engine.now.alphabet) dfa.now) }
{
    write_rows(engine.rows(), engine.letters(), dfa, out)
}

// The same for a table with this many rows in use and this many letters, whoever built it: numbers, as C and a loader have them.
pub fn write_rows(
    rows: usize,
    letters: u8,
    dfa: &[DfaRow],
    out: &mut [u8],
) -> Result<usize, Refusal>
    ensures answer { result ≡ listed_answer rows letters dfa.now out.old }
    ensures out { out.new ≡ listed_bytes rows letters dfa.now out.old }
    ensures law { OnOk result (ListedAlone rows letters dfa.now) }
{
    write_sound(rows, letters, dfa, out)
}

// The call itself: the conditions are looked for in the order of their numbers.
fn write_sound(rows: usize, letters: u8, dfa: &[DfaRow], out: &mut [u8]) -> Result<usize, Refusal>
    ensures answer { result ≡ listed_answer rows letters dfa.now out.old }
    ensures out { out.new ≡ listed_bytes rows letters dfa.now out.old }
{
    let shelf = shelf_of(rows, letters, dfa)?;
    if !is_sound(&shelf) {
        return Err(Refusal::unplaced(Fault::DamagedTable));
    }
    write_all(&shelf, out).ok_or(Refusal::unplaced(Fault::ListingTooLong))
}

// The rows in use, with what their listing is to that of the table.
fn shelf_of<'a>(rows: usize, letters: u8, dfa: &'a [DfaRow]) -> Result<Shelf<'a>, Refusal>
    ensures { MatchResult result (λ shelf. Shelved rows letters dfa.now shelf) (λ refusal. unshelved rows dfa.now ≡ Some refusal) }
{
    Shelf::new(rows, letters, dfa)
}

// Whether each row has a verdict and leads to rows of the shelf.
fn is_sound(shelf: &Shelf) -> bool
    ensures { result ≡ sound (length shelf.now.rows.now) shelf.now.letters shelf.now.rows.now (length shelf.now.rows.now) }
{
    shelf.rows().iter().all(|row| shelf.verdict(row).is_some())
}

// How many bytes were written; none, and nothing is, where they are too many.
fn write_all(shelf: &Shelf, out: &mut [u8]) -> Option<usize>
    ensures answer { result ≡ room (shelf_listing shelf.now) out.old }
    ensures after { out.new ≡ put (shelf_listing shelf.now) out.old }
{
    let room = out.len();
    put_listing(shelf, &mut Writer::new(room, &mut []))?;
    let mut writer = Writer::new(room, out);
    put_listing(shelf, &mut writer)?;
    Some(writer.len())
}

#[cfg(test)]
mod tests {
    use super::*;
    use alphabets::PlainLetters;
    use register::CrossingTable;
    use rules::DistanceRule;
    use std::test::Fail;

    // The number by which a listing is refused, if it is.
    fn refused(rows: usize, dfa: &[DfaRow], out: &mut [u8]) -> Option<u8> {
        let refusal = write_rows(rows, 1, dfa, out).err()?;
        Some(u8::from(refusal.fault))
    }

    #[test]
    fn a_table_is_listed(rt: HostRuntime) {
        let dfa = [DfaRow::new([1; 16], 3); 2];
        let mut out = [b'.'; 32];
        assert_eq!(rt; write_rows(2, 1, &dfa, &mut out).ok(), Some(30));
        assert!(rt; out == *b"shelf\t2\t1\nrow\t0\t3\t1\nrow\t1\t3\t1\n..");
    }

    #[test]
    fn a_refusal_writes_nothing(rt: HostRuntime) {
        let mut dfa = [DfaRow::new([1; 16], 3); 2];
        let mut out = [b'.'; 29];
        assert_eq!(rt; refused(0, &dfa, &mut out), Some(13));
        assert_eq!(rt; refused(3, &dfa, &mut out), Some(16));
        assert_eq!(rt; refused(1, &dfa, &mut out), Some(16));
        assert_eq!(rt; refused(2, &dfa, &mut out), Some(19));
        dfa[1] = DfaRow::new([1; 16], 4);
        assert_eq!(rt; refused(2, &dfa, &mut out), Some(16));
        assert!(rt; out == [b'.'; 29]);
    }

    #[test]
    fn an_engine_is_listed(rt: HostRuntime) -> Result<(), Fail> {
        let rule = DistanceRule::new(1, 2, 0b10)?;
        let mut engine = Engine::new(rule, PlainLetters::new(2));
        let mut tables = [CrossingTable::new([0; 33]); 4];
        let mut dfa = [DfaRow::blank(); 4];
        assert!(rt; engine.build(&mut tables, &mut dfa).is_ok());
        let mut out = [b'.'; 34];
        assert_eq!(rt; write_listing(&engine, &dfa, &mut out).ok(), Some(34));
        assert!(rt; out == *b"shelf\t2\t2\nrow\t0\t2\t0\t1\nrow\t1\t1\t0\t1\n");
        Ok(())
    }
}
