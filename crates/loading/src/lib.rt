// Sheets: rules as text.

#![tactic(auto)]

ghost use Rattle.std.specs.Prelude.{◌≡◌};
ghost use Rattle.spelling.specs.Reading.{sheet_read};
ghost use Rattle.spelling.specs.Judged.{FirstMet, Spelled};
ghost use Rattle.loading.specs.Telling.{told};

mod draft;
mod rows;
mod states;
mod steps;
mod words;

use draft::Draft;
use refusals::{Fault, Refusal};
use register::{Blank, Name};
use rows::Row;
use rules::StoredRule;
pub use sheets::LONGEST;
use sheets::misformed;
use states::States;
use text::Lines;
use words::{Entry, Header};

// The rule that a sheet spells, or the first condition by which it is refused.
pub fn read_sheet(sheet: &[u8]) -> Result<StoredRule, Refusal>
    ensures answer { told result ≡ sheet_read sheet.now }
    ensures spelled { Spelled sheet.now (told result) }
    ensures first { FirstMet sheet.now (told result) }
{
    read(sheet)
}

// The same by its definition alone, with no written proof: a planted bug is refused here, at the code.
fn read(sheet: &[u8]) -> Result<StoredRule, Refusal>
    ensures { told result ≡ sheet_read sheet.now }
{
    load(sheet)
}

// Line by line.
fn load(sheet: &[u8]) -> Result<StoredRule, Refusal>
    ensures { told result ≡ sheet_read sheet.now }
{
    if sheet.len() > LONGEST {
        return Err(Refusal::unplaced(Fault::SheetTooLong));
    }
    let mut lines = Lines::new(sheet);
    let line = lines.next().ok_or(misformed(1))?;
    let header = Header::read(Row { number: 1, line })?;
    let mut places = [Name::blank(); 32];
    let mut draft = Draft::new(header, States::new(&mut places));
    for (number, line) in (2..).zip(lines) {
        let row = Row { number, line };
        let entry = Entry::read(row, &draft.header)?;
        draft.enter(row, entry)?;
    }
    draft.finish()
}

#[cfg(test)]
mod tests {
    use super::*;
    use rules::{Direction, Move, Rule};
    use std::test::Fail;

    // The number of the condition, its line and its field; none where the sheet is taken.
    fn refusal(sheet: &[u8]) -> Option<(u8, u32, u8)> {
        let refusal = read_sheet(sheet).err()?;
        Some((u8::from(refusal.fault), refusal.line, refusal.field))
    }

    #[test]
    fn a_sheet_spells_a_rule(rt: HostRuntime) -> Result<(), Fail> {
        let sheet = b"rule\t1\tw\tyes\tno\nat\tw\t<\tw\tR\nat\tw\t0\tw\tL\nat\tw\t>\tw\tL\n";
        let rule = read_sheet(sheet)?;
        assert_eq!(rt; (rule.states(), rule.letters()), (3, 1));
        assert_eq!(rt; (rule.start(), rule.accept(), rule.reject()), (0, 1, 2));
        let step = |to, direction| Some(Move { to, direction });
        assert_eq!(rt; rule.next(0, 0), step(0, Direction::Left));
        assert_eq!(rt; rule.next(0, 1), step(0, Direction::Right));
        assert_eq!(rt; rule.next(2, 2), step(2, Direction::Left));
        assert_eq!(rt; refusal(b"rule\t16\tyes\tyes\tno\n"), None);
        Ok(())
    }

    #[test]
    fn line_1_is_refused(rt: HostRuntime) {
        let sheets: [(&[u8], (u8, u32, u8)); 10] = [
            (b"", (2, 1, 0)),
            (b"rule\t1\tw\tyes\tno", (2, 1, 0)),
            (b"rule\t1\tw\tyes\tno\t\n", (2, 1, 0)),
            (b"rule\t1\tabcdefghijklmnopq\tyes\tno\n", (3, 1, 3)),
            (b"rule\t0\tw\t\tno\n", (3, 1, 4)),
            (b"rule\t07\tw\tno\tno\n", (4, 1, 2)),
            (b"rule\t+1\tw\tyes\tno\n", (4, 1, 2)),
            (b"rule\t17\tw\tyes\tno\n", (4, 1, 2)),
            (b"rule\t1\tw\tno\tno\n", (6, 1, 5)),
            (b"rule\t1\tw\tyes\tno\n", (11, 2, 0)),
        ];
        for (sheet, told) in sheets {
            assert_eq!(rt; refusal(sheet), Some(told));
        }
        assert_eq!(rt; refusal(&[b'\n'; LONGEST + 1]), Some((1, 0, 0)));
    }

    #[test]
    fn a_later_line_is_refused(rt: HostRuntime) {
        let sheets: [(&[u8], (u8, u32, u8)); 10] = [
            (b"rule\t1\tw\tyes\tno\nat\tw\t<\tw\n", (2, 2, 0)),
            (b"rule\t1\tw\tyes\tno\nat\tw\t9\t\tX\n", (3, 2, 4)),
            (b"rule\t1\tw\tyes\tno\nat\tw\t07\tw\tX\n", (4, 2, 3)),
            (b"rule\t1\tw\tyes\tno\nat\tw\t\tw\tL\n", (4, 2, 3)),
            (b"rule\t16\tw\tyes\tno\nat\tw\t16\tw\tL\n", (4, 2, 3)),
            (b"rule\t16\tw\tyes\tno\nat\tw\t15\tw\tl\n", (5, 2, 5)),
            (b"rule\t1\tw\tyes\tno\nat\tyes\t<\tw\tL\n", (7, 2, 2)),
            (
                b"rule\t1\tw\tyes\tno\nat\tw\t<\tw\tR\nat\tw\t<\tw\tL\n",
                (9, 3, 5),
            ),
            (
                b"rule\t1\tw\tyes\tno\nat\tw\t0\tw\tR\nat\tw\t0\tv\tL\n",
                (10, 3, 3),
            ),
            (b"rule\t1\tw\tyes\tno\nat\tw\t<\tv\tR\n", (11, 3, 0)),
        ];
        for (sheet, told) in sheets {
            assert_eq!(rt; refusal(sheet), Some(told));
        }
    }

    #[test]
    fn a_name_too_many_is_refused(rt: HostRuntime) -> Result<(), Fail> {
        let mut sheet = Vec::new(rt.alloc());
        sheet.extend_from_slice(b"rule\t1\tw\tyes\tno\n")?;
        for b in b'A'..=b'N' {
            sheet.extend_from_slice(&[b'a', b't', b'\t', b, b'\t', b'<', b'\t', b + 32])?;
            sheet.extend_from_slice(b"\tR\n")?;
        }
        let names = sheet.len();
        sheet.extend_from_slice(b"at\to\t<\tp\tR\n")?;
        assert_eq!(rt; refusal(&sheet), Some((8, 16, 4)));
        sheet.truncate(names);
        sheet.extend_from_slice(b"at\to\t<\to\tR\nat\tp\t<\tw\tR\n")?;
        assert_eq!(rt; refusal(&sheet), Some((8, 17, 2)));
        sheet.truncate(names);
        sheet.extend_from_slice(b"at\to\t<\to\tR\nat\tyes\t<\tp\tR\n")?;
        assert_eq!(rt; refusal(&sheet), Some((7, 17, 2)));
        Ok(())
    }
}
