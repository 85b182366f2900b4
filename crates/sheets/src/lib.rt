// The form of a sheet: a rule as text, in lines of five fields.

#![tactic(auto)]

ghost use Rattle.std.specs.Prelude.{◌≡◌};
ghost use Rattle.sheets.specs.Form.{form_of, misformed_at};
ghost use Rattle.sheets.specs.WellFormed.{Judged};

mod fields;

pub use fields::{Fields, read_fields};
use refusals::{Fault, Refusal};
use text::Lines;

// The most bytes that a sheet has.
pub const LONGEST: usize = 32_768;

// Whether a sheet has the form of one: a line that begins `rule` and then lines that begin `at`, each of five fields.
#[tactic(auto, using(crate::proofs::Forms::judged))]
pub fn check_form(sheet: &[u8]) -> Result<(), Refusal>
    ensures answer { result ≡ form_of sheet.now }
    ensures law { Judged sheet.now result }
{
    if sheet.len() > LONGEST {
        return Err(Refusal::unplaced(Fault::SheetTooLong));
    }
    let mut lines = Lines::new(sheet);
    let first = lines.next().ok_or(misformed(1))?;
    read_fields(first, b"rule").ok_or(misformed(1))?;
    for (number, line) in (2..).zip(lines) {
        read_fields(line, b"at").ok_or(misformed(number))?;
    }
    Ok(())
}

// The refusal of a line that is not of its form.
pub fn misformed(line: u32) -> Refusal
    ensures { result ≡ misformed_at line }
{
    Refusal {
        fault: Fault::LineForm,
        line,
        field: 0,
    }
}

#[cfg(test)]
mod tests {
    use super::*;

    #[test]
    fn the_first_line_of_another_form_is_told(rt: HostRuntime) {
        let sheets: [(&[u8], u32); 8] = [
            (b"", 1),
            (b"\n", 1),
            (b"rule\t1\tw\tyes\tno", 1),
            (b"at\tw\t<\tw\tR\n", 1),
            (b"rule\t1\tw\tyes\tno\nrule\t1\tw\tyes\tno\n", 2),
            (b"rule\t1\tw\tyes\tno\nat\tw\t<\tw\n", 2),
            (b"rule\t1\tw\tyes\tno\nat\tw\t<\tw\tR\t\n", 2),
            (b"rule\t1\tw\tyes\tno\nat\tw\t<\tw\tR\nat\tw\t<\tw\tR", 3),
        ];
        for (sheet, line) in sheets {
            assert_eq!(rt; check_form(sheet), Err(misformed(line)));
        }
        assert_eq!(rt; check_form(b"rule\t\t\t\t\nat\t\t\t\t\n"), Ok(()));
        let long = Refusal::unplaced(Fault::SheetTooLong);
        assert_eq!(rt; check_form(&[b'\n'; LONGEST + 1]), Err(long));
    }
}
