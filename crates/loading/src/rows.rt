// A line of a sheet with its number, and what is read of it.
ghost use Rattle.std.specs.Prelude.{◌≡◌, true, false, MatchResult};
ghost use Rattle.text.specs.Parts.{parts, tab};
ghost use Rattle.text.specs.Left.{line_of};
ghost use Rattle.refusals.specs.declared.fault.Fault.TheVariants.{LineForm, NameLength};
ghost use Rattle.register.specs.Names.{as_name};
ghost use Rattle.sheets.specs.Fields.{all_fields};
ghost use Rattle.sheets.specs.Form.{formed, refusal_at};
ghost use Rattle.spelling.specs.Words.{is_name};

use refusals::{Fault, Refusal};
use register::Name;
use sheets::{Fields, read_fields};
use text::Line;

// Its number is counted from 1.
#[derive(Clone, Copy)]
pub struct Row<'a> {
    pub number: u32,
    pub line: Line<'a>,
}

impl<'a> Row<'a> {
    // The refusal of the row by one of its fields, or by 0 as a whole.
    pub(crate) fn refused(&self, fault: Fault, field: u8) -> Refusal
        ensures { result ≡ refusal_at fault self.now.number field }
    {
        Refusal {
            fault,
            line: self.number,
            field,
        }
    }

    // The five fields of a row that begins with the word.
    pub(crate) fn fields(&self, word: &[u8]) -> Result<Fields<'a>, Refusal>
        ensures { MatchResult result (λ x. (formed word.now (line_of self.now.line) ≡ true) × (parts tab self.now.line.text.now ≡ all_fields word.now x)) (λ e. (formed word.now (line_of self.now.line) ≡ false) × (e ≡ refusal_at LineForm self.now.number 0)) }
    {
        read_fields(self.line, word).ok_or(self.refused(Fault::LineForm, 0))
    }

    // The name that a field of the row is.
    pub(crate) fn name(&self, text: &[u8], field: u8) -> Result<Name, Refusal>
        ensures { MatchResult result (λ x. (is_name text.now ≡ true) × (x ≡ as_name text.now)) (λ e. (is_name text.now ≡ false) × (e ≡ refusal_at NameLength self.now.number field)) }
    {
        Name::new(text).ok_or(self.refused(Fault::NameLength, field))
    }
}
