// The fields of a line.
ghost use Rattle.std.specs.Prelude.{◌≡◌, true, false, MatchOption};
ghost use Rattle.text.specs.Parts.{parts, tab};
ghost use Rattle.text.specs.Left.{line_of};
ghost use Rattle.sheets.specs.Form.{formed};
ghost use Rattle.sheets.specs.Fields.{all_fields};

use text::{Line, fields};

// The fields of a line after its first.
#[derive(Clone, Copy)]
pub struct Fields<'a> {
    pub second: &'a [u8],
    pub third: &'a [u8],
    pub fourth: &'a [u8],
    pub fifth: &'a [u8],
}

// The fields of a line that is ended and has five, the first of them the word.
pub fn read_fields<'a>(line: Line<'a>, word: &[u8]) -> Option<Fields<'a>>
    ensures { MatchOption result (formed word.now (line_of line.entry) ≡ false) (λ x. (formed word.now (line_of line.entry) ≡ true) × (parts tab line.entry.text.now ≡ all_fields word.now x)) }
{
    let mut fields = fields(line.text);
    let first = fields.next()?;
    let second = fields.next()?;
    let third = fields.next()?;
    let fourth = fields.next()?;
    let fifth = fields.next()?;
    if fields.next().is_some() || !line.ended || first != word {
        return None;
    }
    Some(Fields {
        second,
        third,
        fourth,
        fifth,
    })
}
