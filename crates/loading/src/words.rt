// What the fields of a line say.
ghost use Rattle.std.specs.Prelude.{◌≡◌, ◌<◌, ◌≤◌, None, MatchResult};
ghost use Rattle.std.specs.Option.{option_map};
ghost use Rattle.text.specs.Numbers.{number as number_in};
ghost use Rattle.rules.specs.Steps.{direction_number};
ghost use Rattle.spelling.specs.Words.{within, letters_of, column_of, direction_of};

use crate::rows::Row;
use refusals::{Fault, Refusal};
use register::Name;
use rules::Direction;
use text::read_number;

// The number that a text is, if it is from `low` up to, and without, `high`.
fn read_between(text: &[u8], low: u8, high: u8) -> Option<u8>
    ensures { result ≡ within low high (number_in 16 text.now) }
{
    match read_number(text, 16) {
        Some(n) if u32::from(low) <= n && n < u32::from(high) => Some(n as u8),
        _ => None,
    }
}

fn read_letters(text: &[u8]) -> Option<u8>
    ensures { result ≡ letters_of text.now }
{
    read_between(text, 1, 17)
}

fn read_direction(text: &[u8]) -> Option<Direction>
    ensures { option_map direction_number result ≡ direction_of text.now }
{
    match text {
        [b'L'] => Some(Direction::Left),
        [b'R'] => Some(Direction::Right),
        _ => None,
    }
}

// What line 1 says.
#[derive(Clone, Copy)]
pub struct Header {
    pub letters: u8,
    pub start: Name,
    pub accept: Name,
    pub reject: Name,
    ghost few: { letters ≤ 16 },
}

impl Header {
    ghost use Rattle.text.specs.Left.{line_of};
    ghost use Rattle.spelling.specs.Conditions.{first_met, rule_conditions};
    ghost use Rattle.loading.specs.Fields.{Heads};
    ghost use Rattle.loading.specs.Telling.{told_on};

    pub(crate) fn read(row: Row) -> Result<Header, Refusal>
        ensures { MatchResult result (λ x. (first_met (rule_conditions (line_of row.entry.line)) ≡ None) × Heads (line_of row.entry.line) x) (λ e. told_on row.entry.number e (first_met (rule_conditions (line_of row.entry.line)))) }
    {
        let fields = row.fields(b"rule")?;
        let start = row.name(fields.third, 3)?;
        let accept = row.name(fields.fourth, 4)?;
        let reject = row.name(fields.fifth, 5)?;
        let letters = read_letters(fields.second).ok_or(row.refused(Fault::LetterOrColumn, 2))?;
        if accept == reject {
            return Err(row.refused(Fault::SameHalts, 5));
        }
        Ok(Header {
            letters,
            start,
            accept,
            reject,
        })
    }

    // The column that a text names among the letters: the left end comes after them, and then the right end.
    fn column(&self, text: &[u8]) -> Option<u8>
        ensures { result ≡ column_of self.now.letters text.now }
    {
        match text {
            [b'<'] => Some(self.letters),
            [b'>'] => Some(self.letters + 1),
            _ => read_between(text, 0, self.letters),
        }
    }
}

// What a later line says.
#[derive(Clone, Copy)]
pub struct Entry {
    pub state: Name,
    pub column: u8,
    pub next: Name,
    pub direction: Direction,
    ghost low: { column < 18 },
}

impl Entry {
    ghost use Rattle.text.specs.Left.{line_of};
    ghost use Rattle.spelling.specs.Conditions.{first_met, word_conditions};
    ghost use Rattle.loading.specs.Fields.{Says};
    ghost use Rattle.loading.specs.Telling.{told_on};

    pub(crate) fn read(row: Row, header: &Header) -> Result<Entry, Refusal>
        ensures { MatchResult result (λ x. (first_met (word_conditions header.now.letters (line_of row.entry.line)) ≡ None) × Says header.now.letters (line_of row.entry.line) x) (λ e. told_on row.entry.number e (first_met (word_conditions header.now.letters (line_of row.entry.line)))) }
    {
        let fields = row.fields(b"at")?;
        let state = row.name(fields.second, 2)?;
        let next = row.name(fields.fourth, 4)?;
        let column = header
            .column(fields.third)
            .ok_or(row.refused(Fault::LetterOrColumn, 3))?;
        let direction = read_direction(fields.fifth).ok_or(row.refused(Fault::Direction, 5))?;
        Ok(Entry {
            state,
            column,
            next,
            direction,
        })
    }
}
