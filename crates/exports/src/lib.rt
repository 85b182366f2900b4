// The calls for programs in other languages, by what C knows: numbers and slices each for itself, and a code in place of a result.

#![tactic(auto)]

ghost use Rattle.std.specs.Prelude.{◌≡◌, map};
ghost use Rattle.two_way.specs.Verdicts.{number_of};
ghost use Rattle.alphabets.specs.Plain.{letter_count, plain_letter};
ghost use Rattle.dfa.specs.Asked.{asked};
ghost use Rattle.spelling.specs.Reading.{sheet_read};
ghost use Rattle.folding.specs.Folded.{folded};
ghost use Rattle.exports.specs.Codes.{code, place_after, number_after, verdict_after, walk_after, walked_read};

use alphabets::{Alphabet, PlainLetters};
use dfa::{DfaRow, ask};
use engine::{Walked, walk};
use folding::fold_sheet;
use loading::read_sheet;
use refusals::Refusal;
use register::CrossingTable;
use rules::Rule;

// Where in a sheet a refusal is.
#[repr(C)]
#[derive(Clone, Copy)]
pub struct Place {
    pub line: u32,
    pub field: u8,
}

impl From<Refusal> for Place {
    ghost from_gives = { λ refusal place. place ≡ record { line = refusal.line; field = refusal.field } };

    fn from(refusal: Refusal) -> Place {
        Place {
            line: refusal.line,
            field: refusal.field,
        }
    }
}

// What a walk found: the verdict's number and the steps.
#[repr(C)]
#[derive(Clone, Copy)]
pub struct Walk {
    pub verdict: u8,
    pub steps: u32,
}

impl From<Walked> for Walk {
    ghost from_gives = { λ walked walk. walk ≡ record { verdict = number_of walked.verdict; steps = walked.steps } };

    fn from(walked: Walked) -> Walk {
        Walk {
            verdict: u8::from(walked.verdict),
            steps: walked.steps,
        }
    }
}

// Folds a sheet: its listing's length, or the number and the place of the refusal.
#[unsafe(no_mangle)]
pub extern "C" fn cetskvali_fold(
    sheet: &[u8],
    tables: &mut [CrossingTable],
    dfa: &mut [DfaRow],
    out: &mut [u8],
    length: &mut usize,
    place: &mut Place,
) -> u8
    ensures code { result ≡ code (folded (sheet_read sheet.now) (record { tables = tables.old; dfa = dfa.old; out = out.old })).answer }
    ensures left { record { tables = tables.new; dfa = dfa.new; out = out.new } ≡ (folded (sheet_read sheet.now) (record { tables = tables.old; dfa = dfa.old; out = out.old })).left }
    ensures length { length.new ≡ number_after (folded (sheet_read sheet.now) (record { tables = tables.old; dfa = dfa.old; out = out.old })).answer length.old }
    ensures place { place.new ≡ place_after (folded (sheet_read sheet.now) (record { tables = tables.old; dfa = dfa.old; out = out.old })).answer place.old }
{
    match fold_sheet(sheet, tables, dfa, out) {
        Ok(written) => {
            *length = written;
            0
        }
        Err(refusal) => {
            *place = Place::from(refusal);
            u8::from(refusal.fault)
        }
    }
}

// Asks rows over plain letters: the verdict's number, or the refusal's.
#[unsafe(no_mangle)]
pub extern "C" fn cetskvali_ask(
    letters: u8,
    rows: usize,
    dfa: &[DfaRow],
    marks: &[u8],
    verdict: &mut u8,
) -> u8
    ensures code { result ≡ code (asked (letter_count letters) rows dfa.now (map (plain_letter (letter_count letters)) marks.now)) }
    ensures verdict { verdict.new ≡ verdict_after (asked (letter_count letters) rows dfa.now (map (plain_letter (letter_count letters)) marks.now)) verdict.old }
{
    match ask(&PlainLetters::new(letters), rows, dfa, marks) {
        Ok(found) => {
            *verdict = u8::from(found);
            0
        }
        Err(refusal) => u8::from(refusal.fault),
    }
}

// Walks a sheet's rule over plain letters: verdict and steps, or the number and the place of the refusal.
#[unsafe(no_mangle)]
pub extern "C" fn cetskvali_walk(
    sheet: &[u8],
    marks: &[u8],
    walk: &mut Walk,
    place: &mut Place,
) -> u8
    ensures code { result ≡ code (walked_read (sheet_read sheet.now) marks.now) }
    ensures walk { walk.new ≡ walk_after (walked_read (sheet_read sheet.now) marks.now) walk.old }
    ensures place { place.new ≡ place_after (walked_read (sheet_read sheet.now) marks.now) place.old }
{
    match read_and_walk(sheet, marks) {
        Ok(walked) => {
            *walk = Walk::from(walked);
            0
        }
        Err(refusal) => {
            *place = Place::from(refusal);
            u8::from(refusal.fault)
        }
    }
}

fn read_and_walk(sheet: &[u8], marks: &[u8]) -> Result<Walked, Refusal>
    ensures { result ≡ walked_read (sheet_read sheet.now) marks.now }
{
    let rule = read_sheet(sheet)?;
    walk(&rule, &PlainLetters::new(rule.letters()), marks)
}
