// Worked samples, made on the library's own calls.
use crate::comparing::Memory;
use crate::simulation::Ending;
use alphabets::{Alphabet, PlainLetters};
use dfa::DfaRow;
use engine::Engine;
use folding::fold_sheet;
use loading::read_sheet;
use refusals::{Fault, Refusal};
use rules::{DistanceRule, PairRule, Rule};
use std::alloc::{AllocError, Global};

const RESTLESS: &[u8] = b"rule\t1\tw\tyes\tno\nat\tw\t<\tw\tR\nat\tw\t0\tw\tL\nat\tw\t>\tw\tL\n";

const RESTLESS_LISTING: &[u8] = b"shelf\t2\t1\nrow\t0\t3\t1\nrow\t1\t3\t1\n";

const CONTENT: &[u8] = b"rule\t1\tw\tw\tno\n";

// Whether a walk has this verdict and this count.
fn walks<R: Rule + Drop>(rule: R, word: &[u8], verdict: Ending, steps: u32) -> bool {
    let letters = PlainLetters::new(rule.letters());
    Engine::new(rule, letters).walk(word).is_ok_and(|walked| u8::from(walked.verdict)
        == verdict as u8
        && walked.steps == steps)
}

// Whether a build with that many places has so many rows, and these first: two cells and the verdict.
fn builds<R: Rule + Drop>(
    heap: Global,
    rule: R,
    places: usize,
    rows: usize,
    first: &[(u16, u16, Ending)],
) -> Result<bool, AllocError> {
    let letters = PlainLetters::new(rule.letters());
    let mut memory = Memory::new(heap, places)?;
    let built = Engine::new(rule, letters).build(&mut memory.tables, &mut memory.dfa);
    Ok(built.ok() == Some(rows) && rows_are(&memory.dfa, first))
}

fn rows_are(dfa: &[DfaRow], expected: &[(u16, u16, Ending)]) -> bool {
    dfa.iter().zip(expected).all(|(row, (first, second, verdict))| {
        row.cell(0) == *first && row.cell(1) == *second && row.verdict() == *verdict as u8
    })
}

// Whether a build is refused for want of places.
fn overflows<R: Rule + Drop>(heap: Global, rule: R, places: usize) -> Result<bool, AllocError> {
    let letters = PlainLetters::new(rule.letters());
    let mut memory = Memory::new(heap, places)?;
    let built = Engine::new(rule, letters).build(&mut memory.tables, &mut memory.dfa);
    Ok(built == Err(Refusal::unplaced(Fault::TooFewPlaces)))
}

// Whether the listing of a sheet is this text.
fn lists(heap: Global, sheet: &[u8], listing: &[u8]) -> Result<bool, AllocError> {
    let mut memory = Memory::new(heap, 256)?;
    let mut out = vec![in heap; 0; 1024]?;
    let folded = fold_sheet(sheet, &mut memory.tables, &mut memory.dfa, &mut out);
    Ok(folded.is_ok_and(|length| out.get(..length) == Some(listing)))
}

// A rule that looks so many marks back, of 2 letters, for the letter 0.
fn back(distance: u8) -> Result<DistanceRule, Refusal> {
    DistanceRule::new(distance, 2, 1)
}

fn of_distance(heap: Global) -> anyhow::Result<bool> {
    let one = [(1, 0, Ending::Rejects), (1, 0, Ending::Accepts)];
    let two = [
        (1, 0, Ending::Rejects),
        (2, 3, Ending::Rejects),
        (2, 3, Ending::Accepts),
        (1, 0, Ending::Accepts),
    ];
    Ok(
        builds(heap, back(1)?, 16, 2, &one)?
            && builds(heap, back(2)?, 4, 4, &two)?
            && overflows(heap, back(2)?, 3)?
            && walks(back(1)?, &[0], Ending::Accepts, 4)
            && walks(back(1)?, &[], Ending::Rejects, 3),
    )
}

fn of_sheets(heap: Global) -> anyhow::Result<bool> {
    let restless = read_sheet(RESTLESS)?;
    let content = read_sheet(CONTENT)?;
    Ok(
        lists(heap, RESTLESS, RESTLESS_LISTING)?
            && walks(restless, &[], Ending::Loops, 2)
            && walks(restless, &[0], Ending::Loops, 3)
            && builds(heap, content, 16, 1, &[(0, 0, Ending::Accepts)])?
            && walks(content, &[], Ending::Accepts, 0),
    )
}

fn of_pairs() -> anyhow::Result<bool> {
    let misfit = PairRule::new(back(13)?, back(14)?);
    let fit = PairRule::new(back(13)?, back(13)?);
    let twice = PairRule::new(back(1)?, back(1)?);
    Ok(
        walks(twice, &[0], Ending::Accepts, 10)
            && fit.check() == Ok(())
            && misfit.check() == Err(Refusal::unplaced(Fault::PairMisfit)),
    )
}

// Twelve marks back need all the rows that there can be.
fn of_capacity(heap: Global) -> anyhow::Result<bool> {
    Ok(builds(heap, back(12)?, 4096, 4096, &[])? && overflows(heap, back(13)?, 4096)?)
}

pub(crate) fn all_hold(heap: Global) -> anyhow::Result<bool> {
    Ok(of_distance(heap)? && of_sheets(heap)? && of_pairs()? && of_capacity(heap)?)
}
