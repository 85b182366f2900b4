// Folds the sheets that its arguments name, without their ending, and compares each with the listing beside it.

#![tactic(auto)]

use dfa::DfaRow;
use folding::fold_sheet;
use register::{Blank, CrossingTable};
use std::alloc::{AllocError, Global};
use std::{env, fs};

const PLACES: usize = 4096;

const ROOM: usize = 1_048_576;

// The listing of a sheet, or the line that tells why it is refused.
fn folded(heap: Global, sheet: &[u8]) -> Result<Vec<u8>, AllocError> {
    let mut tables = vec![in heap; CrossingTable::blank(); PLACES]?;
    let mut dfa = vec![in heap; DfaRow::blank(); PLACES]?;
    let mut out = vec![in heap; 0; ROOM]?;
    match fold_sheet(sheet, &mut tables, &mut dfa, &mut out) {
        Ok(length) => {
            out.truncate(length);
            Ok(out)
        }
        Err(refusal) => refusal.line(heap)?.as_bytes().to_vec(heap),
    }
}

fn compare(rt: &HostRuntime, stem: &str) -> anyhow::Result<()> {
    let heap = rt.alloc();
    let sheet = fs::read(rt, format!(in heap; "{stem}.sheet")?)?;
    let listing = fs::read(rt, format!(in heap; "{stem}.listing")?)?;
    let same = folded(heap, &sheet)?.as_slice() == listing.as_slice();
    let told = if same { "same" } else { "other" };
    println!(rt; "{stem}\t{told}")?;
    Ok(())
}

fn main(rt: HostRuntime) -> anyhow::Result<()> {
    for stem in env::args(&rt)?.skip(1) {
        compare(&rt, stem.as_str())?;
    }
    Ok(())
}
