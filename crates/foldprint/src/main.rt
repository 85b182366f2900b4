// Reads a sheet from standard input, and prints the listing of its one-way table, or the line that tells why it is refused.

#![tactic(auto)]

use dfa::DfaRow;
use folding::fold_sheet;
use loading::LONGEST;
use register::{Blank, CrossingTable};
use std::io;
use std::io::{Read, Write};

// The rows that a table may have, and more bytes than their listing takes: 75 for each row of 16 cells, and its first line.
const PLACES: usize = 256;

const ROOM: usize = 32_768;

// Reads some bytes and lets them go; 0 at the end of the input.
fn skip_some(rt: &HostRuntime) -> io::Result<usize> {
    let mut bytes = [0; 4096];
    rt.stdin().read(&mut bytes)
}

// One byte past the longest sheet shows that it is too long; what follows is let go, so that no writer is cut off.
fn read_input(rt: &HostRuntime) -> anyhow::Result<Vec<u8>> {
    let mut sheet = Vec::new(rt.alloc());
    rt.stdin().take(LONGEST as u64 + 1).read_to_end(&mut sheet)?;
    for _ in 0..u64::MAX {
        if skip_some(rt)? == 0 {
            break;
        }
    }
    Ok(sheet)
}

fn main(rt: HostRuntime) -> anyhow::Result<()> {
    let heap = rt.alloc();
    let sheet = read_input(&rt)?;
    let mut tables = vec![in heap; CrossingTable::blank(); PLACES]?;
    let mut dfa = vec![in heap; DfaRow::blank(); PLACES]?;
    let mut out = vec![in heap; 0; ROOM]?;
    match fold_sheet(&sheet, &mut tables, &mut dfa, &mut out) {
        Ok(length) => {
            out.truncate(length);
            rt.stdout().write_all(&out)?;
        }
        Err(refusal) => rt.print(refusal.line(heap)?)?,
    }
    Ok(())
}
