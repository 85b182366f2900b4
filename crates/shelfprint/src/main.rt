// Reads a sheet from standard input, and prints why its form is refused; nothing where it is good.

#![tactic(auto)]

use sheets::{LONGEST, check_form};
use std::io::Read;

fn main(rt: HostRuntime) -> anyhow::Result<()> {
    let mut sheet = Vec::new(rt.alloc());
    // One byte past the longest sheet shows that it is too long, however much follows.
    rt.stdin().take(LONGEST as u64 + 1).read_to_end(&mut sheet)?;
    if let Err(refusal) = check_form(&sheet) {
        rt.print(refusal.line(rt.alloc())?)?;
    }
    Ok(())
}
