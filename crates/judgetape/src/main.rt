#![tactic(auto)]

use std::io::{Read, Write};
use tape::{LONGEST_TAPE, play_all};

/// Reads a tape from standard input, plays it, and writes its lines.
fn main(rt: HostRuntime) -> anyhow::Result<()> {
    let mut tape = Vec::new(rt.alloc());
    // By `as`: `u64` has no `From<usize>`.
    rt.stdin().take(LONGEST_TAPE as u64).read_to_end(&mut tape)?;
    let lines = play_all(rt.alloc(), &tape)?;
    rt.stdout().write_all(&lines)?;
    Ok(())
}
