#![tactic(auto)]
//! Resolves cascades of growing size, and judges the longest heads and bodies that a request may have, given in one
//! piece and byte by byte. It prints the steps that a resolution takes and how long a head or a body is, which are the
//! same in every run, and with the argument `times` the shortest of many times too.
mod bodies;
mod heads;
mod resolver;

use anyhow::Result;
use std::env;

fn main(rt: HostRuntime) -> Result<()> {
    let timed = env::args(&rt)?.any(|word| word.as_str() == "times");
    for each in [50, 100, 250, 500] {
        resolver::measure(&rt, each, timed)?;
    }
    for length in [2048, 4096, 8192] {
        heads::measure(&rt, length, timed)?;
    }
    for length in [16384, 32768, 65536] {
        bodies::measure(&rt, length, timed)?;
    }
    for rows in [125, 250, 500] {
        bodies::measure_rows(&rt, rows, timed)?;
    }
    Ok(())
}
