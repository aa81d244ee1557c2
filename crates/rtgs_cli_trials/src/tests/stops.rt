//! A batch that stops in a whole run, since no file may grow any more.
use super::imports::DAY;
use super::runs::run;
use super::script::follows;
use std::fmt::Write;
use std::process::Command;
use std::test::Fail;
use std::{env, fs};

/// Set where the test of a run under a limit was started by the other one.
const UNDER_A_LIMIT: &str = "DESK_UNDER_A_LIMIT";

/// Writes past half a mebibyte of a file fail (past one, where the shell's block is no 512 bytes), and do not end the
/// program. The store takes room for its log by a quarter of one.
const LIMITED: &str = "trap '' XFSZ; ulimit -f 1024; exec \"$0\" tests::stops::run_under_a_limit";

/// The import stops by a fault of the store: the first order settled, and the last one was stopped.
fn stops(rt: &HostRuntime) -> Result<(), Fail> {
    let words = ["import", "stopping", "ALFA", "stopping.csv"];
    let run = run(rt, &words, usize::MAX, usize::MAX);
    let text = std::str::from_utf8(run.out.bytes())?;
    let is_stopped = run.status == 3 && run.end == "stopped" && run.err.bytes().is_empty();
    let has_begun = text.starts_with("reference,result,number,detail\nA-1,settled,1,1\n");
    if is_stopped && has_begun && text.ends_with(",stopped,,91\n") {
        return Ok(());
    }
    Err(Fail::new(format_args!("{}: {text:?}", run.status)))
}

#[test]
fn run_under_a_limit(rt: HostRuntime) -> Result<(), Fail> {
    if env::var(&rt, UNDER_A_LIMIT).is_err() {
        return Ok(());
    }
    stops(&rt)
}

/// Four hundred orders of one cent each, as a file: with what they write, a log is longer than the limit by far.
fn write_orders(rt: &HostRuntime) -> Result<(), Fail> {
    let mut orders = String::from_str(rt.alloc(), "reference,to,amount\n")?;
    for number in 1..=400u32 {
        writeln!(orders, "A-{number},BETA,1")?;
    }
    Ok(fs::write(rt, "stopping.csv", orders.as_str())?)
}

/// The other test in a process of its own, under the limit.
fn limited(rt: &HostRuntime) -> Result<Command, Fail> {
    let mut program = Command::new(rt.alloc(), "sh")?;
    program.arg("-c")?;
    program.arg(LIMITED)?;
    program.arg(env::current_exe(rt)?)?;
    program.env(UNDER_A_LIMIT, "1")?;
    Ok(program)
}

/// Runs the other test under the limit. It succeeds.
fn runs_under_a_limit(rt: &HostRuntime) -> Result<(), Fail> {
    let ran = limited(rt)?.output(rt)?;
    if ran.status.success() {
        return Ok(());
    }
    let said = std::str::from_utf8(ran.stderr.as_slice());
    Err(Fail::new(format_args!("{said:?}")))
}

/// With what a day begins with, as much as the orders need.
const FUNDS: &str = "
$ desk post @ ALFA P-2 250
> posted 2
";

/// The import again takes the orders that it stopped before, and repeats the others.
const GOES_ON: &str = "
$ names import @ ALFA stopping.csv
= A-1,repeated,1,settled
= A-400,settled,400,400
";

#[test]
fn a_batch_that_stops_ends_its_run_with_3(rt: HostRuntime) -> Result<(), Fail> {
    follows(&rt, "stopping", DAY)?;
    follows(&rt, "stopping", FUNDS)?;
    write_orders(&rt)?;
    runs_under_a_limit(&rt)?;
    follows(&rt, "stopping", GOES_ON)
}
