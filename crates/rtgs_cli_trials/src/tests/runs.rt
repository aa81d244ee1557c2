//! Whole runs of the program.
use super::paper::Paper;
use rtgs_book::Refusal;
use rtgs_cli::run_words;
use rtgs_cli_lines::{Ended, Printed};
use sqlite::Unknown;
use std::io::Write;

/// What a run printed, and how it ended.
#[derive(Drop)]
pub struct Outcome {
    pub out: Paper,
    pub err: Paper,
    pub status: u8,
    pub end: &'static str,
}

/// The first of two values, of which the other is let go. A function that takes a pair apart names the types of both in
/// its proof, and this one names none.
fn first<A, B: Drop>(both: (A, B)) -> A {
    let (first, _second) = both;
    first
}

/// Runs the program with these words, and tells how it ended. Only this function calls it, since each proof of a call
/// takes in all that the contract of a run says.
pub fn ending<O: Write, E: Write>(
    rt: &HostRuntime,
    words: &[&str],
    out: &mut O,
    err: &mut E,
) -> Ended {
    first(run_words(rt, words, Unknown, out, err))
}

/// How a run ended, in a word. None stands for a text that was printed whole, and for a refusal.
pub fn end_of(ended: &Ended) -> &'static str {
    match ended {
        Ended::Helped(Ok(())) => "helped",
        Ended::Helped(Err(_)) => "unheard",
        Ended::Misused(Ok(())) => "misused",
        Ended::Misused(Err(_)) => "unheard",
        Ended::Printed(Printed::Lost(_)) => "lost",
        Ended::Printed(Printed::Stopped(Refusal::StoreFault)) => "stopped",
        Ended::Printed(Printed::Stopped(_)) => "stopped otherwise",
        Ended::Printed(Printed::Whole) => "",
        Ended::Refused(_, _) => "",
    }
}

/// Runs the program with these words, where standard output and standard error take these numbers of bytes.
pub fn run(rt: &HostRuntime, words: &[&str], out_room: usize, err_room: usize) -> Outcome {
    let mut out = Paper::new(rt.alloc(), out_room);
    let mut err = Paper::new(rt.alloc(), err_room);
    let ended = ending(rt, words, &mut out, &mut err);
    let (status, end) = (ended.exit_status(), end_of(&ended));
    Outcome {
        out,
        err,
        status,
        end,
    }
}
