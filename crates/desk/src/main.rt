//! The program `desk`: one run over its own words and streams.
#![tactic(auto)]

use rtgs_cli::run_words;
use rtgs_cli_lines::Failure;
use rtgs_refusals::exit_status::MISUSED;
use sqlite::Unknown;
use std::alloc::{AllocError, Global};
use std::env::{self, Args};
use std::io::{ErrorKind, Write};
use std::process::ExitCode;

/// The words after the program's name.
fn words_of(alloc: Global, given: &[String]) -> Result<Vec<&str>, AllocError> {
    given
        .iter()
        .skip(1)
        .map(|word| word.as_str())
        .collect(alloc)
}

/// One run over the words that were given, and its exit status.
fn run(rt: &HostRuntime, args: Args<Global>) -> Result<u8, AllocError> {
    let given = args.collect::<Vec<String>>(rt.alloc())?;
    let words = words_of(rt.alloc(), given.as_slice())?;
    let mut out = rt.stdout();
    let mut err = rt.stderr();
    let (ended, _) = run_words(rt, words.as_slice(), Unknown, &mut out, &mut err);
    Ok(ended.exit_status())
}

fn main(rt: HostRuntime) -> ExitCode {
    let ended = match env::args(&rt) {
        Ok(args) => run(&rt, args),
        Err(error) if error.kind() == ErrorKind::OutOfMemory => Err(AllocError),
        Err(_) => {
            let _ = rt.stderr().write_all(b"error: a word is not UTF-8\n");
            Ok(MISUSED)
        }
    };
    let status = match ended {
        Ok(status) => status,
        Err(error) => {
            let failure = Failure::from(error);
            let _ = failure.print(&mut rt.stderr());
            failure.exit_status()
        }
    };
    ExitCode::from(status)
}
