//! How a run ended.
ghost use Rattle.std.specs.Prelude.{◌≡◌, ◌≤◌, Some};

use crate::failure::Failure;
use crate::printed::Printed;
use rtgs_output::WriterFailed;
use rtgs_refusals::exit_status::{DONE, FAILED, MISUSED};

/// How a run ended, and what became of what it had to say.
#[derive(Debug, Drop)]
pub enum Ended {
    /// It did what it was asked for: what it printed on standard output.
    Printed(Printed),
    /// It was refused, or it failed: why, and whether standard error took the line of that whole.
    Refused(Failure, Result<(), WriterFailed>),
    /// Its words asked for help, or for what refusals mean: whether standard output took that whole.
    Helped(Result<(), WriterFailed>),
    /// Its words are no command line: whether standard error took whole what is wrong with them.
    Misused(Result<(), WriterFailed>),
}

impl Ended {
    ghost use Rattle.rtgs_cli_lines.specs.Texts.{ended_status};
    ghost use Rattle.rtgs_refusals.specs.declared.exit_status.TheConstants.{FAILED};

    /// The exit status of the run: done (0), refused (1), misused (2), or failed (3).
    pub fn exit_status(&self) -> u8
        ensures status { Some result ≡ ended_status self.now }
        ensures most { result ≤ FAILED }
    {
        match self {
            Ended::Printed(printed) => printed.exit_status(),
            Ended::Refused(failure, _) => failure.exit_status(),
            Ended::Helped(Ok(())) => DONE,
            Ended::Helped(Err(_)) => FAILED,
            Ended::Misused(_) => MISUSED,
        }
    }
}
