//! What became of what a run prints.
ghost use Rattle.std.specs.Prelude.{◌≡◌};

use crate::failure::Failure;
use rtgs_book::Refusal;
use rtgs_output::{TextFault, WriterFailed};
use rtgs_refusals::exit_status::{DONE, FAILED};

/// What became of what a run had to print on standard output, where it was not refused.
#[derive(Debug, Drop)]
pub enum Printed {
    /// It was printed whole, and all was done.
    Whole,
    /// The run stopped at this refusal, and what it had to print until then was printed whole: the results of its
    /// batch, or the first line of its server.
    Stopped(Refusal),
    /// Standard output took no more: a beginning was printed, and not all.
    Lost(WriterFailed),
}

impl Printed {
    ghost use Rattle.rtgs_cli_lines.specs.Texts.{printed_of, outcome_of, after_batch, printed_status};

    /// What became of a text that was sent like this.
    pub fn sent(outcome: Result<(), WriterFailed>) -> Printed
        ensures { result ≡ printed_of outcome }
    {
        match outcome {
            Ok(()) => Printed::Whole,
            Err(failed) => Printed::Lost(failed),
        }
    }

    /// What became of a text that was written like this, or the refusal for lack of memory.
    pub fn of(written: Result<(), TextFault>) -> Result<Printed, Failure>
        ensures { result ≡ outcome_of written }
    {
        match written {
            Ok(()) => Ok(Printed::Whole),
            Err(TextFault::OutOfMemory) => Err(Failure::Refused(Refusal::OutOfMemory)),
            Err(TextFault::Write(failed)) => Ok(Printed::Lost(failed)),
        }
    }

    /// How a run ends that printed this of a batch: as its text, or stopped where the batch stopped.
    pub fn after_batch(self, stopped: Option<Refusal>) -> Printed
        ensures { result ≡ after_batch self stopped }
    {
        match (self, stopped) {
            (Printed::Whole, Some(refusal)) => Printed::Stopped(refusal),
            (printed, _) => printed,
        }
    }

    /// The exit status of the run: done (0) where all was done and printed whole, and failed (3) where the batch
    /// stopped, or standard output took no more.
    pub fn exit_status(&self) -> u8
        ensures { result ≡ printed_status self.now }
    {
        match self {
            Printed::Whole => DONE,
            Printed::Stopped(_) | Printed::Lost(_) => FAILED,
        }
    }
}
