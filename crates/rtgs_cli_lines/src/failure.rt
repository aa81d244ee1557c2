//! Why a run did not do what it was asked for.
ghost use Rattle.std.specs.Prelude.{◌≡◌, ◌⊎◌, ◌+◌, ◌<◌, ◌≤◌, ◌++◌, ◌∷◌, [], Some};
ghost use Rattle.arrayvec.specs.ArrayString.{array_string_len};
ghost use Rattle.rtgs_cli_lines.specs.Failures.{failure_kind_of, failure_entry_of, refusal_detail, fault_detail};
ghost use Rattle.rtgs_cli_lines.specs.Failures.{detail_of, failure_line};
ghost use Rattle.rtgs_cli_lines.specs.SentTo.{IsSentTo};

use crate::line::{LineBuffer, ROOM};
use rtgs_book::{Fault, Refusal};
use rtgs_money::Lexical;
use rtgs_order_files::BatchFault;
use rtgs_output::WriterFailed;
use rtgs_refusals::RefusalKind;
use rtgs_refusals::exit_status::{FAILED, REFUSED};
use std::alloc::AllocError;
use std::fmt;
use std::io::Write;

/// The most bytes that stand behind a refusal's name.
const LONGEST_DETAIL: usize = 40;

/// A run's refusal: its number and name are printed, and its exit status is given.
#[derive(Clone, Copy, Debug, PartialEq, Eq)]
pub enum Failure {
    /// A word is not of its form.
    Form(Lexical),
    /// The desk refused the command.
    Refused(Refusal),
    /// The book could not be read.
    Opening(Fault),
    /// Another run holds the lock of the file, or the lock cannot be made.
    InUse,
    /// A book is made only where there is no file, or an empty one.
    FileExists,
    /// The file of orders is refused.
    Orders(BatchFault),
    /// The file of orders is too long.
    OrdersTooLong,
    /// The file of orders cannot be read.
    NoOrders,
    /// The port cannot be had.
    NoListen,
}

impl Failure {
    /// What it is known by: its number, its name and its statuses.
    pub fn kind(&self) -> RefusalKind
        ensures { result ≡ failure_kind_of self.now }
    {
        match self {
            Failure::Form(form) => form.kind(),
            Failure::Refused(refusal) => refusal.kind(),
            Failure::Opening(fault) => fault.kind(),
            Failure::InUse => RefusalKind::InUse,
            Failure::FileExists => RefusalKind::FileExists,
            Failure::Orders(fault) => fault.kind(),
            Failure::OrdersTooLong => RefusalKind::BodyTooLong,
            Failure::NoOrders => RefusalKind::NoOrderFile,
            Failure::NoListen => RefusalKind::NoListen,
        }
    }

    /// The exit status of the run: refused (1), or failed (3) where what was asked for could not be tried.
    pub fn exit_status(&self) -> u8
        ensures status { Some result ≡ (failure_entry_of self.now).exit_status }
        ensures refused_or_failed { (result ≡ REFUSED) ⊎ (result ≡ FAILED) }
    {
        self.kind().exit_status().unwrap()
    }

    /// Prints the line with its end, in one piece. Where the writer fails, a beginning of it is printed, and not all.
    pub fn print<E: Write>(&self, err: &mut E) -> Result<(), WriterFailed>
        ensures { IsSentTo result (E.contents err.old) (E.contents err.new) (failure_line self.now ++ 10 ∷ []) }
    {
        self.line().send(err)
    }

    // The line, without its end.
    fn line(&self) -> LineBuffer
        ensures text { result.text.bytes ≡ failure_line self.now }
        ensures room { array_string_len result.text < ROOM }
    {
        let kind = self.kind();
        let number = kind.number();
        let head = LineBuffer::of(if number < 10 { "refused 0" } else { "refused " });
        let line = head.number(number).then(" ").then(kind.name());
        line.then(self.detail().as_str())
    }

    // What stands behind the name.
    fn detail(&self) -> LineBuffer
        ensures text { result.text.bytes ≡ detail_of self.now }
        ensures room { array_string_len result.text ≤ LONGEST_DETAIL }
    {
        match *self {
            Failure::Refused(refusal) => refusal_detail(refusal),
            Failure::Opening(fault) => fault_detail(fault),
            Failure::Orders(BatchFault::BadRow { row }) => LineBuffer::of(" ").number(row),
            Failure::Orders(_)
            | Failure::Form(_)
            | Failure::InUse
            | Failure::FileExists
            | Failure::OrdersTooLong
            | Failure::NoOrders
            | Failure::NoListen => LineBuffer::of(""),
        }
    }
}

// What stands behind a refusal's name: of overdrawn participants the first code and the count.
fn refusal_detail(refusal: Refusal) -> LineBuffer
    ensures text { result.text.bytes ≡ refusal_detail refusal }
    ensures room { array_string_len result.text ≤ LONGEST_DETAIL }
{
    match refusal {
        Refusal::Overdrawn { first, count } => {
            LineBuffer::of(" ")
                .then(first.as_str())
                .then(" ")
                .number(count)
        }
        _ => LineBuffer::of(""),
    }
}

// What stands behind a fault's name: of a broken rule its number.
fn fault_detail(fault: Fault) -> LineBuffer
    ensures text { result.text.bytes ≡ fault_detail fault }
    ensures room { array_string_len result.text ≤ LONGEST_DETAIL }
{
    match fault {
        Fault::Inconsistent { rule } => LineBuffer::of(" ").number(rule.number()),
        Fault::OutOfMemory | Fault::StoreFault | Fault::NotADeskFile => LineBuffer::of(""),
    }
}

impl fmt::Display for Failure {
    ghost use Rattle.std.specs.Prelude.{Some};
    ghost use Rattle.rtgs_cli_lines.specs.Failures.{failure_line};

    ghost output = { λ failure. Some (failure_line failure) };

    fn fmt<W: fmt::Write>(&self, f: &mut fmt::Formatter<W>) -> fmt::Result {
        f.write_str(self.line().as_str())
    }
}

impl From<Refusal> for Failure {
    ghost use Rattle.std.specs.Prelude.{◌≡◌};
    ghost use Rattle.rtgs_cli_lines.specs.declared.failure.Failure.TheVariants.{Refused};

    ghost from_gives = { λ refusal failure. failure ≡ Refused refusal };

    fn from(refusal: Refusal) -> Failure {
        Failure::Refused(refusal)
    }
}

impl From<AllocError> for Failure {
    ghost use Rattle.std.specs.Prelude.{◌≡◌};
    ghost use Rattle.rtgs_cli_lines.specs.declared.failure.Failure.TheVariants.{Refused};
    ghost use Rattle.rtgs_book.specs.declared.refusal.Refusal.TheVariants.{OutOfMemory};

    ghost from_gives = { λ _ failure. failure ≡ Refused OutOfMemory };

    fn from(_: AllocError) -> Failure {
        Failure::Refused(Refusal::OutOfMemory)
    }
}
