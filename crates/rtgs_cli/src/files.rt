//! What a run did with the book's file: how the book is closed, what the run touched and used, and how it is reported
//! that the file was refused.
ghost use Rattle.std.specs.Prelude.{◌≡◌, ℕ, List, Ok, Err, IfOk, IfErr, string_bytes};
ghost use Rattle.rtgs_book_file.specs.LockName.{lock_name};
ghost use Rattle.rtgs_cli.specs.files.Touching.{failure_of_file};

mod touched;
mod used;

pub use crate::files::touched::Touched;
pub use crate::files::used::Used;
use rtgs_book_file::{BookFile, FileFault, FinishedBook};
use rtgs_cli_lines::{Failure, Printed};

/// What was done with the book in a file, and the book as it was left; or why no desk was opened over the file.
pub type Finished<B, T> = Result<
    (FinishedBook<<B as BookFile>::Kept>, T),
    <B as BookFile>::Refused,
>;

/// The same, once the book was closed and released.
pub type Closed<B, T> = Result<(<B as BookFile>::Released, T), <B as BookFile>::Refused>;

/// What a run touched of a book's file `B`, where it met `M` beside it.
pub type Traces<B, M> = Touched<B, <B as BookFile>::Refused, <B as BookFile>::Released, M>;

/// What a run printed, or why it was refused, and what it touched of the file.
pub type Acted<B, M> = (Result<Printed, Failure>, Traces<B, M>);

/// Closes the book with which something was done, releases it, and gives what that was.
pub fn close_book<B: BookFile, T>(finished: Finished<B, T>) -> Closed<B, T>
    ensures done { IfOk result (λ (closed, done). (book : _) × (finished ≡ Ok (book, done))
        × B.facts.was_closed book.desk.keeper closed
        × ((path : List ℕ) → string_bytes book.lock.locked.name ≡ lock_name path → B.facts.closed_at path closed)) }
    ensures unopened { IfErr result (λ unopened. finished ≡ Err unopened) }
{
    match finished {
        Ok((book, done)) => Ok((B::close(book), done)),
        Err(unopened) => Err(unopened),
    }
}

/// How a run ends whose file was refused: with what refused it, and the file.
pub fn refused<B: BookFile, M>(file: B::Refused) -> Acted<B, M>
    ensures { result ≡ (Err (failure_of_file (B.facts.fault_of file)), Touched.Refused file) }
{
    let failure = failure_of(B::fault(&file));
    (Err(failure), Touched::Refused(file))
}

// The failure that a fault of a book's file is reported as.
fn failure_of(fault: FileFault) -> Failure
    ensures { result ≡ failure_of_file fault }
{
    match fault {
        FileFault::InUse => Failure::InUse,
        FileFault::FileExists => Failure::FileExists,
        FileFault::Book(fault) => Failure::Opening(fault),
    }
}
