//! The run that submits a file of orders to the desk over the file of a book, and prints their results. Where it is
//! refused, nothing is printed.
ghost use Rattle.std.specs.Prelude.{◌≡◌, ◌⊎◌, length, Ok, Err, IfOk, IfErr, OnErr, string_bytes};
ghost use Rattle.rtgs_book_file.specs.LockName.{lock_name};
ghost use Rattle.rtgs_book_file.specs.OverFile.{over};
ghost use Rattle.rtgs_book.specs.declared.book.Book.{Book};
ghost use Rattle.rtgs_desk.specs.Holding.{Holds};
ghost use Rattle.rtgs_desk.specs.batches.Batches.{StopsAfter};
ghost use Rattle.rtgs_order_files.specs.Results.{results_text};
ghost use Rattle.rtgs_book.specs.declared.refusal.Refusal.{Refusal};
ghost use Rattle.rtgs_cli_lines.specs.Texts.{Prints};
ghost use Rattle.rtgs_cli.specs.files.Done.{IsIdle};
ghost use Rattle.rtgs_cli.specs.files.Printing.{PrintsText};
ghost use Rattle.rtgs_cli.specs.files.Touching.{IsOf};
ghost use Rattle.rtgs_cli.specs.imports.Causes.{AreRowsOf, RefusesRows};
ghost use Rattle.rtgs_cli.specs.imports.Imports.{HasSent, IsNotImported, IsSent, SentOver};

mod batches;
mod order_file;

use crate::files::{Acted, Finished, Touched, Used, close_book, refused};
use crate::imports::batches::{print_results, submit_orders};
pub use crate::imports::order_file::{OrderFile, read_bytes};
use rtgs_book::NewOrder;
use rtgs_book_file::BookFile;
use rtgs_cli_lines::{Failure, Printed};
use rtgs_desk::Desk;
use rtgs_keeper::Keeper;
use rtgs_money::Code;
use rtgs_order_files::BatchResult;
use std::alloc::Global;
use std::io::Write;
use std::snapshot::Snapshot;

// The rows of a file of orders with their results, or why they were not submitted.
type Sent = Result<(Vec<NewOrder>, BatchResult), Failure>;

/// Submits a participant's file of orders to the desk over a file, and prints the results. A batch that stopped ends
/// the run as stopped. Where memory runs out for the results, the orders stand, and nothing is printed.
pub fn import<B: BookFile, O: Write, P, N>(
    rt: &HostRuntime,
    file: &str,
    sender: Code,
    orders: &str,
    start: B,
    out: &mut O,
) -> Acted<B, Used<Snapshot<OrderFile>, P, N>>
    ensures printed { IfOk result.0 (λ printed. PrintsText
        (HasSent (over ⟦<B::Kept as Keeper>⟧ B.facts) sender result.1) printed
        (O.contents out.old) (O.contents out.new)) }
    ensures refused { IfErr result.0 (IsNotImported (over ⟦<B::Kept as Keeper>⟧ B.facts) sender result.1) }
    ensures unchanged { OnErr result.0 (out.new ≡ out.old) }
    ensures at { IsOf (over ⟦<B::Kept as Keeper>⟧ B.facts) file.now result.1 }
{
    match close_book::<B, _>(send(rt, file, sender, orders, start)) {
        Ok((closed, done)) => {
            let (sent, read) = done;
            (
                print_sent(rt, sent, out),
                Touched::Book(closed, Used::Orders(read)),
            )
        }
        Err(unopened) => refused(unopened),
    }
}

// Opens the book in a file, and submits a participant's file of orders to its desk, as it was read.
fn send<B: BookFile>(
    rt: &HostRuntime,
    file: &str,
    sender: Code,
    orders: &str,
    start: B,
) -> Finished<B, (Sent, Snapshot<OrderFile>)>
    ensures rows { IfOk result (λ (_, done). IfOk done.0 (λ (rows, batch).
        AreRowsOf (λ bytes. bytes.items) done.1.value.answer rows.items)) }
    ensures stopped { IfOk result (λ (_, done). IfOk done.0 (λ (rows, batch).
        StopsAfter (length batch.replies.items) (length rows.items) batch.stopped)) }
    ensures sent { IfOk result (λ (book, done). IfOk done.0 (λ (rows, batch). IsSent
        (over ⟦<B::Kept as Keeper>⟧ B.facts) sender rows.items batch.replies.items batch.stopped book.desk)) }
    ensures refused { IfOk result (λ (book, done). IfErr done.0 (λ why.
        RefusesRows (λ bytes. bytes.items) done.1.value.answer why
        × IsIdle (over ⟦<B::Kept as Keeper>⟧ B.facts) book.desk)) }
    ensures unopened { IfErr result (λ unopened. B.facts.was_unopened unopened) }
    ensures at { IfOk result (λ (book, _). string_bytes book.lock.locked.name ≡ lock_name file.now) }
    ensures of { IfErr result (λ unopened. B.facts.refused_at file.now unopened) }
{
    let mut book = start.open(rt, file)?;
    let read = OrderFile::read(rt, orders);
    let answer = Snapshot::of(&read);
    let sent = submit_file::<B>(rt.alloc(), book.desk(), sender, read);
    Ok((book.finish(), (sent, answer)))
}

// Submits the orders of a file that was read so.
fn submit_file<B: BookFile>(
    alloc: Global,
    desk: &mut Desk<B::Kept>,
    sender: Code,
    read: OrderFile,
) -> Sent
    ensures rows { IfOk result (λ (rows, batch). AreRowsOf (λ bytes. bytes.items) read.answer rows.items) }
    ensures stopped { IfOk result (λ (rows, batch).
        StopsAfter (length batch.replies.items) (length rows.items) batch.stopped) }
    ensures sent { IfOk result (λ (rows, batch). ⟦<B::Kept as Keeper>⟧.is_honest desk.new.keeper
        → (book : Book) → Holds ⟦<B::Kept as Keeper>⟧ desk.old book
        → SentOver (over ⟦<B::Kept as Keeper>⟧ B.facts)
        book sender rows.items batch.replies.items batch.stopped desk.new) }
    ensures refused { IfErr result (RefusesRows (λ bytes. bytes.items) read.answer) }
    ensures unchanged { OnErr result (desk.new ≡ desk.old) }
    ensures honest { ⟦<B::Kept as Keeper>⟧.is_honest desk.new.keeper
        → ⟦<B::Kept as Keeper>⟧.is_honest desk.old.keeper }
{
    let bytes = read.taken()?;
    let sent = submit_orders(alloc, desk, sender, bytes.as_slice());
    B::what_a_session_leaves(desk);
    sent
}

// Prints the results of orders that were sent. Where they were refused, nothing is printed.
fn print_sent<O: Write>(rt: &HostRuntime, sent: Sent, out: &mut O) -> Result<Printed, Failure>
    ensures printed { IfOk result (λ printed. (it : _) × (sent ≡ Ok it)
        × Prints (results_text it.0.items it.1.replies.items it.1.stopped) it.1.stopped printed (O.contents out.old)
        (O.contents out.new)) }
    ensures refused { IfErr result (λ why. (sent ≡ Err why)
        ⊎ ((it : _) × (sent ≡ Ok it) × (why ≡ Failure.Refused Refusal.OutOfMemory))) }
    ensures unchanged { OnErr result (out.new ≡ out.old) }
{
    match sent {
        Ok((rows, batch)) => print_results(rt.alloc(), out, rows.as_slice(), &batch),
        Err(failure) => Err(failure),
    }
}
