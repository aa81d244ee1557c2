//! Files of orders: from their bytes to the desk, and from its replies to the printed results.
ghost use Rattle.std.specs.Prelude.{◌≡◌, ◌⊎◌, length, Err, IfOk, IfErr, OnErr};
ghost use Rattle.rtgs_book.specs.declared.book.Book.{Book};
ghost use Rattle.rtgs_book.specs.declared.refusal.Refusal.{Refusal};
ghost use Rattle.rtgs_desk.specs.Holding.{Holds};
ghost use Rattle.rtgs_cli_lines.specs.Texts.{Prints};
ghost use Rattle.rtgs_desk.specs.batches.Batches.{StopsAfter};
ghost use Rattle.rtgs_order_files.specs.OrderFile.{IsOrderFile, IsFaultOf};
ghost use Rattle.rtgs_order_files.specs.Results.{results_text};
ghost use Rattle.rtgs_desk.specs.batches.Sent.{Sent};
ghost use Rattle.rtgs_order_files.specs.declared.BatchFault.{BatchFault};

use rtgs_book::NewOrder;
use rtgs_cli_lines::{Failure, Printed};
use rtgs_desk::{Desk, submit_batch};
use rtgs_keeper::Keeper;
use rtgs_money::Code;
use rtgs_order_files::{BatchResult, read_orders, write_results};
use std::alloc::Global;
use std::io::Write;

/// Submits the orders of a file with these bytes, each as an order of the sender. Refused where the bytes are no order
/// file, or memory runs out before the first order; then nothing was submitted.
pub fn submit_orders<K: Keeper>(
    alloc: Global,
    desk: &mut Desk<K>,
    sender: Code,
    bytes: &[u8],
) -> Result<(Vec<NewOrder>, BatchResult), Failure>
    ensures rows { IfOk result (λ (rows, batch). IsOrderFile bytes.now rows.items) }
    ensures stopped { IfOk result (λ (rows, batch).
        StopsAfter (length batch.replies.items) (length rows.items) batch.stopped) }
    ensures sent { IfOk result (λ (rows, batch). K.is_honest desk.new.keeper
        → (book : Book) → Holds K.Keeper desk.old book
        → Sent K.Keeper book sender rows.items batch.replies.items batch.stopped desk.new) }
    ensures honest { K.is_honest desk.new.keeper → K.is_honest desk.old.keeper }
    ensures refused { IfErr result (λ failure. (failure ≡ Failure.Refused Refusal.OutOfMemory)
        ⊎ ((fault : BatchFault) × IsFaultOf bytes.now fault × (failure ≡ Failure.Orders fault))) }
    ensures unchanged { OnErr result (desk.new ≡ desk.old) }
{
    let rows = match read_orders(alloc, bytes) {
        Ok(rows) => rows,
        Err(fault) => return Err(Failure::Orders(fault)),
    };
    match submit_batch(alloc, desk, sender, rows.as_slice()) {
        Ok(batch) => Ok((rows, batch)),
        Err(error) => Err(Failure::from(error)),
    }
}

/// Prints the results of a batch. Where memory runs out, nothing is printed.
pub fn print_results<O: Write>(
    alloc: Global,
    out: &mut O,
    rows: &[NewOrder],
    batch: &BatchResult,
) -> Result<Printed, Failure>
    ensures printed { IfOk result (λ printed. Prints (results_text rows.now batch.now.replies.items batch.now.stopped)
        batch.now.stopped printed (O.contents out.old) (O.contents out.new)) }
    ensures refused { OnErr result ((result ≡ Err (Failure.Refused Refusal.OutOfMemory)) × (out.new ≡ out.old)) }
{
    match Printed::of(write_results(alloc, out, rows, batch)) {
        Ok(printed) => Ok(printed.after_batch(batch.stopped)),
        Err(failure) => Err(failure),
    }
}
