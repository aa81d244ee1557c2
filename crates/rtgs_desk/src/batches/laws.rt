//! Laws of the definitions. Each function does nothing: its contract is the law.
ghost use Rattle.std.specs.Prelude.{◌≡◌, true, ℕ, List, Option, length, take};
ghost use Rattle.std.specs.List.{AllByRecursion};
ghost use Rattle.rtgs_book.specs.declared.book.Book.{Book};
ghost use Rattle.rtgs_book.specs.declared.refusal.Refusal.{Refusal};
ghost use Rattle.rtgs_book.specs.Outcome.{Reply};
ghost use Rattle.rtgs_book.specs.Run.{Run};
ghost use Rattle.rtgs_book.specs.Session.{is_judged, MayFind};
ghost use Rattle.rtgs_book.specs.Soundness.{IsSound};
ghost use Rattle.rtgs_laws.specs.repeats.Batch.{MayComeAgain};
ghost use Rattle.rtgs_book.specs.declared.new_order.NewOrder.{NewOrder};
ghost use Rattle.rtgs_desk.specs.batches.Batches.{orders_of, open_order, StopsAfter};

use rtgs_book::NewOrder;
use rtgs_laws::repeats::laws::{resumed_batch_ends_alike, stopped_batch_ends_alike};

/// A batch may stop after any of its rows: sent again from the first, right after, it ends in the book to which one
/// sending would have led. On an automatic day no row before the stop may have met a full queue.
pub fn resumed_batches_end_alike()
    ensures { (old mid last end : Book) (sender : List ℕ) (rows : List NewOrder) (n : ℕ) (first again once : List Reply)
        → IsSound old → MayComeAgain old first →
        Run old (orders_of sender (take n rows)) first mid → Run mid (orders_of sender rows) again last
        → Run old (orders_of sender rows) once end → last ≡ end }
{
    resumed_batch_ends_alike();
}

/// So does a batch in which the store failed, sent again from a book that a stop may then leave: the order at which it
/// failed may have acted or not.
pub fn stopped_batches_end_alike()
    ensures { (old mid found last end : Book) (sender : List ℕ) (rows : List NewOrder) (replies : List Reply)
        (stopped : Option Refusal) (again once : List Reply) → IsSound old → MayComeAgain old replies →
        AllByRecursion (λ reply. is_judged reply ≡ true) replies
        → StopsAfter (length replies) (length rows) stopped
        → Run old (orders_of sender (take (length replies) rows)) replies mid →
        MayFind mid (open_order sender rows replies stopped) found → Run found (orders_of sender rows) again last
        → Run old (orders_of sender rows) once end → last ≡ end }
{
    stopped_batch_ends_alike();
}
