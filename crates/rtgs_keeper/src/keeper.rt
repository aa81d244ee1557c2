//! What keeps a book.
ghost use Rattle.std.specs.Prelude.{◌≡◌, ◌≢◌, ◌⊎◌, Bool, Err, IfOk, IfErr, OnOk};
ghost use Rattle.rtgs_book.specs.Lookup.{order_named, posting_named};
ghost use Rattle.rtgs_book.specs.cores.Cores.{IsCoreOf};
ghost use Rattle.rtgs_book.specs.cores.Nexts.{posting_after, order_after, mark_after};
ghost use Rattle.rtgs_book.specs.declared.book.Book.{Book};
ghost use Rattle.rtgs_book.specs.declared.fault.Fault.{Fault};
ghost use Rattle.rtgs_book.specs.declared.rule.Rule.{Rule};
ghost use Rattle.rtgs_book.specs.Changes.{IsChange};
ghost use Rattle.rtgs_keeper.specs.Calls.{OnlyReads, TellsCommitFaults};
ghost use Rattle.rtgs_keeper.specs.Still.{StandsStill};

use crate::commit_fault::CommitFault;
use rtgs_book::{Change, Core, Fault, Mark, Order, Posting};
use rtgs_money::{BusinessDate, Code, Reference};
use std::alloc::Global;

/// What keeps one book. Between calls nothing moves.
pub trait Keeper {
    // The book that is kept, if it is a sound one.
    ghost content: { Self → Book → Type 0 };

    // The books that a stop at this moment may leave.
    ghost leaves: { Self → Book → Type 0 };

    // A call has met a fault of the store.
    ghost has_failed: { Self → Bool };

    // The store returned what was written to it, and nobody else wrote.
    ghost is_honest: { Self → Type 0 };

    // The tables are such as a keeper of this kind makes, and their rows are whole, whatever values these have. Over
    // these the core of a book is given only where the book is kept.
    ghost has_tables: { Self → Type 0 };

    // Nothing was ever kept, no new book either.
    ghost is_empty: { Self → Type 0 };

    // Whatever a stop at this moment leaves is a book, kept whole.
    ghost is_whole: { Self → Type 0 };

    // The book was shown when the store was read, each balance kept beside it being the sum from scratch.
    ghost shows: { Self → Book → Type 0 };

    // In the store's own terms: what a crash of the second leaves is what one of the first could leave.
    ghost leaves_no_more: { Self → Self → Type 0 };

    // What may be answered in place of the core of a book, whatever is kept.
    ghost explains: { Self → Fault → Type 0 };

    /// Gives what the desk needs of the book that is kept, which is judged as a whole. On a keeper that has failed it
    /// is `StoreFault`, and nothing is done.
    fn core(&mut self, alloc: Global) -> Result<Core, Fault>
        ensures reads { OnlyReads content leaves is_honest is_whole leaves_no_more has_failed self.old self.new result }
        ensures given { is_honest self.new → (book : Book) → content self.old book → IfOk result (IsCoreOf book) }
        ensures accepted { is_honest self.new → (book : Book) → content self.old book
            → IfErr result (λ fault. (fault ≡ Fault.OutOfMemory) ⊎ (fault ≡ Fault.StoreFault)) }
        ensures explained { is_honest self.new
            → IfErr result (λ fault. (fault ≡ Fault.OutOfMemory) ⊎ explains self.old fault) }
        // It is that of a sound book, which was shown, and which is kept where the tables are a keeper's.
        ensures read { IfOk result (λ core. (book : Book) × IsCoreOf book core
            × (is_honest self.new → shows self.old book)
            × (is_honest self.new → has_tables self.old → content self.new book)) }
        ensures empty { is_honest self.new → is_empty self.old
            → IfOk result (λ _. ⊥) × ((rule : Rule) → result ≢ Err (Fault.Inconsistent rule)) };

    /// The order that the sender gave this reference, where the book has one. On a keeper that has failed it is
    /// `StoreFault`, and nothing is done; so with each look-up and each next.
    fn find_order(&mut self, sender: &Code, reference: &Reference) -> Result<Option<Order>, Fault>
        ensures reads { OnlyReads content leaves is_honest is_whole leaves_no_more has_failed self.old self.new result }
        ensures found { is_honest self.new → (book : Book) → content self.old book
            → IfOk result (λ found. found ≡ order_named book sender.now reference.now) }
        ensures kinds { (result ≢ Err Fault.NotADeskFile) × ((rule : Rule) → result ≢ Err (Fault.Inconsistent rule)) };

    /// The posting with this reference, where the book has one.
    fn find_posting(&mut self, reference: &Reference) -> Result<Option<Posting>, Fault>
        ensures reads { OnlyReads content leaves is_honest is_whole leaves_no_more has_failed self.old self.new result }
        ensures found { is_honest self.new → (book : Book) → content self.old book
            → IfOk result (λ found. found ≡ posting_named book reference.now) }
        ensures kinds { (result ≢ Err Fault.NotADeskFile) × ((rule : Rule) → result ≢ Err (Fault.Inconsistent rule)) };

    /// The posting of this date with the least number above the given one.
    fn next_posting(&mut self, date: BusinessDate, number: u64) -> Result<Option<Posting>, Fault>
        ensures reads { OnlyReads content leaves is_honest is_whole leaves_no_more has_failed self.old self.new result }
        ensures found { is_honest self.new → (book : Book) → content self.old book
            → IfOk result (λ found. found ≡ posting_after book date number) }
        ensures kinds { (result ≢ Err Fault.NotADeskFile) × ((rule : Rule) → result ≢ Err (Fault.Inconsistent rule)) };

    /// The order of this date with the least number above the given one.
    fn next_order(&mut self, date: BusinessDate, number: u64) -> Result<Option<Order>, Fault>
        ensures reads { OnlyReads content leaves is_honest is_whole leaves_no_more has_failed self.old self.new result }
        ensures found { is_honest self.new → (book : Book) → content self.old book
            → IfOk result (λ found. found ≡ order_after book date number) }
        ensures kinds { (result ≢ Err Fault.NotADeskFile) × ((rule : Rule) → result ≢ Err (Fault.Inconsistent rule)) };

    /// The mark of this date with the least number above the given one.
    fn next_mark(&mut self, date: BusinessDate, number: u64) -> Result<Option<Mark>, Fault>
        ensures reads { OnlyReads content leaves is_honest is_whole leaves_no_more has_failed self.old self.new result }
        ensures found { is_honest self.new → (book : Book) → content self.old book
            → IfOk result (λ found. found ≡ mark_after book date number) }
        ensures kinds { (result ≢ Err Fault.NotADeskFile) × ((rule : Rule) → result ≢ Err (Fault.Inconsistent rule)) };

    /// Keeps the book after the change, whole or not at all.
    fn commit(&mut self, change: &Change) -> Result<(), CommitFault>
        ensures honest { is_honest self.new → is_honest self.old }
        ensures done { is_honest self.new → (old new : Book) → content self.old old → IsChange old change.now new
            → OnOk result (content self.new new) }
        ensures stops { is_honest self.new → (old new other : Book) → content self.old old
            → IsChange old change.now new → leaves self.new other → leaves self.old other ⊎ (other ≡ new) }
        ensures whole { is_honest self.new → (old new : Book) → content self.old old → IsChange old change.now new
            → is_whole self.new }
        ensures memory { result ≡ Err CommitFault.OutOfMemory → is_honest self.new → (book : Book)
            → content self.old book → content self.new book }
        ensures memory_stops { result ≡ Err CommitFault.OutOfMemory → is_honest self.new → (other : Book)
            → leaves self.new other → leaves self.old other }
        ensures faults { TellsCommitFaults has_failed self.old self.new result };

    // What is so between its calls.
    ghost still: { (k : Self) → StandsStill (content k) (leaves k) (has_tables k) (is_whole k) (leaves_no_more k k) };
}
