//! Laws of the definitions. Each function does nothing: its contract is the law.
ghost use Rattle.std.specs.Prelude.{◌≡◌, ℕ, ◌<◌, ◌≤◌, true, List, Some};
ghost use Rattle.std.specs.List.{AllByRecursion};
ghost use Rattle.rtgs_book.specs.declared.book.Book.{Book};
ghost use Rattle.rtgs_book.specs.declared.posting.Posting.{Posting};
ghost use Rattle.rtgs_book.specs.declared.order.Order.{Order};
ghost use Rattle.rtgs_book.specs.declared.mark.Mark.{Mark};
ghost use Rattle.rtgs_book.specs.declared.change.RowChange.{RowChange};
ghost use Rattle.rtgs_book.specs.Changes.{Leads};
ghost use Rattle.rtgs_book.specs.Commands.{is_date};
ghost use Rattle.rtgs_book.specs.Ranges.{Fits};
ghost use Rattle.rtgs_book.specs.Soundness.{IsSound};
ghost use Rattle.rtgs_book.specs.declared.cores.cores.Core.{Core};
ghost use Rattle.rtgs_book.specs.cores.Cores.{IsCoreOf};
ghost use Rattle.rtgs_book.specs.cores.Following.{core_after, AreBalanced, WaitsNoMore};
ghost use Rattle.rtgs_book.specs.cores.Nexts.{posting_after, order_after, mark_after, date_of_posting, AreListed};
ghost use Rattle.rtgs_book.specs.cores.Nexts.{AreNumberedInOrder};

/// In a sound book the numbers of the postings rise, and their dates never fall; so it is with marks. Of the orders it
/// says only that their numbers rise, and whoever reads the orders of a date rests on that alone.
pub fn records_are_listed()
    ensures postings { (book : Book) → IsSound book
        → AreListed (λ (p : Posting). p.number) date_of_posting book.postings }
    ensures orders { (book : Book) → IsSound book
        → AreNumberedInOrder (λ (o : Order). o.number) book.orders }
    ensures marks { (book : Book) → IsSound book
        → AreListed (λ (m : Mark). m.number) (λ (m : Mark). m.date) book.marks }
{}

/// In a sound book the next posting has that date and a number above the given one, and no posting of the date lies
/// between; so it is with orders and marks.
pub fn nexts_are_the_least()
    ensures posting { (book : Book) (date number : ℕ) (next : Posting) → IsSound book
        → posting_after book date number ≡ Some next
        → (is_date next.date date ≡ true) × (number < next.number) × AllByRecursion (λ (p : Posting).
        is_date p.date date ≡ true → number < p.number → next.number ≤ p.number) book.postings }
    ensures order { (book : Book) (date number : ℕ) (next : Order) → IsSound book
        → order_after book date number ≡ Some next
        → (next.date ≡ date) × (number < next.number) × AllByRecursion (λ (o : Order).
        o.date ≡ date → number < o.number → next.number ≤ o.number) book.orders }
    ensures mark { (book : Book) (date number : ℕ) (next : Mark) → IsSound book
        → mark_after book date number ≡ Some next
        → (next.date ≡ date) × (number < next.number) × AllByRecursion (λ (m : Mark).
        m.date ≡ date → number < m.number → next.number ≤ m.number) book.marks }
{
    records_are_listed();
}

/// Rows that lead from a book to another lead from the core of the one to that of the other, where they set its
/// balances right, and no state in which an order waits.
pub fn cores_follow_changes()
    ensures { (old new : Book) (core : Core) (rows : List RowChange) → IsCoreOf old core → Leads old rows new
        → IsSound new → Fits new → AllByRecursion WaitsNoMore rows
        → AreBalanced new (core_after core rows).accounts → IsCoreOf new (core_after core rows) }
{}
