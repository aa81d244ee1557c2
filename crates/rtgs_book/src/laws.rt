//! Laws of a book, whatever commands led to it. Each function does nothing: its contract is the law.
ghost use Rattle.std.specs.Prelude.{◌≡◌, ◌+ℤ◌, ◌≤ℤ◌, pos, Bool, true, false, if◌then◌else◌, ℕ, List, [], ◌∷◌, ◌++◌};
ghost use Rattle.std.specs.Prelude.{◌≤◌, length, filter, take, drop};
ghost use Rattle.std.specs.List.{AllByRecursion};
ghost use Rattle.rtgs_book.specs.declared.book.Book.{Book};
ghost use Rattle.rtgs_book.specs.declared.order.Order.{Order};
ghost use Rattle.rtgs_book.specs.declared.order_state.OrderState.{OrderState};
ghost use Rattle.rtgs_book.specs.declared.posting.Posting.{Posting};
ghost use Rattle.rtgs_book.specs.declared.limits.TheConstants.{LARGEST_BALANCE, MOST_QUEUED};
ghost use Rattle.std.specs.Str.{bytes_eq};
ghost use Rattle.rtgs_book.specs.Books.{is_queued, is_settled, is_settled_state, is_waiting, new_book};
ghost use Rattle.rtgs_book.specs.Commands.{let_in, with_state};
ghost use Rattle.rtgs_book.specs.IntSum.{int_sum_by};
ghost use Rattle.rtgs_book.specs.Lookup.{codes_of, is_participant};
ghost use Rattle.rtgs_book.specs.Laws.{BalancesFit, NothingSettlesEarly};
ghost use Rattle.rtgs_book.specs.Procedure.{Reaches};
ghost use Rattle.rtgs_book.specs.Queue.{queue};
ghost use Rattle.rtgs_book.specs.Balance.{balance, floor, gain, total, issued};
ghost use Rattle.rtgs_book.specs.Settle.{settle};
ghost use Rattle.rtgs_book.specs.Totals.{Within};
ghost use Rattle.rtgs_book.specs.Ranges.{Fits};
ghost use Rattle.rtgs_book.specs.Choice.{Choice, nothing_chosen, larger, is_chosen, chosen, balance_after, IsFeasible};
ghost use Rattle.rtgs_book.specs.Choice.{IsGreatest};
ghost use Rattle.rtgs_book.specs.Soundness.{CodesRise, FloorsHold, IsSound, OrdersAreNumbered, PartiesAreKnown};

/// The book of a new desk is sound.
pub fn new_book_is_sound()
    ensures { IsSound new_book }
{}

/// To choose no order is feasible where no balance is below its floor.
pub fn nothing_is_feasible()
    ensures { (book : Book) → FloorsHold book → IsFeasible book nothing_chosen }
{}

/// The larger of two feasible choices, sender by sender, is feasible.
pub fn larger_is_feasible()
    ensures { (book : Book) (one other : Choice) → IsFeasible book one → IsFeasible book other
        → IsFeasible book (larger one other) }
{}

/// A book has one greatest choice at most.
pub fn greatest_is_unique()
    ensures { (book : Book) (one other : Choice) → IsGreatest book one → IsGreatest book other → one ≡ other }
{}

/// A book whose floors hold has a greatest choice.
pub fn greatest_exists()
    ensures { (book : Book) → FloorsHold book → (choice : Choice) × IsGreatest book choice }
{}

/// Of each queue just the first orders are chosen, as many as the choice says.
pub fn chosen_are_beginnings()
    ensures { (book : Book) (choice : Choice) (code : List ℕ) → OrdersAreNumbered book
        → filter (λ (o : Order). bytes_eq o.sender code) (chosen book choice) ≡ take (choice code) (queue book code) }
{}

/// What was not chosen stays queued, in its order.
pub fn rest_stays_queued()
    ensures { (book : Book) (choice : Choice) (code : List ℕ) → OrdersAreNumbered book
        → queue (settle book (is_chosen book choice)) code ≡ drop (choice code) (queue book code) }
{}

/// Where the published procedure stops, as nobody is short, its choice is the greatest.
pub fn procedure_finds_the_greatest()
    ensures { (book : Book) (choice : Choice) → Reaches book choice
        → AllByRecursion (λ code. floor book code ≤ℤ balance_after book choice code) (codes_of book)
        → IsGreatest book choice }
{}

/// All balances together are what was posted, where codes rise and all parties have accounts, as in a sound book.
pub fn total_is_issued()
    ensures { (book : Book) → CodesRise book → PartiesAreKnown book → total book ≡ issued book }
{}

/// Settling the chosen orders leaves the balances that the choice was judged by.
pub fn settled_balances()
    ensures { (book : Book) (choice : Choice) (code : List ℕ)
        → balance (settle book (is_chosen book choice)) code ≡ balance_after book choice code }
{}

/// In a sound book with amounts in their ranges no balance is large: each fits 64 bits with a sign.
pub fn balances_are_small()
    ensures { (book : Book) → IsSound book → Fits book → BalancesFit book }
{}

/// So it is with all balances together.
pub fn total_is_small()
    ensures { (book : Book) → IsSound book → Fits book → Within LARGEST_BALANCE (total book) }
{}

/// In a sound book no more orders are queued or held than all participants may have together.
pub fn few_orders_wait()
    ensures { (book : Book) → IsSound book → length (filter is_waiting book.orders) ≤ MOST_QUEUED }
{}

/// A posting moves the balance of its account by its cents, and no other.
pub fn balance_after_posting()
    ensures { (book : Book) (posting : Posting) (code : List ℕ)
        → balance (record book { postings = book.postings ++ posting ∷ [] }) code
        ≡ balance book code +ℤ (if bytes_eq posting.code code then posting.cents else pos 0) }
{}

/// An order that is added moves the balances of its parties where it is settled, and else none.
pub fn balance_after_order()
    ensures { (book : Book) (order : Order) (code : List ℕ)
        → balance (record book { orders = book.orders ++ order ∷ [] }) code
        ≡ balance book code +ℤ (if is_settled order then gain code order else pos 0) }
{}

/// Settling queued orders moves each balance by what its account gains by them.
pub fn balance_after_settling()
    ensures { (book : Book) (is_in : Order → Bool) (code : List ℕ)
        → AllByRecursion (λ order. is_in order ≡ true → is_queued order ≡ true) book.orders
        → balance (settle book is_in) code ≡ balance book code +ℤ int_sum_by (gain code) (filter is_in book.orders) }
{}

/// Orders that get another state, and are settled neither before nor after, move no balance.
pub fn balance_after_restating()
    ensures { (book : Book) (is_in : Order → Bool) (state : OrderState) (code : List ℕ)
        → AllByRecursion (λ order. is_in order ≡ true → is_settled order ≡ false) book.orders
        → is_settled_state state ≡ false → balance (with_state book is_in state) code ≡ balance book code }
{}

/// Orders that enter their queues move no balance.
pub fn balance_after_entering()
    ensures { (book : Book) (is_in : Order → Bool) (date : ℕ) (code : List ℕ)
        → AllByRecursion (λ order. is_in order ≡ true → is_settled order ≡ false) book.orders
        → balance (let_in book is_in date) code ≡ balance book code }
{}

/// In a sound book no order is settled under a mark that is dated before the order's due date.
pub fn nothing_settles_before_it_is_due()
    ensures { (book : Book) → IsSound book → NothingSettlesEarly book }
{}

/// In a sound book a code that is no participant's has nothing.
pub fn balance_of_unknown_code()
    ensures { (book : Book) (code : List ℕ) → IsSound book → is_participant book code ≡ false
        → balance book code ≡ pos 0 }
{}
