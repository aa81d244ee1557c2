//! Laws of what the desk answers. Each function does nothing: its contract is the law.
ghost use Rattle.std.specs.Prelude.{◌≡◌, ◌↔◌, ◌-ℤ◌, ◌≤ℤ◌, ◌==◌, ℕ, pos, List, filter, Some};
ghost use Rattle.std.specs.List.{AllByRecursion};
ghost use Rattle.rtgs_book.specs.Balance.{balance, floor};
ghost use Rattle.rtgs_book.specs.Soundness.{IsSound};
ghost use Rattle.rtgs_book.specs.cores.Nexts.{AreDatedInOrder};
ghost use Rattle.rtgs_book.specs.declared.book.Book.{Book};
ghost use Rattle.rtgs_book.specs.declared.order.Order.{Order};
ghost use Rattle.rtgs_book.specs.declared.participant.Participant.{Participant};
ghost use Rattle.rtgs_desk.specs.Readings.{headroom, held, held_among, reading_of, short_by, waiting_reading_of};

/// Held orders are answered by due date and then number: their dates never fall, those of one date are all that the
/// sender has held with that date, in their order, and in a sound book each is dated by its due date.
pub fn held_orders_are_in_order()
    ensures dates { (book : Book) (code : List ℕ) → AreDatedInOrder (λ (o : Order). o.date) (held book code) }
    ensures of_a_date { (book : Book) (code : List ℕ) (date : ℕ) → filter (λ (o : Order). o.date == date)
        (held book code) ≡ filter (λ (o : Order). o.date == date) (held_among book.orders code) }
    ensures due { (book : Book) (code : List ℕ) → IsSound book
        → AllByRecursion (λ (o : Order). o.due ≡ Some o.date) (held book code) }
{}

/// An order lacks nothing exactly where its sender can pay it and stay at its floor or above.
pub fn covered_orders_lack_nothing()
    ensures { (book : Book) (code : List ℕ) (order : Order) → (short_by (headroom book code) (Some order) ≡ pos 0)
        ↔ (floor book code ≤ℤ (balance book code -ℤ pos order.amount)) }
{}

/// What waits is queued as the account tells.
pub fn accounts_tell_what_is_queued()
    ensures count { (book : Book) (code : List ℕ) (participant : Participant)
        → (waiting_reading_of book code).queued.count ≡ (reading_of book code participant).queued }
    ensures value { (book : Book) (code : List ℕ) (participant : Participant)
        → (waiting_reading_of book code).queued.value ≡ (reading_of book code participant).queued_value }
{}
