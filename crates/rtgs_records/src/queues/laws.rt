//! Laws of a book's orders. Each function does nothing: its contract is the law.
ghost use Rattle.std.specs.Prelude.{◌+◌, ◌<◌, filter, length};
ghost use Rattle.std.specs.List.{AllByRecursion};
ghost use Rattle.rtgs_book.specs.declared.book.Book.{Book};
ghost use Rattle.rtgs_book.specs.declared.order.Order.{Order};
ghost use Rattle.rtgs_book.specs.Books.{is_waiting};
ghost use Rattle.rtgs_book.specs.Soundness.{OrdersAreNumbered};
ghost use Rattle.rtgs_records.specs.queues.Laws.{NumbersLeadToOrders, QueuesAreOfTheWaiting, QueuesRise};
ghost use Rattle.rtgs_records.specs.queues.Orders.{AreRising, AreWaiting};

/// Where orders are numbered from one, as in a sound book, each is the first with its number.
pub fn numbers_lead_to_orders()
    ensures { NumbersLeadToOrders }
{}

/// A sender's queue among the orders that wait is its queue among all.
pub fn queues_are_of_the_waiting()
    ensures { QueuesAreOfTheWaiting }
{}

/// Where orders are numbered from one, the numbers of each queue rise.
pub fn queues_rise()
    ensures { QueuesRise }
{}

/// Where orders are numbered from one, those that wait are what `Orders::load` takes.
pub fn waiting_orders_can_be_loaded()
    ensures rising { (book : Book) → OrdersAreNumbered book → AreRising (filter is_waiting book.orders) }
    ensures before { (book : Book) → OrdersAreNumbered book
        → AllByRecursion (λ (o : Order). o.number < length book.orders + 1) (filter is_waiting book.orders) }
    ensures waiting { (book : Book) → AreWaiting (filter is_waiting book.orders) }
{}
