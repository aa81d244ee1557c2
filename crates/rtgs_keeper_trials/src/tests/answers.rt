//! What a desk answers, and what its keeper then shows of its book: each record by its name, and the records of each
//! date one after another.
use super::business::{CODES, DAYS, ORDERS, POSTINGS, day_at};
use super::seen::{PLACES, place_of};
use rtgs_book::{Mark, Order, Posting};
use rtgs_keeper::Keeper;
use rtgs_money::{BusinessDate, Code, Reference};
use rtgs_tests_desks::Reply;
use std::alloc::Global;
use std::test::Fail;

/// What a desk answered to commands, and its keeper to the same questions, in their order.
#[derive(Drop)]
pub struct Answers {
    pub replies: Vec<Reply>,
    // as they display themselves
    cores: Vec<String>,
    postings: Vec<Option<Posting>>,
    orders: Vec<Option<Order>>,
    marks: Vec<Option<Mark>>,
}

impl Answers {
    pub fn new(alloc: Global) -> Answers {
        Answers {
            replies: Vec::new(alloc),
            cores: Vec::new(alloc),
            postings: Vec::new(alloc),
            orders: Vec::new(alloc),
            marks: Vec::new(alloc),
        }
    }

    /// Asks this one: from record to record through all dates, after each number on a date that the shift moves on, so
    /// that all dates come to each number as the shift grows, and by all names.
    pub fn asks<K: Keeper>(
        &mut self,
        alloc: Global,
        keeper: &mut K,
        shift: u64,
    ) -> Result<(), Fail> {
        let core = keeper.core(alloc)?;
        let last = core.next_posting.max(core.next_order).max(core.next_mark);
        self.cores.push(format!(in alloc; "{core:?}")?)?;
        for place in 0..DAYS.len() {
            self.goes_through(keeper, day_at(place as u64)?, last)?;
        }
        for number in 0..=last {
            self.asks_after(keeper, day_at(number.wrapping_add(shift))?, number)?;
        }
        self.finds_orders(alloc, keeper)?;
        self.finds_postings(alloc, keeper)
    }

    // Goes through a date, from each record to the next, where no record has a greater number than the last.
    fn goes_through<K: Keeper>(
        &mut self,
        keeper: &mut K,
        date: BusinessDate,
        last: u64,
    ) -> Result<(), Fail> {
        let mut number = 0;
        for _ in 0..=last.saturating_mul(3) {
            number = self.asks_after(keeper, date, number)?;
            if number == u64::MAX {
                return Ok(());
            }
        }
        Err(Fail::new("more records than there are"))
    }

    // The least of the numbers that come next on this date, or the greatest number where none does.
    fn asks_after<K: Keeper>(
        &mut self,
        keeper: &mut K,
        date: BusinessDate,
        number: u64,
    ) -> Result<u64, Fail> {
        let posting = keeper.next_posting(date, number)?;
        let order = keeper.next_order(date, number)?;
        let mark = keeper.next_mark(date, number)?;
        let mut next = u64::MAX;
        if let Some(posting) = &posting {
            next = next.min(posting.number);
        }
        if let Some(order) = &order {
            next = next.min(order.number);
        }
        if let Some(mark) = &mark {
            next = next.min(mark.number);
        }
        self.postings.push(posting)?;
        self.orders.push(order)?;
        self.marks.push(mark)?;
        Ok(next)
    }

    // Asks for each order by the names that the commands use: codes and references, and of each kind one that they do
    // not use.
    fn finds_orders<K: Keeper>(&mut self, alloc: Global, keeper: &mut K) -> Result<(), Fail> {
        // Names the type of due dates for the borrow checker, which finds it nowhere else in this function.
        let _no_date: Option<BusinessDate> = None;
        for place in 0..(CODES + 1) * (ORDERS + 1) {
            let code = format!(in alloc; "BANK{}", place / (ORDERS + 1))?;
            let reference = format!(in alloc; "R-{}", place % (ORDERS + 1))?;
            let sender = Code::read(code.as_bytes())?;
            let reference = Reference::read(reference.as_bytes())?;
            self.orders.push(keeper.find_order(&sender, &reference)?)?;
        }
        Ok(())
    }

    // Asks for each posting by the references that the commands use, and by one that they do not use.
    fn finds_postings<K: Keeper>(&mut self, alloc: Global, keeper: &mut K) -> Result<(), Fail> {
        for number in 0..=POSTINGS {
            let text = format!(in alloc; "P-{number}")?;
            let reference = Reference::read(text.as_bytes())?;
            self.postings.push(keeper.find_posting(&reference)?)?;
        }
        Ok(())
    }

    /// Notes where orders with a due date stand, and whether one entered its queue after that date.
    pub fn notes_due(&self, stand: &mut [bool; PLACES], is_late: &mut bool) {
        for answers in self.orders.as_slice() {
            if let Some(order) = answers {
                if let Some(due) = order.due {
                    let place = place_of(order.state);
                    stand[place] = true;
                    *is_late = *is_late || due < order.date;
                }
            }
        }
    }

    /// Whether both tell the same.
    pub fn is_like(&self, other: &Answers) -> bool {
        self.replies.as_slice() == other.replies.as_slice()
            && self.postings.as_slice() == other.postings.as_slice()
            && self.orders.as_slice() == other.orders.as_slice()
            && self.marks.as_slice() == other.marks.as_slice()
            && self.cores.as_slice() == other.cores.as_slice()
    }
}
