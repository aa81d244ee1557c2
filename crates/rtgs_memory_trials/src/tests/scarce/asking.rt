//! What a desk is asked.
use super::call::{Call, Outcome};
use super::page::Page;
use super::setting::{DAY, HELD_DAY, desk_after, seen_of};
use super::store::Store;
use rtgs_book::{AccountReading, Order, QueueReading, Reading, Refusal, Status, WaitingReading};
use rtgs_desk::Desk;
use rtgs_keeper::Keeper;
use rtgs_money::{Code, KeyDigest};
use rtgs_output::TextFault;
use rtgs_statements::{BookTextFault, write_marks, write_orders, write_report, write_statement};
use rtgs_tests_desks::desk_over;
use std::alloc::Global;
use std::test::Fail;

#[derive(Clone, Copy)]
pub enum Question {
    Reading(Reading),
    CodeOf(KeyDigest),
}

impl Question {
    // The day before it. Held orders are asked for where there is one: a list of none takes no memory.
    fn day(&self) -> &'static str {
        match self {
            Question::Reading(Reading::Held { code: _ }) => HELD_DAY,
            _ => DAY,
        }
    }
}

/// What is answered.
#[derive(Debug, Drop)]
pub enum ReadingAnswer {
    Account(Result<AccountReading, Refusal>),
    Accounts(Result<Vec<AccountReading>, Refusal>),
    Orders(Result<Vec<Order>, Refusal>),
    Waiting(Result<WaitingReading, Refusal>),
    Queues(Result<Vec<QueueReading>, Refusal>),
    Status(Result<Status, Refusal>),
    Order(Result<Order, Refusal>),
    Text(Result<(), BookTextFault>, Page),
    CodeOf(Result<Option<Code>, Refusal>),
}

impl ReadingAnswer {
    // Why it is not answered.
    fn refusal(&self) -> Option<Refusal> {
        match self {
            ReadingAnswer::Account(Err(refusal))
            | ReadingAnswer::Accounts(Err(refusal))
            | ReadingAnswer::Orders(Err(refusal))
            | ReadingAnswer::Waiting(Err(refusal))
            | ReadingAnswer::Queues(Err(refusal))
            | ReadingAnswer::Status(Err(refusal))
            | ReadingAnswer::Order(Err(refusal))
            | ReadingAnswer::Text(Err(BookTextFault::Refused(refusal)), _)
            | ReadingAnswer::CodeOf(Err(refusal)) => Some(*refusal),
            ReadingAnswer::Text(Err(BookTextFault::Text(TextFault::OutOfMemory)), _) => {
                Some(Refusal::OutOfMemory)
            }
            _ => None,
        }
    }
}

/// A question to a desk over this store, with three banks, a posting, an order that has settled and one that waits; or,
/// of held orders, with one that is held.
#[derive(Clone, Copy)]
pub struct Asks<S> {
    pub store: S,
    pub question: Question,
}

impl<S: Store> Call for Asks<S>
where
    S::Kept: Keeper + Drop,
{
    type State = Desk<S::Kept>;

    type Answer = ReadingAnswer;

    fn begin(&self, alloc: Global) -> Result<Desk<S::Kept>, Fail> {
        desk_after(alloc, self.store.keeper(alloc)?, self.question.day())
    }

    fn call(&self, alloc: Global, desk: &mut Desk<S::Kept>) -> ReadingAnswer {
        match self.question {
            Question::CodeOf(digest) => ReadingAnswer::CodeOf(desk.code_of(&digest)),
            Question::Reading(reading) => answered(alloc, desk, reading),
        }
    }

    fn outcome(&self, answer: &ReadingAnswer) -> Outcome {
        match answer.refusal() {
            Some(Refusal::OutOfMemory) => Outcome::Refused,
            Some(Refusal::StoreFault) if self.store.may_fail() => Outcome::Faulted,
            _ => Outcome::Other,
        }
    }

    fn reopened(&self, alloc: Global, desk: Desk<S::Kept>) -> Result<Desk<S::Kept>, Fail> {
        let keeper = self.store.restarted(alloc, desk.into_keeper())?;
        desk_over(alloc, keeper)
    }

    fn seen(&self, alloc: Global, desk: &mut Desk<S::Kept>) -> Result<String, Fail> {
        seen_of(alloc, desk)
    }
}

// What the desk tells.
fn answered<K: Keeper>(alloc: Global, desk: &mut Desk<K>, reading: Reading) -> ReadingAnswer {
    let mut page = Page::new();
    match reading {
        Reading::Account { code } => ReadingAnswer::Account(desk.account(&code)),
        Reading::Accounts => ReadingAnswer::Accounts(desk.accounts()),
        Reading::Queue { code } => ReadingAnswer::Orders(desk.queue_of(&code)),
        Reading::Held { code } => ReadingAnswer::Orders(desk.held_of(&code)),
        Reading::Waiting { code } => ReadingAnswer::Waiting(desk.waiting_of(&code)),
        Reading::Queues => ReadingAnswer::Queues(desk.queues()),
        Reading::Status => ReadingAnswer::Status(desk.status()),
        Reading::Order { sender, reference } => ReadingAnswer::Order(desk.order_of(
            &sender, &reference,
        )),
        Reading::Statement { code, date } => {
            let written = write_statement(alloc, &mut page, desk, &code, date);
            ReadingAnswer::Text(written, page)
        }
        Reading::Report { date } => {
            let written = write_report(alloc, &mut page, desk, date);
            ReadingAnswer::Text(written, page)
        }
        Reading::Orders { date } => {
            let written = write_orders(alloc, &mut page, desk, date);
            ReadingAnswer::Text(written, page)
        }
        Reading::Marks { date } => {
            let written = write_marks(alloc, &mut page, desk, date);
            ReadingAnswer::Text(written, page)
        }
    }
}
