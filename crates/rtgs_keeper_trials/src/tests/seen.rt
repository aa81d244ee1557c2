//! What came out of many commands.
ghost use Rattle.std.specs.Prelude.{◌<◌};

use rtgs_book::{Answer, Known, OrderState, Refusal, WholeAnswer};
use rtgs_tests_desks::Reply;

/// How many kinds of replies there are.
pub const KINDS: usize = 24;

/// Which kind of reply this is.
pub fn kind_of(reply: &Reply) -> usize
    ensures { result < 24 }
{
    match reply {
        Ok(answer) => kind_of_answer(answer),
        Err(Refusal::Resolvable) => 14,
        Err(Refusal::Overdrawn { .. }) => 15,
        Err(Refusal::DueNotLater) => 16,
        Err(_) => 17,
    }
}

// Which kind of answer this is: one alone, or one after which something was resolved.
fn kind_of_answer(answer: &WholeAnswer) -> usize
    ensures { result < 24 }
{
    match &answer.auto {
        None => kind_of_own(&answer.own),
        Some(_) => kind_of_followed(&answer.own),
    }
}

// Which kind of answer alone this is.
fn kind_of_own(own: &Answer) -> usize
    ensures { result < 24 }
{
    match own {
        Answer::Added => 0,
        Answer::CreditSet => 1,
        Answer::Posted { .. } => 2,
        Answer::Opened => 3,
        Answer::Settled { .. } => 4,
        Answer::Queued { .. } => 5,
        Answer::Held { .. } => 6,
        Answer::Withdrawn { .. } => 7,
        Answer::Resolved { .. } => 8,
        Answer::Nothing => 9,
        Answer::CutOffDone => 10,
        Answer::Closed { .. } => 11,
        Answer::Repeated(known) => kind_of_known(known),
    }
}

// Which kind of answer this is, after which something was resolved. There are no others than these.
fn kind_of_followed(own: &Answer) -> usize
    ensures { result < 24 }
{
    match own {
        Answer::CreditSet => 18,
        Answer::Posted { .. } => 19,
        Answer::Opened => 20,
        Answer::Settled { .. } => 21,
        Answer::Queued { .. } => 22,
        Answer::Withdrawn { .. } => 23,
        _ => 17,
    }
}

// Which kind of reply tells what is known of a command that came before: that of a held order, or another one.
fn kind_of_known(known: &Known) -> usize
    ensures { result < 24 }
{
    match known {
        Known::Order {
            state: OrderState::Held,
            ..
        } => 12,
        _ => 13,
    }
}

/// In how many places an order with a due date may stand.
pub const PLACES: usize = 4;

/// In which of them it stands. It was withdrawn or rejected in the last one.
pub fn place_of(state: OrderState) -> usize
    ensures { result < 4 }
{
    match state {
        OrderState::Held => 0,
        OrderState::Queued => 1,
        OrderState::Settled(_) => 2,
        OrderState::Withdrawn | OrderState::Rejected => 3,
    }
}
