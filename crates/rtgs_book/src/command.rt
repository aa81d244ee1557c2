//! Commands.
//!
//! To add one, say what it means in `specs/Commands.antt`, and in `specs/Step.antt` whether it may free orders. The
//! compiler names each function that lacks a case for it, except `judge` in `follow_up.rt` of `rtgs_ledger`, which
//! says that the amounts of a command are in their ranges. Whether it comes again as a repeat stands in `Lasting.antt`
//! of `rtgs_laws::repeats`, and who may send it in `Access.antt` of `rtgs_http_requests` and the routes of its module
//! `heads`.
use crate::new_day::NewDay;
use crate::new_order::NewOrder;
use rtgs_money::{BusinessDate, Code, Credit, KeyDigest, Name, PostingAmount, Reference};

/// What the desk can be asked to do.
#[derive(Clone, Copy, Debug, PartialEq, Eq)]
pub enum Command {
    /// Adds a participant, with no credit.
    Add {
        code: Code,
        name: Name,
        key: KeyDigest,
    },
    /// Sets the credit limit of a participant.
    SetCredit {
        code: Code,
        credit: Credit,
    },
    /// Adds to an account or takes from it.
    Post {
        code: Code,
        reference: Reference,
        cents: PostingAmount,
    },
    /// Opens the business day, and lets held orders that are due by its date into their queues. On an automatic day a
    /// resolution follows each command that may let orders settle.
    OpenDay(NewDay),
    /// Pays, at once or after the orders that are queued; with a due date, not before that date.
    Order {
        sender: Code,
        order: NewOrder,
    },
    /// Takes back an order that is queued or held.
    Withdraw {
        sender: Code,
        reference: Reference,
    },
    /// Settles the greatest choice of queue beginnings at once.
    Resolve,
    /// Takes no more orders on this day.
    CutOff(BusinessDate),
    /// Closes the day, and rejects what is still queued. What is held stays.
    CloseDay(BusinessDate),
}
