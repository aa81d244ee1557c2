//! Readings.
//!
//! To add one, say what it tells in `Readings.antt` of `rtgs_desk`, who may ask for it in `Access.antt` of
//! `rtgs_http_requests`, and how it is printed in `Readings.antt` of `rtgs_http_bodies::desks`. The compiler names the
//! functions that lack a case for it. It knows nothing of a route and a subcommand: those ask for a reading by its
//! name.
use rtgs_money::{BusinessDate, Code, Reference};

/// What the desk can be asked to tell. It changes nothing.
#[derive(Clone, Copy, Debug, PartialEq, Eq)]
pub enum Reading {
    /// An order of a participant.
    Order { sender: Code, reference: Reference },
    /// The account of a participant.
    Account { code: Code },
    /// The accounts of all participants.
    Accounts,
    /// The queue of a participant.
    Queue { code: Code },
    /// The orders of a participant that are held until their due dates.
    Held { code: Code },
    /// Why the first order of a participant waits.
    Waiting { code: Code },
    /// The queues of all participants, and what a resolution would settle of each.
    Queues,
    /// How the desk stands: its day, what waits in all, and which numbers come next.
    Status,
    /// The statement of a participant for a date.
    Statement { code: Code, date: BusinessDate },
    Report { date: BusinessDate },
    /// Each order of a date.
    Orders { date: BusinessDate },
    /// Each mark of a date.
    Marks { date: BusinessDate },
}
