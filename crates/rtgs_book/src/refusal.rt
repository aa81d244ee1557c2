//! Refusals of commands.
ghost use Rattle.std.specs.Prelude.{◌≡◌};
ghost use Rattle.rtgs_book.specs.Refusals.{refusal_kind_of};

use rtgs_money::Code;
use rtgs_refusals::RefusalKind;
use std::alloc::{AllocError, AllocFailed};

/// Why a command was refused. A refused command changes nothing, except a fault of the store, which leaves open
/// whether it acted.
#[derive(Clone, Copy, Debug, PartialEq, Eq)]
pub enum Refusal {
    /// No participant has the code.
    UnknownParticipant,
    /// No participant has the receiver's code.
    UnknownReceiver,
    /// The order is to its sender.
    SameParty,
    /// The reference names something else.
    ReferenceUsed,
    /// The desk takes no orders now.
    NotOpen,
    /// The balance would be below its floor.
    NoCover,
    /// As many orders of the sender are queued or held as may be, `LONGEST_QUEUE`.
    QueueFull,
    /// The last order, or posting, has the number `LARGEST_NUMBER`.
    NumbersUsedUp,
    /// The sender gave no order this reference.
    UnknownOrder,
    /// The code is another participant's.
    CodeTaken,
    /// The key is another participant's.
    KeyTaken,
    /// As many participants are there as may be, `MOST_PARTICIPANTS`.
    TooManyParticipants,
    /// All balances together would be more than `LARGEST_TOTAL`.
    TotalTooLarge,
    /// The command is for another phase.
    WrongPhase,
    /// The date is not later than the last, or not the day's.
    WrongDate,
    /// The date is a Saturday or a Sunday.
    Weekend,
    /// The order is neither queued nor held: it is settled or rejected.
    NotQueued,
    /// Queued orders could be settled together.
    Resolvable,
    /// This number of participants are below zero, and this is the first in code order.
    Overdrawn { first: Code, count: u64 },
    /// The due date is not later than the day's.
    DueNotLater,
    OutOfMemory,
    StoreFault,
    /// The store had failed before.
    Failed,
}

impl Refusal {
    /// What the refusal is known by: its number, its name and its statuses.
    pub fn kind(self) -> RefusalKind
        ensures { result ≡ refusal_kind_of self }
    {
        match self {
            Refusal::UnknownParticipant => RefusalKind::UnknownParticipant,
            Refusal::UnknownReceiver => RefusalKind::UnknownReceiver,
            Refusal::SameParty => RefusalKind::SameParty,
            Refusal::ReferenceUsed => RefusalKind::ReferenceUsed,
            Refusal::NotOpen => RefusalKind::NotOpen,
            Refusal::NoCover => RefusalKind::NoCover,
            Refusal::QueueFull => RefusalKind::QueueFull,
            Refusal::NumbersUsedUp => RefusalKind::NumbersUsedUp,
            Refusal::UnknownOrder => RefusalKind::UnknownOrder,
            Refusal::CodeTaken => RefusalKind::CodeTaken,
            Refusal::KeyTaken => RefusalKind::KeyTaken,
            Refusal::TooManyParticipants => RefusalKind::TooManyParticipants,
            Refusal::TotalTooLarge => RefusalKind::TotalTooLarge,
            Refusal::WrongPhase => RefusalKind::WrongPhase,
            Refusal::WrongDate => RefusalKind::WrongDate,
            Refusal::Weekend => RefusalKind::Weekend,
            Refusal::NotQueued => RefusalKind::NotQueued,
            Refusal::Resolvable => RefusalKind::Resolvable,
            Refusal::Overdrawn { .. } => RefusalKind::Overdrawn,
            Refusal::DueNotLater => RefusalKind::DueNotLater,
            Refusal::OutOfMemory => RefusalKind::OutOfMemory,
            Refusal::StoreFault => RefusalKind::StoreFault,
            Refusal::Failed => RefusalKind::Failed,
        }
    }
}

impl From<AllocError> for Refusal {
    ghost use Rattle.rtgs_book.specs.declared.refusal.Refusal.TheVariants.{OutOfMemory};

    ghost from_gives = { λ _ refusal. refusal ≡ OutOfMemory };

    fn from(_error: AllocError) -> Refusal {
        Refusal::OutOfMemory
    }
}

impl<T: Drop> From<AllocFailed<T>> for Refusal {
    ghost use Rattle.rtgs_book.specs.declared.refusal.Refusal.TheVariants.{OutOfMemory};

    ghost from_gives = { λ _ refusal. refusal ≡ OutOfMemory };

    fn from(_error: AllocFailed<T>) -> Refusal {
        Refusal::OutOfMemory
    }
}
