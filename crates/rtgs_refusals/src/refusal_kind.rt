//! Kinds of refusals, and what each is known by.
ghost use Rattle.std.specs.Prelude.{◌≡◌, ◌⊎◌, IfSome};
ghost use Rattle.rtgs_refusals.specs.Table.{entry_of};

use crate::exit_status::{FAILED, REFUSED};

/// Why something that was asked for was not done, without the particulars of the one case.
#[derive(Clone, Copy, Debug, PartialEq, Eq)]
pub enum RefusalKind {
    /// No participant has the code.
    UnknownParticipant,
    /// No participant has the receiver's code.
    UnknownReceiver,
    /// An order is to its sender.
    SameParty,
    /// The reference names something else.
    ReferenceUsed,
    /// The desk takes no orders now.
    NotOpen,
    /// A balance would be below its floor.
    NoCover,
    /// A queue has no room for one more order.
    QueueFull,
    /// No number is left for an order or a posting.
    NumbersUsedUp,
    /// The sender gave no order this reference.
    UnknownOrder,
    /// The code is another participant's.
    CodeTaken,
    /// The key is another participant's.
    KeyTaken,
    /// There is no room for one more participant.
    TooManyParticipants,
    /// All balances together would be too large.
    TotalTooLarge,
    /// The command is for another phase.
    WrongPhase,
    /// The date is not later than the last, or not the day's.
    WrongDate,
    /// The date is a Saturday or a Sunday.
    Weekend,
    /// The order is neither queued nor held.
    NotQueued,
    /// Queued orders could be settled together.
    Resolvable,
    /// Participants are below zero.
    Overdrawn,
    /// The due date of an order is not later than the day's.
    DueNotLater,
    /// A code is not of its form.
    BadCode,
    /// A reference is not of its form.
    BadReference,
    /// An amount is not of its form.
    BadAmount,
    /// A name is not of its form.
    BadName,
    /// A key is not of its form.
    BadKey,
    /// A date is not of its form.
    BadDate,
    /// The first record of an order file is not its header.
    BadHeader,
    /// A row of an order file is no order.
    BadRow,
    /// An order file has no row, or too many.
    BadCount,
    /// The head of an HTTP request is not of its form.
    BadHead,
    /// The head of an HTTP request is too long.
    HeadTooLong,
    /// An HTTP request does not tell the length of its body.
    NoLength,
    /// The body of an HTTP request, or an order file, is too long.
    BodyTooLong,
    /// An HTTP request ended too soon.
    Truncated,
    /// The body of an HTTP request is no JSON.
    BadJson,
    /// The JSON of an HTTP request has other fields, or values of other kinds.
    WrongFields,
    /// An HTTP request has a method and a target that name nothing.
    NoSuchRoute,
    /// An HTTP request has no key, or none that may ask for this.
    NoKey,
    /// A command was done, and its answer is lost.
    AnswerLost,
    OutOfMemory,
    StoreFault,
    /// The store had failed before.
    Failed,
    /// What is stored is no desk's tables.
    NotADeskFile,
    /// The book breaks a rule of soundness.
    Inconsistent,
    /// Another run holds the lock of the file, or the lock cannot be made.
    InUse,
    /// There is a file already where a book is to be made.
    FileExists,
    /// The port cannot be listened at.
    NoListen,
    /// The file of orders cannot be read.
    NoOrderFile,
}

impl RefusalKind {
    /// The number by which the refusal is known.
    pub fn number(self) -> u8
        ensures { result ≡ (entry_of self).number }
    {
        self.entry().0
    }

    /// The name that stands beside the number.
    pub fn name(self) -> &'static str
        ensures { result.now ≡ (entry_of self).name }
    {
        self.entry().1
    }

    /// The status of the HTTP reply (RFC 9110, section 15). None where no HTTP request meets the refusal.
    pub fn http_status(self) -> Option<u16>
        ensures { result ≡ (entry_of self).http_status }
    {
        self.entry().2
    }

    /// The status with which the program ends. None where no run of it meets the refusal.
    pub fn exit_status(self) -> Option<u8>
        ensures status { result ≡ (entry_of self).exit_status }
        ensures refused_or_failed { IfSome result (λ status. (status ≡ REFUSED) ⊎ (status ≡ FAILED)) }
    {
        self.entry().3
    }

    // The table, a row for each kind: number, name, status of the HTTP reply, exit status of the program.
    fn entry(self) -> (u8, &'static str, Option<u16>, Option<u8>)
        ensures number { result.0 ≡ (entry_of self).number }
        ensures name { result.1.now ≡ (entry_of self).name }
        ensures http_status { result.2 ≡ (entry_of self).http_status }
        ensures exit_status { result.3 ≡ (entry_of self).exit_status }
    {
        match self {
            Self::UnknownParticipant => (1, "UnknownParticipant", Some(404), Some(REFUSED)),
            Self::UnknownReceiver => (2, "UnknownReceiver", Some(409), Some(REFUSED)),
            Self::SameParty => (3, "SameParty", Some(409), Some(REFUSED)),
            Self::ReferenceUsed => (4, "ReferenceUsed", Some(409), Some(REFUSED)),
            Self::NotOpen => (5, "NotOpen", Some(409), Some(REFUSED)),
            Self::NoCover => (6, "NoCover", Some(409), Some(REFUSED)),
            Self::QueueFull => (7, "QueueFull", Some(409), Some(REFUSED)),
            Self::NumbersUsedUp => (8, "NumbersUsedUp", Some(409), Some(REFUSED)),
            Self::UnknownOrder => (9, "UnknownOrder", Some(404), Some(REFUSED)),
            Self::CodeTaken => (10, "CodeTaken", Some(409), Some(REFUSED)),
            Self::KeyTaken => (11, "KeyTaken", Some(409), Some(REFUSED)),
            Self::TooManyParticipants => (12, "TooManyParticipants", Some(409), Some(REFUSED)),
            Self::TotalTooLarge => (13, "TotalTooLarge", Some(409), Some(REFUSED)),
            Self::WrongPhase => (14, "WrongPhase", Some(409), Some(REFUSED)),
            Self::WrongDate => (15, "WrongDate", Some(409), Some(REFUSED)),
            Self::Weekend => (16, "Weekend", Some(409), Some(REFUSED)),
            Self::NotQueued => (17, "NotQueued", Some(409), Some(REFUSED)),
            Self::Resolvable => (18, "Resolvable", Some(409), Some(REFUSED)),
            Self::Overdrawn => (19, "Overdrawn", Some(409), Some(REFUSED)),
            Self::DueNotLater => (20, "DueNotLater", Some(409), Some(REFUSED)),
            Self::BadCode => (30, "BadCode", Some(400), Some(REFUSED)),
            Self::BadReference => (31, "BadReference", Some(400), Some(REFUSED)),
            Self::BadAmount => (32, "BadAmount", Some(400), Some(REFUSED)),
            Self::BadName => (33, "BadName", Some(400), Some(REFUSED)),
            Self::BadKey => (34, "BadKey", Some(400), Some(REFUSED)),
            Self::BadDate => (35, "BadDate", Some(400), Some(REFUSED)),
            Self::BadHeader => (40, "BadHeader", Some(400), Some(REFUSED)),
            Self::BadRow => (41, "BadRow", Some(400), Some(REFUSED)),
            Self::BadCount => (42, "BadCount", Some(400), Some(REFUSED)),
            Self::BadHead => (60, "BadHead", Some(400), None),
            Self::HeadTooLong => (61, "HeadTooLong", Some(413), None),
            Self::NoLength => (62, "NoLength", Some(411), None),
            Self::BodyTooLong => (63, "BodyTooLong", Some(413), Some(REFUSED)),
            Self::Truncated => (64, "Truncated", Some(400), None),
            Self::BadJson => (65, "BadJson", Some(400), None),
            Self::WrongFields => (66, "WrongFields", Some(400), None),
            Self::NoSuchRoute => (67, "NoSuchRoute", Some(404), None),
            Self::NoKey => (68, "NoKey", Some(403), None),
            Self::AnswerLost => (69, "AnswerLost", Some(503), None),
            Self::OutOfMemory => (90, "OutOfMemory", Some(503), Some(FAILED)),
            Self::StoreFault => (91, "StoreFault", Some(503), Some(FAILED)),
            Self::Failed => (92, "Failed", Some(503), Some(FAILED)),
            Self::NotADeskFile => (93, "NotADeskFile", None, Some(FAILED)),
            Self::Inconsistent => (94, "Inconsistent", None, Some(FAILED)),
            Self::InUse => (95, "InUse", None, Some(FAILED)),
            Self::FileExists => (96, "FileExists", None, Some(FAILED)),
            Self::NoListen => (97, "NoListen", None, Some(FAILED)),
            Self::NoOrderFile => (98, "NoOrderFile", None, Some(FAILED)),
        }
    }
}
