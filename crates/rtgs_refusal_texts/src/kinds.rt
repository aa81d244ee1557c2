//! All refusals, by their numbers.
ghost use Rattle.std.specs.Prelude.{◌≡◌, ◌≢◌, IfSome, IfNone};
ghost use Rattle.rtgs_refusals.specs.Table.{entry_of};
ghost use Rattle.rtgs_refusals.specs.declared.refusal_kind.RefusalKind.{RefusalKind};

use rtgs_refusals::RefusalKind;

/// All kinds of refusals, in the order of their numbers.
pub const KINDS: [RefusalKind; 48] = [
    RefusalKind::UnknownParticipant,
    RefusalKind::UnknownReceiver,
    RefusalKind::SameParty,
    RefusalKind::ReferenceUsed,
    RefusalKind::NotOpen,
    RefusalKind::NoCover,
    RefusalKind::QueueFull,
    RefusalKind::NumbersUsedUp,
    RefusalKind::UnknownOrder,
    RefusalKind::CodeTaken,
    RefusalKind::KeyTaken,
    RefusalKind::TooManyParticipants,
    RefusalKind::TotalTooLarge,
    RefusalKind::WrongPhase,
    RefusalKind::WrongDate,
    RefusalKind::Weekend,
    RefusalKind::NotQueued,
    RefusalKind::Resolvable,
    RefusalKind::Overdrawn,
    RefusalKind::DueNotLater,
    RefusalKind::BadCode,
    RefusalKind::BadReference,
    RefusalKind::BadAmount,
    RefusalKind::BadName,
    RefusalKind::BadKey,
    RefusalKind::BadDate,
    RefusalKind::BadHeader,
    RefusalKind::BadRow,
    RefusalKind::BadCount,
    RefusalKind::BadHead,
    RefusalKind::HeadTooLong,
    RefusalKind::NoLength,
    RefusalKind::BodyTooLong,
    RefusalKind::Truncated,
    RefusalKind::BadJson,
    RefusalKind::WrongFields,
    RefusalKind::NoSuchRoute,
    RefusalKind::NoKey,
    RefusalKind::AnswerLost,
    RefusalKind::OutOfMemory,
    RefusalKind::StoreFault,
    RefusalKind::Failed,
    RefusalKind::NotADeskFile,
    RefusalKind::Inconsistent,
    RefusalKind::InUse,
    RefusalKind::FileExists,
    RefusalKind::NoListen,
    RefusalKind::NoOrderFile,
];

/// The kind of refusal that has a number. None where none has it.
pub fn kind_numbered(number: u8) -> Option<RefusalKind>
    ensures known { IfSome result (λ kind. (entry_of kind).number ≡ number) }
    ensures unknown { IfNone result ((kind : RefusalKind) → (entry_of kind).number ≢ number) }
{
    for kind in KINDS {
        if kind.number() == number {
            return Some(kind);
        }
    }
    None
}
