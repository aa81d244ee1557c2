//! Every row of the table of refusals, with values written out by hand.
use super::script::lines_of;
use rtgs_refusals::RefusalKind;
use rtgs_tests_desks::{ensure, is};
use std::alloc::Global;
use std::test::Fail;

/// The kind and what it is known by: number, name, status of the HTTP reply, exit status of the program.
pub fn row_of(alloc: Global, kind: RefusalKind) -> Result<String, Fail> {
    let (number, name) = (kind.number(), kind.name());
    let (http, exit) = (kind.http_status(), kind.exit_status());
    Ok(format!(in alloc; "{kind:?} = {number} {name} {http:?} {exit:?}")?)
}

const TABLE: &str = "
UnknownParticipant = 1 UnknownParticipant Some(404) Some(1)
UnknownReceiver = 2 UnknownReceiver Some(409) Some(1)
SameParty = 3 SameParty Some(409) Some(1)
ReferenceUsed = 4 ReferenceUsed Some(409) Some(1)
NotOpen = 5 NotOpen Some(409) Some(1)
NoCover = 6 NoCover Some(409) Some(1)
QueueFull = 7 QueueFull Some(409) Some(1)
NumbersUsedUp = 8 NumbersUsedUp Some(409) Some(1)
UnknownOrder = 9 UnknownOrder Some(404) Some(1)
CodeTaken = 10 CodeTaken Some(409) Some(1)
KeyTaken = 11 KeyTaken Some(409) Some(1)
TooManyParticipants = 12 TooManyParticipants Some(409) Some(1)
TotalTooLarge = 13 TotalTooLarge Some(409) Some(1)
WrongPhase = 14 WrongPhase Some(409) Some(1)
WrongDate = 15 WrongDate Some(409) Some(1)
Weekend = 16 Weekend Some(409) Some(1)
NotQueued = 17 NotQueued Some(409) Some(1)
Resolvable = 18 Resolvable Some(409) Some(1)
Overdrawn = 19 Overdrawn Some(409) Some(1)
DueNotLater = 20 DueNotLater Some(409) Some(1)
BadCode = 30 BadCode Some(400) Some(1)
BadReference = 31 BadReference Some(400) Some(1)
BadAmount = 32 BadAmount Some(400) Some(1)
BadName = 33 BadName Some(400) Some(1)
BadKey = 34 BadKey Some(400) Some(1)
BadDate = 35 BadDate Some(400) Some(1)
BadHeader = 40 BadHeader Some(400) Some(1)
BadRow = 41 BadRow Some(400) Some(1)
BadCount = 42 BadCount Some(400) Some(1)
BadHead = 60 BadHead Some(400) None
HeadTooLong = 61 HeadTooLong Some(413) None
NoLength = 62 NoLength Some(411) None
BodyTooLong = 63 BodyTooLong Some(413) Some(1)
Truncated = 64 Truncated Some(400) None
BadJson = 65 BadJson Some(400) None
WrongFields = 66 WrongFields Some(400) None
NoSuchRoute = 67 NoSuchRoute Some(404) None
NoKey = 68 NoKey Some(403) None
AnswerLost = 69 AnswerLost Some(503) None
OutOfMemory = 90 OutOfMemory Some(503) Some(3)
StoreFault = 91 StoreFault Some(503) Some(3)
Failed = 92 Failed Some(503) Some(3)
NotADeskFile = 93 NotADeskFile None Some(3)
Inconsistent = 94 Inconsistent None Some(3)
InUse = 95 InUse None Some(3)
FileExists = 96 FileExists None Some(3)
NoListen = 97 NoListen None Some(3)
NoOrderFile = 98 NoOrderFile None Some(3)
";

// What stands after a kind among these. The match that it makes has an arm for each of them.
macro_rules! after {
    ($kind:expr; [$($arms:tt)*] $last:ident) => {
        match $kind {
            $($arms)*
            RefusalKind::$last => None,
        }
    };
    ($kind:expr; [$($arms:tt)*] $one:ident $next:ident $($rest:ident)*) => {
        after!($kind; [$($arms)* RefusalKind::$one => Some(RefusalKind::$next),] $next $($rest)*)
    };
}

// The kind that stands after this one in the table. Since the match names every kind, one that is new is missed here
// first.
fn kind_after(kind: RefusalKind) -> Option<RefusalKind> {
    after!(kind; []
        UnknownParticipant UnknownReceiver SameParty ReferenceUsed NotOpen NoCover QueueFull NumbersUsedUp
        UnknownOrder CodeTaken KeyTaken TooManyParticipants TotalTooLarge WrongPhase WrongDate Weekend
        NotQueued Resolvable Overdrawn DueNotLater BadCode BadReference BadAmount BadName BadKey BadDate
        BadHeader BadRow BadCount BadHead HeadTooLong NoLength BodyTooLong Truncated BadJson WrongFields
        NoSuchRoute NoKey AnswerLost OutOfMemory StoreFault Failed NotADeskFile Inconsistent InUse FileExists
        NoListen NoOrderFile
    )
}

// There is a kind, and it is that of this line.
fn is_row(alloc: Global, kind: Option<RefusalKind>, line: &str) -> Result<(), Fail> {
    let kind = kind.ok_or("a row after that of the last kind")?;
    is(row_of(alloc, kind)?.as_str(), line)
}

#[test]
fn kinds_have_numbers_names_and_statuses(rt: HostRuntime) -> Result<(), Fail> {
    let mut next = Some(RefusalKind::UnknownParticipant);
    let mut rows = 0usize;
    for line in lines_of(TABLE)? {
        is_row(rt.alloc(), next, line)?;
        next = next.and_then(kind_after);
        rows = rows.saturating_add(1);
    }
    ensure(next.is_none() && rows == 48)
}
