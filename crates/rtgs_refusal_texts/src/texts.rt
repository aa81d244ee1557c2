//! What is said of each refusal: its number and its name, what it means, what it comes from, and what to do. The
//! handbook of operators has the same table, which `bin/checks documents` compares with this one.
ghost use Rattle.std.specs.Prelude.{◌≡◌};
ghost use Rattle.rtgs_refusal_texts.specs.Texts.{text_of};

use rtgs_refusals::RefusalKind;

const UNKNOWN_PARTICIPANT: &str = "\
01 UnknownParticipant
  means: no participant has the code
  comes from: each command and reading that names a participant; an `import` has 1 in each row of
      its result file
  do: correct the code, or `add` the participant first
";

const UNKNOWN_RECEIVER: &str = "\
02 UnknownReceiver
  means: no participant has the receiver's code
  comes from: an order
  do: tell the sender; once the receiver is added, the order can be sent again
";

const SAME_PARTY: &str = "\
03 SameParty
  means: the receiver of the order is its sender
  comes from: an order
  do: tell the sender: a bank cannot pay itself
";

const REFERENCE_USED: &str = "\
04 ReferenceUsed
  means: another posting, or another order of the sender, has the reference already
  comes from: `post`; an order
  do: compare with the book; if this posting or order is a new one, use a new reference
";

const NOT_OPEN: &str = "\
05 NotOpen
  means: no day is open for orders
  comes from: an order
  do: send it after `open` and before `cutoff`
";

const NO_COVER: &str = "\
06 NoCover
  means: the balance would be below its floor, or is below the floor that the new limit gives
  comes from: `post --debit`; `credit`, unless the desk is closed
  do: take less, set a higher limit, or post money first
";

const QUEUE_FULL: &str = "\
07 QueueFull
  means: the order would have to wait, and 500 orders of its sender are queued or held already
  comes from: an order
  do: if money is lacking, post money; then `resolve` (unless the day is automatic), and send the
      order again. A held order makes room when it is withdrawn, or when it has entered its queue
      and leaves it
";

const NUMBERS_USED_UP: &str = "\
08 NumbersUsedUp
  means: the book has 999999999 postings, or orders
  comes from: `post`; an order
  do: begin a new book
";

const UNKNOWN_ORDER: &str = "\
09 UnknownOrder
  means: the participant has sent no order with this reference
  comes from: `withdraw`, `order`
  do: correct the code or the reference
";

const CODE_TAKEN: &str = "\
10 CodeTaken
  means: a participant with this code is there, and has another name or key
  comes from: `add`
  do: choose another code; a participant cannot be changed
";

const KEY_TAKEN: &str = "\
11 KeyTaken
  means: another participant has the key
  comes from: `add`
  do: make a new key
";

const TOO_MANY_PARTICIPANTS: &str = "\
12 TooManyParticipants
  means: the book has 100 participants
  comes from: `add`
  do: no more can be added to this book
";

const TOTAL_TOO_LARGE: &str = "\
13 TotalTooLarge
  means: the sum of all balances would exceed 10^15 cents
  comes from: `post`
  do: post less
";

const WRONG_PHASE: &str = "\
14 WrongPhase
  means: the command does not fit the phase of the desk: closed, open or cut off
  comes from: `open` while a day is open or cut off, also to make that day automatic or plain;
      `cutoff` while none is open; `close` unless a day is cut off; `resolve` while the desk is
      closed
  do: give `open`, `cutoff` and `close` in this order; `accounts` tells the phase
";

const WRONG_DATE: &str = "\
15 WrongDate
  means: the date is not later than the last business date (`open`), or not the business date
      (`cutoff`, `close`)
  comes from: `open`, `cutoff`, `close`
  do: correct the date
";

const WEEKEND: &str = "\
16 Weekend
  means: the date, or the due date of the order, is a Saturday or a Sunday
  comes from: `open`; an order
  do: choose a weekday. The desk knows no holidays: an order that is due on a day without business
      goes to its queue on the next day that is opened
";

const NOT_QUEUED: &str = "\
17 NotQueued
  means: the order has settled, or was rejected
  comes from: `withdraw`
  do: an order that has settled is final: the receiver can pay the money back by an order of its
      own
";

const RESOLVABLE: &str = "\
18 Resolvable
  means: some queued orders could settle
  comes from: `close`
  do: `resolve`, then `close`
";

const OVERDRAWN: &str = "\
19 Overdrawn
  means: balances are below 0; the code of the first such participant stands behind the name, and
      how many there are
  comes from: `close`
  do: `post` to each participant what it lacks, which `accounts` tells, then `close`. If that
      `close` is refused with 18, since more orders can settle after the posting, `resolve` first
";

const DUE_NOT_LATER: &str = "\
20 DueNotLater
  means: the order's due date is not later than the business date
  comes from: an order
  do: the sender leaves the due date out, or names a later one
";

const BAD_CODE: &str = "\
30 BadCode
  means: a code is not of its form: 3 to 8 characters, a capital letter, then capital letters or
      digits
  comes from: a command line; the body of a request
  do: correct the code
";

const BAD_REFERENCE: &str = "\
31 BadReference
  means: a reference is not of its form: 1 to 16 characters, each a capital letter, a digit or `-`
  comes from: a command line; the path or the body of a request
  do: correct the reference
";

const BAD_AMOUNT: &str = "\
32 BadAmount
  means: an amount is not of its form, or not within its limits
  comes from: a command line; the body of a request
  do: write whole cents, on a command line without a sign, a point or leading zeros
";

const BAD_NAME: &str = "\
33 BadName
  means: a name is not of its form: 1 to 40 printable ASCII characters, no space first or last
  comes from: `add`
  do: correct the name
";

const BAD_KEY: &str = "\
34 BadKey
  means: a key is not of its form: 32 characters of 0-9 and a-f
  comes from: `add`, `serve`
  do: make a key: `openssl rand -hex 16`
";

const BAD_DATE: &str = "\
35 BadDate
  means: a date is not of its form, does not exist, or is not in the years 2000 to 2999
  comes from: a command line; the path or the body of a request
  do: write the date as YYYY-MM-DD
";

const BAD_HEADER: &str = "\
40 BadHeader
  means: the order file begins neither with `reference,to,amount` nor with
      `reference,to,amount,due`
  comes from: `import`; a batch over HTTP
  do: the sender corrects the file. No order of the file was submitted
";

const BAD_ROW: &str = "\
41 BadRow
  means: a row of the order file is not of the form of an order; the number of the first such row,
      counted from 1 after the header, stands behind the name
  comes from: `import`; a batch over HTTP
  do: the sender corrects the file. No order of the file was submitted
";

const BAD_COUNT: &str = "\
42 BadCount
  means: the order file has no row, or more than 500
  comes from: `import`; a batch over HTTP
  do: the sender corrects the file, or splits it into several. No order of the file was submitted
";

const BAD_HEAD: &str = "\
60 BadHead
  means: the head of the request is not of the form that the desk takes
  comes from: a request over HTTP
  do: correct the request; a proxy has to speak HTTP/1.1 to the desk
";

const HEAD_TOO_LONG: &str = "\
61 HeadTooLong
  means: the head of the request does not end within 8192 bytes
  comes from: a request over HTTP
  do: send fewer or shorter header fields
";

const NO_LENGTH: &str = "\
62 NoLength
  means: the request does not tell the length of its body
  comes from: a request over HTTP
  do: send the header field `Content-Length`
";

const BODY_TOO_LONG: &str = "\
63 BodyTooLong
  means: the order file, or the body of the request, has more than 65536 bytes
  comes from: `import`; a request over HTTP
  do: split the file into several, or send a shorter body. Nothing was done
";

const TRUNCATED: &str = "\
64 Truncated
  means: the request ended before its head or its body was whole
  comes from: a request over HTTP
  do: send the request again
";

const BAD_JSON: &str = "\
65 BadJson
  means: the body of the request is not the JSON that the desk takes
  comes from: a request over HTTP
  do: correct the body
";

const WRONG_FIELDS: &str = "\
66 WrongFields
  means: the JSON of the request has other keys than its route, or a value of another kind
  comes from: a request over HTTP
  do: correct the body: openapi.yaml has the keys of each route
";

const NO_SUCH_ROUTE: &str = "\
67 NoSuchRoute
  means: the method and the path of the request name nothing
  comes from: a request over HTTP
  do: correct the method or the path
";

const NO_KEY: &str = "\
68 NoKey
  means: the request does not have exactly one key; or nobody has this key; or the key's owner may
      not use this path
  comes from: a request over HTTP
  do: correct the key or the path
";

const ANSWER_LOST: &str = "\
69 AnswerLost
  means: the desk has answered the request, and memory was wanting for the reply; a command that
      was accepted stands
  comes from: a request over HTTP
  do: send the same request again
";

const OUT_OF_MEMORY: &str = "\
90 OutOfMemory
  means: memory ran out. Nothing has changed, except for the orders of an `import` that were
      accepted before: they stand
  comes from: each run and each request
  do: give the machine more memory, and give the command again
";

const STORE_FAULT: &str = "\
91 StoreFault
  means: the file cannot be examined or read, or its storage failed. The command may or may not
      have acted
  comes from: another tool that has the file open; a disk that is full or failing; a file that is
      read-only, has a second hard link, or is damaged
  do: remove the cause, and give the same command again; see OPERATORS.md, \"After 90 to 98\"
";

const FAILED: &str = "\
92 Failed
  means: the storage had failed before
  comes from: nothing: a run ends, and so does a server, once its storage has failed
  do: do as after 91
";

const NOT_A_DESK_FILE: &str = "\
93 NotADeskFile
  means: the file is missing, is empty or has not the tables of a desk, or those of another version
  comes from: each run over a book but `init`
  do: check the name of the file; `migrate` a book that an older program made; else see
      OPERATORS.md, \"After 90 to 98\"
";

const INCONSISTENT: &str = "\
94 Inconsistent
  means: the book breaks a rule; the number of the first rule that is broken stands behind the name
  comes from: each run over a book but `init`, where someone else wrote to the file
  do: keep FILE and FILE-wal as they are for the auditor, and restore the book; see OPERATORS.md,
      \"After 90 to 98\"
";

const IN_USE: &str = "\
95 InUse
  means: another run, a server or a backup holds the lock of the file, or the lock cannot be made
  comes from: each run over a book
  do: give the command again; while a server runs, give it over HTTP
";

const FILE_EXISTS: &str = "\
96 FileExists
  means: the file is there already, and is not empty
  comes from: `init`
  do: use another name; the file is unchanged
";

const NO_LISTEN: &str = "\
97 NoListen
  means: the port cannot be opened, for example because another program uses it
  comes from: `serve`
  do: use another port. Nothing was served
";

const NO_ORDER_FILE: &str = "\
98 NoOrderFile
  means: the order file cannot be read
  comes from: `import`
  do: check its name and its permissions. No order was submitted
";

/// What is said of a refusal, in lines of fewer than 100 characters.
pub fn text_of(kind: RefusalKind) -> &'static str
    ensures { result.now ≡ text_of kind }
{
    match kind {
        RefusalKind::UnknownParticipant => UNKNOWN_PARTICIPANT,
        RefusalKind::UnknownReceiver => UNKNOWN_RECEIVER,
        RefusalKind::SameParty => SAME_PARTY,
        RefusalKind::ReferenceUsed => REFERENCE_USED,
        RefusalKind::NotOpen => NOT_OPEN,
        RefusalKind::NoCover => NO_COVER,
        RefusalKind::QueueFull => QUEUE_FULL,
        RefusalKind::NumbersUsedUp => NUMBERS_USED_UP,
        RefusalKind::UnknownOrder => UNKNOWN_ORDER,
        RefusalKind::CodeTaken => CODE_TAKEN,
        RefusalKind::KeyTaken => KEY_TAKEN,
        RefusalKind::TooManyParticipants => TOO_MANY_PARTICIPANTS,
        RefusalKind::TotalTooLarge => TOTAL_TOO_LARGE,
        RefusalKind::WrongPhase => WRONG_PHASE,
        RefusalKind::WrongDate => WRONG_DATE,
        RefusalKind::Weekend => WEEKEND,
        RefusalKind::NotQueued => NOT_QUEUED,
        RefusalKind::Resolvable => RESOLVABLE,
        RefusalKind::Overdrawn => OVERDRAWN,
        RefusalKind::DueNotLater => DUE_NOT_LATER,
        RefusalKind::BadCode => BAD_CODE,
        RefusalKind::BadReference => BAD_REFERENCE,
        RefusalKind::BadAmount => BAD_AMOUNT,
        RefusalKind::BadName => BAD_NAME,
        RefusalKind::BadKey => BAD_KEY,
        RefusalKind::BadDate => BAD_DATE,
        RefusalKind::BadHeader => BAD_HEADER,
        RefusalKind::BadRow => BAD_ROW,
        RefusalKind::BadCount => BAD_COUNT,
        RefusalKind::BadHead => BAD_HEAD,
        RefusalKind::HeadTooLong => HEAD_TOO_LONG,
        RefusalKind::NoLength => NO_LENGTH,
        RefusalKind::BodyTooLong => BODY_TOO_LONG,
        RefusalKind::Truncated => TRUNCATED,
        RefusalKind::BadJson => BAD_JSON,
        RefusalKind::WrongFields => WRONG_FIELDS,
        RefusalKind::NoSuchRoute => NO_SUCH_ROUTE,
        RefusalKind::NoKey => NO_KEY,
        RefusalKind::AnswerLost => ANSWER_LOST,
        RefusalKind::OutOfMemory => OUT_OF_MEMORY,
        RefusalKind::StoreFault => STORE_FAULT,
        RefusalKind::Failed => FAILED,
        RefusalKind::NotADeskFile => NOT_A_DESK_FILE,
        RefusalKind::Inconsistent => INCONSISTENT,
        RefusalKind::InUse => IN_USE,
        RefusalKind::FileExists => FILE_EXISTS,
        RefusalKind::NoListen => NO_LISTEN,
        RefusalKind::NoOrderFile => NO_ORDER_FILE,
    }
}
