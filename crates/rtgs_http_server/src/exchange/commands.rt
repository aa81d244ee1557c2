//! What is asked of the desk, and what is replied.
ghost use Rattle.std.specs.Prelude.{◌≡◌, ◌⊎◌, true, Ok, Err, IfOk, IsOk};
ghost use Rattle.rtgs_book.specs.declared.book.Book.{Book};
ghost use Rattle.rtgs_book.specs.declared.refusal.Refusal.{Refusal};
ghost use Rattle.rtgs_desk.specs.Holding.{Holds};
ghost use Rattle.rtgs_http_server.specs.exchange.Handling.{ComesTo, GivesNothing, Submits, SubmitsAll};
ghost use Rattle.rtgs_http_server.specs.exchange.ReplyMessages.{IsSaid, IsSentOrLost, reply_message};
ghost use Rattle.rtgs_http_bodies.specs.Refusals.{refused_message};
ghost use Rattle.rtgs_http_bodies.specs.replies.Kinds.{no_memory};
ghost use Rattle.rtgs_http_bodies.specs.replies.Messages.{Message};

use crate::exchange::faults::failed_reply;
use crate::exchange::readings::{read, stands};
use rtgs_book::{Command, NewOrder, Refusal, WholeAnswer};
use rtgs_desk::{Desk, submit_batch};
use rtgs_http_bodies::{Reply, answer_reply, batch_reply, refusal_reply};
use rtgs_http_requests::Asked;
use rtgs_keeper::Keeper;
use rtgs_money::Code;
use std::alloc::{AllocError, Global};

/// Does what is asked, and makes the reply. Lack of memory before the desk was given a command has one fixed reply, and
/// lack of memory after it the other. A desk that has failed is given nothing.
pub(in crate::exchange) fn answer<K: Keeper>(
    alloc: Global,
    desk: &mut Desk<K>,
    asked: &Asked,
) -> Reply
    ensures comes { K.is_honest desk.new.keeper → (book : Book) → Holds K.Keeper desk.old book
        → ComesTo K.Keeper book (Ok asked.now) desk.new result }
    ensures honest { K.is_honest desk.new.keeper → K.is_honest desk.old.keeper }
    ensures failed { K.has_failed desk.old.keeper ≡ true
        → (desk.new ≡ desk.old) × IsSaid (refused_message Refusal.Failed) result }
{
    desk.holds_a_sound_book();
    if desk.failed() {
        return failed_reply(alloc);
    }
    match asked {
        Asked::Submit(command) => submit(alloc, desk, *command),
        Asked::Batch { sender, rows } => submit_all(alloc, desk, *sender, rows.as_slice()),
        Asked::Read(reading) => read(alloc, desk, *reading),
    }
}

// Gives a command, and makes the reply.
fn submit<K: Keeper>(alloc: Global, desk: &mut Desk<K>, command: Command) -> Reply
    ensures submits { K.is_honest desk.new.keeper → (book : Book) → Holds K.Keeper desk.old book
        → Submits K.Keeper book command desk.new result }
    ensures honest { K.is_honest desk.new.keeper → K.is_honest desk.old.keeper }
{
    desk.holds_a_sound_book();
    let reply = desk.submit(command);
    tell(alloc, reply)
}

// The HTTP reply to a reply of the desk. Where memory was refused for the command it is the fixed one, which takes
// none.
fn tell(alloc: Global, reply: Result<WholeAnswer, Refusal>) -> Reply
    ensures sent_or_lost { IsSentOrLost (reply_message reply) result }
    ensures refused { reply ≡ Err Refusal.OutOfMemory → result ≡ no_memory }
{
    match reply {
        Ok(answer) => or_lost(answer_reply(alloc, answer)),
        Err(refusal) => or_lost(refusal_reply(alloc, refusal)),
    }
}

// The reply, or that the answer is lost.
fn or_lost(made: Result<Reply, AllocError>) -> Reply
    ensures sent_or_lost { (wanted : Message) → IfOk made (λ reply. reply ≡ wanted) → IsSentOrLost wanted result }
    ensures made { (wanted : Message) → IfOk made (λ reply. reply ≡ wanted) → IsOk made → result ≡ wanted }
{
    match made {
        Ok(reply) => reply,
        Err(_) => Reply::answer_lost(),
    }
}

// Gives the orders of the rows, and makes the reply with the result file.
fn submit_all<K: Keeper>(
    alloc: Global,
    desk: &mut Desk<K>,
    sender: Code,
    rows: &[NewOrder],
) -> Reply
    ensures submits { K.is_honest desk.new.keeper → (book : Book) → Holds K.Keeper desk.old book
        → GivesNothing K.Keeper book desk.new result
        ⊎ SubmitsAll K.Keeper book sender rows.now desk.new result }
    ensures honest { K.is_honest desk.new.keeper → K.is_honest desk.old.keeper }
{
    desk.holds_a_sound_book();
    stands(desk);
    let Ok(batch) = submit_batch(alloc, desk, sender, rows) else {
        return Reply::out_of_memory();
    };
    or_lost(batch_reply(alloc, rows, &batch))
}
