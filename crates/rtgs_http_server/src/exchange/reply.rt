//! One request and the reply to it, over a reader.
ghost use Rattle.std.specs.Prelude.{◌≡◌, IfOk, OnErr, ℕ, List, true, Err};
ghost use Rattle.rtgs_book.specs.declared.book.Book.{Book};
ghost use Rattle.rtgs_desk.specs.Holding.{Holds};
ghost use Rattle.rtgs_http_server.specs.exchange.Handling.{Works};
ghost use Rattle.rtgs_http_server.specs.exchange.Exchange.{Exchanges};
ghost use Rattle.rtgs_http_server.specs.input.Input.{OfInput, Requests};
ghost use Rattle.rtgs_http_server.specs.input.Known.{KnowsOf};

use crate::exchange::commands::answer;
use crate::exchange::faults::{failed_reply, fault_reply};
use crate::exchange::readings::stands;
use crate::input::{ReaderFailed, Unread, read_request};
use rtgs_desk::Desk;
use rtgs_http_bodies::Reply;
use rtgs_http_requests::Asked;
use rtgs_http_requests::laws::participants_ask_for_their_own;
use rtgs_keeper::Keeper;
use rtgs_money::KeyDigest;
use std::alloc::Global;
use std::io::Read;

/// Reads one request, does what it asks, and makes the reply whole, after the last command (RFC 9112, sections 2 to 6).
/// It is lent no writer, so none of the reply is written before it has returned. The only error is a read that failed.
pub fn reply_to<R: Read, K: Keeper>(
    alloc: Global,
    reader: &mut R,
    desk: &mut Desk<K>,
    operator: &KeyDigest,
) -> Result<Reply, ReaderFailed>
    // It is a reply to the whole input, however reads cut it. Where the reader's bytes are not known, there is an input
    // to which it is one.
    ensures reply { IfOk result (λ sent. OfInput (R.remaining reader.old)
        (λ input. Exchanges K.Keeper operator.now desk.old input desk.new sent)) }
    // Where the reader fails, no command was given.
    ensures read_fault { OnErr result (desk.new ≡ desk.old) }
    // Whatever was read, the commands are a session from the book that the desk held.
    ensures works { K.is_honest desk.new.keeper → (book : Book) → Holds K.Keeper desk.old book
        → Works K.Keeper book desk.new }
    ensures honest { K.is_honest desk.new.keeper → K.is_honest desk.old.keeper }
{
    let request = read_request(alloc, reader, operator, desk);
    reply_to_request(alloc, desk, &request)
}

// Does what is asked, if anything is, and makes the reply. There is none where the reader failed.
fn reply_to_request<K: Keeper>(
    alloc: Global,
    desk: &mut Desk<K>,
    request: &Result<Asked, Unread>,
) -> Result<Reply, ReaderFailed>
    requires failed { request.now ≡ Err Unread.DirectoryFailed → K.has_failed desk.old.keeper ≡ true }
    ensures reply { IfOk result (λ sent. (operator input : List ℕ)
        → Requests (KnowsOf K.Keeper desk.old) operator input request.now
        → Exchanges K.Keeper operator desk.old input desk.new sent) }
    ensures works { K.is_honest desk.new.keeper → (book : Book) → Holds K.Keeper desk.old book
        → Works K.Keeper book desk.new }
    ensures nothing { OnErr result (desk.new ≡ desk.old) }
    ensures honest { K.is_honest desk.new.keeper → K.is_honest desk.old.keeper }
{
    participants_ask_for_their_own();
    desk.holds_a_sound_book();
    stands(desk);
    match request {
        Ok(asked) => Ok(answer(alloc, desk, asked)),
        Err(Unread::Faulty(fault)) => Ok(fault_reply(alloc, *fault)),
        Err(Unread::DirectoryFailed) => Ok(failed_reply(alloc)),
        Err(Unread::Reader(failed)) => Err(*failed),
    }
}
