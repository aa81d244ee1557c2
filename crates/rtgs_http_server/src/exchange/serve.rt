//! One request and its reply, over a reader and a writer.
ghost use Rattle.std.specs.Prelude.{◌≡◌};
ghost use Rattle.rtgs_http_server.specs.declared.input.reader_failed.ReaderFailed.{ReaderFailed};
ghost use Rattle.rtgs_book.specs.declared.book.Book.{Book};
ghost use Rattle.rtgs_desk.specs.Holding.{Holds};
ghost use Rattle.rtgs_http_server.specs.exchange.Handling.{Works};
ghost use Rattle.rtgs_http_server.specs.exchange.Exchange.{Exchanges};
ghost use Rattle.rtgs_http_server.specs.exchange.Serving.{Serves};

use crate::exchange::reply::reply_to;
use crate::exchange::served::Served;
use rtgs_desk::Desk;
use rtgs_keeper::Keeper;
use rtgs_money::KeyDigest;
use std::alloc::Global;
use std::io::{Read, Write};

/// Reads one request, does what it asks, and writes one reply (RFC 9112, sections 2 to 6). It is `reply_to`, which is
/// lent no writer, and then the reply is sent. That a participant is shown its own rows alone, and that a request
/// that comes again is answered as a repeat, are laws of `reply_laws`.
pub fn serve_one<R: Read, W: Write, K: Keeper>(
    alloc: Global,
    reader: &mut R,
    writer: &mut W,
    desk: &mut Desk<K>,
    operator: &KeyDigest,
) -> Served
    // What is written is a reply to the whole input, however reads cut it. Where the reader's bytes are not known,
    // there is an input to which it is one.
    ensures served { Serves (λ input sent. Exchanges K.Keeper operator.now desk.old input desk.new sent)
        (R.remaining reader.old) (W.contents writer.old) (W.contents writer.new) result }
    // Where the reader fails, no command was given.
    ensures read_fault { (failed : ReaderFailed) → result ≡ Served.ReadFault failed → desk.new ≡ desk.old }
    // Whatever was read, the commands are a session from the book that the desk held.
    ensures works { K.is_honest desk.new.keeper → (book : Book) → Holds K.Keeper desk.old book
        → Works K.Keeper book desk.new }
    ensures honest { K.is_honest desk.new.keeper → K.is_honest desk.old.keeper }
{
    let reply = match reply_to(alloc, reader, desk, operator) {
        Ok(reply) => reply,
        Err(failed) => return Served::ReadFault(failed),
    };
    let status = reply.status();
    match reply.send(writer) {
        Ok(()) => Served::Answered(status),
        Err(failed) => Served::WriteFault(status, failed),
    }
}
