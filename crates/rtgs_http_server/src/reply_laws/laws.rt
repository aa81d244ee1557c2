//! Laws of the definitions. Each function does nothing: its contract is the law.
ghost use Rattle.std.specs.Prelude.{◌≡◌, ◌≢◌, true, ℕ, List, Ok};
ghost use Rattle.rtgs_book.specs.declared.book.Book.{Book};
ghost use Rattle.rtgs_book.specs.declared.command.Command.{Command};
ghost use Rattle.rtgs_book.specs.Choice.{Choice};
ghost use Rattle.rtgs_book.specs.Outcome.{Reply};
ghost use Rattle.rtgs_book.specs.Run.{Run, is_accepted};
ghost use Rattle.rtgs_book.specs.Soundness.{IsSound};
ghost use Rattle.rtgs_book.specs.Step.{Step};
ghost use Rattle.rtgs_desk.specs.Seen.{Seen};
ghost use Rattle.rtgs_http_server.specs.reply_laws.Again.{IsRepeatedBy};
ghost use Rattle.rtgs_http_server.specs.reply_laws.Alike.{EndAlike};
ghost use Rattle.rtgs_http_server.specs.exchange.Exchange.{Handles};
ghost use Rattle.rtgs_http_server.specs.reply_laws.Own.{AgreeFor, IsSentBy};
ghost use Rattle.rtgs_http_server.specs.exchange.ReplyMessages.{reading_message};
ghost use Rattle.rtgs_http_bodies.specs.replies.Messages.{Message};
ghost use Rattle.rtgs_http_requests.specs.Access.{IsReadingOf};
ghost use Rattle.rtgs_http_requests.specs.Exchange.{AsksFor};
ghost use Rattle.rtgs_http_requests.specs.declared.asked.Asked.{Asked};
ghost use Rattle.rtgs_book.specs.declared.reading.Reading.{Reading};
ghost use Rattle.rtgs_ledger.specs.Keys.{code_under};
ghost use Rattle.rtgs_laws.specs.repeats.Repeats.{answered_number};

use rtgs_book::laws::greatest_is_unique;
use rtgs_http_requests::feeds::laws::regions_are_determined;
use rtgs_http_requests::heads::laws::{heads_are_determined, keys_are_determined};
use rtgs_http_requests::laws::{answers_are_determined, participants_ask_for_their_own};
use rtgs_keeper::Keeper;
use rtgs_laws::laws::step_is_determined;
use rtgs_laws::repeats::laws::acted_is_repeated;

/// A participant reads its own rows alone: two books that agree in the day and in its record, its postings, the orders
/// that it sent and the settled orders to it have the same reply to each of its readings.
pub fn participants_read_their_own_rows()
    ensures { (one other : Book) (first second : Choice) (code : List ℕ) (reading : Reading)
        → IsReadingOf code reading → AgreeFor code one other
        → reading_message one first reading ≡ reading_message other second reading }
{}

/// So it is with a whole request: an input that carries a participant's key, and asks for a reading, has the same reply
/// from two such books. Set aside are replies with the status 503.
pub fn participants_are_shown_their_own_rows<K: Keeper>()
    ensures { (operator input code : List ℕ) (one other : Book) (first second : Seen K) (sent again : Message)
        (reading : Reading) → AgreeFor code one other
        → IsSentBy operator one code input → IsSentBy operator other code input
        → AsksFor operator (code_under one) input (Ok (Asked.Read reading))
        → Handles K.Keeper operator one input first sent → Handles K.Keeper operator other input second again
        → sent.status ≢ 503 → again.status ≢ 503 → again ≡ sent }
{
    regions_are_determined();
    heads_are_determined();
    keys_are_determined();
    answers_are_determined();
    participants_ask_for_their_own();
}

/// A book, the operator's digest and an input have one reply and one book after it. Set aside are replies with the
/// status 503: memory ran out, the store failed, or a batch stopped for one of these.
pub fn replies_are_determined<K: Keeper>()
    ensures { (operator input : List ℕ) (old : Book) (one other : Seen K) (sent again : Message)
        → Handles K.Keeper operator old input one sent → Handles K.Keeper operator old input other again
        → sent.status ≢ 503 → again.status ≢ 503 → EndAlike K.Keeper one other sent again }
{
    greatest_is_unique();
    step_is_determined();
    answers_are_determined();
}

/// What comes again is answered as a repeat, whatever came between: where an input that carries a participant's key
/// asked for an order or a withdrawal, and it was accepted, the same input asks for it again, is answered with
/// the same number, and changes nothing. Set aside are replies with the status 503.
pub fn requests_that_come_again_are_repeats<K: Keeper>()
    ensures { (operator input code : List ℕ) (old mid later : Book) (command : Command) (reply : Reply)
        (commands : List Command) (replies : List Reply) (desk : Seen K) (sent : Message) → IsSound old
        → IsSentBy operator old code input → IsSentBy operator later code input
        → AsksFor operator (code_under old) input (Ok (Asked.Submit command))
        → is_accepted reply ≡ true → Step old command reply mid → Run mid commands replies later
        → Handles K.Keeper operator later input desk sent → sent.status ≢ 503
        → IsRepeatedBy K.Keeper later command (answered_number reply) desk sent }
{
    regions_are_determined();
    heads_are_determined();
    keys_are_determined();
    answers_are_determined();
    participants_ask_for_their_own();
    step_is_determined();
    acted_is_repeated();
}
