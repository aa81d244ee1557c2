//! What a run did, as it is printed.
ghost use Rattle.std.specs.Prelude.{◌≡◌, ◌+◌, ◌<◌, ◌≤◌, ◌++◌, ◌∷◌, [], Some, codes, decimal};
ghost use Rattle.arrayvec.specs.ArrayString.{array_string_len};
ghost use Rattle.rtgs_book.specs.Standings.{word_of};
ghost use Rattle.rtgs_cli_lines.specs.Lines.{answer_line, auto_line, done_line, whole_line};
ghost use Rattle.rtgs_cli_lines.specs.SentTo.{IsSentTo};

use crate::line::{LineBuffer, ROOM};
use rtgs_book::{Answer, Resolution, Standing, WholeAnswer};
use rtgs_output::WriterFailed;
use std::fmt;
use std::io::Write;

/// What is printed where what was asked for had been done before.
const REPEATED: &str = "repeated";

/// The most bytes of one line of an answer, where it may have two.
const LONGEST_LINE: usize = 88;

/// What a run did. It prints as one line, or as two where something was resolved after the command, without the end of
/// the last.
#[derive(Clone, Copy, Debug, PartialEq, Eq)]
pub enum Done {
    /// A new book was made.
    Made,
    /// The tables of a book were brought to the newest version.
    Migrated,
    /// What was asked for had been done before.
    Repeated,
    Answered(WholeAnswer),
    /// The server waits for connections on this port.
    Listening { port: u16 },
    /// The server has served this many connections, all that it was to serve.
    Served { count: u32 },
}

impl Done {
    /// Prints the line or the two lines with their ends, in one piece. Where the writer fails, a beginning of that is
    /// printed, and not all.
    pub fn print<O: Write>(self, out: &mut O) -> Result<(), WriterFailed>
        ensures { IsSentTo result (O.contents out.old) (O.contents out.new) (done_line self ++ 10 ∷ []) }
    {
        self.line().send(out)
    }

    // The line or the two lines, without the end of the last.
    fn line(self) -> LineBuffer
        ensures text { result.text.bytes ≡ done_line self }
        ensures room { array_string_len result.text < ROOM }
    {
        match self {
            Done::Made => LineBuffer::of("initialised"),
            Done::Migrated => LineBuffer::of("migrated"),
            Done::Repeated => LineBuffer::of(REPEATED),
            Done::Answered(answer) => whole_line(answer),
            Done::Listening { port } => LineBuffer::of("listening ").number(port),
            Done::Served { count } => LineBuffer::of("served ").number(count),
        }
    }
}

// An answer as one line, and what was resolved after the command as a second, without the end of the last.
fn whole_line(answer: WholeAnswer) -> LineBuffer
    ensures text { result.text.bytes ≡ whole_line answer }
    ensures room { array_string_len result.text < ROOM }
{
    let line = answer_line(answer.own);
    match answer.auto {
        None => line,
        Some(auto) => line.then(auto_line(auto).as_str()),
    }
}

// What was resolved after a command, as a second line behind the end of the first, without its own.
fn auto_line(auto: Resolution) -> LineBuffer
    ensures text { result.text.bytes ≡ auto_line (Some auto) }
    ensures room { array_string_len result.text ≤ LONGEST_LINE }
{
    let line = LineBuffer::of("\nauto mark ").number(auto.mark);
    let line = line.then(" count ").number(auto.count);
    line.then(" value ").number(auto.value.cents())
}

// An answer as one line, without its end.
fn answer_line(answer: Answer) -> LineBuffer
    ensures text { result.text.bytes ≡ answer_line answer }
    ensures room { array_string_len result.text ≤ LONGEST_LINE }
{
    match answer {
        Answer::Added => LineBuffer::of("added"),
        Answer::CreditSet => LineBuffer::of("credit set"),
        Answer::Posted { number } => LineBuffer::of("posted ").number(number),
        Answer::Opened => LineBuffer::of("opened"),
        Answer::Settled { number, mark } => {
            order_line(Standing::Settled, number)
                .then(" mark ")
                .number(mark)
        }
        Answer::Queued { number, place } => {
            order_line(Standing::Queued, number)
                .then(" place ")
                .number(place)
        }
        Answer::Held { number, due } => {
            let due = due.text();
            order_line(Standing::Held, number)
                .then(" due ")
                .then(due.as_str())
        }
        Answer::Withdrawn { number } => order_line(Standing::Withdrawn, number),
        Answer::Resolved { mark, count, value } => {
            let line = LineBuffer::of("resolved mark ").number(mark);
            let line = line.then(" count ").number(count);
            line.then(" value ").number(value.cents())
        }
        Answer::Nothing => LineBuffer::of("nothing"),
        Answer::CutOffDone => LineBuffer::of("cut off"),
        Answer::Closed { rejected } => LineBuffer::of("closed rejected ").number(rejected),
        Answer::Repeated(_) => LineBuffer::of(REPEATED),
    }
}

// Where an order stands now, and its number.
#[tactic(auto, using(crate::proofs::Words::is_short))]
fn order_line(standing: Standing, number: u64) -> LineBuffer
    ensures text { result.text.bytes ≡ word_of standing ++ codes " " ++ decimal number }
    ensures room { array_string_len result.text ≤ 30 }
{
    LineBuffer::of(standing.word()).then(" ").number(number)
}

impl fmt::Display for Done {
    ghost use Rattle.std.specs.Prelude.{Some};
    ghost use Rattle.rtgs_cli_lines.specs.Lines.{done_line};

    ghost output = { λ done. Some (done_line done) };

    fn fmt<W: fmt::Write>(&self, f: &mut fmt::Formatter<W>) -> fmt::Result {
        f.write_str(self.line().as_str())
    }
}
