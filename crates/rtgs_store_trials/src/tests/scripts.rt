//! Scripts: each line asks something in words, and tells after ` => ` what is answered. Behind the answer to a command
//! stands ` auto` with the mark, the count and the cents of what was resolved after it, if anything was.
pub mod desks;
pub mod ledgers;
pub mod records;
pub mod rows;
pub mod scenarios;

use super::setting::{Reply, code, reference};
use rtgs_book::{Command, NewDay, NewOrder, Resolution, WholeAnswer};
use rtgs_money::{Amount, BusinessDate, Credit, Key, Name, PostingAmount};
use std::alloc::Global;
use std::test::Fail;

/// What answers the lines of a script.
pub trait Answers {
    /// The answer to what the line asks.
    fn answer(&mut self, alloc: Global, asked: &str) -> Result<String, Fail>;
}

/// Fails unless each line is answered as it tells. A script without a line fails too.
pub fn follows<A: Answers>(alloc: Global, answering: &mut A, script: &str) -> Result<(), Fail> {
    let mut asked_something = false;
    for line in script.lines() {
        if !line.is_empty() {
            follows_line(alloc, answering, line)?;
            asked_something = true;
        }
    }
    if asked_something {
        Ok(())
    } else {
        Err(Fail::from("a script without a line"))
    }
}

/// Fails unless the line is answered as it tells.
fn follows_line<A: Answers>(alloc: Global, answering: &mut A, line: &str) -> Result<(), Fail> {
    let Some((asked, expected)) = line.split_once(" => ") else {
        return without_answer(alloc, line);
    };
    let answer = answering.answer(alloc, asked)?;
    if answer.as_str() == expected {
        return Ok(());
    }
    answered_otherwise(alloc, line, answer.as_str())
}

/// Fails, since the line tells no answer.
fn without_answer(alloc: Global, line: &str) -> Result<(), Fail> {
    let said = format!(in alloc; "a line without an answer: {line}")?;
    Err(Fail::from(said))
}

/// Fails, since the line was answered so.
fn answered_otherwise(alloc: Global, line: &str, answer: &str) -> Result<(), Fail> {
    let said = format!(in alloc; "{line}\nwas answered {answer}")?;
    Err(Fail::from(said))
}

/// The words of what a line asks.
pub fn words_of(alloc: Global, asked: &str) -> Result<Vec<&str>, Fail> {
    Ok(asked.split_whitespace().collect(alloc)?)
}

/// The command of this text, as `open 2024-03-04`.
pub fn command(alloc: Global, text: &str) -> Result<Command, Fail> {
    command_of(words_of(alloc, text)?.as_slice())
}

/// The command that these words give.
pub fn command_of(words: &[&str]) -> Result<Command, Fail> {
    match words {
        ["add", participant, key] => added(participant, key),
        ["credit", participant, cents] => limited(participant, cents),
        ["post", participant, name, cents] => posted(participant, name, cents),
        ["open", day] => opened(day, false),
        ["open", day, "automatic"] => opened(day, true),
        ["order", sender, name, receiver, cents] => ordered(sender, name, receiver, cents, None),
        ["order", sender, name, receiver, cents, "due", day] => {
            ordered(sender, name, receiver, cents, Some(day_of(day)?))
        }
        ["withdraw", sender, name] => withdrawn(sender, name),
        ["resolve"] => Ok(Command::Resolve),
        ["cutoff", day] => Ok(Command::CutOff(day_of(day)?)),
        ["close", day] => Ok(Command::CloseDay(day_of(day)?)),
        _ => Err(Fail::from("not understood")),
    }
}

/// The date of this text.
pub fn day_of(text: &str) -> Result<BusinessDate, Fail> {
    Ok(BusinessDate::read(text.as_bytes())?)
}

/// Opens a day, which is automatic or not.
fn opened(day: &str, automatic: bool) -> Result<Command, Fail> {
    Ok(Command::OpenDay(NewDay {
        date: day_of(day)?,
        automatic,
    }))
}

/// Adds a participant. All have one name.
fn added(participant: &str, key: &str) -> Result<Command, Fail> {
    Ok(Command::Add {
        code: code(participant)?,
        name: Name::read(b"A Bank")?,
        key: Key::read(key.as_bytes())?.digest(),
    })
}

/// Sets a participant's credit limit.
fn limited(participant: &str, cents: &str) -> Result<Command, Fail> {
    Ok(Command::SetCredit {
        code: code(participant)?,
        credit: Credit::read(cents.as_bytes())?,
    })
}

/// Posts this many cents to a participant, or takes them where they are below 0.
fn posted(participant: &str, name: &str, cents: &str) -> Result<Command, Fail> {
    Ok(Command::Post {
        code: code(participant)?,
        reference: reference(name)?,
        cents: PostingAmount::from_cents(cents.parse::<i64>()?).ok_or("a posting")?,
    })
}

/// An order of the sender to pay the receiver, perhaps not before a later day.
fn ordered(
    sender: &str,
    name: &str,
    receiver: &str,
    cents: &str,
    due: Option<BusinessDate>,
) -> Result<Command, Fail> {
    Ok(Command::Order {
        sender: code(sender)?,
        order: NewOrder {
            reference: reference(name)?,
            receiver: code(receiver)?,
            amount: Amount::read(cents.as_bytes())?,
            due,
        },
    })
}

/// Withdraws the sender's order of this reference.
fn withdrawn(sender: &str, name: &str) -> Result<Command, Fail> {
    Ok(Command::Withdraw {
        sender: code(sender)?,
        reference: reference(name)?,
    })
}

/// What a command was answered.
pub fn reply_text(alloc: Global, reply: &Reply) -> Result<String, Fail> {
    match reply {
        Ok(answer) => answer_text(alloc, answer),
        Err(refusal) => Ok(format!(in alloc; "refused: {refusal:?}")?),
    }
}

/// An answer, and behind it what was resolved after the command, if anything was.
fn answer_text(alloc: Global, answer: &WholeAnswer) -> Result<String, Fail> {
    let own = &answer.own;
    match &answer.auto {
        None => Ok(format!(in alloc; "{own:?}")?),
        Some(Resolution { mark, count, value }) => {
            let cents = value.cents();
            Ok(format!(in alloc; "{own:?} auto {mark} {count} {cents}")?)
        }
    }
}
