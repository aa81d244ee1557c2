//! Scripts: a line for each command, in words, and behind ` => ` what it is answered. An order for a later day ends
//! with `due` and that day, the opening of an automatic day with `automatic`. Behind an answer stands ` auto` with the
//! mark, the count and the cents of what was resolved after the command, if anything was. A line that is not understood
//! fails the test.
use rtgs_book::{Answer, Command, NewDay, NewOrder, Refusal, Resolution, WholeAnswer};
use rtgs_desk::Desk;
use rtgs_keeper::Keeper;
use rtgs_money::{
    Amount, BusinessDate, Code, Credit, Key, Lexical, Name, PostingAmount, Reference,
};
use std::alloc::Global;
use std::test::Fail;

/// What a command is answered.
pub type Reply = Result<WholeAnswer, Refusal>;

/// The command of a line's words, which may have its answer behind it. A posting that takes money is a `debit`.
pub fn command(line: &str) -> Result<Command, Fail> {
    let said = line.split(" => ").next().unwrap_or_default();
    let count = said.split_whitespace().count();
    let mut words = said.split_whitespace();
    let kind = words.next().unwrap_or_default();
    let first = words.next().unwrap_or_default();
    let second = words.next().unwrap_or_default();
    let third = words.next().unwrap_or_default();
    let fourth = words.next().unwrap_or_default();
    if kind == "order" && count == 5 {
        return order(first, second, third, fourth, None);
    }
    if kind == "order" && count == 7 && words.next() == Some("due") {
        return order(first, second, third, fourth, words.next());
    }
    match spelt(kind, count, first, second, third)? {
        Some(command) => Ok(command),
        None => Err(Fail::new("no command")),
    }
}

// The command of this kind, of this many words, that is no order.
fn spelt(
    kind: &str,
    count: usize,
    first: &str,
    second: &str,
    third: &str,
) -> Result<Option<Command>, Lexical> {
    let command = match kind {
        "add" if count == 3 => addition(first, "A Bank", second)?,
        "credit" if count == 3 => Command::SetCredit {
            code: Code::read(first.as_bytes())?,
            credit: Credit::read(second.as_bytes())?,
        },
        "post" | "debit" if count == 4 => posting(first, second, third, kind == "debit")?,
        "withdraw" if count == 3 => Command::Withdraw {
            sender: Code::read(first.as_bytes())?,
            reference: Reference::read(second.as_bytes())?,
        },
        _ => return spelt_for_a_day(kind, count, first, second),
    };
    Ok(Some(command))
}

/// The addition of a participant of this code, name and key.
pub fn addition(code: &str, name: &str, key: &str) -> Result<Command, Lexical> {
    Ok(Command::Add {
        code: Code::read(code.as_bytes())?,
        name: Name::read(name.as_bytes())?,
        key: Key::read(key.as_bytes())?.digest(),
    })
}

// The posting that these words give, which takes money where it is a debit.
fn posting(code: &str, reference: &str, cents: &str, debit: bool) -> Result<Command, Lexical> {
    Ok(Command::Post {
        code: Code::read(code.as_bytes())?,
        reference: Reference::read(reference.as_bytes())?,
        cents: if debit {
            PostingAmount::read_debit(cents.as_bytes())?
        } else {
            PostingAmount::read(cents.as_bytes())?
        },
    })
}

// The command about the day of this kind, of this many words.
fn spelt_for_a_day(
    kind: &str,
    count: usize,
    date: &str,
    choice: &str,
) -> Result<Option<Command>, Lexical> {
    let command = match kind {
        "open" if count == 2 || count == 3 && choice == "automatic" => Command::OpenDay(NewDay {
            date: BusinessDate::read(date.as_bytes())?,
            automatic: count == 3,
        }),
        "cutoff" if count == 2 => Command::CutOff(BusinessDate::read(date.as_bytes())?),
        "close" if count == 2 => Command::CloseDay(BusinessDate::read(date.as_bytes())?),
        "resolve" if count == 1 => Command::Resolve,
        _ => return Ok(None),
    };
    Ok(Some(command))
}

// The order that these words give, which may have a due date.
fn order(
    sender: &str,
    reference: &str,
    receiver: &str,
    cents: &str,
    due: Option<&str>,
) -> Result<Command, Fail> {
    Ok(Command::Order {
        sender: Code::read(sender.as_bytes())?,
        order: NewOrder {
            reference: Reference::read(reference.as_bytes())?,
            receiver: Code::read(receiver.as_bytes())?,
            amount: Amount::read(cents.as_bytes())?,
            due: due_date(due)?,
        },
    })
}

// The due date of an order that has one.
fn due_date(word: Option<&str>) -> Result<Option<BusinessDate>, Fail> {
    match word {
        Some(word) => Ok(Some(BusinessDate::read(word.as_bytes())?)),
        None => Ok(None),
    }
}

/// The commands of a script, of which there have to be some.
pub fn commands(alloc: Global, script: &str) -> Result<Vec<Command>, Fail> {
    // Names the types of orders and of due dates for the borrow checker: they stand nowhere else in this function.
    let (_no_order, _no_date): (Option<NewOrder>, Option<BusinessDate>) = (None, None);
    let mut commands = Vec::new(alloc);
    for line in script.lines() {
        commands.push(command(line)?)?;
    }
    if commands.is_empty() {
        return Err(Fail::new("a script without a line"));
    }
    Ok(commands)
}

// The reply that a line expects behind its command, or behind that where it comes again.
fn expected(line: &str, comes_again: bool) -> Option<&str> {
    line.split(" => ").nth(if comes_again { 2 } else { 1 })
}

/// Whether a reply is the one that the line tells behind its command, or behind that where it comes again.
pub fn is_expected(
    alloc: Global,
    reply: &Reply,
    line: &str,
    comes_again: bool,
) -> Result<bool, Fail> {
    let text = reply_text(alloc, reply)?;
    Ok(expected(line, comes_again) == Some(text.as_str()))
}

/// The same of a command's own reply alone, whatever was resolved after the command.
pub fn is_expected_by_itself(
    alloc: Global,
    own: &Result<Answer, Refusal>,
    line: &str,
    comes_again: bool,
) -> Result<bool, Fail> {
    let text = format!(in alloc; "{own:?}")?;
    match expected(line, comes_again) {
        Some(expected) => Ok(expected.split(" auto ").next() == Some(text.as_str())),
        None => Ok(false),
    }
}

/// A reply as a line tells it.
pub fn reply_text(alloc: Global, reply: &Reply) -> Result<String, Fail> {
    match reply {
        Ok(answer) => answer_text(alloc, answer),
        Err(refusal) => Ok(format!(in alloc; "Err({refusal:?})")?),
    }
}

// The same of a reply that is no refusal.
fn answer_text(alloc: Global, answer: &WholeAnswer) -> Result<String, Fail> {
    let own = &answer.own;
    match &answer.auto {
        None => Ok(format!(in alloc; "Ok({own:?})")?),
        Some(Resolution { mark, count, value }) => {
            let cents = value.cents();
            Ok(format!(in alloc; "Ok({own:?}) auto {mark} {count} {cents}")?)
        }
    }
}

/// Gives the desk the first of the commands of a script, at most this many, and counts those that are answered before a
/// fault of the store that the script does not tell. The known ones among them come again. It fails where another
/// answer is given, and where the desk says that it has failed and answered no fault of the store, or the other way
/// round.
pub fn answered<K: Keeper>(
    alloc: Global,
    desk: &mut Desk<K>,
    script: &str,
    known: usize,
    most: usize,
) -> Result<usize, Fail> {
    let mut count = 0usize;
    for line in script.lines().take(most) {
        if !is_answered(alloc, desk, line, count < known)? {
            return Ok(count);
        }
        count = count.saturating_add(1);
    }
    Ok(count)
}

// Whether the command of a line is answered as it tells, and not by a fault of the store.
fn is_answered<K: Keeper>(
    alloc: Global,
    desk: &mut Desk<K>,
    line: &str,
    comes_again: bool,
) -> Result<bool, Fail> {
    let reply = desk.submit(command(line)?);
    let has_failed = matches!(reply, Err(Refusal::StoreFault | Refusal::Failed));
    if has_failed == desk.failed() {
        if is_expected(alloc, &reply, line, comes_again)? {
            return Ok(true);
        }
        if reply == Err(Refusal::StoreFault) {
            return Ok(false);
        }
    }
    let text = reply_text(alloc, &reply)?;
    Err(Fail::from(format!(in alloc; "{line} was answered {text}")?))
}

/// Fails unless each command of a script is answered as it tells, and there is one.
pub fn follows<K: Keeper>(alloc: Global, desk: &mut Desk<K>, script: &str) -> Result<(), Fail> {
    let count = answered(alloc, desk, script, 0, usize::MAX)?;
    if count > 0 && count == script.lines().count() {
        Ok(())
    } else {
        Err(Fail::new("a fault of the store, or a script without a line"))
    }
}
