//! What a request asks for, in words.
use rtgs_book::{Command, NewDay, NewOrder, Reading};
use rtgs_http_requests::Asked;
use std::alloc::{AllocError, Global};

// What an order says, with its due date last, if it has one.
fn order_words(alloc: Global, order: &NewOrder) -> Result<String, AllocError> {
    let (reference, receiver, amount) = (order.reference, order.receiver, order.amount);
    let words = format!(in alloc; "{reference} {receiver} {amount}")?;
    match &order.due {
        None => Ok(words),
        Some(due) => format!(in alloc; "{words} due {due}"),
    }
}

fn command_words(alloc: Global, command: &Command) -> Result<String, AllocError> {
    match command {
        Command::Add { code, name, .. } => format!(in alloc; "add {code} {name}"),
        Command::SetCredit { code, credit } => format!(in alloc; "credit {code} {credit}"),
        Command::Post {
            code,
            reference,
            cents,
        } => format!(in alloc; "post {code} {reference} {cents}"),
        Command::OpenDay(NewDay { date, automatic }) => {
            let choice = if *automatic { " automatic" } else { "" };
            format!(in alloc; "open {date}{choice}")
        }
        Command::Order { sender, order } => {
            let words = order_words(alloc, order)?;
            format!(in alloc; "order {sender} {words}")
        }
        Command::Withdraw { sender, reference } => {
            format!(in alloc; "withdraw {sender} {reference}")
        }
        Command::Resolve => String::from_str(alloc, "resolve"),
        Command::CutOff(date) => format!(in alloc; "cut off {date}"),
        Command::CloseDay(date) => format!(in alloc; "close {date}"),
    }
}

fn reading_words(alloc: Global, reading: &Reading) -> Result<String, AllocError> {
    match reading {
        Reading::Order { sender, reference } => {
            format!(in alloc; "read order {sender} {reference}")
        }
        Reading::Account { code } => format!(in alloc; "read account {code}"),
        Reading::Accounts => String::from_str(alloc, "read accounts"),
        Reading::Queue { code } => format!(in alloc; "read queue {code}"),
        Reading::Held { code } => format!(in alloc; "read held {code}"),
        Reading::Waiting { code } => format!(in alloc; "read waiting {code}"),
        Reading::Queues => String::from_str(alloc, "read queues"),
        Reading::Status => String::from_str(alloc, "read status"),
        Reading::Statement { code, date } => format!(in alloc; "read statement {code} {date}"),
        Reading::Report { date } => format!(in alloc; "read report {date}"),
        Reading::Orders { date } => format!(in alloc; "read orders {date}"),
        Reading::Marks { date } => format!(in alloc; "read marks {date}"),
    }
}

/// What is asked for, in words: a command, a reading, or a batch's sender and its rows.
pub fn in_words(alloc: Global, asked: &Asked) -> Result<String, AllocError> {
    match asked {
        Asked::Submit(it) => command_words(alloc, it),
        Asked::Read(it) => reading_words(alloc, it),
        Asked::Batch { sender, rows } => {
            let mut text = format!(in alloc; "batch {sender}")?;
            for row in rows.as_slice() {
                let words = order_words(alloc, row)?;
                let words = format!(in alloc; ", {words}")?;
                text.push_str(words.as_str())?;
            }
            Ok(text)
        }
    }
}
