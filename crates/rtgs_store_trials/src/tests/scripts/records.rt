//! Records as scripts tell them: fields in order, with a space between them.
use rtgs_book::{Mark, Order, Posting};
use rtgs_money::BusinessDate;
use std::alloc::{AllocError, Global};
use std::test::Fail;

/// An order: its number, sender, reference, receiver, cents, date and state, and its due date if it has one.
fn order_text(alloc: Global, order: &Order) -> Result<String, Fail> {
    let Order {
        number,
        sender,
        reference,
        receiver,
        amount,
        date,
        due,
        state,
    } = order;
    let text = format!(in alloc;
        "{number} {sender} {reference} {receiver} {amount} {date} {state:?}"
    )?;
    match due {
        Some(due) => Ok(format!(in alloc; "{text} due {due}")?),
        None => Ok(text),
    }
}

/// Adds a part to a text, with a comma before it unless it is the first.
pub fn add_part(text: &mut String, part: &str) -> Result<(), AllocError> {
    if !text.is_empty() {
        text.push_str(", ")?;
    }
    text.push_str(part)
}

/// Orders of a queue, with a comma between them.
pub fn queue_text(alloc: Global, orders: &[Order]) -> Result<String, Fail> {
    if orders.is_empty() {
        return Ok(String::from_str(alloc, "empty")?);
    }
    let mut text = String::new(alloc);
    for order in orders {
        let order = order_text(alloc, order)?;
        add_part(&mut text, order.as_str())?;
    }
    Ok(text)
}

/// A posting: its number, code, reference, cents and date.
fn posting_text(alloc: Global, posting: &Posting) -> Result<String, Fail> {
    let Posting {
        number,
        code,
        reference,
        cents,
        date,
    } = posting;
    let date = date_text(alloc, date)?;
    Ok(format!(in alloc; "{number} {code} {reference} {cents} {date}")?)
}

/// The date of a posting, or that it has none.
fn date_text(alloc: Global, date: &Option<BusinessDate>) -> Result<String, Fail> {
    match date {
        Some(date) => Ok(format!(in alloc; "{date}")?),
        None => Ok(String::from_str(alloc, "undated")?),
    }
}

/// A mark: its number, date, count and value in cents.
fn mark_text(alloc: Global, mark: &Mark) -> Result<String, Fail> {
    let (number, date, count, cents) = (mark.number, mark.date, mark.count, mark.value.cents());
    Ok(format!(in alloc; "{number} {date} {count} {cents}")?)
}

/// An order, or that there is none.
pub fn order_if_any(alloc: Global, found: &Option<Order>) -> Result<String, Fail> {
    match found {
        Some(order) => order_text(alloc, order),
        None => Ok(String::from_str(alloc, "none")?),
    }
}

/// A posting, or that there is none.
pub fn posting_if_any(alloc: Global, found: &Option<Posting>) -> Result<String, Fail> {
    match found {
        Some(posting) => posting_text(alloc, posting),
        None => Ok(String::from_str(alloc, "none")?),
    }
}

/// A mark, or that there is none.
pub fn mark_if_any(alloc: Global, found: &Option<Mark>) -> Result<String, Fail> {
    match found {
        Some(mark) => mark_text(alloc, mark),
        None => Ok(String::from_str(alloc, "none")?),
    }
}
