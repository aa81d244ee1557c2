//! Rows of a change as scripts tell them.
use super::records::add_part;
use rtgs_book::{Day, RowChange};
use std::alloc::Global;
use std::test::Fail;

/// The rows in their order, with a comma between them.
pub fn rows_text(alloc: Global, rows: &[RowChange]) -> Result<String, Fail> {
    let mut text = String::new(alloc);
    for row in rows {
        let row = row_text(alloc, row)?;
        add_part(&mut text, row.as_str())?;
    }
    Ok(text)
}

/// What a row adds or sets.
fn row_text(alloc: Global, row: &RowChange) -> Result<String, Fail> {
    match row {
        RowChange::AddParticipant(participant) => {
            let code = participant.code;
            Ok(format!(in alloc; "participant {code}")?)
        }
        RowChange::AddPosting(posting) => {
            let number = posting.number;
            Ok(format!(in alloc; "posting {number}")?)
        }
        RowChange::AddOrder(order) => {
            let (number, state) = (order.number, order.state);
            Ok(format!(in alloc; "order {number} {state:?}")?)
        }
        RowChange::AddMark(mark) => {
            let (number, count, cents) = (mark.number, mark.count, mark.value.cents());
            Ok(format!(in alloc; "mark {number} {count} {cents}")?)
        }
        RowChange::SetCredit { code, credit } => Ok(format!(in alloc; "credit {code} {credit}")?),
        RowChange::SetBalance { code, balance } => {
            let cents = balance.cents();
            Ok(format!(in alloc; "balance {code} {cents}")?)
        }
        RowChange::SetState { number, state } => {
            Ok(format!(in alloc; "state {number} {state:?}")?)
        }
        RowChange::EnterQueue { number, date } => Ok(format!(in alloc; "enter {number} {date}")?),
        RowChange::SetDay(day) => day_text(alloc, day),
    }
}

/// The phase of a day, and whether it is automatic.
pub fn day_text(alloc: Global, day: &Day) -> Result<String, Fail> {
    let phase = day.phase;
    let kind = if day.automatic {
        "automatic"
    } else {
        "on request"
    };
    Ok(format!(in alloc; "day {phase:?} {kind}")?)
}
