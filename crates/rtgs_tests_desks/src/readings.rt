//! What a desk says of its book.
use rtgs_desk::Desk;
use rtgs_keeper::Keeper;
use rtgs_money::{BusinessDate, Code};
use rtgs_statements::{write_report, write_statement};
use std::alloc::Global;
use std::test::Fail;

fn report_of<K: Keeper>(
    alloc: Global,
    desk: &mut Desk<K>,
    date: BusinessDate,
) -> Result<String, Fail> {
    let mut text = Vec::new(alloc);
    match write_report(alloc, &mut text, desk, date) {
        Ok(()) => Ok(String::from_utf8(text)?),
        Err(_) => Err(Fail::from("no report")),
    }
}

fn statement_of<K: Keeper>(
    alloc: Global,
    desk: &mut Desk<K>,
    bank: &Code,
    date: BusinessDate,
) -> Result<String, Fail> {
    let mut text = Vec::new(alloc);
    match write_statement(alloc, &mut text, desk, bank, date) {
        Ok(()) => Ok(String::from_utf8(text)?),
        Err(_) => Err(Fail::from("no statement")),
    }
}

// A bank's account, its queue, its held orders and its statement.
fn bank_of<K: Keeper>(
    alloc: Global,
    desk: &mut Desk<K>,
    bank: &Code,
    date: BusinessDate,
) -> Result<String, Fail> {
    let account = desk.account(bank);
    let queue = desk.queue_of(bank);
    let held = desk.held_of(bank);
    let statement = statement_of(alloc, desk, bank, date)?;
    Ok(format!(in alloc; "{account:?} {queue:?} {held:?} {statement}")?)
}

/// What a desk says of ALFA, BETA and GAMA, and of a day: its report, and the account, the queue, the held orders
/// and the statement of each.
pub fn seen_of<K: Keeper>(alloc: Global, desk: &mut Desk<K>, day: &str) -> Result<String, Fail> {
    let date = BusinessDate::read(day.as_bytes())?;
    let mut text = report_of(alloc, desk, date)?;
    for bank in ["ALFA", "BETA", "GAMA"] {
        let said = bank_of(alloc, desk, &Code::read(bank.as_bytes())?, date)?;
        text.push_str(said.as_str())?;
    }
    Ok(text)
}
