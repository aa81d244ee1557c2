//! What the operator is shown of all accounts.
ghost use Rattle.std.specs.Prelude.{◌≡◌, FitsSigned, Some, None, map, IfOk};
ghost use Rattle.std.specs.Int.{w64};
ghost use Rattle.serde_json.specs.View.{view};
ghost use Rattle.serde_json.specs.Written.{compact_text};
ghost use Rattle.rtgs_http_bodies.specs.desks.Accounts.{QueuedValuesFit, accounts_data, lacking, listed, listed_with};
ghost use Rattle.rtgs_http_bodies.specs.replies.Messages.{json_message};

use crate::desks::account::{phase_name, queued_in_64_bits};
use crate::members::{with_signed, with_text, with_value, with_whole};
use crate::replies::{ContentType, Reply};
use http::StatusCode;
use rtgs_book::{AccountReading, Day};
use rtgs_money::{BusinessDate, Cents};
use serde_json::{Map, Value};
use std::alloc::{AllocError, Global};

/// The reply that tells the operator all accounts, in their order. The only error is lack of memory.
pub fn accounts_reply(
    alloc: Global,
    day: Day,
    accounts: &[AccountReading],
) -> Result<Reply, AllocError>
    ensures { QueuedValuesFit accounts.now
        → IfOk result (λ reply. reply ≡ json_message 200 (accounts_data day accounts.now)) }
{
    let text = accounts_text(alloc, day, accounts)?;
    Reply::new(alloc, StatusCode::OK, ContentType::Json, text.as_slice())
}

/// What the operator is shown of all accounts, as JSON, in their order: of each what its participant is shown, and what
/// it lacks before the day can be closed; then the phase, and the date once a day was opened. What a queue pays
/// together is shown up to 2^63 - 1 cents, and no queue of a desk pays more. The only error is lack of memory.
pub fn accounts_text(
    alloc: Global,
    day: Day,
    accounts: &[AccountReading],
) -> Result<Vec<u8>, AllocError>
    ensures { QueuedValuesFit accounts.now
        → IfOk result (λ text. text.items ≡ compact_text (accounts_data day accounts.now)) }
{
    let value = accounts_value(alloc, day, accounts)?;
    value.to_vec(alloc)
}

// What is shown of all accounts, with the date once a day was opened.
fn accounts_value(alloc: Global, day: Day, accounts: &[AccountReading]) -> Result<Value, AllocError>
    ensures { QueuedValuesFit accounts.now → IfOk result (λ value. view value ≡ accounts_data day accounts.now) }
{
    match day.date {
        Some(date) => dated_value(alloc, day, accounts, date),
        None => undated_value(alloc, day, accounts),
    }
}

// What is shown of all accounts on this date.
fn dated_value(
    alloc: Global,
    day: Day,
    accounts: &[AccountReading],
    date: BusinessDate,
) -> Result<Value, AllocError>
    requires { day.date ≡ Some date }
    ensures { QueuedValuesFit accounts.now → IfOk result (λ value. view value ≡ accounts_data day accounts.now) }
{
    let accounts = listed_values(alloc, accounts)?;
    let date = date.text();
    let members = with_value(alloc, Map::new(alloc), "accounts", Value::Array(accounts))?;
    let members = with_text(alloc, members, "date", date.as_str())?;
    let members = with_text(alloc, members, "phase", phase_name(day.phase))?;
    Ok(Value::Object(members))
}

// What is shown of all accounts before the first day.
fn undated_value(alloc: Global, day: Day, accounts: &[AccountReading]) -> Result<Value, AllocError>
    requires { day.date ≡ None }
    ensures { QueuedValuesFit accounts.now → IfOk result (λ value. view value ≡ accounts_data day accounts.now) }
{
    let accounts = listed_values(alloc, accounts)?;
    let members = with_value(alloc, Map::new(alloc), "accounts", Value::Array(accounts))?;
    let members = with_text(alloc, members, "phase", phase_name(day.phase))?;
    Ok(Value::Object(members))
}

// What is shown of each account, in order.
fn listed_values(alloc: Global, accounts: &[AccountReading]) -> Result<Vec<Value>, AllocError>
    ensures { QueuedValuesFit accounts.now → IfOk result (λ items. map view items.items ≡ map listed accounts.now) }
{
    let mut items = Vec::new(alloc);
    for account in accounts {
        let item = listed_value(alloc, account, queued_in_64_bits(account))?;
        items.push(item)?;
    }
    Ok(items)
}

// What is shown of one of all accounts, whose queue pays so much.
fn listed_value(
    alloc: Global,
    account: &AccountReading,
    queued_value: i64,
) -> Result<Value, AllocError>
    ensures { IfOk result (λ value. view value ≡ listed_with queued_value account.now) }
{
    let participant = &account.participant;
    let lacking = lacking(account.balance);
    let members = with_signed(alloc, Map::new(alloc), "balance", account.balance.cents())?;
    let members = with_text(alloc, members, "code", participant.code.as_str())?;
    let members = with_whole(alloc, members, "credit", participant.credit.cents())?;
    let members = with_whole(alloc, members, "lacking", lacking)?;
    let members = with_text(alloc, members, "name", participant.name.as_str())?;
    let members = with_whole(alloc, members, "queued", account.queued as u64)?;
    let members = with_signed(alloc, members, "queued_value", queued_value)?;
    Ok(Value::Object(members))
}

// What an account with this balance must still get before the day can be closed, in cents.
fn lacking(balance: Cents) -> u64
    ensures { result ≡ lacking balance }
{
    if balance.cents() < 0 {
        balance.cents().unsigned_abs()
    } else {
        0
    }
}
