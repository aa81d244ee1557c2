//! What a participant is shown of its account.
ghost use Rattle.std.specs.Prelude.{◌≡◌, FitsSigned, Some, None, IfOk};
ghost use Rattle.std.specs.Int.{w64};
ghost use Rattle.serde_json.specs.View.{view};
ghost use Rattle.serde_json.specs.Written.{compact_text};
ghost use Rattle.rtgs_http_bodies.specs.desks.Accounts.{account_data, account_with, phase_name};
ghost use Rattle.rtgs_http_bodies.specs.replies.Messages.{json_message};

use crate::members::{in_64_bits, with_signed, with_text, with_whole};
use crate::replies::{ContentType, Reply};
use http::StatusCode;
use rtgs_book::{AccountReading, Phase};
use rtgs_money::BusinessDate;
use serde_json::{Map, Value};
use std::alloc::{AllocError, Global};

/// The reply that tells a participant its account. The only error is lack of memory.
pub fn account_reply(alloc: Global, reading: &AccountReading) -> Result<Reply, AllocError>
    ensures { FitsSigned w64 reading.now.queued_value
        → IfOk result (λ reply. reply ≡ json_message 200 (account_data reading.now)) }
{
    let text = account_text(alloc, reading)?;
    Reply::new(alloc, StatusCode::OK, ContentType::Json, text.as_slice())
}

/// What a participant is shown of its account, as JSON, with the date once a day was opened. What its queue pays
/// together is shown up to 2^63 - 1 cents, and no queue of a desk pays more. The only error is lack of memory.
pub fn account_text(alloc: Global, reading: &AccountReading) -> Result<Vec<u8>, AllocError>
    ensures { FitsSigned w64 reading.now.queued_value
        → IfOk result (λ text. text.items ≡ compact_text (account_data reading.now)) }
{
    let queued_value = queued_in_64_bits(reading);
    let value = account_value(alloc, reading, queued_value)?;
    value.to_vec(alloc)
}

/// What the orders of an account's queue pay together, in cents, where 64 bits hold it.
pub(in crate::desks) fn queued_in_64_bits(reading: &AccountReading) -> i64
    ensures { FitsSigned w64 reading.now.queued_value → result ≡ reading.now.queued_value }
{
    in_64_bits(reading.queued_value.cents())
}

// The JSON value of an account, with the date once a day was opened.
fn account_value(
    alloc: Global,
    reading: &AccountReading,
    queued_value: i64,
) -> Result<Value, AllocError>
    ensures { IfOk result (λ value. view value ≡ account_with queued_value reading.now) }
{
    match reading.day.date {
        Some(date) => dated_value(alloc, reading, queued_value, date),
        None => undated_value(alloc, reading, queued_value),
    }
}

// The JSON value of an account on this date.
fn dated_value(
    alloc: Global,
    reading: &AccountReading,
    queued_value: i64,
    date: BusinessDate,
) -> Result<Value, AllocError>
    requires { reading.now.day.date ≡ Some date }
    ensures { IfOk result (λ value. view value ≡ account_with queued_value reading.now) }
{
    let participant = &reading.participant;
    let date = date.text();
    let phase = phase_name(reading.day.phase);
    let members = with_signed(alloc, Map::new(alloc), "balance", reading.balance.cents())?;
    let members = with_text(alloc, members, "code", participant.code.as_str())?;
    let members = with_whole(alloc, members, "credit", participant.credit.cents())?;
    let members = with_text(alloc, members, "date", date.as_str())?;
    let members = with_text(alloc, members, "name", participant.name.as_str())?;
    let members = with_text(alloc, members, "phase", phase)?;
    let members = with_whole(alloc, members, "queued", reading.queued as u64)?;
    let members = with_signed(alloc, members, "queued_value", queued_value)?;
    Ok(Value::Object(members))
}

// The JSON value of an account before the first day.
fn undated_value(
    alloc: Global,
    reading: &AccountReading,
    queued_value: i64,
) -> Result<Value, AllocError>
    requires { reading.now.day.date ≡ None }
    ensures { IfOk result (λ value. view value ≡ account_with queued_value reading.now) }
{
    let participant = &reading.participant;
    let phase = phase_name(reading.day.phase);
    let members = with_signed(alloc, Map::new(alloc), "balance", reading.balance.cents())?;
    let members = with_text(alloc, members, "code", participant.code.as_str())?;
    let members = with_whole(alloc, members, "credit", participant.credit.cents())?;
    let members = with_text(alloc, members, "name", participant.name.as_str())?;
    let members = with_text(alloc, members, "phase", phase)?;
    let members = with_whole(alloc, members, "queued", reading.queued as u64)?;
    let members = with_signed(alloc, members, "queued_value", queued_value)?;
    Ok(Value::Object(members))
}

/// The name of a phase.
pub(in crate::desks) fn phase_name(phase: Phase) -> &'static str
    ensures { result.now ≡ phase_name phase }
{
    match phase {
        Phase::Closed => "CLOSED",
        Phase::Open => "OPEN",
        Phase::CutOff => "CUTOFF",
    }
}
