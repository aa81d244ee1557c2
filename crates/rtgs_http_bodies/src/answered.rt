//! Replies that tell an answer.
ghost use Rattle.std.specs.Prelude.{◌≡◌, None, codes, IfOk};
ghost use Rattle.serde_json.specs.Data.{Members, member, no_members, object, put};
ghost use Rattle.serde_json.specs.View.{view};
ghost use Rattle.rtgs_http_bodies.specs.Answers.{answer_object, answer_data, own_data, repeated_data, repeated_order};
ghost use Rattle.rtgs_http_bodies.specs.Answers.{resolution_data, unsettled_repeat};
ghost use Rattle.rtgs_http_bodies.specs.replies.Bodies.{whole};
ghost use Rattle.rtgs_http_bodies.specs.replies.Messages.{json_message};

use crate::members::{begun_by, with_signed, with_text, with_whole};
use crate::replies::Reply;
use http::StatusCode;
use rtgs_book::{Answer, Known, OrderState, Resolution, Standing, WholeAnswer};
use rtgs_money::{BusinessDate, Cents};
use serde_json::{Map, Value};
use std::alloc::{AllocError, Global};

/// The reply that tells this answer, and what was resolved after the command, if anything was. The only error is lack
/// of memory.
pub fn answer_reply(alloc: Global, answer: WholeAnswer) -> Result<Reply, AllocError>
    ensures { IfOk result (λ reply. reply ≡ json_message 200 (answer_data answer)) }
{
    let value = answer_value(alloc, answer)?;
    Reply::json(alloc, StatusCode::OK, &value)
}

// The JSON value of an answer.
fn answer_value(alloc: Global, answer: WholeAnswer) -> Result<Value, AllocError>
    ensures { IfOk result (λ value. view value ≡ answer_data answer) }
{
    let value = own_value(alloc, answer.own)?;
    match &answer.auto {
        Some(auto) => with_auto(alloc, value, auto),
        None => Ok(value),
    }
}

// The object with what was resolved as one member more.
fn with_auto(alloc: Global, value: Value, auto: &Resolution) -> Result<Value, AllocError>
    ensures { (members : Members) → view value ≡ object members → IfOk result
        (λ whole. view whole ≡ object (put (codes "auto") (resolution_data auto.now) members)) }
{
    match value {
        Value::Object(mut members) => {
            let auto = resolution_value(alloc, auto)?;
            members.insert(String::from_str(alloc, "auto")?, auto)?;
            Ok(Value::Object(members))
        }
        other => Ok(other),
    }
}

// The JSON value of what was resolved.
fn resolution_value(alloc: Global, auto: &Resolution) -> Result<Value, AllocError>
    ensures { IfOk result (λ value. view value ≡ resolution_data auto.now) }
{
    let members = with_whole(alloc, Map::new(alloc), "count", auto.count)?;
    let members = with_whole(alloc, members, "mark", auto.mark)?;
    let members = with_signed(alloc, members, "value", auto.value.cents())?;
    Ok(Value::Object(members))
}

// The JSON value of the command's own answer.
fn own_value(alloc: Global, answer: Answer) -> Result<Value, AllocError>
    ensures { IfOk result (λ value. view value ≡ own_data None answer) }
{
    match answer {
        Answer::Added => word_value(alloc, "added"),
        Answer::CreditSet => word_value(alloc, "credit set"),
        Answer::Posted { number } => numbered_value(alloc, "posted", number),
        Answer::Opened => word_value(alloc, "opened"),
        Answer::Settled { number, mark } => settled_value(alloc, number, mark),
        Answer::Queued { number, place } => queued_value(alloc, number, place),
        Answer::Held { number, due } => held_value(alloc, number, due),
        Answer::Withdrawn { number } => numbered_value(alloc, Standing::Withdrawn.word(), number),
        Answer::Resolved { mark, count, value } => resolved_value(alloc, mark, count, value),
        Answer::Nothing => word_value(alloc, "nothing"),
        Answer::CutOffDone => word_value(alloc, "cut off"),
        Answer::Closed { rejected } => closed_value(alloc, rejected),
        Answer::Repeated(known) => repeated_value(alloc, known),
    }
}

fn settled_value(alloc: Global, number: u64, mark: u64) -> Result<Value, AllocError>
    ensures { IfOk result (λ value. view value ≡ own_data None (Answer.Settled number mark)) }
{
    let members = begun_by(alloc, "answer", Standing::Settled.word())?;
    let members = with_whole(alloc, members, "mark", mark)?;
    let members = with_whole(alloc, members, "number", number)?;
    Ok(Value::Object(members))
}

fn queued_value(alloc: Global, number: u64, place: u64) -> Result<Value, AllocError>
    ensures { IfOk result (λ value. view value ≡ own_data None (Answer.Queued number place)) }
{
    let members = begun_by(alloc, "answer", Standing::Queued.word())?;
    let members = with_whole(alloc, members, "number", number)?;
    let members = with_whole(alloc, members, "place", place)?;
    Ok(Value::Object(members))
}

fn held_value(alloc: Global, number: u64, due: BusinessDate) -> Result<Value, AllocError>
    ensures { IfOk result (λ value. view value ≡ own_data None (Answer.Held number due)) }
{
    let due = due.text();
    let members = begun_by(alloc, "answer", Standing::Held.word())?;
    let members = with_text(alloc, members, "due", due.as_str())?;
    let members = with_whole(alloc, members, "number", number)?;
    Ok(Value::Object(members))
}

fn resolved_value(alloc: Global, mark: u64, count: u64, value: Cents) -> Result<Value, AllocError>
    ensures { IfOk result (λ told. view told ≡ own_data None (Answer.Resolved mark count value)) }
{
    let members = begun_by(alloc, "answer", "resolved")?;
    let members = with_whole(alloc, members, "count", count)?;
    let members = with_whole(alloc, members, "mark", mark)?;
    let members = with_signed(alloc, members, "value", value.cents())?;
    Ok(Value::Object(members))
}

fn closed_value(alloc: Global, rejected: u64) -> Result<Value, AllocError>
    ensures { IfOk result (λ value. view value ≡ own_data None (Answer.Closed rejected)) }
{
    let members = begun_by(alloc, "answer", "closed")?;
    let members = with_whole(alloc, members, "rejected", rejected)?;
    Ok(Value::Object(members))
}

// The JSON value of a command that was done before.
fn repeated_value(alloc: Global, known: Known) -> Result<Value, AllocError>
    ensures { IfOk result (λ value. view value ≡ repeated_data None known) }
{
    match known {
        Known::Nothing => word_value(alloc, "repeated"),
        Known::Posting { number } => numbered_value(alloc, "repeated", number),
        Known::Order { number, state } => repeated_order_value(alloc, number, state),
    }
}

// The JSON value of an order that was taken before.
fn repeated_order_value(alloc: Global, number: u64, state: OrderState) -> Result<Value, AllocError>
    ensures { IfOk result (λ value. view value ≡ repeated_order None number state) }
{
    match state {
        OrderState::Settled(mark) => settled_repeat_value(alloc, number, mark),
        OrderState::Queued => unsettled_value(alloc, number, Standing::Queued),
        OrderState::Held => unsettled_value(alloc, number, Standing::Held),
        OrderState::Withdrawn => unsettled_value(alloc, number, Standing::Withdrawn),
        OrderState::Rejected => unsettled_value(alloc, number, Standing::Rejected),
    }
}

fn settled_repeat_value(alloc: Global, number: u64, mark: u64) -> Result<Value, AllocError>
    ensures { IfOk result (λ value. view value ≡ repeated_order None number (OrderState.Settled mark)) }
{
    let members = begun_by(alloc, "answer", "repeated")?;
    let members = with_whole(alloc, members, "mark", mark)?;
    let members = with_whole(alloc, members, "number", number)?;
    let members = with_text(alloc, members, "state", Standing::Settled.word())?;
    Ok(Value::Object(members))
}

// An answer that is a word alone.
fn word_value(alloc: Global, word: &str) -> Result<Value, AllocError>
    ensures { IfOk result (λ value. view value ≡ answer_object None word.now no_members) }
{
    Ok(Value::Object(begun_by(alloc, "answer", word)?))
}

fn numbered_value(alloc: Global, word: &str, number: u64) -> Result<Value, AllocError>
    ensures { IfOk result (λ value. view value ≡ answer_object None word.now
        (member (codes "number") (whole number) no_members)) }
{
    let members = begun_by(alloc, "answer", word)?;
    let members = with_whole(alloc, members, "number", number)?;
    Ok(Value::Object(members))
}

// An order that was taken before and has not settled: it stands so.
fn unsettled_value(alloc: Global, number: u64, standing: Standing) -> Result<Value, AllocError>
    ensures { IfOk result (λ value. view value ≡ unsettled_repeat None number standing) }
{
    let members = begun_by(alloc, "answer", "repeated")?;
    let members = with_whole(alloc, members, "number", number)?;
    let members = with_text(alloc, members, "state", standing.word())?;
    Ok(Value::Object(members))
}
