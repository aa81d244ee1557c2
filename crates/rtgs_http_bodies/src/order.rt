//! The JSON value of an order, for its sender.
ghost use Rattle.std.specs.Prelude.{◌≡◌, codes, IfOk};
ghost use Rattle.serde_json.specs.Data.{Members, object, put, string};
ghost use Rattle.serde_json.specs.View.{view};
ghost use Rattle.serde_json.specs.Written.{compact_text};
ghost use Rattle.rtgs_http_bodies.specs.Readings.{order_data, settled_order, undated, unsettled_order};
ghost use Rattle.rtgs_http_bodies.specs.replies.Messages.{json_message};
ghost use Rattle.rtgs_money.specs.Date.{date_text};

use crate::members::{with_text, with_whole};
use crate::replies::{ContentType, Reply};
use http::StatusCode;
use rtgs_book::{Order, OrderState, Standing};
use rtgs_money::BusinessDate;
use serde_json::{Map, Value};
use std::alloc::{AllocError, Global};

/// The reply that tells this order to its sender. The only error is lack of memory.
pub fn order_reply(alloc: Global, order: &Order) -> Result<Reply, AllocError>
    ensures { IfOk result (λ reply. reply ≡ json_message 200 (order_data order.now)) }
{
    let text = order_text(alloc, order)?;
    Reply::new(alloc, StatusCode::OK, ContentType::Json, text.as_slice())
}

/// What its sender is shown of this order, as JSON, with its due date where it has one, and its mark where it has
/// settled. The only error is lack of memory.
pub fn order_text(alloc: Global, order: &Order) -> Result<Vec<u8>, AllocError>
    ensures { IfOk result (λ text. text.items ≡ compact_text (order_data order.now)) }
{
    let value = order_value(alloc, order)?;
    value.to_vec(alloc)
}

// The JSON value of an order.
fn order_value(alloc: Global, order: &Order) -> Result<Value, AllocError>
    ensures { IfOk result (λ value. view value ≡ order_data order.now) }
{
    let value = undated_value(alloc, order)?;
    match order.due {
        Some(due) => with_due(alloc, value, due),
        None => Ok(value),
    }
}

// The object with the due date as one member more.
fn with_due(alloc: Global, value: Value, due: BusinessDate) -> Result<Value, AllocError>
    ensures { (members : Members) → view value ≡ object members → IfOk result
        (λ dated. view dated ≡ object (put (codes "due") (string (date_text due)) members)) }
{
    match value {
        Value::Object(mut members) => {
            let due = due.text();
            let due = Value::try_from_str(alloc, due.as_str())?;
            members.insert(String::from_str(alloc, "due")?, due)?;
            Ok(Value::Object(members))
        }
        other => Ok(other),
    }
}

// The JSON value of an order without its due date.
fn undated_value(alloc: Global, order: &Order) -> Result<Value, AllocError>
    ensures { IfOk result (λ value. view value ≡ order_data (undated order.now)) }
{
    match order.state {
        OrderState::Settled(mark) => settled_value(alloc, order, mark),
        OrderState::Queued => unsettled_value(alloc, order, Standing::Queued),
        OrderState::Held => unsettled_value(alloc, order, Standing::Held),
        OrderState::Withdrawn => unsettled_value(alloc, order, Standing::Withdrawn),
        OrderState::Rejected => unsettled_value(alloc, order, Standing::Rejected),
    }
}

// The JSON value of an order that has settled under this mark, without its due date.
fn settled_value(alloc: Global, order: &Order, mark: u64) -> Result<Value, AllocError>
    ensures { IfOk result (λ value. view value ≡ settled_order (undated order.now) mark) }
{
    let date = order.date.text();
    let members = with_whole(alloc, Map::new(alloc), "amount", order.amount.cents())?;
    let members = with_text(alloc, members, "date", date.as_str())?;
    let members = with_whole(alloc, members, "mark", mark)?;
    let members = with_whole(alloc, members, "number", order.number)?;
    let members = with_text(alloc, members, "reference", order.reference.as_str())?;
    let members = with_text(alloc, members, "state", Standing::Settled.word())?;
    let members = with_text(alloc, members, "to", order.receiver.as_str())?;
    Ok(Value::Object(members))
}

// The JSON value of an order that stands so and has not settled, without its due date.
fn unsettled_value(alloc: Global, order: &Order, standing: Standing) -> Result<Value, AllocError>
    ensures { IfOk result (λ value. view value ≡ unsettled_order (undated order.now) standing) }
{
    let date = order.date.text();
    let members = with_whole(alloc, Map::new(alloc), "amount", order.amount.cents())?;
    let members = with_text(alloc, members, "date", date.as_str())?;
    let members = with_whole(alloc, members, "number", order.number)?;
    let members = with_text(alloc, members, "reference", order.reference.as_str())?;
    let members = with_text(alloc, members, "state", standing.word())?;
    let members = with_text(alloc, members, "to", order.receiver.as_str())?;
    Ok(Value::Object(members))
}
