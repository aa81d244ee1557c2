//! What the operator is shown of all queues.
//!
//! A desk has at most 100 participants, so the text has at most 100 queues of at most 99 receivers. A receiver takes at
//! most 61 bytes, and the rest of a queue at most 276: so it has fewer than 650,000 bytes, however long the queues are.
ghost use Rattle.std.specs.Prelude.{◌≡◌, FitsSigned, Some, None, map, IfOk};
ghost use Rattle.std.specs.Int.{w64};
ghost use Rattle.serde_json.specs.View.{view};
ghost use Rattle.serde_json.specs.Written.{compact_text};
ghost use Rattle.rtgs_book.specs.Books.{is_automatic};
ghost use Rattle.rtgs_http_bodies.specs.desks.Queues.{QueueFits, QueuesFit, SumsFit, first_data, queue_entry};
ghost use Rattle.rtgs_http_bodies.specs.desks.Queues.{queues_data, receiver_data};
ghost use Rattle.rtgs_http_bodies.specs.replies.Messages.{json_message};

use crate::desks::account::phase_name;
use crate::members::{with_signed, with_sum, with_text, with_value, with_whole};
use crate::replies::{ContentType, Reply};
use http::StatusCode;
use rtgs_book::{Day, Order, Phase, QueueReading, ReceiverReading};
use rtgs_money::BusinessDate;
use serde_json::{Map, Value};
use std::alloc::{AllocError, Global};

/// The reply that tells the operator all queues, in their order. The only error is lack of memory.
pub fn queues_reply(alloc: Global, day: Day, queues: &[QueueReading]) -> Result<Reply, AllocError>
    ensures { QueuesFit queues.now
        → IfOk result (λ reply. reply ≡ json_message 200 (queues_data day queues.now)) }
{
    let text = queues_text(alloc, day, queues)?;
    Reply::new(alloc, StatusCode::OK, ContentType::Json, text.as_slice())
}

/// What the operator is shown of all queues, as JSON, in their order; the phase, whether a resolution follows commands,
/// and the date once a day was opened. What orders pay together is shown up to 2^63 - 1 cents, and no queue of a desk
/// pays more. The only error is lack of memory.
pub fn queues_text(alloc: Global, day: Day, queues: &[QueueReading]) -> Result<Vec<u8>, AllocError>
    ensures { QueuesFit queues.now
        → IfOk result (λ text. text.items ≡ compact_text (queues_data day queues.now)) }
{
    let value = queues_value(alloc, day, queues)?;
    value.to_vec(alloc)
}

// What is shown of all queues, with the date once a day was opened.
fn queues_value(alloc: Global, day: Day, queues: &[QueueReading]) -> Result<Value, AllocError>
    ensures { QueuesFit queues.now → IfOk result (λ value. view value ≡ queues_data day queues.now) }
{
    match day.date {
        Some(date) => dated_value(alloc, day, queues, date),
        None => undated_value(alloc, day, queues),
    }
}

// What is shown of all queues on this date.
fn dated_value(
    alloc: Global,
    day: Day,
    queues: &[QueueReading],
    date: BusinessDate,
) -> Result<Value, AllocError>
    requires { day.date ≡ Some date }
    ensures { QueuesFit queues.now → IfOk result (λ value. view value ≡ queues_data day queues.now) }
{
    let queues = queue_values(alloc, queues)?;
    let automatic = Value::Bool(is_automatic(&day));
    let date = date.text();
    let members = with_value(alloc, Map::new(alloc), "queues", Value::Array(queues))?;
    let members = with_value(alloc, members, "automatic", automatic)?;
    let members = with_text(alloc, members, "date", date.as_str())?;
    let members = with_text(alloc, members, "phase", phase_name(day.phase))?;
    Ok(Value::Object(members))
}

// What is shown of all queues before the first day.
fn undated_value(alloc: Global, day: Day, queues: &[QueueReading]) -> Result<Value, AllocError>
    requires { day.date ≡ None }
    ensures { QueuesFit queues.now → IfOk result (λ value. view value ≡ queues_data day queues.now) }
{
    let queues = queue_values(alloc, queues)?;
    let automatic = Value::Bool(is_automatic(&day));
    let members = with_value(alloc, Map::new(alloc), "queues", Value::Array(queues))?;
    let members = with_value(alloc, members, "automatic", automatic)?;
    let members = with_text(alloc, members, "phase", phase_name(day.phase))?;
    Ok(Value::Object(members))
}

// Whether a resolution follows commands.
fn is_automatic(day: &Day) -> bool
    ensures { result ≡ is_automatic day.now }
{
    // Names the type of dates for the borrow checker, which finds it nowhere else in this function.
    let _no_date: Option<BusinessDate> = None;
    day.automatic && !matches!(day.phase, Phase::Closed)
}

// What is shown of each queue, in order.
fn queue_values(alloc: Global, queues: &[QueueReading]) -> Result<Vec<Value>, AllocError>
    ensures { QueuesFit queues.now → IfOk result (λ items. map view items.items ≡ map queue_entry queues.now) }
{
    let mut items = Vec::new(alloc);
    for queue in queues {
        let item = queue_value(alloc, queue)?;
        items.push(item)?;
    }
    Ok(items)
}

// What is shown of one of all queues.
fn queue_value(alloc: Global, queue: &QueueReading) -> Result<Value, AllocError>
    ensures { QueueFits queue.now → IfOk result (λ value. view value ≡ queue_entry queue.now) }
{
    let receivers = receiver_values(alloc, queue.receivers.as_slice())?;
    let members = with_value(alloc, Map::new(alloc), "receivers", Value::Array(receivers))?;
    let first = first_value(alloc, &queue.first)?;
    let members = with_value(alloc, members, "first", first)?;
    let members = with_text(alloc, members, "code", queue.code.as_str())?;
    let members = with_signed(alloc, members, "headroom", queue.headroom.cents())?;
    let members = with_whole(alloc, members, "queued", queue.queued as u64)?;
    let members = with_sum(alloc, members, "queued_value", queue.queued_value)?;
    let members = with_whole(alloc, members, "settling", queue.settling as u64)?;
    let members = with_sum(alloc, members, "settling_value", queue.settling_value)?;
    let members = with_whole(alloc, members, "short", queue.short)?;
    Ok(Value::Object(members))
}

// What is shown of the first order of a queue.
fn first_value(alloc: Global, order: &Order) -> Result<Value, AllocError>
    ensures { IfOk result (λ value. view value ≡ first_data order.now) }
{
    let members = with_whole(alloc, Map::new(alloc), "amount", order.amount.cents())?;
    let members = with_whole(alloc, members, "number", order.number)?;
    let members = with_text(alloc, members, "reference", order.reference.as_str())?;
    let members = with_text(alloc, members, "to", order.receiver.as_str())?;
    Ok(Value::Object(members))
}

// What is shown of each receiver of a queue, in order.
fn receiver_values(alloc: Global, receivers: &[ReceiverReading]) -> Result<Vec<Value>, AllocError>
    ensures { SumsFit receivers.now
        → IfOk result (λ items. map view items.items ≡ map receiver_data receivers.now) }
{
    let mut items = Vec::new(alloc);
    for receiver in receivers {
        let item = receiver_value(alloc, receiver)?;
        items.push(item)?;
    }
    Ok(items)
}

// What is shown of one receiver of a queue.
fn receiver_value(alloc: Global, receiver: &ReceiverReading) -> Result<Value, AllocError>
    ensures { FitsSigned w64 receiver.now.queued_value
        → IfOk result (λ value. view value ≡ receiver_data receiver.now) }
{
    let members = with_whole(alloc, Map::new(alloc), "queued", receiver.queued as u64)?;
    let members = with_sum(alloc, members, "queued_value", receiver.queued_value)?;
    let members = with_text(alloc, members, "to", receiver.to.as_str())?;
    Ok(Value::Object(members))
}
