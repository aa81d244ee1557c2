//! Replies that tell why there is no answer.
ghost use Rattle.std.specs.Prelude.{◌≡◌, IfOk, IsOk};
ghost use Rattle.http.specs.StatusCode.{IsStatusCode};
ghost use Rattle.serde_json.specs.View.{view};
ghost use Rattle.rtgs_book.specs.declared.refusal.Refusal.{Refusal};
ghost use Rattle.rtgs_refusals.specs.declared.RefusalKind.{RefusalKind};
ghost use Rattle.rtgs_http_bodies.specs.Refusals.{refused_message, batch_refused_message, overdrawn_data, bad_row_data};
ghost use Rattle.rtgs_http_bodies.specs.replies.Kinds.{kind_status, kind_message};

use crate::members::{with_text, with_whole};
use crate::replies::Reply;
use http::StatusCode;
use rtgs_book::Refusal;
use rtgs_money::Code;
use rtgs_order_files::BatchFault;
use rtgs_refusals::RefusalKind;
use serde_json::{Map, Value};
use std::alloc::{AllocError, Global};

/// The reply that tells a kind of refusal by its number and its name. The only error is lack of memory. That memory was
/// refused is said by the fixed reply, which takes none.
pub fn kind_reply(alloc: Global, kind: RefusalKind) -> Result<Reply, AllocError>
    ensures replied { IfOk result (λ reply. reply ≡ kind_message kind) }
    ensures no_memory { kind ≡ RefusalKind.OutOfMemory → IsOk result }
{
    match kind {
        RefusalKind::OutOfMemory => Ok(Reply::out_of_memory()),
        _ => Reply::refused(alloc, status_of(kind), kind.number(), kind.name()),
    }
}

/// The reply that tells why the desk refused a command or a reading. The only error is lack of memory, and none comes
/// where the refusal is one.
pub fn refusal_reply(alloc: Global, refusal: Refusal) -> Result<Reply, AllocError>
    ensures replied { IfOk result (λ reply. reply ≡ refused_message refusal) }
    ensures no_memory { refusal ≡ Refusal.OutOfMemory → IsOk result }
{
    match &refusal {
        Refusal::Overdrawn { first, count } => {
            let value = overdrawn_value(alloc, first, *count)?;
            Reply::json(alloc, status_of(RefusalKind::Overdrawn), &value)
        }
        _ => kind_reply(alloc, refusal.kind()),
    }
}

/// The reply that tells what is wrong with a file of orders. The only error is lack of memory.
pub fn batch_fault_reply(alloc: Global, fault: BatchFault) -> Result<Reply, AllocError>
    ensures { IfOk result (λ reply. reply ≡ batch_refused_message fault) }
{
    match fault {
        BatchFault::BadRow { row } => {
            let value = bad_row_value(alloc, row)?;
            Reply::json(alloc, status_of(RefusalKind::BadRow), &value)
        }
        _ => kind_reply(alloc, fault.kind()),
    }
}

// The status of the table. No reply is about a kind that has none there.
fn status_of(kind: RefusalKind) -> StatusCode
    ensures { result ≡ kind_status kind }
{
    status_with(kind.http_status().unwrap_or(503))
}

// The status with this number.
fn status_with(number: u16) -> StatusCode
    requires { IsStatusCode number }
    ensures { result ≡ number }
{
    StatusCode::from_u16(number).unwrap()
}

// The JSON value where participants are below zero.
fn overdrawn_value(alloc: Global, first: &Code, count: u64) -> Result<Value, AllocError>
    ensures { IfOk result (λ value. view value ≡ overdrawn_data first.now count) }
{
    let kind = RefusalKind::Overdrawn;
    let members = with_whole(alloc, Map::new(alloc), "code", u64::from(kind.number()))?;
    let members = with_whole(alloc, members, "count", count)?;
    let members = with_text(alloc, members, "first", first.as_str())?;
    let members = with_text(alloc, members, "name", kind.name())?;
    Ok(Value::Object(members))
}

// The JSON value of a bad row.
fn bad_row_value(alloc: Global, row: u64) -> Result<Value, AllocError>
    ensures { IfOk result (λ value. view value ≡ bad_row_data row) }
{
    let kind = RefusalKind::BadRow;
    let members = with_whole(alloc, Map::new(alloc), "code", u64::from(kind.number()))?;
    let members = with_text(alloc, members, "name", kind.name())?;
    let members = with_whole(alloc, members, "row", row)?;
    Ok(Value::Object(members))
}
