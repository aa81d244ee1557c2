//! What the operator is shown of the whole desk.
ghost use Rattle.std.specs.Prelude.{◌≡◌, IfOk};
ghost use Rattle.serde_json.specs.Data.{no_members};
ghost use Rattle.serde_json.specs.View.{members_view, view};
ghost use Rattle.serde_json.specs.Written.{compact_text};
ghost use Rattle.rtgs_book.specs.Books.{is_automatic};
ghost use Rattle.rtgs_http_bodies.specs.desks.Status.{StatusFits, counted_members, dated, status_data};
ghost use Rattle.rtgs_http_bodies.specs.replies.Messages.{json_message};

use crate::desks::account::phase_name;
use crate::members::{Members, with_sum, with_text, with_value, with_whole};
use crate::replies::{ContentType, Reply};
use http::StatusCode;
use rtgs_book::{Day, Phase, Status};
use rtgs_money::BusinessDate;
use rtgs_release::{PROGRAM_VERSION, TABLES_VERSION};
use serde_json::{Map, Value};
use std::alloc::{AllocError, Global};

/// The reply that tells the operator how the desk stands. The only error is lack of memory.
pub fn status_reply(alloc: Global, status: &Status) -> Result<Reply, AllocError>
    ensures { StatusFits status.now → IfOk result (λ reply. reply ≡ json_message 200 (status_data status.now)) }
{
    let text = status_text(alloc, status)?;
    Reply::new(alloc, StatusCode::OK, ContentType::Json, text.as_slice())
}

/// What the operator is shown of the whole desk, as JSON, with the date once a day was opened. Sums of cents are shown
/// up to 2^63 - 1, and those of a desk are no larger. The only error is lack of memory.
pub fn status_text(alloc: Global, status: &Status) -> Result<Vec<u8>, AllocError>
    ensures { StatusFits status.now → IfOk result (λ text. text.items ≡ compact_text (status_data status.now)) }
{
    let value = status_value(alloc, status)?;
    value.to_vec(alloc)
}

// The JSON value of how the desk stands.
fn status_value(alloc: Global, status: &Status) -> Result<Value, AllocError>
    ensures { StatusFits status.now → IfOk result (λ value. view value ≡ status_data status.now) }
{
    let members = counted(alloc, status)?;
    let members = with_text(alloc, members, "phase", phase_name(status.day.phase))?;
    let members = with_whole(alloc, members, "queued", status.queued.count as u64)?;
    let members = with_sum(alloc, members, "queued_value", status.queued.value)?;
    let members = with_sum(alloc, members, "sum", status.sum)?;
    let members = with_whole(alloc, members, "tables", TABLES_VERSION)?;
    let members = with_text(alloc, members, "version", PROGRAM_VERSION)?;
    Ok(Value::Object(with_date(alloc, members, status.day.date)?))
}

// The members that tell what is held, how many participants there are and which numbers come next.
fn counted(alloc: Global, status: &Status) -> Result<Members, AllocError>
    ensures { StatusFits status.now → IfOk result (λ members. members_view members.entries
        ≡ counted_members status.now no_members) }
{
    let automatic = Value::Bool(is_automatic(&status.day));
    let members = with_value(alloc, Map::new(alloc), "automatic", automatic)?;
    let members = with_whole(alloc, members, "held", status.held.count as u64)?;
    let members = with_sum(alloc, members, "held_value", status.held.value)?;
    let members = with_whole(alloc, members, "next_mark", status.next_mark)?;
    let members = with_whole(alloc, members, "next_order", status.next_order)?;
    let members = with_whole(alloc, members, "next_posting", status.next_posting)?;
    with_whole(alloc, members, "participants", status.participants as u64)
}

// The members with the date, if there is one, as one more.
fn with_date(
    alloc: Global,
    members: Members,
    date: Option<BusinessDate>,
) -> Result<Members, AllocError>
    ensures { IfOk result (λ added. members_view added.entries ≡ dated date (members_view members.entries)) }
{
    match date {
        Some(date) => {
            let date = date.text();
            with_text(alloc, members, "date", date.as_str())
        }
        None => Ok(members),
    }
}

// Whether the day is an automatic one, and in progress.
fn is_automatic(day: &Day) -> bool
    ensures { result ≡ is_automatic day.now }
{
    // Names the type of dates for the borrow checker, which finds it nowhere else in this function.
    let _no_date: Option<BusinessDate> = None;
    day.automatic && !matches!(day.phase, Phase::Closed)
}
