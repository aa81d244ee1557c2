//! Replies that tell what came of a batch.
ghost use Rattle.std.specs.Prelude.{◌≡◌, IfOk};
ghost use Rattle.rtgs_order_files.specs.Results.{results_text};
ghost use Rattle.rtgs_http_bodies.specs.replies.Messages.{message};
ghost use Rattle.rtgs_http_bodies.specs.declared.replies.content_type.ContentType.{ContentType};
ghost use Rattle.rtgs_http_bodies.specs.Statuses.{batch_status};

use crate::replies::{ContentType, Reply};
use http::StatusCode;
use rtgs_book::{NewOrder, Refusal};
use rtgs_order_files::{BatchResult, write_results};
use std::alloc::{AllocError, Global};

/// The reply with the result file of a batch. A batch that stopped has another status. The only error is lack of
/// memory.
pub fn batch_reply(
    alloc: Global,
    rows: &[NewOrder],
    batch: &BatchResult,
) -> Result<Reply, AllocError>
    ensures { IfOk result (λ reply. reply ≡
        message (batch_status batch.now.stopped) ContentType.Csv
        (results_text rows.now batch.now.replies.items batch.now.stopped)) }
{
    let mut body = Vec::new(alloc);
    match write_results(alloc, &mut body, rows, batch) {
        Ok(()) => Reply::new(alloc, batch_status(batch.stopped), ContentType::Csv, &body),
        Err(_) => Err(AllocError),
    }
}

// The status of the reply to a batch that stopped so.
fn batch_status(stopped: Option<Refusal>) -> StatusCode
    ensures { result ≡ batch_status stopped }
{
    match stopped {
        None => StatusCode::OK,
        Some(_) => StatusCode::SERVICE_UNAVAILABLE,
    }
}
