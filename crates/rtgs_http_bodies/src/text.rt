//! Replies that give a statement, a day report, or the orders or the marks of a date.
ghost use Rattle.std.specs.Prelude.{◌≡◌, IfOk};
ghost use Rattle.rtgs_http_bodies.specs.replies.Messages.{message};
ghost use Rattle.rtgs_http_bodies.specs.declared.replies.content_type.ContentType.{ContentType};

use crate::replies::{ContentType, Reply};
use http::StatusCode;
use std::alloc::{AllocError, Global};

/// The reply with a text that was gathered. The only error is lack of memory.
pub fn text_reply(alloc: Global, text: &[u8]) -> Result<Reply, AllocError>
    ensures { IfOk result (λ reply. reply ≡ message 200 ContentType.Plain text.now) }
{
    Reply::new(alloc, StatusCode::OK, ContentType::Plain, text)
}

/// The reply with orders or marks that were gathered as CSV. The only error is lack of memory.
pub fn csv_reply(alloc: Global, text: &[u8]) -> Result<Reply, AllocError>
    ensures { IfOk result (λ reply. reply ≡ message 200 ContentType.Csv text.now) }
{
    Reply::new(alloc, StatusCode::OK, ContentType::Csv, text)
}
