//! Replies.
ghost use Rattle.std.specs.Prelude.{◌≡◌, ℕ, false, string_bytes, IfOk, OnOk, OnErr};
ghost use Rattle.std.specs.Io.KnownBytes.{Appends};
ghost use Rattle.serde_json.specs.View.{view};
ghost use Rattle.serde_json.specs.Written.{has_float};
ghost use Rattle.rtgs_output.specs.Sent.{AppendsPart};
ghost use Rattle.rtgs_http_bodies.specs.replies.Bodies.{refusal_data};
ghost use Rattle.rtgs_http_bodies.specs.replies.Kinds.{no_memory, answer_lost};
ghost use Rattle.rtgs_http_bodies.specs.replies.Messages.{Message, message, json_message};
ghost use Rattle.rtgs_http_bodies.specs.replies.Texts.{reason_of, head_text, reply_text};

use crate::replies::content_type::ContentType;
use crate::replies::reply_bytes::ReplyBytes;
use http::StatusCode;
use rtgs_output::{WriterFailed, send_all};
use serde_json::{Value, json};
use std::alloc::{AllocError, Global};
use std::io::Write;
use std::marker::Model;

/// The reply to a request. Contracts see its status and all its bytes.
#[derive(Debug, Drop)]
pub struct Reply {
    status: StatusCode,
    bytes: ReplyBytes,
}

impl Model for Reply {
    ghost use Rattle.rtgs_http_bodies.specs.replies.Messages.{Message};
    ghost use Rattle.rtgs_http_bodies.specs.replies.Kept.{kept_bytes};

    ghost Value = { Message };

    ghost view = { λ reply. record { status = reply.status; text = kept_bytes reply.bytes } };
}

impl Reply {
    /// The reply with this status and this body. The only error is lack of memory.
    pub fn new(
        alloc: Global,
        status: StatusCode,
        content: ContentType,
        body: &[u8],
    ) -> Result<Reply, AllocError>
        ensures { IfOk result (λ reply. reply ≡ message status content body.now) }
    {
        let mut text = head(alloc, status, content, body.len())?.into_bytes();
        text.extend_from_slice(body)?;
        Ok(Reply {
            status,
            bytes: ReplyBytes::Made(text),
        })
    }

    /// The reply with this status whose body spells a value. The only error is lack of memory.
    pub fn json(alloc: Global, status: StatusCode, value: &Value) -> Result<Reply, AllocError>
        requires { has_float (view value.now) ≡ false }
        ensures { IfOk result (λ reply. reply ≡ json_message status (view value.now)) }
    {
        let body = value.to_vec(alloc)?;
        Reply::new(alloc, status, ContentType::Json, &body)
    }

    /// The reply that tells a refusal or a fault. The only error is lack of memory.
    pub fn refused(
        alloc: Global,
        status: StatusCode,
        code: u8,
        name: &str,
    ) -> Result<Reply, AllocError>
        ensures { IfOk result (λ reply. reply ≡ json_message status (refusal_data code name.now)) }
    {
        let value = refusal_value(alloc, code, name)?;
        Reply::json(alloc, status, &value)
    }

    /// The reply where memory was refused before the desk had answered. It takes none.
    pub fn out_of_memory() -> Reply
        ensures { result ≡ no_memory }
    {
        Reply {
            status: StatusCode::SERVICE_UNAVAILABLE,
            bytes: ReplyBytes::Fixed(OUT_OF_MEMORY),
        }
    }

    /// The reply where memory was refused for the reply itself, after the desk had answered. What was answered stands.
    /// It takes no memory.
    pub fn answer_lost() -> Reply
        ensures { result ≡ answer_lost }
    {
        Reply {
            status: StatusCode::SERVICE_UNAVAILABLE,
            bytes: ReplyBytes::Fixed(ANSWER_LOST),
        }
    }

    /// The status that its first line names.
    pub fn status(&self) -> StatusCode
        ensures { result ≡ self.now.status }
    {
        self.status
    }

    /// All bytes, the head and the body.
    pub fn as_bytes(&self) -> &[u8]
        ensures { result.now ≡ self.now.text }
    {
        match &self.bytes {
            ReplyBytes::Made(bytes) => bytes.as_slice(),
            ReplyBytes::Fixed(text) => text.as_bytes(),
        }
    }

    /// Sends all bytes. After a write that failed, or took no byte, a beginning of them was written, and not all.
    pub fn send<W: Write>(&self, out: &mut W) -> Result<(), WriterFailed>
        ensures sent { OnOk result (Appends (W.contents out.old) (W.contents out.new) self.now.text) }
        ensures begun { OnErr result (AppendsPart (W.contents out.old) (W.contents out.new) self.now.text) }
    {
        send_all(out, self.as_bytes())
    }
}

const OUT_OF_MEMORY: &str = "HTTP/1.1 503 Service Unavailable\r\nContent-Type: application/json\r\n\
     Content-Length: 32\r\nConnection: close\r\n\r\n{\"code\":90,\"name\":\"OutOfMemory\"}";

const ANSWER_LOST: &str = "HTTP/1.1 503 Service Unavailable\r\nContent-Type: application/json\r\n\
     Content-Length: 31\r\nConnection: close\r\n\r\n{\"code\":69,\"name\":\"AnswerLost\"}";

// All that stands before a body of this length.
fn head(
    alloc: Global,
    status: StatusCode,
    content: ContentType,
    length: usize,
) -> Result<String, AllocError>
    ensures { IfOk result (λ head. string_bytes head ≡ head_text status content length) }
{
    let number = status.as_u16();
    let reason = reason_of(number);
    let name = content.name();
    format!(in alloc;
        "HTTP/1.1 {number} {reason}\r\nContent-Type: {name}\r\nContent-Length: {length}\r\nConnection: close\r\n\r\n"
    )
}

// The reason of a status. The `http` crate's own is another for 413.
fn reason_of(status: u16) -> &'static str
    ensures { result.now ≡ reason_of status }
{
    match status {
        200 => "OK",
        400 => "Bad Request",
        403 => "Forbidden",
        404 => "Not Found",
        409 => "Conflict",
        411 => "Length Required",
        413 => "Content Too Large",
        503 => "Service Unavailable",
        _ => "",
    }
}

// The JSON value of a refusal or a fault.
fn refusal_value(alloc: Global, code: u8, name: &str) -> Result<Value, AllocError>
    ensures { IfOk result (λ value. view value ≡ refusal_data code name.now) }
{
    json!(in alloc; {"code": code, "name": name})
}
