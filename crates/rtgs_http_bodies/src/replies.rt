//! Replies to HTTP requests: each is made whole, exact to the byte, before any of it is sent.

mod content_type;
mod reply;
mod reply_bytes;

pub use crate::replies::content_type::ContentType;
pub use crate::replies::reply::Reply;
