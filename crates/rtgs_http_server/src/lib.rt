//! Requests to the desk over TCP, one connection after another, each with one request and its reply. What knows no
//! socket stands in modules: one request of any reader (`input`), its reply to any writer (`exchange`), and laws of
//! both (`reply_laws`).
#![tactic(auto)]

mod connections;
mod deadline;
pub mod exchange;
mod input;
pub mod laws;
mod port;
pub mod reply_laws;
mod reply_writer;
mod request_reader;
mod serve;

pub use crate::connections::Connections;
pub use crate::exchange::{Served, reply_to, serve_one};
pub use crate::input::{Directory, DirectoryFailed, ReaderFailed, Unread, read_request};
pub use crate::port::Port;
pub use crate::reply_writer::ReplyWriter;
pub use crate::request_reader::RequestReader;
pub use crate::serve::serve_connections;
