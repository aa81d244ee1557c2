//! One request to the desk over HTTP, and one reply. The reply is made whole, after the last command and without a
//! writer, before any of it is written.

mod commands;
mod faults;
pub mod laws;
mod readings;
mod reply;
mod serve;
mod served;

pub use crate::exchange::reply::reply_to;
pub use crate::exchange::serve::serve_one;
pub use crate::exchange::served::Served;
