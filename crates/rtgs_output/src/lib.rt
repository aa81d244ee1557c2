//! Texts that are sent to a writer: the bytes, and why they were not all taken.
#![tactic(auto)]

mod sending;
mod text_fault;
mod writer_failed;

pub use crate::sending::send_all;
pub use crate::text_fault::TextFault;
pub use crate::writer_failed::WriterFailed;
