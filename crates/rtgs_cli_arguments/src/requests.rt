//! What a run is asked for: its words, each judged by its form from left to right, become a request.

mod command_words;
mod judging;
mod reading_words;
mod request;
mod spelling;

pub use crate::requests::command_words::CommandWords;
pub use crate::requests::judging::judge_request;
pub use crate::requests::reading_words::ReadingWords;
pub use crate::requests::request::{JudgedRequest, Request, Words};
