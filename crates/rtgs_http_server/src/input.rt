//! A request, from a reader: its bytes come in pieces, as the reader gives them.

mod body;
mod directory;
mod head;
mod piece;
mod reader_failed;
mod request;
mod unread;

pub use crate::input::directory::{Directory, DirectoryFailed};
pub(crate) use crate::input::piece::PIECE;
pub use crate::input::reader_failed::ReaderFailed;
pub use crate::input::request::read_request;
pub use crate::input::unread::Unread;
