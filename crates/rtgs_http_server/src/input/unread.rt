//! Why nothing is asked.
use crate::input::reader_failed::ReaderFailed;
use rtgs_http_requests::HttpFault;

/// Why a reader gave no request.
#[derive(Clone, Copy, Debug, PartialEq, Eq)]
pub enum Unread {
    /// The reader answered an error.
    Reader(ReaderFailed),
    /// The caller was to be looked up, and the directory has failed.
    DirectoryFailed,
    /// The request asks for nothing.
    Faulty(HttpFault),
}
