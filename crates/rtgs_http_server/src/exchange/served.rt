//! What came of a connection.
use crate::input::ReaderFailed;
use http::StatusCode;
use rtgs_output::WriterFailed;

/// What came of a connection.
#[derive(Debug, Drop)]
pub enum Served {
    /// The reply with this status was written, all of it.
    Answered(StatusCode),
    /// The reader answered an error: nothing was written, and no command was given. Nothing else is reported so, since
    /// only such a read makes the value.
    ReadFault(ReaderFailed),
    /// The writer answered an error, or took no byte: a beginning of the reply with this status was written, and not
    /// all of it. Commands stand as they were answered. Nothing else is reported so, since only such a write makes the
    /// value.
    WriteFault(StatusCode, WriterFailed),
}
