//! Why a text was not written to its end.
use crate::writer_failed::WriterFailed;
use std::alloc::AllocError;
use std::error::Error;
use std::fmt;

/// Why a text was not written to its end. What was written is a beginning of it, and not the whole.
#[derive(Debug, Drop)]
pub enum TextFault {
    OutOfMemory,
    /// The writer answered an error, or took no byte. Nothing else is reported so, since only such a write makes the
    /// value.
    Write(WriterFailed),
}

impl From<AllocError> for TextFault {
    ghost use Rattle.std.specs.Prelude.{◌≡◌};
    ghost use Rattle.rtgs_output.specs.declared.text_fault.TextFault.TheVariants.{OutOfMemory};

    ghost from_gives = { λ _ fault. fault ≡ OutOfMemory };

    fn from(_: AllocError) -> TextFault {
        TextFault::OutOfMemory
    }
}

impl From<WriterFailed> for TextFault {
    ghost use Rattle.std.specs.Prelude.{◌≡◌};
    ghost use Rattle.rtgs_output.specs.declared.text_fault.TextFault.TheVariants.{Write};

    ghost from_gives = { λ failed fault. fault ≡ Write failed };

    fn from(failed: WriterFailed) -> TextFault {
        TextFault::Write(failed)
    }
}

impl fmt::Display for TextFault {
    ghost use Rattle.rtgs_output.specs.Sent.{words_of};

    ghost output = { words_of };

    fn fmt<W: fmt::Write>(&self, f: &mut fmt::Formatter<W>) -> fmt::Result {
        match self {
            TextFault::OutOfMemory => f.write_str("out of memory"),
            TextFault::Write(error) => write!(f, "{error}"),
        }
    }
}

impl Error for TextFault {}
