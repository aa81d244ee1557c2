//! Why a text of a book was not written.
use rtgs_book::Refusal;
use rtgs_output::TextFault;

/// Why a text of a book was not written to its end. What was written is a beginning of it, and not the whole.
#[derive(Debug, Drop)]
pub enum BookTextFault {
    /// A read was refused.
    Refused(Refusal),
    /// A line found no memory, or the writer failed.
    Text(TextFault),
}

impl From<Refusal> for BookTextFault {
    ghost use Rattle.std.specs.Prelude.{◌≡◌};
    ghost use Rattle.rtgs_statements.specs.declared.book_text_fault.BookTextFault.TheVariants.{Refused};

    ghost from_gives = { λ refusal fault. fault ≡ Refused refusal };

    fn from(refusal: Refusal) -> BookTextFault {
        BookTextFault::Refused(refusal)
    }
}

impl From<TextFault> for BookTextFault {
    ghost use Rattle.std.specs.Prelude.{◌≡◌};
    ghost use Rattle.rtgs_statements.specs.declared.book_text_fault.BookTextFault.TheVariants.{Text};

    ghost from_gives = { λ failed fault. fault ≡ Text failed };

    fn from(failed: TextFault) -> BookTextFault {
        BookTextFault::Text(failed)
    }
}
