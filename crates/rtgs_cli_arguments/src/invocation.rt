//! What a command line asks for.
use crate::requests::Words;
use rtgs_refusals::RefusalKind;

/// What a command line asks for.
#[derive(Clone, Copy, Debug)]
pub enum Invocation<'a> {
    /// A run over the file of a book, in words.
    Run(Words<'a>),
    /// What is said of a refusal, or of each where none is named.
    Refusals(Option<RefusalKind>),
}
