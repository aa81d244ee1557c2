//! What a run touched of a book's file.

/// What a run touched of a book's file. `A` is what the file is opened with, `U` a file that was refused (over which no
/// desk was opened, in which no book was made, or whose tables were not brought to the newest version), `C` a file that
/// was closed, and `M` what the run met beside it.
#[derive(Drop)]
pub enum Touched<A, U, C, M> {
    /// Nothing: what the file is opened with is still there.
    Nothing(A),
    /// The file was refused.
    Refused(U),
    /// A desk was opened over the file, a book made in it, or the version of its tables seen to; and the file was
    /// closed. Beside it the run met this.
    Book(C, M),
}
