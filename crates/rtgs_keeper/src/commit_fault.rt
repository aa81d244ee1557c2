//! Why a commit kept nothing, or may have.

/// Why a change was not kept.
#[derive(Clone, Copy, Debug, PartialEq, Eq)]
pub enum CommitFault {
    /// A growth was refused; nothing has changed.
    OutOfMemory,
    /// The store answered a fault, and the keeper has failed: the change is kept whole or not at all.
    Store,
    /// The keeper had failed before; nothing was done.
    Failed,
}
