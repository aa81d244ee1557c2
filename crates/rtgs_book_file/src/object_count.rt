//! What was read of how many objects a file lists.

/// What was read of how many tables, indexes, views and triggers a file lists, with what is in its log.
#[derive(Clone, Copy, Debug)]
pub(crate) enum ObjectCount {
    Objects(usize),
    /// The file says that its pages end in checksums, and the store found no database whose pages do. No desk writes
    /// checksums.
    WithoutSums,
    /// It could not be read, or an opening would make a new database: what the file is, its opening tells.
    Unknown,
}
