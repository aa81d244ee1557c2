//! The file of a book: its lock, and the desk over it. And a desk over the tables of any store (`stored_desk`).
#![tactic(auto)]

mod abandoned_book;
mod book_file;
mod book_lock;
mod cause;
mod closed_book;
mod closed_files;
mod file_fault;
mod file_on_disk;
mod files_gone;
mod finished_book;
mod held_lock;
mod limits;
mod locked;
mod looked_at;
mod looks;
mod migration;
mod not_locked;
mod not_reached;
mod not_readable;
mod not_started;
mod not_vacant;
mod object_count;
mod open_book;
mod released;
mod schema_size;
mod small_pages;
mod store;
pub mod stored_desk;
mod unopened;
mod unopened_store;

pub use crate::abandoned_book::AbandonedBook;
pub use crate::book_file::BookFile;
pub use crate::book_lock::BookLock;
pub use crate::closed_book::ClosedBook;
pub use crate::closed_files::ClosedFiles;
pub use crate::file_fault::FileFault;
pub use crate::finished_book::FinishedBook;
pub use crate::held_lock::HeldLock;
pub use crate::open_book::OpenBook;
pub use crate::released::Released;
pub use crate::store::FileKeeper;
pub use crate::unopened::Unopened;
