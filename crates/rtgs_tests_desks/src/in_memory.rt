//! The keeper in memory.

mod memory_keeper;

pub use crate::in_memory::memory_keeper::MemoryKeeper;
