//! Where desks keep their books.
use rtgs_tests_desks::MemoryKeeper;
use std::alloc::Global;
use std::test::Fail;

/// A keeper of a new book, and what is found of it.
pub trait Store {
    // Its bounds stand at each function that has need of them, since the kit does not prove an impl that sets a bounded
    // one to a keeper over a store of another crate.
    type Kept;

    /// A keeper of a new book.
    fn keeper(&self, alloc: Global) -> Result<Self::Kept, Fail>;

    /// The keeper as it is found after a crash.
    fn restarted(&self, alloc: Global, keeper: Self::Kept) -> Result<Self::Kept, Fail>;

    /// Whether the keeper fails where it finds no memory to commit or to roll back.
    fn may_fail(&self) -> bool;
}

/// A keeper in memory. It is found as it was, and never fails.
#[derive(Clone, Copy)]
pub struct InMemory;

impl Store for InMemory {
    type Kept = MemoryKeeper;

    fn keeper(&self, alloc: Global) -> Result<MemoryKeeper, Fail> {
        Ok(MemoryKeeper::new(alloc))
    }

    fn restarted(&self, _alloc: Global, keeper: MemoryKeeper) -> Result<MemoryKeeper, Fail> {
        Ok(keeper)
    }

    fn may_fail(&self) -> bool {
        false
    }
}
