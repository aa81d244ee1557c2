//! A keeper in memory as a store, which may meet trouble at one of its calls.
use super::store::{Booked, Ended, Failing, Job, Store};
use rtgs_book::{Book, Fault};
use rtgs_tests_desks::{FailingKeeper, MemoryKeeper, Trouble};
use std::alloc::Global;
use std::mem;
use std::test::Fail;

/// A keeper while no desk is open over it, and the trouble that it meets after a number of calls.
#[derive(Drop)]
pub struct InMemory {
    kept: MemoryKeeper,
    calls: usize,
    trouble: Trouble,
}

impl Booked for FailingKeeper<MemoryKeeper> {
    fn book(&mut self, alloc: Global) -> Result<Book, Fault> {
        self.kept.load(alloc)
    }
}

impl Store for InMemory {
    fn blank(alloc: Global) -> InMemory {
        InMemory {
            kept: MemoryKeeper::new(alloc),
            calls: usize::MAX,
            trouble: Trouble::Lost,
        }
    }

    fn fail(&mut self, _alloc: Global, failing: Failing, calls: usize) -> Result<(), Fail> {
        let Failing::Keeper(trouble) = failing else {
            return Err(Fail::new("no disk"));
        };
        self.trouble = trouble;
        self.calls = calls;
        Ok(())
    }

    fn session<J: Job>(
        &mut self,
        alloc: Global,
        _is_new: bool,
        job: &mut J,
    ) -> Result<Ended, Fail> {
        let kept = mem::replace(&mut self.kept, MemoryKeeper::new(alloc));
        let keeper = FailingKeeper::new(kept, self.calls, self.trouble);
        let (keeper, closes) = job.done(alloc, keeper)?;
        self.kept = keeper.kept;
        self.calls = usize::MAX;
        if closes {
            Ok(Ended::Closed)
        } else {
            Ok(Ended::Stopped)
        }
    }

    fn crash(&mut self) {}

    fn copied(&self, _alloc: Global) -> Result<Option<InMemory>, Fail> {
        Ok(None)
    }
}
