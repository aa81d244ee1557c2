//! A keeper that fails when a test wants it.
ghost use Rattle.std.specs.Prelude.{◌≡◌, ◌⊎◌};
ghost use Rattle.rtgs_book.specs.declared.book.Book.{Book};

use crate::in_memory::MemoryKeeper;
use rtgs_book::{Change, Core, Fault, Mark, Order, Posting};
use rtgs_keeper::{CommitFault, Keeper};
use rtgs_money::{BusinessDate, Code, Reference};
use std::alloc::Global;

/// What a call meets.
#[derive(Clone, Copy, Debug)]
pub enum Trouble {
    /// A fault of the store before anything was done. What is kept then is what a stop at this call leaves.
    Lost,
    /// A fault of the store after all was done, so that the answer is lost.
    Kept,
    /// Memory is refused, and nothing is done. The call after it may go well.
    OutOfMemory,
}

impl Trouble {
    // The fault that a look-up answers.
    fn fault(self) -> Fault
        ensures { (result ≡ Fault.OutOfMemory) ⊎ (result ≡ Fault.StoreFault) }
    {
        match self {
            Trouble::Lost | Trouble::Kept => Fault::StoreFault,
            Trouble::OutOfMemory => Fault::OutOfMemory,
        }
    }
}

/// Passes calls on to another keeper, until one meets trouble. After a fault of the store it answers that it has
/// failed.
#[derive(Drop)]
pub struct FailingKeeper<K> {
    /// The keeper to which calls are passed on, as a restart finds it.
    pub kept: K,
    // how many calls go well before the trouble
    calls: usize,
    trouble: Option<Trouble>,
    failed: bool,
}

impl<K: Keeper> FailingKeeper<K> {
    /// Over this keeper. This many calls of any kind go well, and the next one meets trouble.
    pub fn new(kept: K, calls: usize, trouble: Trouble) -> FailingKeeper<K> {
        FailingKeeper {
            kept,
            calls,
            trouble: Some(trouble),
            failed: false,
        }
    }

    /// Over what it keeps, as after a restart. This many calls of any kind go well, and the next one meets trouble.
    pub fn restarted(self, calls: usize, trouble: Trouble) -> FailingKeeper<K> {
        let FailingKeeper {
            kept,
            calls: _,
            trouble: _,
            failed: _,
        } = self;
        FailingKeeper::new(kept, calls, trouble)
    }

    // The trouble that this call meets.
    fn trouble(&mut self) -> Option<Trouble>
        ensures kept { self.new.kept ≡ self.old.kept }
        ensures failed { self.new.failed ≡ self.old.failed }
    {
        if self.calls > 0 {
            self.calls -= 1;
            return None;
        }
        self.trouble.take()
    }
}

impl<K: Keeper> Keeper for FailingKeeper<K> {
    ghost use Rattle.std.specs.Prelude.{◌⊎◌};
    ghost use Rattle.rtgs_book.specs.declared.fault.Fault.{Fault};

    ghost content = { λ keeper. K.content keeper.kept };

    ghost leaves = { λ keeper. K.leaves keeper.kept };

    ghost has_failed = { λ keeper. keeper.failed };

    ghost is_honest = { λ keeper. K.is_honest keeper.kept };

    ghost has_tables = { λ keeper. K.has_tables keeper.kept };

    ghost is_empty = { λ keeper. K.is_empty keeper.kept };

    ghost is_whole = { λ keeper. K.is_whole keeper.kept };

    ghost shows = { λ keeper. K.shows keeper.kept };

    // Nothing is claimed of what the store itself may leave.
    ghost leaves_no_more = { λ _ _. Unit {0} };

    ghost explains = { λ keeper fault. (fault ≡ Fault.StoreFault) ⊎ K.explains keeper.kept fault };

    ghost still = { λ keeper. let it = K.still keeper.kept in record {
      settled = it.settled;
      stays = it.stays;
      tabled = it.tabled;
      whole = it.whole;
      unmoved = tt;
    } };

    fn core(&mut self, alloc: Global) -> Result<Core, Fault> {
        if self.failed {
            return Err(Fault::StoreFault);
        }
        let answer = match self.trouble() {
            None => self.kept.core(alloc),
            Some(trouble) => Err(trouble.fault()),
        };
        self.failed = matches!(answer, Err(Fault::StoreFault));
        answer
    }

    fn find_order(&mut self, sender: &Code, reference: &Reference) -> Result<Option<Order>, Fault> {
        if self.failed {
            return Err(Fault::StoreFault);
        }
        let found = match self.trouble() {
            None => self.kept.find_order(sender, reference),
            Some(Trouble::Kept) => {
                // the answer is lost, whatever it was
                let _ = self.kept.find_order(sender, reference);
                Err(Fault::StoreFault)
            }
            Some(trouble) => Err(trouble.fault()),
        };
        self.failed = matches!(found, Err(Fault::StoreFault));
        found
    }

    fn find_posting(&mut self, reference: &Reference) -> Result<Option<Posting>, Fault> {
        if self.failed {
            return Err(Fault::StoreFault);
        }
        let found = match self.trouble() {
            None => self.kept.find_posting(reference),
            Some(Trouble::Kept) => {
                // the answer is lost, whatever it was
                let _ = self.kept.find_posting(reference);
                Err(Fault::StoreFault)
            }
            Some(trouble) => Err(trouble.fault()),
        };
        self.failed = matches!(found, Err(Fault::StoreFault));
        found
    }

    fn next_posting(&mut self, date: BusinessDate, number: u64) -> Result<Option<Posting>, Fault> {
        if self.failed {
            return Err(Fault::StoreFault);
        }
        let found = match self.trouble() {
            None => self.kept.next_posting(date, number),
            Some(Trouble::Kept) => {
                // the answer is lost, whatever it was
                let _ = self.kept.next_posting(date, number);
                Err(Fault::StoreFault)
            }
            Some(trouble) => Err(trouble.fault()),
        };
        self.failed = matches!(found, Err(Fault::StoreFault));
        found
    }

    fn next_order(&mut self, date: BusinessDate, number: u64) -> Result<Option<Order>, Fault> {
        if self.failed {
            return Err(Fault::StoreFault);
        }
        let found = match self.trouble() {
            None => self.kept.next_order(date, number),
            Some(Trouble::Kept) => {
                // the answer is lost, whatever it was
                let _ = self.kept.next_order(date, number);
                Err(Fault::StoreFault)
            }
            Some(trouble) => Err(trouble.fault()),
        };
        self.failed = matches!(found, Err(Fault::StoreFault));
        found
    }

    fn next_mark(&mut self, date: BusinessDate, number: u64) -> Result<Option<Mark>, Fault> {
        if self.failed {
            return Err(Fault::StoreFault);
        }
        let found = match self.trouble() {
            None => self.kept.next_mark(date, number),
            Some(Trouble::Kept) => {
                // the answer is lost, whatever it was
                let _ = self.kept.next_mark(date, number);
                Err(Fault::StoreFault)
            }
            Some(trouble) => Err(trouble.fault()),
        };
        self.failed = matches!(found, Err(Fault::StoreFault));
        found
    }

    fn commit(&mut self, change: &Change) -> Result<(), CommitFault> {
        what_holds_a_book_is_whole(&self.kept);
        if self.failed {
            return Err(CommitFault::Failed);
        }
        let kept = match self.trouble() {
            None => self.kept.commit(change),
            Some(Trouble::Kept) => {
                let _ = self.kept.commit(change);
                Err(CommitFault::Store)
            }
            Some(Trouble::Lost) => Err(CommitFault::Store),
            Some(Trouble::OutOfMemory) => Err(CommitFault::OutOfMemory),
        };
        match kept {
            Err(CommitFault::Store | CommitFault::Failed) => {
                self.failed = true;
                Err(CommitFault::Store)
            }
            _ => kept,
        }
    }
}

// What holds a book leaves one. The function does nothing: its contract is the law.
fn what_holds_a_book_is_whole<K: Keeper>(keeper: &K)
    ensures { (book : Book) → K.content keeper.now book → K.is_whole keeper.now }
{
    let _ = keeper;
}

/// A keeper in memory of a new book, which meets this trouble after this many calls.
pub fn failing(alloc: Global, calls: usize, trouble: Trouble) -> FailingKeeper<MemoryKeeper> {
    FailingKeeper::new(MemoryKeeper::new(alloc), calls, trouble)
}
