//! A keeper that counts its commits where others can see it.
use rtgs_book::{Change, Core, Fault, Mark, Order, Posting};
use rtgs_keeper::{CommitFault, Keeper};
use rtgs_money::{BusinessDate, Code, Reference};
use std::alloc::Global;
use std::cell::Cell;

/// Passes calls on to another keeper, and counts the commits that have returned.
#[derive(Drop)]
pub struct CountingKeeper<'a, K> {
    /// The keeper to which calls are passed on.
    pub kept: K,
    commits: &'a Cell<usize>,
}

impl<'a, K: Keeper> CountingKeeper<'a, K> {
    /// Over this keeper. It adds to the count.
    pub fn new(kept: K, commits: &'a Cell<usize>) -> CountingKeeper<'a, K> {
        CountingKeeper { kept, commits }
    }
}

impl<K: Keeper> Keeper for CountingKeeper<'_, K> {
    ghost content = { λ keeper. K.content keeper.kept };

    ghost leaves = { λ keeper. K.leaves keeper.kept };

    ghost has_failed = { λ keeper. K.has_failed keeper.kept };

    ghost is_honest = { λ keeper. K.is_honest keeper.kept };

    ghost has_tables = { λ keeper. K.has_tables keeper.kept };

    ghost is_empty = { λ keeper. K.is_empty keeper.kept };

    ghost is_whole = { λ keeper. K.is_whole keeper.kept };

    ghost shows = { λ keeper. K.shows keeper.kept };

    ghost leaves_no_more = { λ keeper other. K.leaves_no_more keeper.kept other.kept };

    ghost explains = { λ keeper. K.explains keeper.kept };

    ghost still = { λ keeper. K.still keeper.kept };

    fn core(&mut self, alloc: Global) -> Result<Core, Fault> {
        self.kept.core(alloc)
    }

    fn find_order(&mut self, sender: &Code, reference: &Reference) -> Result<Option<Order>, Fault> {
        self.kept.find_order(sender, reference)
    }

    fn find_posting(&mut self, reference: &Reference) -> Result<Option<Posting>, Fault> {
        self.kept.find_posting(reference)
    }

    fn next_posting(&mut self, date: BusinessDate, number: u64) -> Result<Option<Posting>, Fault> {
        self.kept.next_posting(date, number)
    }

    fn next_order(&mut self, date: BusinessDate, number: u64) -> Result<Option<Order>, Fault> {
        self.kept.next_order(date, number)
    }

    fn next_mark(&mut self, date: BusinessDate, number: u64) -> Result<Option<Mark>, Fault> {
        self.kept.next_mark(date, number)
    }

    fn commit(&mut self, change: &Change) -> Result<(), CommitFault> {
        let kept = self.kept.commit(change);
        self.commits.set(self.commits.get().saturating_add(1));
        kept
    }
}
