//! A desk that is opened.
use super::call::{Call, Outcome};
use super::setting::{desk_after, seen_of};
use super::store::Store;
use rtgs_book::Fault;
use rtgs_desk::Desk;
use rtgs_keeper::Keeper;
use std::alloc::Global;
use std::test::Fail;

/// A desk over this store, opened over the book that the commands of a script leave.
#[derive(Clone, Copy)]
pub struct Opens<'a, S> {
    pub store: S,
    pub before: &'a str,
}

/// A keeper, or the desk that is opened over it.
#[derive(Drop)]
pub enum KeeperOrDesk<K: Keeper + Drop> {
    Closed(K),
    Open(Desk<K>),
    /// While it is opened.
    Between,
}

impl<S: Store> Call for Opens<'_, S>
where
    S::Kept: Keeper + Drop,
{
    type State = KeeperOrDesk<S::Kept>;

    type Answer = Option<Fault>;

    fn begin(&self, alloc: Global) -> Result<KeeperOrDesk<S::Kept>, Fail> {
        let desk = desk_after(alloc, self.store.keeper(alloc)?, self.before)?;
        Ok(KeeperOrDesk::Closed(desk.into_keeper()))
    }

    fn call(&self, alloc: Global, book: &mut KeeperOrDesk<S::Kept>) -> Option<Fault> {
        let keeper = match std::mem::replace(book, KeeperOrDesk::Between) {
            KeeperOrDesk::Closed(keeper) => keeper,
            KeeperOrDesk::Open(desk) => desk.into_keeper(),
            KeeperOrDesk::Between => return None,
        };
        match Desk::open(alloc, keeper) {
            Ok(desk) => {
                *book = KeeperOrDesk::Open(desk);
                None
            }
            Err((fault, keeper)) => {
                *book = KeeperOrDesk::Closed(keeper);
                Some(fault)
            }
        }
    }

    fn outcome(&self, answer: &Option<Fault>) -> Outcome {
        match answer {
            Some(Fault::OutOfMemory) => Outcome::Refused,
            Some(Fault::StoreFault) if self.store.may_fail() => Outcome::Faulted,
            _ => Outcome::Other,
        }
    }

    fn reopened(
        &self,
        alloc: Global,
        book: KeeperOrDesk<S::Kept>,
    ) -> Result<KeeperOrDesk<S::Kept>, Fail> {
        let keeper = match book {
            KeeperOrDesk::Closed(keeper) => keeper,
            KeeperOrDesk::Open(desk) => desk.into_keeper(),
            KeeperOrDesk::Between => return Err(Fail::from("a keeper was lost")),
        };
        Ok(KeeperOrDesk::Closed(self.store.restarted(alloc, keeper)?))
    }

    fn seen(&self, alloc: Global, book: &mut KeeperOrDesk<S::Kept>) -> Result<String, Fail> {
        match book {
            KeeperOrDesk::Open(desk) => seen_of(alloc, desk),
            KeeperOrDesk::Closed(_) => Ok(String::from_str(alloc, "closed")?),
            KeeperOrDesk::Between => Err(Fail::from("a keeper was lost")),
        }
    }
}
