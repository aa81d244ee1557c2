//! Stores of a book. A store is opened, a job is done with the keeper over it, and it is closed or left as it is.
ghost use Rattle.std.specs.Prelude.{◌≡◌, false};

use rtgs_book::{Book, Fault};
use rtgs_keeper::Keeper;
use rtgs_tests_desks::Trouble;
use sqlite::{Alter, Connection};
use std::alloc::Global;
use std::test::Fail;

/// What fails in a store: one of two disks, which fails for good, or the keeper, which meets this trouble once.
#[derive(Clone, Copy)]
pub enum Failing {
    Log,
    Database,
    Keeper(Trouble),
}

/// How a session with a store ended.
#[derive(Clone, Copy)]
pub enum Ended {
    /// It failed before the job, and was left as it was.
    Unopened,
    /// It was left as it was after the job.
    Stopped,
    /// It failed as it was closed.
    Unclosed,
    Closed,
}

/// A keeper that gives its whole book.
pub trait Booked: Keeper + Drop {
    fn book(&mut self, alloc: Global) -> Result<Book, Fault>;
}

/// What is done with a keeper while its store is open.
pub trait Job {
    /// Does it, and gives the keeper back, and whether its store is to be closed then.
    fn done<K: Booked>(&mut self, alloc: Global, keeper: K) -> Result<(K, bool), Fail>;
}

/// A store of a book.
pub trait Store: Drop {
    /// A blank one, which does not fail.
    fn blank(alloc: Global) -> Self;

    /// Makes it fail in this way after this many calls, and in no other.
    fn fail(&mut self, alloc: Global, failing: Failing, calls: usize) -> Result<(), Fail>;

    /// Opens it, makes what a new desk needs where that is to be made, and does the job.
    fn session<J: Job>(&mut self, alloc: Global, is_new: bool, job: &mut J) -> Result<Ended, Fail>;

    /// Leaves of it what a crash leaves, after which nothing fails.
    fn crash(&mut self);

    /// Another one with all that it has, which does not fail; none where it has no copy.
    fn copied(&self, alloc: Global) -> Result<Option<Self>, Fail>;
}

/// What is done with the database of a store while it is open.
pub trait Task {
    /// Does it, and gives the database back, and how the session ends: the store is closed then, or left as it is.
    fn done<S: Alter + Drop>(
        &mut self,
        alloc: Global,
        conn: Connection<S>,
    ) -> Result<(Connection<S>, Ended), Fail>
        requires { conn.in_transaction ≡ false };
}

/// A store that has its book in the tables of a database.
pub trait OverTables: Store {
    /// Opens it, and does the task.
    fn tables<T: Task>(&mut self, alloc: Global, task: &mut T) -> Result<Ended, Fail>;
}
