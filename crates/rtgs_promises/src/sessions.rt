//! Sessions with a desk, how they end, and why they may end early.
use rtgs_book::{Command, Fault, Refusal, WholeAnswer};
use sqlite::Error;
use sqlite_trees::error::StoreError;

/// How a session with a desk ends.
#[derive(Clone, Copy, Debug)]
pub enum Stop {
    /// By a crash, in the middle of whatever its store then does.
    Crash,
    /// In order, as far as its store still works.
    Close,
}

/// A session that a desk is to have: the commands that it is given, and how it ends.
#[derive(Debug, Drop)]
pub struct PlannedSession {
    pub commands: Vec<Command>,
    pub stop: Stop,
}

/// Why no more sessions could be had.
#[derive(Debug, Drop)]
pub enum NoSession {
    /// There was no memory for the replies. The commands of that session were not given.
    OutOfMemory,
    /// The store did not open again after a crash.
    NotReopened(StoreError),
    /// The database did not open over the store.
    NotConnected(Error),
    /// No desk opened over the tables.
    NoDesk(Fault),
}

/// Sessions that ended early: the replies of those that were had, why there were no more, and the store.
#[derive(Drop)]
pub struct Unfinished<S> {
    pub said: Vec<Vec<Result<WholeAnswer, Refusal>>>,
    pub cause: NoSession,
    pub store: S,
}
