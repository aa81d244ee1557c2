//! Tables on two disks in memory, their file and their log, as a store. Each disk is behind a fuse that passes a number
//! of calls on and fails each later one.
ghost use Rattle.std.specs.Prelude.{◌≡◌, false};

use super::store::{Booked, Ended, Failing, Job, OverTables, Store, Task};
use rtgs_book::{Book, Fault};
use rtgs_book_file::stored_desk::create;
use rtgs_tables::SqlKeeper;
use sqlite::{Alter, Connection, Error, ErrorCode, Files, Options};
use sqlite_disk::{Crash, Disk, Fuse, Memory};
use std::alloc::Global;
use std::mem;
use std::test::Fail;

/// The two disks, while no database is open over them.
#[derive(Drop)]
pub struct OnDisks {
    disks: Files<Fuse<Memory>>,
}

// A new disk with the same bytes, which are synced. It passes this many calls on.
fn passing(alloc: Global, disk: &Fuse<Memory>, calls: u64) -> Result<Fuse<Memory>, Fail> {
    let mut memory = Memory::new(alloc);
    memory.write_at(0, disk.inner().bytes())?;
    memory.sync()?;
    Ok(Fuse::new(memory, calls))
}

impl<S: Alter + Drop> Booked for SqlKeeper<S> {
    fn book(&mut self, alloc: Global) -> Result<Book, Fault> {
        self.load(alloc)
    }
}

/// A job with the keeper over a database, in which the tables of a new desk are made where they are to be made.
#[derive(Drop)]
struct Keeping<'a, J> {
    is_new: bool,
    job: &'a mut J,
}

impl<J: Job> Task for Keeping<'_, J> {
    fn done<S: Alter + Drop>(
        &mut self,
        alloc: Global,
        conn: Connection<S>,
    ) -> Result<(Connection<S>, Ended), Fail> {
        let keeper = if self.is_new {
            match create(alloc, conn) {
                Ok(desk) => desk.into_keeper(),
                Err((Fault::StoreFault, conn)) => return Ok((conn, Ended::Unopened)),
                Err((fault, _)) => return Err(Fail::from(fault)),
            }
        } else {
            SqlKeeper::open(conn)
        };
        let (keeper, closes) = self.job.done(alloc, keeper)?;
        let conn = keeper.into_connection();
        if closes {
            Ok((conn, Ended::Closed))
        } else {
            Ok((conn, Ended::Stopped))
        }
    }
}

// The disks, where one of them failed, and for no other reason.
fn left_by<D: Disk + Drop>(
    error: Error,
    disks: Files<D>,
    ended: Ended,
) -> Result<(Files<D>, Ended), Fail> {
    if error == Error::SqliteFailure(ErrorCode::SystemIoFailure) {
        Ok((disks, ended))
    } else {
        Err(Fail::from(error))
    }
}

// Does the task with a database over the disks, of whatever kind they are.
fn used<D: Disk + Drop, T: Task>(
    alloc: Global,
    disks: Files<D>,
    task: &mut T,
) -> Result<(Files<D>, Ended), Fail> {
    if !disks.log.may_be_used() || !disks.db.may_be_used() {
        return Err(Fail::new("a disk that may not be used"));
    }
    let conn = match Connection::open_files(alloc, disks, Options::new(1)) {
        Ok(conn) => conn,
        Err((error, left)) => return left_by(error, left.into_files(), Ended::Unopened),
    };
    let (conn, ended) = task.done(alloc, conn)?;
    if !matches!(ended, Ended::Closed) {
        return Ok((conn.into_store().close(), ended));
    }
    match conn.close_files() {
        Ok(disks) => Ok((disks, Ended::Closed)),
        Err((error, store)) => left_by(error, store.close(), Ended::Unclosed),
    }
}

impl Store for OnDisks {
    fn blank(alloc: Global) -> OnDisks {
        OnDisks {
            disks: Files {
                log: Fuse::new(Memory::new(alloc), u64::MAX),
                db: Fuse::new(Memory::new(alloc), u64::MAX),
            },
        }
    }

    fn fail(&mut self, alloc: Global, failing: Failing, calls: usize) -> Result<(), Fail> {
        let calls = calls as u64;
        let (log, db) = match failing {
            Failing::Log => (calls, u64::MAX),
            Failing::Database => (u64::MAX, calls),
            Failing::Keeper(_) => return Err(Fail::new("no keeper that fails")),
        };
        self.disks.log = passing(alloc, &self.disks.log, log)?;
        self.disks.db = passing(alloc, &self.disks.db, db)?;
        Ok(())
    }

    fn session<J: Job>(&mut self, alloc: Global, is_new: bool, job: &mut J) -> Result<Ended, Fail> {
        self.tables(alloc, &mut Keeping { is_new, job })
    }

    fn crash(&mut self) {
        self.disks.log.crash();
        self.disks.db.crash();
    }

    fn copied(&self, alloc: Global) -> Result<Option<OnDisks>, Fail> {
        let log = passing(alloc, &self.disks.log, u64::MAX)?;
        let db = passing(alloc, &self.disks.db, u64::MAX)?;
        Ok(Some(OnDisks {
            disks: Files { log, db },
        }))
    }
}

impl OverTables for OnDisks {
    fn tables<T: Task>(&mut self, alloc: Global, task: &mut T) -> Result<Ended, Fail> {
        let OnDisks { disks } = mem::replace(self, OnDisks::blank(alloc));
        let (disks, ended) = used(alloc, disks, task)?;
        self.disks = disks;
        Ok(ended)
    }
}
