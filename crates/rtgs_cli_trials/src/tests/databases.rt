//! A book's file as another program makes it or changes it. Only this module names the store, since each proof over it
//! takes in all that it does: a function that holds it by its type from one step to the next costs most. So those that
//! name it take one step, and what takes several is written for any database.
use rtgs_book_file::stored_desk::make;
use sqlite::{Alter, Connection, FileStore};
use sqlite_disk::Disk;
use std::test::Fail;

/// A database that may be changed.
trait Changing {
    /// Changes it by SQL. Whether it did so.
    fn change(&mut self, sql: &str) -> bool;
}

impl<S: Alter + Drop> Changing for Connection<S> {
    fn change(&mut self, sql: &str) -> bool {
        self.execute_batch(sql).is_ok()
    }
}

/// A database that may be closed.
trait Closing: Drop {
    /// Copies its log into its file, and closes it. Whether it did so.
    fn end(self) -> bool;
}

impl<D: Disk + Drop> Closing for Connection<FileStore<D>> {
    fn end(self) -> bool {
        self.close().is_ok()
    }
}

/// Changes a database by SQL, and closes it, unless this says that the changes stay in its log. Whether it did so.
fn is_changed<C: Changing + Closing>(database: C, sql: &str, is_logged: bool) -> bool {
    let mut database = database;
    let is_done = database.change(sql);
    if is_logged {
        return is_done;
    }
    database.end() && is_done
}

/// Changes a file by SQL. The changes stay in its log where this says so, and are else copied into the file. Whether it
/// did so.
fn is_file_changed(rt: &HostRuntime, file: &str, sql: &str, is_logged: bool) -> Result<bool, Fail> {
    let conn = Connection::open(rt, file)?;
    Ok(is_changed(conn, sql, is_logged))
}

/// Changes a file by SQL. The changes stay in its log where this says so, and are else copied into the file.
pub fn change(rt: &HostRuntime, file: &str, sql: &str, is_logged: bool) -> Result<(), Fail> {
    if is_file_changed(rt, file, sql, is_logged)? {
        return Ok(());
    }
    Err(Fail::new(format_args!("{file} was not changed by {sql}")))
}

/// Makes the tables of a new book in a database, and closes it. Whether it did so.
fn is_made<D: Disk + Drop>(conn: Connection<FileStore<D>>) -> bool {
    if !conn.is_autocommit() {
        return false;
    }
    match make(conn) {
        Ok(conn) => conn.close().is_ok(),
        Err((_, conn)) => {
            let _ = conn.close();
            false
        }
    }
}

/// Makes a book in a file that is missing, with pages of the size that the store gives to new files.
pub fn make_large(rt: &HostRuntime, file: &str) -> Result<(), Fail> {
    let conn = Connection::open(rt, file)?;
    if is_made(conn) {
        return Ok(());
    }
    Err(Fail::new(file))
}
