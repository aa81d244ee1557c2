//! Tables of each earlier version that are made those of the newest.
ghost use Rattle.std.specs.Prelude.{◌≡◌, false};

use super::super::scarce::setting::{DAY, desk_after};
use super::super::scarce::{Call, Outcome, Store, for_each_refusal};
use super::over_sql::{BLOCKS, OverSql, connected, stopped};
use rtgs_book::Fault;
use rtgs_sql_loading::load_book;
use rtgs_tables::migrate;
use sqlite::{Alter, Connection, MemStore};
use std::alloc::Global;
use std::test::Fail;

/// Makes tables of the newest version those of the first.
const FIRST: &str = "DROP TABLE resolution; DROP TABLE forward; UPDATE desk SET version = 1";

/// The same of the second.
const SECOND: &str = "DROP TABLE resolution; UPDATE desk SET version = 2";

/// Tables, outside a transaction.
#[derive(Drop)]
struct Tables<S: Alter + Drop> {
    conn: Connection<S>,
    ghost idle: { conn.in_transaction ≡ false },
}

// The tables, made those of an earlier version by hand, since no desk makes such tables.
fn older<S: Alter + Drop>(conn: Connection<S>, ages: &str) -> Result<Tables<S>, Fail> {
    let mut conn = conn;
    conn.execute_batch(ages)?;
    if conn.is_autocommit() {
        Ok(Tables { conn })
    } else {
        Err(Fail::from("in a transaction"))
    }
}

// The book that is read of tables as those of this version, or why none is.
fn read_as<S: Alter>(alloc: Global, conn: &mut Connection<S>, version: u64) -> Result<String, Fail>
    ensures { conn.old.in_transaction ≡ false → conn.new.in_transaction ≡ false }
{
    let book = load_book(alloc, conn, version);
    Ok(format!(in alloc; "{book:?}")?)
}

// How many tables there are, and what is read of them as those of each version.
fn shown<S: Alter + Drop>(alloc: Global, tables: &mut Tables<S>) -> Result<String, Fail> {
    let count = tables.conn.schema().tables.len();
    let first = read_as(alloc, &mut tables.conn, 1)?;
    let second = read_as(alloc, &mut tables.conn, 2)?;
    let third = read_as(alloc, &mut tables.conn, 3)?;
    Ok(format!(in alloc; "{count} tables: {first}, {second}, {third}")?)
}

/// Tables of an earlier version, with the book of a day, are made those of the newest.
#[derive(Clone, Copy)]
struct Migrates {
    /// Makes tables of the newest version those of this one.
    ages: &'static str,
}

impl Call for Migrates {
    type State = Tables<MemStore>;

    type Answer = Result<bool, Fault>;

    fn begin(&self, alloc: Global) -> Result<Tables<MemStore>, Fail> {
        let desk = desk_after(alloc, OverSql.keeper(alloc)?, DAY)?;
        older(desk.into_keeper().into_connection(), self.ages)
    }

    fn call(&self, alloc: Global, tables: &mut Tables<MemStore>) -> Result<bool, Fault> {
        migrate(alloc, &mut tables.conn)
    }

    fn outcome(&self, answer: &Result<bool, Fault>) -> Outcome {
        match answer {
            Err(Fault::OutOfMemory) => Outcome::Refused,
            Err(Fault::StoreFault) => Outcome::Faulted,
            _ => Outcome::Other,
        }
    }

    fn reopened(&self, alloc: Global, tables: Tables<MemStore>) -> Result<Tables<MemStore>, Fail> {
        let Tables { conn } = tables;
        let store = stopped(conn)?;
        Ok(Tables {
            conn: connected(alloc, store)?,
        })
    }

    fn seen(&self, alloc: Global, tables: &mut Tables<MemStore>) -> Result<String, Fail> {
        shown(alloc, tables)
    }
}

#[test]
fn of_the_first_version(rt: HostRuntime) -> Result<(), Fail> {
    for_each_refusal(
        &rt,
        "tests::over_tables::migrations::of_the_first_version",
        &Migrates { ages: FIRST },
        BLOCKS,
    )
}

#[test]
fn of_the_second_version(rt: HostRuntime) -> Result<(), Fail> {
    for_each_refusal(
        &rt,
        "tests::over_tables::migrations::of_the_second_version",
        &Migrates { ages: SECOND },
        BLOCKS,
    )
}
