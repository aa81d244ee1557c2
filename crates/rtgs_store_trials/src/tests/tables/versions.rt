//! Tables of two banks in each version: which are loaded as which, and over which a desk is opened.
use super::super::scripts::{Answers, follows};
use super::super::setting::meddled;
use super::{FIRST_VERSION, NEWEST_VERSION, SECOND_VERSION, two_banks};
use rtgs_book::Fault;
use rtgs_desk::Desk;
use rtgs_keeper::Keeper;
use rtgs_sql_loading::load_book;
use rtgs_tables::SqlKeeper;
use rtgs_tests_desks::ensure;
use sqlite::MemStore;
use std::alloc::Global;
use std::test::Fail;

/// Two banks in tables of which this was made, and on which a line of SQL was run.
fn tables(alloc: Global, made: &str, asked: &str) -> Result<SqlKeeper<MemStore>, Fail> {
    meddled(meddled(two_banks(alloc)?, made)?, asked)
}

/// Tells what is loaded of such tables as those of one version.
#[derive(Clone, Copy)]
struct Loading {
    made: &'static str,
    version: u64,
}

impl Answers for Loading {
    fn answer(&mut self, alloc: Global, asked: &str) -> Result<String, Fail> {
        let mut conn = tables(alloc, self.made, asked)?.into_connection();
        match load_book(alloc, &mut conn, self.version) {
            Ok(book) => {
                let participants = book.participants.len();
                Ok(format!(in alloc; "{participants} participants")?)
            }
            Err(fault) => Ok(format!(in alloc; "{fault:?}")?),
        }
    }
}

const OF_THE_THIRD: &str = "
UPDATE participant SET name = 'B' => 2 participants
INSERT INTO forward (number, due) VALUES (1, '2024-03-05') => NotADeskFile
INSERT INTO forward (number, due) VALUES (-1, 'never') => NotADeskFile
DROP TABLE forward => NotADeskFile
DROP TABLE resolution => NotADeskFile
DELETE FROM resolution => NotADeskFile
UPDATE desk SET version = 1 => NotADeskFile
UPDATE desk SET version = 2 => NotADeskFile
DROP TABLE resolution; UPDATE desk SET version = 2 => NotADeskFile
DROP TABLE resolution; DROP TABLE forward; UPDATE desk SET version = 1 => NotADeskFile
UPDATE desk SET version = 4 => NotADeskFile
UPDATE participant SET balance = 999 WHERE code = 'ALFA' => Inconsistent { rule: StoredBalances }
UPDATE resolution SET automatic = 1 => Inconsistent { rule: AutomaticDay }
";

#[test]
fn tables_of_the_third_version_are_loaded(rt: HostRuntime) -> Result<(), Fail> {
    let mut loading = Loading {
        made: NEWEST_VERSION,
        version: 3,
    };
    follows(rt.alloc(), &mut loading, OF_THE_THIRD)
}

const OF_THE_SECOND: &str = "
UPDATE participant SET name = 'B' => 2 participants
CREATE TABLE resolution (id INTEGER PRIMARY KEY, automatic INTEGER NOT NULL) STRICT => 2 participants
INSERT INTO forward (number, due) VALUES (1, '2024-03-05') => NotADeskFile
INSERT INTO forward (number, due) VALUES (-1, 'never') => NotADeskFile
DROP TABLE forward => NotADeskFile
UPDATE desk SET version = 1 => NotADeskFile
UPDATE desk SET version = 3 => NotADeskFile
DROP TABLE forward; UPDATE desk SET version = 1 => NotADeskFile
UPDATE participant SET balance = 999 WHERE code = 'ALFA' => Inconsistent { rule: StoredBalances }
";

#[test]
fn tables_of_the_second_version_are_loaded(rt: HostRuntime) -> Result<(), Fail> {
    let mut loading = Loading {
        made: SECOND_VERSION,
        version: 2,
    };
    follows(rt.alloc(), &mut loading, OF_THE_SECOND)
}

const OF_THE_FIRST: &str = "
UPDATE participant SET name = 'B' => 2 participants
CREATE TABLE forward (number INTEGER PRIMARY KEY, due TEXT NOT NULL) STRICT => 2 participants
CREATE TABLE resolution (id INTEGER PRIMARY KEY, automatic INTEGER NOT NULL) STRICT => 2 participants
UPDATE desk SET version = 2 => NotADeskFile
UPDATE desk SET version = 3 => NotADeskFile
DROP TABLE mark => NotADeskFile
";

#[test]
fn tables_of_the_first_version_are_loaded(rt: HostRuntime) -> Result<(), Fail> {
    let mut loading = Loading {
        made: FIRST_VERSION,
        version: 1,
    };
    follows(rt.alloc(), &mut loading, OF_THE_FIRST)
}

const OF_NO_VERSION: &str = "
UPDATE participant SET name = 'B' => NotADeskFile
UPDATE desk SET version = 4 => NotADeskFile
UPDATE desk SET version = 0 => NotADeskFile
";

#[test]
fn tables_of_an_unknown_version_are_not_loaded(rt: HostRuntime) -> Result<(), Fail> {
    for version in [0, 4, u64::MAX] {
        let mut loading = Loading {
            made: NEWEST_VERSION,
            version,
        };
        follows(rt.alloc(), &mut loading, OF_NO_VERSION)?;
    }
    Ok(())
}

/// What a keeper of such tables, and then a desk over it, fail with.
fn faults(alloc: Global, made: &str) -> Result<[Option<Fault>; 3], Fail> {
    let mut keeper = tables(alloc, made, "")?;
    let loaded = keeper.load(alloc).err();
    let core = keeper.core(alloc).err();
    match Desk::open(alloc, keeper) {
        Ok(_) => Ok([loaded, core, None]),
        Err((fault, _)) => Ok([loaded, core, Some(fault)]),
    }
}

#[test]
fn a_desk_is_opened_over_the_newest_version_alone(rt: HostRuntime) -> Result<(), Fail> {
    let refused = [Some(Fault::NotADeskFile); 3];
    ensure(faults(rt.alloc(), FIRST_VERSION)? == refused)?;
    ensure(faults(rt.alloc(), SECOND_VERSION)? == refused)?;
    ensure(faults(rt.alloc(), NEWEST_VERSION)? == [None; 3])
}
