//! Tables that are made in a new database.
use super::super::scarce::{Call, Outcome, Store, for_each_refusal};
use super::over_sql::{BLOCKS, OverSql};
use rtgs_keeper::{CommitFault, Keeper};
use rtgs_tables::SqlKeeper;
use sqlite::{Connection, MemStore};
use std::alloc::Global;
use std::test::Fail;

/// Makes the tables of a desk.
#[derive(Clone, Copy)]
struct Creates;

/// The tables, if they are made.
#[derive(Drop)]
enum Made {
    No,
    Yes(SqlKeeper<MemStore>),
}

impl Call for Creates {
    type State = Made;

    type Answer = Option<CommitFault>;

    fn begin(&self, _alloc: Global) -> Result<Made, Fail> {
        Ok(Made::No)
    }

    fn call(&self, alloc: Global, made: &mut Made) -> Option<CommitFault> {
        let Ok(conn) = Connection::open_in_memory(alloc) else {
            return Some(CommitFault::OutOfMemory);
        };
        match SqlKeeper::create(conn) {
            Ok(keeper) => {
                *made = Made::Yes(keeper);
                None
            }
            Err((fault, _)) => Some(fault),
        }
    }

    fn outcome(&self, answer: &Option<CommitFault>) -> Outcome {
        match answer {
            Some(CommitFault::OutOfMemory) => Outcome::Refused,
            Some(CommitFault::Store) => Outcome::Faulted,
            _ => Outcome::Other,
        }
    }

    fn reopened(&self, alloc: Global, made: Made) -> Result<Made, Fail> {
        match made {
            Made::Yes(keeper) => Ok(Made::Yes(OverSql.restarted(alloc, keeper)?)),
            Made::No => Ok(Made::No),
        }
    }

    fn seen(&self, alloc: Global, made: &mut Made) -> Result<String, Fail> {
        match made {
            Made::Yes(keeper) => {
                let is_read = keeper.core(alloc).is_ok();
                Ok(format!(in alloc; "made, and read: {is_read}")?)
            }
            Made::No => Ok(String::from_str(alloc, "none")?),
        }
    }
}

#[test]
fn of_a_new_book(rt: HostRuntime) -> Result<(), Fail> {
    for_each_refusal(
        &rt,
        "tests::over_tables::creations::of_a_new_book",
        &Creates,
        BLOCKS,
    )
}
