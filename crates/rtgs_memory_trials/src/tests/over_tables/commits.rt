//! Changes that are committed by themselves. A command looks something up first, and where that takes more memory than
//! a statement of its change, the statement never lacks any.
use super::super::scarce::setting::{code, desk_after, reference};
use super::super::scarce::{Call, Outcome, Store, for_each_refusal};
use super::over_sql::{BLOCKS, OverSql};
use rtgs_book::{Change, Posting, RowChange, Rows};
use rtgs_keeper::{CommitFault, Keeper};
use rtgs_money::{Cents, PostingAmount};
use rtgs_tables::SqlKeeper;
use sqlite::MemStore;
use std::alloc::Global;
use std::test::Fail;

/// Commits this change to the tables of a desk with three banks.
#[derive(Clone, Copy)]
struct Commits<'a> {
    change: &'a Change,
}

impl Call for Commits<'_> {
    type State = SqlKeeper<MemStore>;

    type Answer = Result<(), CommitFault>;

    fn begin(&self, alloc: Global) -> Result<SqlKeeper<MemStore>, Fail> {
        Ok(desk_after(alloc, OverSql.keeper(alloc)?, "")?.into_keeper())
    }

    fn call(&self, _alloc: Global, keeper: &mut SqlKeeper<MemStore>) -> Result<(), CommitFault> {
        keeper.commit(self.change)
    }

    fn outcome(&self, answer: &Result<(), CommitFault>) -> Outcome {
        match answer {
            Err(CommitFault::OutOfMemory) => Outcome::Refused,
            Err(CommitFault::Store) => Outcome::Faulted,
            _ => Outcome::Other,
        }
    }

    fn reopened(
        &self,
        alloc: Global,
        keeper: SqlKeeper<MemStore>,
    ) -> Result<SqlKeeper<MemStore>, Fail> {
        OverSql.restarted(alloc, keeper)
    }

    fn seen(&self, alloc: Global, keeper: &mut SqlKeeper<MemStore>) -> Result<String, Fail> {
        let book = keeper.load(alloc)?;
        Ok(format!(in alloc; "{book:?}")?)
    }
}

// A posting of ten cents to ALFA, with its new balance.
fn posting(alloc: Global) -> Result<Change, Fail> {
    let posting = Posting {
        number: 1,
        code: code("ALFA")?,
        reference: reference("P-1")?,
        cents: PostingAmount::from_cents(10).ok_or("an amount")?,
        date: None,
    };
    let rows = vec![in alloc;
        RowChange::AddPosting(posting),
        RowChange::SetBalance {
            code: posting.code,
            balance: Cents::new(10)
        },
    ]?;
    Ok(Rows::from_vec(rows))
}

#[test]
fn of_a_posting(rt: HostRuntime) -> Result<(), Fail> {
    let change = posting(rt.alloc())?;
    for_each_refusal(
        &rt,
        "tests::over_tables::commits::of_a_posting",
        &Commits { change: &change },
        BLOCKS,
    )
}
