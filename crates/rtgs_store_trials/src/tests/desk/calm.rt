//! A desk over a book in memory with an order that could settle, on an open day.
use super::super::setting::{MONDAY, code, date, kept, order, participant, posting};
use rtgs_book::{Day, Fault, OrderState, Phase, RowChange, Rule};
use rtgs_desk::Desk;
use rtgs_keeper::Keeper;
use rtgs_money::Cents;
use rtgs_tests_desks::{MemoryKeeper, ensure};
use std::alloc::Global;
use std::test::Fail;

// ALFA has 100 cents, and its order of this many waits on an open day, which is automatic or not.
fn rows(cents: u64, automatic: bool) -> Result<[RowChange; 6], Fail> {
    Ok([
        RowChange::AddParticipant(participant("ALFA", 1)?),
        RowChange::AddParticipant(participant("BETA", 2)?),
        RowChange::AddPosting(posting(1, "ALFA", "P-1", 100)?),
        RowChange::SetBalance {
            code: code("ALFA")?,
            balance: Cents::new(100),
        },
        RowChange::SetDay(Day {
            date: Some(date(MONDAY)?),
            phase: Phase::Open,
            automatic,
        }),
        RowChange::AddOrder(order(1, "O-1", cents, OrderState::Queued)?),
    ])
}

// Why no desk is opened over a keeper, which then tells its core all the same.
fn fault_over<K: Keeper + Drop>(alloc: Global, keeper: K) -> Result<Option<Fault>, Fail> {
    match Desk::open(alloc, keeper) {
        Ok(_) => Ok(None),
        Err((fault, back)) => {
            let mut keeper = back;
            keeper.core(alloc)?;
            Ok(Some(fault))
        }
    }
}

// The same over those rows.
fn fault_over_rows(alloc: Global, cents: u64, automatic: bool) -> Result<Option<Fault>, Fail> {
    let rows = rows(cents, automatic)?;
    let keeper = kept(alloc, MemoryKeeper::new(alloc), &rows)?;
    fault_over(alloc, keeper)
}

#[test]
fn nothing_waits_on_an_automatic_day_that_could_settle(rt: HostRuntime) -> Result<(), Fail> {
    let rule = Rule::Calm;
    let refused = Some(Fault::Inconsistent { rule });
    ensure(fault_over_rows(rt.alloc(), 100, true)? == refused)?;
    ensure(fault_over_rows(rt.alloc(), 101, true)? == None)?;
    ensure(fault_over_rows(rt.alloc(), 100, false)? == None)
}
