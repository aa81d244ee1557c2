//! What a keeper in memory and one over tables tell of the same records.
use super::super::setting::{
    MONDAY, TUESDAY, change, code, date, held, kept, new_keeper, order, participant, posting,
};
use super::asking::answers;
use rtgs_book::{Account, Core, Day, Fault, Mark, Order, OrderState, Phase, RowChange, Rule};
use rtgs_keeper::Keeper;
use rtgs_money::Cents;
use rtgs_tables::SqlKeeper;
use rtgs_tests_desks::{MemoryKeeper, ensure};
use sqlite::MemStore;
use std::alloc::Global;
use std::fmt::Write;
use std::process::Abort;
use std::test::Fail;

/// The mark of an order of 30 cents.
fn mark() -> Result<Mark, Fail> {
    Ok(Mark {
        number: 1,
        date: date(MONDAY)?,
        count: 1,
        value: Cents::new(30),
    })
}

/// Sets Monday's phase, and that it is automatic or not.
fn sets_day(phase: Phase, automatic: bool) -> Result<RowChange, Fail> {
    Ok(RowChange::SetDay(Day {
        date: Some(date(MONDAY)?),
        phase,
        automatic,
    }))
}

/// Sets a participant's balance.
fn sets_balance(of: &str, cents: i64) -> Result<RowChange, Fail> {
    Ok(RowChange::SetBalance {
        code: code(of)?,
        balance: Cents::new(cents),
    })
}

/// The rows of a book: one posting from before all days, one order that is settled, one that waits in its queue, and
/// one that is held until Tuesday.
fn rows() -> Result<[RowChange; 10], Fail> {
    Ok([
        RowChange::AddParticipant(participant("ALFA", 1)?),
        RowChange::AddParticipant(participant("BETA", 2)?),
        RowChange::AddPosting(posting(1, "ALFA", "P-1", 100)?),
        RowChange::AddOrder(order(1, "A-1", 30, OrderState::Settled(1))?),
        RowChange::AddOrder(order(2, "A-2", 80, OrderState::Queued)?),
        RowChange::AddOrder(held(3, "A-3", 40, TUESDAY)?),
        RowChange::AddMark(mark()?),
        sets_balance("ALFA", 70)?,
        sets_balance("BETA", 30)?,
        sets_day(Phase::Open, true)?,
    ])
}

/// A keeper in memory with these rows.
fn in_memory(alloc: Global) -> Result<MemoryKeeper, Fail> {
    let rows = rows()?;
    kept(alloc, MemoryKeeper::new(alloc), &rows)
}

/// A keeper over tables with these rows.
fn in_tables(alloc: Global) -> Result<SqlKeeper<MemStore>, Fail> {
    let rows = rows()?;
    kept(alloc, new_keeper(alloc)?, &rows)
}

// Adds accounts, each with its balance.
fn add_accounts(text: &mut String, accounts: &[Account]) -> Result<(), Fail> {
    for account in accounts {
        let (code, cents) = (account.participant.code, account.balance.cents());
        write!(text, "{code} {cents}, ")?;
    }
    Ok(())
}

// Adds orders that wait.
fn add_orders(text: &mut String, orders: &[Order]) -> Result<(), Fail> {
    for order in orders {
        write!(text, "{} {:?}, ", order.number, order.state)?;
    }
    Ok(())
}

// The accounts of a core, the orders that wait, the day, and the next numbers, in words.
fn core_in_words(alloc: Global, core: &Core) -> Result<String, Fail> {
    let mut text = String::new(alloc);
    add_accounts(&mut text, core.accounts.as_slice())?;
    add_orders(&mut text, core.waiting.as_slice())?;
    let (posting, order, mark) = (core.next_posting, core.next_order, core.next_mark);
    let (phase, automatic) = (core.day.phase, core.day.automatic);
    write!(text, "{phase:?} {automatic}, next {posting} {order} {mark}")?;
    Ok(text)
}

// Whether the core has the day, the participants and the orders of the rows, to the last field.
fn has_the_rows(core: &Core) -> Result<bool, Fail> {
    let ([alfa, beta], [queued, later]) = (core.accounts.as_slice(), core.waiting.as_slice()) else {
        return Err(Fail::from("not two accounts and two orders that wait"));
    };
    let parties = [alfa.participant, beta.participant];
    Ok(
        parties == [participant("ALFA", 1)?, participant("BETA", 2)?]
            && *queued == order(2, "A-2", 80, OrderState::Queued)?
            && *later == held(3, "A-3", 40, TUESDAY)?
            && core.day.date == Some(date(MONDAY)?),
    )
}

// The core is that of the rows: the participants and the orders to the last field, and the rest in words.
fn tells_the_core<K: Keeper>(rt: &(impl Abort + AllocGlobal), keeper: &mut K) -> Result<(), Fail> {
    let core = keeper.core(rt.alloc())?;
    ensure(has_the_rows(&core)?)?;
    ensure(
        core_in_words(rt.alloc(), &core)?.as_str()
            == "ALFA 70, BETA 30, 2 Queued, 3 Held, Open true, next 2 4 2",
    )
}

#[test]
fn a_core_is_answered_alike(rt: HostRuntime) -> Result<(), Fail> {
    tells_the_core(&rt, &mut in_memory(rt.alloc())?)?;
    tells_the_core(&rt, &mut in_tables(rt.alloc())?)
}

const NAMES: &str = "
    order ALFA A-1 = 1 ALFA A-1 BETA 30 2024-03-04 Settled(1)
    order BETA A-1 = none
    order ALFA A-3 = 3 ALFA A-3 BETA 40 2024-03-05 Held due 2024-03-05
    order BETA A-3 = none
    order ALFA A-4 = none
    posting P-1 = 1 ALFA P-1 100 undated
    posting A-1 = none
";

#[test]
fn records_are_found_alike(rt: HostRuntime) -> Result<(), Fail> {
    answers(rt.alloc(), &mut in_memory(rt.alloc())?, NAMES)?;
    answers(rt.alloc(), &mut in_tables(rt.alloc())?, NAMES)
}

// The posting from before all days is of no date.
const DAY: &str = "
    order of 2024-03-04 after 1 = 2 ALFA A-2 BETA 80 2024-03-04 Queued
    order of 2024-03-04 after 2 = none
    order of 2024-03-05 after 0 = 3 ALFA A-3 BETA 40 2024-03-05 Held due 2024-03-05
    order of 2024-03-05 after 3 = none
    mark of 2024-03-04 after 0 = 1 2024-03-04 1 30
    mark of 2024-03-04 after 1 = none
    posting of 2024-03-04 after 0 = none
";

#[test]
fn a_day_is_gone_through_alike(rt: HostRuntime) -> Result<(), Fail> {
    answers(rt.alloc(), &mut in_memory(rt.alloc())?, DAY)?;
    answers(rt.alloc(), &mut in_tables(rt.alloc())?, DAY)
}

/// The third day of the week.
const WEDNESDAY: u32 = 20240306;

// The held order enters its queue on Wednesday, since Tuesday is not opened. A row for an order that is not held lets
// nothing in.
fn enters<K: Keeper>(alloc: Global, keeper: &mut K) -> Result<(), Fail> {
    let date = date(WEDNESDAY)?;
    for number in [3, 2, 1, 4] {
        let enters = [RowChange::EnterQueue { number, date }];
        keeper.commit(&change(alloc, &enters)?)?;
    }
    Ok(())
}

const ENTERED: &str = "
    order ALFA A-1 = 1 ALFA A-1 BETA 30 2024-03-04 Settled(1)
    order ALFA A-2 = 2 ALFA A-2 BETA 80 2024-03-04 Queued
    order ALFA A-3 = 3 ALFA A-3 BETA 40 2024-03-06 Queued due 2024-03-05
    order ALFA A-4 = none
    order of 2024-03-04 after 2 = none
    order of 2024-03-05 after 0 = none
    order of 2024-03-06 after 0 = 3 ALFA A-3 BETA 40 2024-03-06 Queued due 2024-03-05
    order of 2024-03-06 after 3 = none
";

// A keeper that lets the held order in tells this of it.
fn lets_in<K: Keeper>(alloc: Global, keeper: &mut K) -> Result<(), Fail> {
    enters(alloc, keeper)?;
    answers(alloc, keeper, ENTERED)
}

#[test]
fn an_order_enters_alike(rt: HostRuntime) -> Result<(), Fail> {
    lets_in(rt.alloc(), &mut in_memory(rt.alloc())?)?;
    lets_in(rt.alloc(), &mut in_tables(rt.alloc())?)
}

#[test]
fn a_book_that_breaks_a_rule_has_no_core(rt: HostRuntime) -> Result<(), Fail> {
    let closes = [sets_day(Phase::Closed, false)?];
    let mut keeper = kept(rt.alloc(), in_memory(rt.alloc())?, &closes)?;
    let rule = Rule::Queues;
    let refused = keeper.core(rt.alloc()).err();
    ensure(refused == Some(Fault::Inconsistent { rule }))
}

// What a keeper fails with once a day is closed in it, and is automatic all the same.
fn fault_of_an_automatic_close<K: Keeper>(
    alloc: Global,
    keeper: &mut K,
) -> Result<Option<Fault>, Fail> {
    keeper.commit(&change(alloc, &[sets_day(Phase::Closed, true)?])?)?;
    Ok(keeper.core(alloc).err())
}

#[test]
fn a_closed_day_that_is_automatic_has_no_core(rt: HostRuntime) -> Result<(), Fail> {
    let alloc = rt.alloc();
    let rule = Rule::AutomaticDay;
    let wanted = Some(Fault::Inconsistent { rule });
    let in_memory = fault_of_an_automatic_close(alloc, &mut MemoryKeeper::new(alloc))?;
    let in_tables = fault_of_an_automatic_close(alloc, &mut new_keeper(alloc)?)?;
    ensure((in_memory, in_tables) == (wanted, wanted))
}
