//! Records found by their names, and the next records of a date, in tables in memory.
use super::super::setting::{MONDAY, date, meddled, new_keeper, reference};
use super::asking::answers;
use rtgs_book::Fault;
use rtgs_keeper::Keeper;
use rtgs_money::{BusinessDate, Reference};
use rtgs_tables::SqlKeeper;
use rtgs_tests_desks::ensure;
use sqlite::{Alter, MemStore};
use std::alloc::Global;
use std::test::Fail;

/// A posting from before all days.
const FIRST: &str =
    "INSERT INTO posting (number, code, reference, cents, date) VALUES (1, 'ALFA', 'P-1', 1000, NULL)";

/// Three days, on the second of which nothing was settled. The first posting is from before them all.
const THREE_DAYS: &str = "
    INSERT INTO posting (number, code, reference, cents, date) VALUES (2, 'ALFA', 'P-2', 5, '2024-03-01'),
        (3, 'ALFA', 'P-3', 5, '2024-03-04'), (4, 'BETA', 'P-4', 5, '2024-03-05'), (5, 'ALFA', 'P-5', 5, '2024-03-05');
    INSERT INTO payment (number, sender, reference, receiver, amount, date, state, mark)
    VALUES (1, 'ALFA', 'A-1', 'BETA', 5, '2024-03-01', 1, 1), (2, 'BETA', 'A-1', 'ALFA', 6, '2024-03-01', 2, NULL),
        (3, 'ALFA', 'A-2', 'BETA', 7, '2024-03-04', 3, NULL), (4, 'ALFA', 'A-3', 'BETA', 8, '2024-03-05', 1, 2);
    INSERT INTO mark (number, date, many, value) VALUES (1, '2024-03-01', 1, 5), (2, '2024-03-05', 1, 8)";

/// The keeper of tables with the first posting, once this was done to them.
fn keeper_after(alloc: Global, sql: &str) -> Result<SqlKeeper<MemStore>, Fail> {
    let keeper = meddled(new_keeper(alloc)?, FIRST)?;
    meddled(keeper, sql)
}

// The keeper of three days answers as the script says.
fn three_days_answer(alloc: Global, script: &str) -> Result<(), Fail> {
    answers(alloc, &mut keeper_after(alloc, THREE_DAYS)?, script)
}

#[test]
fn an_order_is_found_by_its_sender_and_reference(rt: HostRuntime) -> Result<(), Fail> {
    three_days_answer(
        rt.alloc(),
        "
        order ALFA A-1 = 1 ALFA A-1 BETA 5 2024-03-01 Settled(1)
        order BETA A-1 = 2 BETA A-1 ALFA 6 2024-03-01 Withdrawn
        order ALFA A-3 = 4 ALFA A-3 BETA 8 2024-03-05 Settled(2)
        order BETA A-2 = none
        order GAMA A-1 = none
        ",
    )
}

#[test]
fn a_posting_is_found_by_its_reference(rt: HostRuntime) -> Result<(), Fail> {
    three_days_answer(
        rt.alloc(),
        "
        posting P-1 = 1 ALFA P-1 1000 undated
        posting P-5 = 5 ALFA P-5 5 2024-03-05
        posting P-6 = none
        posting A-1 = none
        ",
    )
}

#[test]
fn the_records_of_a_day_come_one_after_another(rt: HostRuntime) -> Result<(), Fail> {
    three_days_answer(
        rt.alloc(),
        "
        posting of 2024-03-01 after 0 = 2 ALFA P-2 5 2024-03-01
        posting of 2024-03-01 after 2 = none
        posting of 2024-03-02 after 0 = none
        posting of 2024-03-04 after 0 = 3 ALFA P-3 5 2024-03-04
        posting of 2024-03-04 after 3 = none
        posting of 2024-03-05 after 0 = 4 BETA P-4 5 2024-03-05
        posting of 2024-03-05 after 4 = 5 ALFA P-5 5 2024-03-05
        posting of 2024-03-05 after 5 = none
        order of 2024-03-01 after 0 = 1 ALFA A-1 BETA 5 2024-03-01 Settled(1)
        order of 2024-03-01 after 1 = 2 BETA A-1 ALFA 6 2024-03-01 Withdrawn
        order of 2024-03-01 after 2 = none
        order of 2024-03-04 after 0 = 3 ALFA A-2 BETA 7 2024-03-04 Rejected
        order of 2024-03-04 after 3 = none
        order of 2024-03-05 after 0 = 4 ALFA A-3 BETA 8 2024-03-05 Settled(2)
        order of 2024-03-05 after 4 = none
        ",
    )
}

#[test]
fn a_day_without_marks_has_no_next(rt: HostRuntime) -> Result<(), Fail> {
    three_days_answer(
        rt.alloc(),
        "
        mark of 2024-03-01 after 0 = 1 2024-03-01 1 5
        mark of 2024-03-01 after 1 = none
        mark of 2024-03-04 after 0 = none
        mark of 2024-03-05 after 0 = 2 2024-03-05 1 8
        mark of 2024-03-05 after 2 = none
        ",
    )
}

// The greatest number of a record, that of the next one, and numbers past those that a column holds.
#[test]
fn nothing_comes_after_the_last_number(rt: HostRuntime) -> Result<(), Fail> {
    three_days_answer(
        rt.alloc(),
        "
        posting of 2024-03-05 after 5 = none
        order of 2024-03-05 after 5 = none
        mark of 2024-03-05 after 5 = none
        posting of 2024-03-05 after 999999998 = none
        order of 2024-03-05 after 999999998 = none
        mark of 2024-03-05 after 999999998 = none
        posting of 2024-03-05 after 999999999 = none
        order of 2024-03-05 after 999999999 = none
        mark of 2024-03-05 after 999999999 = none
        posting of 2024-03-05 after 9223372036854775808 = none
        order of 2024-03-05 after 9223372036854775808 = none
        mark of 2024-03-05 after 9223372036854775808 = none
        posting of 2024-03-05 after 18446744073709551615 = none
        order of 2024-03-05 after 18446744073709551615 = none
        mark of 2024-03-05 after 18446744073709551615 = none
        ",
    )
}

/// Adds this many marks of Friday, and then one of Tuesday.
fn marks_of_friday(alloc: Global, earlier: u64) -> Result<String, Fail> {
    let mut sql = format!(in alloc;
        "INSERT INTO mark (number, date, many, value) VALUES ({earlier} + 1, '2024-03-05', 1, 5)"
    )?;
    for number in 1..=earlier {
        sql = format!(in alloc; "{sql}, ({number}, '2024-03-01', 1, 5)")?;
    }
    Ok(sql)
}

// Behind this many marks of Friday comes one of Tuesday, and nothing on the Monday between.
fn passes_over_friday(alloc: Global, earlier: u64) -> Result<(), Fail> {
    let sql = marks_of_friday(alloc, earlier)?;
    let last = earlier.saturating_add(1);
    let script = format!(in alloc;
        "mark of 2024-03-05 after 0 = {last} 2024-03-05 1 5
        mark of 2024-03-04 after 0 = none
        mark of 2024-03-05 after {last} = none"
    )?;
    answers(
        alloc,
        &mut keeper_after(alloc, sql.as_str())?,
        script.as_str(),
    )
}

#[test]
fn earlier_days_are_passed_over(rt: HostRuntime) -> Result<(), Fail> {
    for earlier in [1, 2, 3, 7, 8, 9] {
        passes_over_friday(rt.alloc(), earlier)?;
    }
    Ok(())
}

// What a keeper fails with at a posting, at the next mark of a day, and when all is loaded.
fn faults_of<S: Alter + Drop>(
    alloc: Global,
    keeper: &mut SqlKeeper<S>,
    name: &Reference,
    day: BusinessDate,
) -> [Option<Fault>; 3] {
    [
        keeper.find_posting(name).err(),
        keeper.next_mark(day, 0).err(),
        keeper.load(alloc).err(),
    ]
}

#[test]
fn a_row_in_no_form_fails_the_keeper(rt: HostRuntime) -> Result<(), Fail> {
    let (name, monday) = (reference("P-1")?, date(MONDAY)?);
    let mut keeper = keeper_after(rt.alloc(), "UPDATE posting SET cents = 0")?;
    let faults = faults_of(rt.alloc(), &mut keeper, &name, monday);
    ensure(faults == [Some(Fault::StoreFault); 3])
}
