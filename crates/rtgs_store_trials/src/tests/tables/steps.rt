//! A keeper leaves no limit on the steps of a statement on its connection, whatever it was asked for.
use super::{posts, two_banks};
use rtgs_keeper::Keeper;
use rtgs_money::{BusinessDate, Code, Reference};
use rtgs_tables::SqlKeeper;
use rtgs_tests_desks::ensure;
use sqlite::{Alter, Connection, MemStore};
use std::alloc::Global;
use std::test::Fail;

// Deletes nothing, once it has counted the choices of one of two participants, eighteen times: 262,144 of them, each of
// which is a step.
const COUNT: &str =
    "DELETE FROM posting WHERE (SELECT count(*) FROM participant a, participant b, participant c, \
    participant d, participant e, participant f, participant g, participant h, participant i, participant j, \
    participant k, participant l, participant m, participant n, participant o, participant p, participant q, \
    participant r) < 262144";

// How many calls a keeper has, with its loading and none at all.
const CALLS: usize = 9;

// Makes one of the calls.
fn call<S: Alter + Drop>(
    alloc: Global,
    keeper: &mut SqlKeeper<S>,
    which: usize,
) -> Result<(), Fail> {
    let day = BusinessDate::read(b"2024-03-04")?;
    match which {
        0 => keeper.core(alloc).map(|_| ())?,
        1 => keeper.load(alloc).map(|_| ())?,
        2 => keeper.commit(&posts(alloc, 2, "P-2", 1, 1001)?)?,
        3 => keeper.next_posting(day, 0).map(|_| ())?,
        4 => keeper.next_order(day, 0).map(|_| ())?,
        5 => keeper.next_mark(day, 0).map(|_| ())?,
        6 => keeper.find_posting(&Reference::read(b"P-1")?).map(|_| ())?,
        7 => finds_order(keeper)?,
        _ => (),
    }
    Ok(())
}

// Looks for an order that there is not.
fn finds_order<S: Alter + Drop>(keeper: &mut SqlKeeper<S>) -> Result<(), Fail> {
    let found = keeper.find_order(&Code::read(b"ALFA")?, &Reference::read(b"A-1")?)?;
    match found {
        None => Ok(()),
        Some(_) => Err(Fail::new("an order")),
    }
}

// Makes the call on a keeper of two banks, and counts on its connection, which is given back.
fn counted_after(alloc: Global, which: usize) -> Result<Connection<MemStore>, Fail> {
    let mut keeper = two_banks(alloc)?;
    call(alloc, &mut keeper, which)?;
    let mut conn = keeper.into_connection();
    conn.execute_batch(COUNT)?;
    Ok(conn)
}

#[test]
fn no_call_limits_the_steps_of_later_statements(rt: HostRuntime) -> Result<(), Fail> {
    for which in 0..CALLS {
        let mut conn = counted_after(rt.alloc(), which)?;
        conn.set_step_limit(Some(200_000));
        ensure(conn.execute_batch(COUNT).is_err())?;
    }
    Ok(())
}
