//! A date behind many orders of another one is reached by statements of few steps each, in tables in memory.
use super::super::setting::{meddled, new_keeper};
use super::asking::answers;
use rtgs_tables::SqlKeeper;
use sqlite::MemStore;
use std::alloc::Global;
use std::test::Fail;

/// How many steps a statement may take. A pass over the orders of Friday would take a step for each of them.
const FEW: u64 = 200;

/// The digits, by which tables are filled.
const DIGITS: &str = "
    CREATE TABLE digit (d INTEGER);
    INSERT INTO digit VALUES (0), (1), (2), (3), (4), (5), (6), (7), (8), (9)";

/// Three thousand orders of Friday, which were rejected, and one of Tuesday.
const ORDERS: &str = "
    INSERT INTO payment (number, sender, reference, receiver, amount, date, state, mark)
        SELECT 1 + a.d + 10 * b.d + 100 * c.d + 1000 * e.d, 'ALFA',
            'A-' || (1 + a.d + 10 * b.d + 100 * c.d + 1000 * e.d), 'BETA', 5, '2024-03-01', 3, NULL
        FROM digit e, digit c, digit b, digit a WHERE e.d < 3;
    INSERT INTO payment (number, sender, reference, receiver, amount, date, state, mark)
        VALUES (3001, 'ALFA', 'B-1', 'BETA', 5, '2024-03-05', 0, NULL)";

/// Of each ten of them the first nine have due dates.
const DUES: &str = "
    INSERT INTO forward (number, due) SELECT number, '2024-03-01' FROM payment WHERE number % 10 > 0 AND number < 3001";

/// None of them has one.
const PLAIN: &str = "";

// What comes next on Tuesday behind Friday's orders, and on the Monday between, in tables in which this was done. No
// statement may take more steps than these.
fn answers_within(alloc: Global, steps: u64, dues: &str) -> Result<(), Fail> {
    let sql = format!(in alloc; "{DIGITS};{ORDERS};{dues}")?;
    let mut conn = meddled(new_keeper(alloc)?, sql.as_str())?.into_connection();
    conn.set_step_limit(Some(steps));
    let mut keeper: SqlKeeper<MemStore> = SqlKeeper::open(conn);
    answers(
        alloc,
        &mut keeper,
        "
        order of 2024-03-05 after 0 = 3001 ALFA B-1 BETA 5 2024-03-05 Queued
        order of 2024-03-04 after 0 = none
        order of 2024-03-05 after 3001 = none
        ",
    )
}

#[test]
fn a_date_behind_many_orders_takes_few_steps(rt: HostRuntime) -> Result<(), Fail> {
    answers_within(rt.alloc(), FEW, PLAIN)?;
    answers_within(rt.alloc(), FEW, DUES)
}
