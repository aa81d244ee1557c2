//! The orders and the marks of a date, line by line.
use super::super::setting::{MONDAY, TUESDAY};
use super::{marks, orders};
use rtgs_tests_desks::ensure;
use std::test::Fail;

/// An order in each state. One is held until Tuesday, one was taken back before that, one entered after its due date,
/// and one settled on it. Two have the longest codes and references, and the largest amount or the least.
const OF_EACH_STATE: &str = "
order 1 ALFA BETA A-1 100 2024-03-04 1
order 2 BETA GAMA B-2 20 2024-03-04 withdrawn
order 3 ALFA BETA A-3 60 2024-03-05 held due 2024-03-05
order 4 GAMA BETA G-4 7 2024-03-04 rejected
order 5 ALFA BETA A-5 80 2024-03-04 queued due 2024-03-01
order 6 BETA ALFA B-6 10 2024-03-04 2 due 2024-03-04
order 7 ALFA GAMA A-7 9 2024-03-05 withdrawn due 2024-03-05
order 8 ALFA1234 BETA5678 0123456789ABCDEF 1000000000000 2024-03-04 queued
order 999999999 BETA5678 ALFA1234 ABCDEFGHIJKLMNO- 1 2024-03-04 999999999
";

#[test]
fn orders_of_a_date_are_listed_by_number(rt: HostRuntime) -> Result<(), Fail> {
    let text = orders(rt.alloc(), MONDAY, OF_EACH_STATE)?;
    ensure(
        text.as_str()
            == "number,sender,reference,receiver,amount,due,state,mark
1,ALFA,A-1,BETA,100,,settled,1
2,BETA,B-2,GAMA,20,,withdrawn,
4,GAMA,G-4,BETA,7,,rejected,
5,ALFA,A-5,BETA,80,2024-03-01,queued,
6,BETA,B-6,ALFA,10,2024-03-04,settled,2
8,ALFA1234,0123456789ABCDEF,BETA5678,1000000000000,,queued,
999999999,BETA5678,ABCDEFGHIJKLMNO-,ALFA1234,1,,settled,999999999
",
    )
}

#[test]
fn orders_are_held_on_their_due_date(rt: HostRuntime) -> Result<(), Fail> {
    let text = orders(rt.alloc(), TUESDAY, OF_EACH_STATE)?;
    ensure(
        text.as_str()
            == "number,sender,reference,receiver,amount,due,state,mark
3,ALFA,A-3,BETA,60,2024-03-05,held,
7,ALFA,A-7,GAMA,9,2024-03-05,withdrawn,
",
    )
}

/// Marks of Monday, the last of which has the greatest number, count and value, and one of Tuesday.
const MARKS: &str = "
mark 1 2024-03-04 1 100
mark 2 2024-03-05 3 7
mark 3 2024-03-04 2 110
mark 999999999 2024-03-04 50000 50000000000000000
";

#[test]
fn marks_of_a_date_are_listed_by_number(rt: HostRuntime) -> Result<(), Fail> {
    let text = marks(rt.alloc(), MONDAY, MARKS)?;
    ensure(
        text.as_str()
            == "number,count,value
1,1,100
3,2,110
999999999,50000,50000000000000000
",
    )?;
    let text = marks(rt.alloc(), TUESDAY, MARKS)?;
    ensure(text.as_str() == "number,count,value\n2,3,7\n")
}

#[test]
fn date_without_records_has_a_header(rt: HostRuntime) -> Result<(), Fail> {
    let text = orders(
        rt.alloc(),
        TUESDAY,
        "order 1 ALFA BETA A-1 100 2024-03-04 1",
    )?;
    ensure(text.as_str() == "number,sender,reference,receiver,amount,due,state,mark\n")?;
    let text = marks(rt.alloc(), TUESDAY, "mark 1 2024-03-04 1 100")?;
    ensure(text.as_str() == "number,count,value\n")
}
