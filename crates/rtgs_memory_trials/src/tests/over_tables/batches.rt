//! Batches of orders.
use super::super::scarce::setting::code;
use super::super::scarce::{ORDERS, Sends, for_each_refusal};
use super::over_sql::{BLOCKS, OverSql};
use rtgs_order_files::read_orders;
use std::test::Fail;

#[test]
fn a_batch(rt: HostRuntime) -> Result<(), Fail> {
    let rows = read_orders(rt.alloc(), ORDERS.as_bytes())?;
    let sends = Sends {
        store: OverSql,
        sender: code("ALFA")?,
        rows: rows.as_slice(),
    };
    for_each_refusal(&rt, "tests::over_tables::batches::a_batch", &sends, BLOCKS)
}
