//! Requests over HTTP.
use super::super::scarce::setting::{ALFAS_KEY, FUNDED_DAY};
use super::super::scarce::{OPERATOR, Sent, Serves, for_each_refusal, request_of, rows_of};
use super::over_sql::{BLOCKS, OverSql};
use rtgs_money::Key;
use std::test::Fail;

// Sends a request to a desk over tables, on an open day on which ALFA has 150 cents. The test has this name.
fn tries(rt: &HostRuntime, name: &str, sent: &Sent) -> Result<(), Fail> {
    let rows = rows_of(rt.alloc(), sent)?;
    let request = request_of(rt.alloc(), sent)?;
    let call = Serves {
        store: OverSql,
        before: FUNDED_DAY,
        request: request.as_bytes(),
        operator: Key::read(OPERATOR.as_bytes())?.digest(),
        rows: rows.as_slice(),
    };
    let test = format!(in rt.alloc(); "tests::over_tables::serving::{name}")?;
    for_each_refusal(rt, test.as_str(), &call, BLOCKS)
}

#[test]
fn an_order_that_settles(rt: HostRuntime) -> Result<(), Fail> {
    let sent = Sent {
        key: ALFAS_KEY,
        line: "POST /orders",
        body: "{\"amount\":100,\"reference\":\"A-1\",\"to\":\"BETA\"}",
    };
    tries(&rt, "an_order_that_settles", &sent)
}

#[test]
fn a_batch(rt: HostRuntime) -> Result<(), Fail> {
    tries(&rt, "a_batch", &Sent::BATCH)
}
