//! Requests over HTTP.
use super::super::scarce::setting::{ALFAS_KEY, BETAS_KEY, FUNDED_DAY};
use super::super::scarce::{
    InMemory, OPERATOR, Sent, Serves, Worked, for_each_refusal, request_of, rows_of,
};
use rtgs_money::Key;
use std::test::Fail;

// Sends a request to a desk in memory, after the commands of a script. The test has this name.
fn tries_after(rt: &HostRuntime, name: &str, before: &str, sent: &Sent) -> Result<(), Fail> {
    let rows = rows_of(rt.alloc(), sent)?;
    let request = request_of(rt.alloc(), sent)?;
    let call = Serves {
        store: InMemory,
        before,
        request: request.as_bytes(),
        operator: Key::read(OPERATOR.as_bytes())?.digest(),
        rows: rows.as_slice(),
    };
    let test = format!(in rt.alloc(); "tests::in_memory::serving::{name}")?;
    for_each_refusal(rt, test.as_str(), &call, 1)
}

// The same on an open day on which ALFA has 150 cents.
fn tries(rt: &HostRuntime, name: &str, sent: &Sent) -> Result<(), Fail> {
    tries_after(rt, name, FUNDED_DAY, sent)
}

#[test]
fn an_order_that_settles(rt: HostRuntime) -> Result<(), Fail> {
    let sent = Sent {
        key: ALFAS_KEY,
        line: "POST /orders",
        body: "{\"amount\":100,\"reference\":\"A-1\",\"to\":\"BETA\"}",
    };
    tries(&rt, "an_order_that_settles", &sent)
}

#[test]
fn an_order_that_waits(rt: HostRuntime) -> Result<(), Fail> {
    let sent = Sent {
        key: BETAS_KEY,
        line: "POST /orders",
        body: "{\"amount\":100,\"reference\":\"B-1\",\"to\":\"ALFA\"}",
    };
    tries(&rt, "an_order_that_waits", &sent)
}

#[test]
fn a_batch(rt: HostRuntime) -> Result<(), Fail> {
    tries(&rt, "a_batch", &Sent::BATCH)
}

#[test]
fn a_reading(rt: HostRuntime) -> Result<(), Fail> {
    let sent = Sent {
        key: ALFAS_KEY,
        line: "GET /account",
        body: "",
    };
    tries(&rt, "a_reading", &sent)
}

/// The same day, on which two orders wait for each other.
const GRIDLOCKED_DAY: &str = "\
post ALFA P-1 150
open 2024-03-04
order BETA B-1 GAMA 7
order GAMA G-1 BETA 7";

#[test]
fn a_resolution(rt: HostRuntime) -> Result<(), Fail> {
    let sent = Sent {
        key: OPERATOR,
        line: "POST /desk/resolve",
        body: "{}",
    };
    tries_after(&rt, "a_resolution", GRIDLOCKED_DAY, &sent)
}

/// An automatic day on which an order waits for money of BETA.
const WAITING_DAY: &str = "\
open 2024-03-04 automatic
order ALFA A-1 BETA 60
post BETA P-1 60";

#[test]
fn an_order_that_frees(rt: HostRuntime) -> Result<(), Fail> {
    let sent = Sent {
        key: BETAS_KEY,
        line: "POST /orders",
        body: "{\"amount\":60,\"reference\":\"B-1\",\"to\":\"ALFA\"}",
    };
    tries_after(&rt, "an_order_that_frees", WAITING_DAY, &sent)
}

#[test]
fn an_opening_that_frees(rt: HostRuntime) -> Result<(), Fail> {
    let sent = Sent {
        key: OPERATOR,
        line: "POST /desk/open",
        body: "{\"automatic\":true,\"date\":\"2024-03-05\"}",
    };
    let worked = Worked::named("open_day_that_frees")?;
    tries_after(&rt, "an_opening_that_frees", worked.before, &sent)
}
