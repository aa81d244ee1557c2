//! The resolver alone: by scenarios, over books that no desk has, and beside the published procedure.
mod books;
mod generated;
mod plain;
mod resolver;

use resolver::Resolver;
use rtgs_gridlock::{Positions, Queues, Workspace, greatest};
use rtgs_tests_desks::{GRIDLOCKS, ensure, plays};
use std::alloc::Global;
use std::test::Fail;

/// The lengths of the greatest choice, found in at most n + 3q steps.
fn lengths_of(alloc: Global, positions: &Positions, queues: &Queues) -> Result<Vec<usize>, Fail> {
    let participants = queues.len();
    let payments = queues.payment_count().ok_or("too many payments")?;
    let mut workspace = Workspace::reserve(alloc, participants, payments)?;
    if positions.len() != participants {
        return Err(Fail::from("another number of positions"));
    }
    if !positions.are_floored() {
        return Err(Fail::from("a bank below its floor"));
    }
    if !queues.are_in_range() {
        return Err(Fail::from("a receiver that is no bank"));
    }
    if !(queues.payment_count() == Some(payments)) {
        return Err(Fail::from("another number of payments"));
    }
    greatest(positions, queues, &mut workspace);
    let bound = participants as u128 + 3 * payments as u128;
    if u128::from(workspace.steps()) > bound {
        return Err(Fail::from("too many steps"));
    }
    Ok(workspace.lengths().to_vec(alloc)?)
}

#[test]
fn the_resolver_does_what_each_scenario_says(rt: HostRuntime) -> Result<(), Fail> {
    let mut count = 0usize;
    for scenario in GRIDLOCKS {
        let mut resolver = Resolver::new(rt.alloc());
        plays(rt.alloc(), &mut resolver, scenario)?;
        count = count.saturating_add(1);
    }
    ensure(count == 8)
}
