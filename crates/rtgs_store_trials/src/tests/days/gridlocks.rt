//! Orders that wait for each other at a desk, and what a resolution settles of them.
use super::super::scripts::follows;
use super::super::scripts::scenarios::script_of;
use super::super::setting::{desk_over, new_keeper};
use rtgs_keeper::Keeper;
use rtgs_tests_desks::{GRIDLOCKS, MemoryKeeper, ensure};
use std::alloc::Global;
use std::test::Fail;

/// Fails unless a desk over the keeper of a new book does what a scenario says.
fn desk_plays<K: Keeper + Drop>(alloc: Global, keeper: K, scenario: &str) -> Result<(), Fail> {
    let script = script_of(alloc, scenario)?;
    let mut desk = desk_over(alloc, keeper)?;
    follows(alloc, &mut desk, script.as_str())
}

#[test]
fn a_desk_in_memory_does_what_each_scenario_says(rt: HostRuntime) -> Result<(), Fail> {
    let mut count = 0usize;
    for scenario in GRIDLOCKS {
        desk_plays(rt.alloc(), MemoryKeeper::new(rt.alloc()), scenario)?;
        count = count.saturating_add(1);
    }
    ensure(count == 8)
}

#[test]
fn a_desk_over_tables_does_what_each_scenario_says(rt: HostRuntime) -> Result<(), Fail> {
    let mut count = 0usize;
    for scenario in GRIDLOCKS {
        desk_plays(rt.alloc(), new_keeper(rt.alloc())?, scenario)?;
        count = count.saturating_add(1);
    }
    ensure(count == 8)
}
