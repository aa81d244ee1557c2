//! Desks that are opened.
use crate::scripts::follows;
use rtgs_desk::Desk;
use rtgs_keeper::Keeper;
use std::alloc::Global;
use std::test::Fail;

/// What adds ALFA, BETA and GAMA.
pub const BANKS: &str = "\
add ALFA 0000000000000000000000000000000a => Ok(Added)
add BETA 0000000000000000000000000000000b => Ok(Added)
add GAMA 0000000000000000000000000000000c => Ok(Added)";

/// A desk over a keeper, which fails the test where none is opened.
pub fn desk_over<K: Keeper + Drop>(alloc: Global, keeper: K) -> Result<Desk<K>, Fail> {
    match Desk::open(alloc, keeper) {
        Ok(desk) => Ok(desk),
        Err((fault, _)) => Err(Fail::from(fault)),
    }
}

/// A desk with three banks over a keeper of a new book, after these commands.
pub fn begun<K: Keeper + Drop>(alloc: Global, keeper: K, before: &str) -> Result<Desk<K>, Fail> {
    let mut desk = desk_over(alloc, keeper)?;
    follows(alloc, &mut desk, BANKS)?;
    follows(alloc, &mut desk, before)?;
    Ok(desk)
}
