//! The making of a desk, at each call of its store that fails.
use super::disks::OnDisks;
use super::memory::InMemory;
use super::runs::found_in;
use super::store::{Ended, Failing, Store};
use super::trial::{Part, Work};
use rtgs_book::Fault;
use std::alloc::Global;
use std::test::Fail;

// Makes a desk in a store that fails in this way after N calls, for as many calls as are met: how many that are,
// and in how many of these runs a book was there after a crash, which is the empty one. There were no tables else, and
// then the desk was not made.
fn makings<M: Store, S: Store>(alloc: Global, disk: Failing) -> Result<(usize, usize), Fail> {
    let empty = found_in(alloc, &mut M::blank(alloc))?;
    let mut books = 0usize;
    for calls in 0..1000 {
        let mut store = S::blank(alloc);
        store.fail(alloc, disk, calls)?;
        let ended = store.session(alloc, true, &mut Work::new("", false, Part::Rest, true))?;
        store.crash();
        let mut look = Work::new("", false, Part::Look { known: 0, most: 0 }, false);
        store.session(alloc, false, &mut look)?;
        let is_none = look.fault == Some(Fault::NotADeskFile) && matches!(ended, Ended::Unopened);
        let is_there = match &look.found {
            Some(found) if found.as_str() == empty.as_str() => true,
            None if is_none => false,
            _ => return Err(Fail::new("another book")),
        };
        if matches!(ended, Ended::Closed) {
            return Ok((calls, books));
        }
        if is_there {
            books = books.saturating_add(1);
        }
    }
    Err(Fail::new("each run failed"))
}

#[test]
fn a_desk_is_made_whole_or_not_at_all(rt: HostRuntime) -> Result<(), Fail> {
    let log = makings::<InMemory, OnDisks>(rt.alloc(), Failing::Log)?;
    let db = makings::<InMemory, OnDisks>(rt.alloc(), Failing::Database)?;
    if log == (55, 32) && db == (28, 14) {
        Ok(())
    } else {
        Err(Fail::from(format!(in rt.alloc(); "{log:?} of the log, {db:?} of the file")?))
    }
}
