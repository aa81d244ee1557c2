//! Ten thousand commands in one book, and five thousand in another, over both keepers: in memory, and on disks that are
//! closed and opened again every hundred. One day in two is automatic. After each five hundred, or each hundred, both
//! tell the same of their books.
use super::answers::Answers;
use super::business::Business;
use super::disks::OnDisks;
use super::memory::InMemory;
use super::runs::found_in;
use super::seen::{KINDS, PLACES, kind_of};
use super::store::{Booked, Ended, Job, Store};
use super::trial::{Part, Work};
use rtgs_book::Refusal;
use rtgs_tests_desks::desk_over;
use std::alloc::Global;
use std::mem;
use std::test::Fail;

/// The commands of one seed, which a desk is given by the hundred, and what it answers to a hundred of them.
#[derive(Drop)]
struct Run {
    business: Business,
    // how many times fifty commands were given, and after how many of these the keeper shows its book
    fifties: u64,
    pause: u64,
    answers: Answers,
}

impl Run {
    /// The commands of this seed, where a keeper shows its book after this many times fifty commands.
    fn new(alloc: Global, seed: u64, pause: u64) -> Run {
        Run {
            business: Business::new(alloc, seed),
            fifties: 0,
            pause,
            answers: Answers::new(alloc),
        }
    }

    /// Gives a desk over this keeper fifty commands, each of which it judges. Then the keeper shows its book, if it is
    /// time.
    fn fifty<K: Booked>(&mut self, alloc: Global, keeper: K) -> Result<K, Fail> {
        let mut desk = desk_over(alloc, keeper)?;
        for _ in 0..50 {
            let reply = desk.submit(self.business.command()?);
            if let Err(Refusal::OutOfMemory | Refusal::StoreFault | Refusal::Failed) = reply {
                return Err(Fail::new("a command was not judged"));
            }
            self.business.hear(&reply);
            if !self.business.is_of_the_day(&reply) {
                return Err(Fail::new("a reply of another kind of day"));
            }
            self.answers.replies.push(reply)?;
        }
        let mut keeper = desk.into_keeper();
        self.fifties = self.fifties.wrapping_add(1);
        if self.fifties.is_multiple_of(self.pause) {
            self.answers.asks(alloc, &mut keeper, self.fifties)?;
        }
        Ok(keeper)
    }

    /// Gives a hundred commands to a desk in this store, which is closed then.
    fn hundred<S: Store>(&mut self, alloc: Global, store: &mut S) -> Result<Answers, Fail> {
        if matches!(store.session(alloc, false, self)?, Ended::Closed) {
            Ok(mem::replace(&mut self.answers, Answers::new(alloc)))
        } else {
            Err(Fail::new("not opened, or not closed"))
        }
    }
}

impl Job for Run {
    fn done<K: Booked>(&mut self, alloc: Global, keeper: K) -> Result<(K, bool), Fail> {
        let keeper = self.fifty(alloc, keeper)?;
        Ok((self.fifty(alloc, keeper)?, true))
    }
}

/// Makes a desk of a new book in this store, and closes it.
pub fn make<S: Store>(alloc: Global, store: &mut S) -> Result<(), Fail> {
    let mut work = Work::new("", false, Part::Rest, true);
    if matches!(store.session(alloc, true, &mut work)?, Ended::Closed) {
        Ok(())
    } else {
        Err(Fail::new("not made"))
    }
}

/// Fails unless both stores have one book.
pub fn end_in_one_book<M: Store, S: Store>(
    alloc: Global,
    memory: &mut M,
    store: &mut S,
) -> Result<(), Fail> {
    let in_memory = found_in(alloc, memory)?;
    if found_in(alloc, store)?.as_str() == in_memory.as_str() {
        Ok(())
    } else {
        Err(Fail::new("two books"))
    }
}

/// This many hundred commands, of all kinds and with all kinds of answers, which both stores answer alike. Behind each
/// kind that can free orders something is resolved at least once. Orders with due dates come to stand wherever they
/// may, and one enters its queue late, since its day was not opened.
fn answer_alike<M: Store, S: Store>(
    alloc: Global,
    memory: &mut M,
    store: &mut S,
    runs: (Run, Run),
    hundreds: usize,
) -> Result<(), Fail> {
    let (mut one, mut other) = runs;
    let mut seen = [false; KINDS];
    let (mut stand, mut is_late) = ([false; PLACES], false);
    for _ in 0..hundreds {
        let answers = one.hundred(alloc, memory)?;
        if !answers.is_like(&other.hundred(alloc, store)?) {
            return Err(Fail::new("another answer, or another record"));
        }
        for reply in answers.replies.as_slice() {
            let kind = kind_of(reply);
            seen[kind] = true;
        }
        answers.notes_due(&mut stand, &mut is_late);
    }
    if seen.contains(&false) || stand.contains(&false) || !is_late {
        let seen = format!(in alloc; "{seen:?}, {stand:?}, {is_late}: not all of it was seen")?;
        Err(Fail::from(seen))
    } else {
        Ok(())
    }
}

// This many hundred commands of this seed, that end in one book. A keeper shows it after this many times fifty.
fn commands_of<M: Store, S: Store>(
    alloc: Global,
    seed: u64,
    hundreds: usize,
    pause: u64,
) -> Result<(), Fail> {
    let (mut memory, mut store) = (M::blank(alloc), S::blank(alloc));
    make(alloc, &mut store)?;
    let runs = (Run::new(alloc, seed, pause), Run::new(alloc, seed, pause));
    answer_alike(alloc, &mut memory, &mut store, runs, hundreds)?;
    end_in_one_book(alloc, &mut memory, &mut store)
}

#[test]
fn ten_thousand_commands_end_in_one_book(rt: HostRuntime) -> Result<(), Fail> {
    commands_of::<InMemory, OnDisks>(rt.alloc(), 2031, 100, 10)
}

#[test]
fn five_thousand_other_commands_end_in_one_book(rt: HostRuntime) -> Result<(), Fail> {
    commands_of::<InMemory, OnDisks>(rt.alloc(), 2057, 50, 2)
}
