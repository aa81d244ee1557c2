//! What is given to a desk while its store fails, and what is found then.
use super::found::found_of;
use super::store::{Booked, Job};
use rtgs_book::Fault;
use rtgs_desk::Desk;
use rtgs_keeper::Keeper;
use rtgs_tests_desks::{answered, begun, follows, is_silent, sent};
use std::alloc::Global;
use std::fmt::Write;
use std::test::Fail;

const END_OF_MONDAY: &str = "\
cutoff 2024-03-04 => Ok(CutOffDone)
close 2024-03-04 => Ok(Closed { rejected: 0 })";

/// What a desk with three banks is given, in words.
#[derive(Clone, Copy)]
pub struct Trial {
    /// Commands before the store fails.
    pub before: &'static str,
    /// Behind them this many orders of ALFA for Tuesday, and the end of Monday; or neither.
    pub held: u64,
    /// Commands while it fails. Each has a second answer, for where it comes again. There may be none.
    pub rows: &'static str,
    /// These are orders of ALFA, and come in one batch.
    pub is_batch: bool,
    /// How the banks stand before the first of these, and after each.
    pub standings: &'static str,
    /// The store was closed after the commands before, or else it crashed.
    pub is_closed: bool,
}

/// How far a trial came.
#[derive(Clone, Copy)]
pub enum Progress {
    /// The desk could not be opened.
    Unopened,
    /// This many commands were answered, and at the next the store failed.
    Failed(usize),
    /// All were answered, and then the store could not be closed.
    Unclosed,
    /// Nothing failed.
    Whole,
}

/// What is done in a session of a trial.
#[derive(Clone, Copy)]
pub enum Part {
    /// Nothing is given to a desk.
    Rest,
    /// The banks are added to a new book, and the commands are given, and behind them this many orders for Tuesday.
    Begin { held: u64 },
    /// This many of the commands are given.
    Give(usize),
    /// This many of the commands are given, of which this many come again, and then what is found is looked at.
    Look { known: usize, most: usize },
}

/// A session of a trial, and what came of it.
#[derive(Drop)]
pub struct Work {
    script: &'static str,
    is_batch: bool,
    part: Part,
    closes: bool,
    /// How far it came.
    pub progress: Progress,
    /// Why the desk was not opened.
    pub fault: Option<Fault>,
    pub found: Option<String>,
}

impl Work {
    /// This part of a trial, with these commands. They may be orders of ALFA, which come in one batch. The store is
    /// closed then, or not.
    pub fn new(script: &'static str, is_batch: bool, part: Part, closes: bool) -> Work {
        Work {
            script,
            is_batch,
            part,
            closes,
            progress: Progress::Unopened,
            fault: None,
            found: None,
        }
    }

    // Gives the desk the first of the commands, of which this many come again. Once the store has failed, the desk
    // answers nothing else.
    fn give<K: Keeper>(
        &mut self,
        alloc: Global,
        desk: &mut Desk<K>,
        known: usize,
        most: usize,
    ) -> Result<(), Fail> {
        let count = if self.is_batch {
            sent(alloc, desk, self.script, known, most)?
        } else {
            answered(alloc, desk, self.script, known, most)?
        };
        if count == most {
            self.progress = Progress::Whole;
            return Ok(());
        }
        self.progress = Progress::Failed(count);
        is_silent(desk)
    }
}

// Gives the desk this many orders of ALFA for Tuesday, and ends Monday. Where there are none, it does nothing.
fn hold<K: Keeper>(alloc: Global, desk: &mut Desk<K>, held: u64) -> Result<(), Fail> {
    if held == 0 {
        return Ok(());
    }
    let mut script = String::new(alloc);
    for number in 1..=held {
        write!(
            script,
            "order ALFA A-{number} BETA 1 due 2024-03-05 => \
            Ok(Held {{ number: {number}, due: BusinessDate {{ number: 20240305 }} }})\n"
        )?;
    }
    script.push_str(END_OF_MONDAY)?;
    follows(alloc, desk, script.as_str())
}

impl Job for Work {
    fn done<K: Booked>(&mut self, alloc: Global, keeper: K) -> Result<(K, bool), Fail> {
        let (known, most) = match self.part {
            Part::Rest => return Ok((keeper, self.closes)),
            Part::Begin { held } => {
                let mut desk = begun(alloc, keeper, self.script)?;
                hold(alloc, &mut desk, held)?;
                return Ok((desk.into_keeper(), self.closes));
            }
            Part::Give(most) => (0, most),
            Part::Look { known, most } => (known, most),
        };
        let mut desk = match Desk::open(alloc, keeper) {
            Ok(desk) => desk,
            Err((fault, keeper)) => {
                self.fault = Some(fault);
                return Ok((keeper, false));
            }
        };
        self.give(alloc, &mut desk, known, most)?;
        let closes = self.closes && !matches!(self.progress, Progress::Failed(_));
        if matches!(self.part, Part::Give(_)) {
            return Ok((desk.into_keeper(), closes));
        }
        let (found, keeper) = found_of(alloc, desk)?;
        self.found = Some(found);
        Ok((keeper, closes))
    }
}
