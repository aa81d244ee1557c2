//! Two sessions with a desk, by the functions whose contracts are the headline: in memory, and over two disks of which
//! one fails.
ghost use Rattle.std.specs.Prelude.{◌≡◌, false};

use rtgs_book::{Command, Fault, Refusal};
use rtgs_book_file::stored_desk::make;
use rtgs_desk::Desk;
use rtgs_keeper::Keeper;
use rtgs_promises::headline::{live, live_in_memory, make_and_live};
use rtgs_promises::{NoSession, PlannedSession, Stop, Unfinished};
use rtgs_tables::SqlKeeper;
use rtgs_tests_desks::{BANKS, MemoryKeeper, Reply, commands, desk_over, ensure};
use sqlite::{Alter, Connection, Files, Options};
use sqlite_disk::{Crash, Fuse, Memory};
use sqlite_trees::store::Reopen;
use std::alloc::Global;
use std::test::Fail;

// What is commanded in the first session, behind the three banks, and in the second.
const FIRST: &str = "\
open 2024-03-04
post ALFA P-1 100
order ALFA A-1 BETA 60
order ALFA A-2 GAMA 50";

const SECOND: &str = "\
order GAMA G-1 ALFA 30
resolve
post BETA P-2 7";

// Over what the sessions begin.
#[derive(Clone, Copy)]
enum Start {
    // an empty database
    Empty,
    // the tables of a new book
    Made,
}

// The replies of the sessions that were had, and what is seen of the desk in the end, unless they ended early.
#[derive(Drop)]
struct Life {
    said: Vec<Vec<Reply>>,
    end: Option<String>,
}

// What a session commands, and how it ends.
fn session(alloc: Global, script: &str, stop: Stop) -> Result<PlannedSession, Fail> {
    Ok(PlannedSession {
        commands: commands(alloc, script)?,
        stop,
    })
}

// The two sessions. The first ends in order, and the second as is said.
fn planned(alloc: Global, stop: Stop) -> Result<Vec<PlannedSession>, Fail> {
    let first = format!(in alloc; "{BANKS}\n{FIRST}")?;
    let mut sessions = Vec::new(alloc);
    sessions.push(session(alloc, first.as_str(), Stop::Close)?)?;
    sessions.push(session(alloc, SECOND, stop)?)?;
    Ok(sessions)
}

// Has the sessions with a desk over this database.
fn ended<S: Alter + Reopen + Drop>(
    alloc: Global,
    conn: Connection<S>,
    start: Start,
    sessions: &[PlannedSession],
) -> Result<(Vec<Vec<Reply>>, Desk<SqlKeeper<S>>), Unfinished<S>>
    requires { conn.in_transaction ≡ false }
{
    match start {
        Start::Empty => make_and_live(alloc, conn, sessions),
        Start::Made => match make(conn) {
            Ok(made) => live(alloc, made, sessions),
            Err((fault, left)) => Err(Unfinished {
                said: Vec::new(alloc),
                cause: NoSession::NoDesk(fault),
                store: left.into_store(),
            }),
        },
    }
}

// Fails unless it is the store that failed: memory is ample.
fn is_of_the_store(cause: &NoSession) -> Result<(), Fail> {
    match cause {
        NoSession::NotReopened(_) | NoSession::NotConnected(_) => Ok(()),
        NoSession::NoDesk(Fault::StoreFault) => Ok(()),
        _ => Err(Fail::new("sessions ended for another cause")),
    }
}

// What a desk says of all accounts, of all queues, and of itself.
fn seen_of<K: Keeper>(alloc: Global, desk: &Desk<K>) -> Result<String, Fail> {
    let accounts = desk.accounts()?;
    let queues = desk.queues()?;
    let status = desk.status()?;
    Ok(format!(in alloc; "{accounts:?} {queues:?} {status:?}")?)
}

// What came of sessions that were had.
fn seen<S: Alter + Drop>(
    alloc: Global,
    said: Vec<Vec<Reply>>,
    desk: &Desk<SqlKeeper<S>>,
) -> Result<Life, Fail> {
    let end = Some(seen_of(alloc, desk)?);
    Ok(Life { said, end })
}

// What came of the sessions with a desk over this database.
fn life_over<S: Alter + Reopen + Drop>(
    alloc: Global,
    conn: Connection<S>,
    start: Start,
    sessions: &[PlannedSession],
) -> Result<Life, Fail>
    requires { conn.in_transaction ≡ false }
{
    match ended(alloc, conn, start, sessions) {
        Ok((said, desk)) => seen(alloc, said, &desk),
        Err(unfinished) => {
            is_of_the_store(&unfinished.cause)?;
            Ok(Life {
                said: unfinished.said,
                end: None,
            })
        }
    }
}

// The same in memory, over what is said or by the function that makes a database of its own. Only here stands the type
// of a database in memory.
fn in_memory(alloc: Global, start: Option<Start>, stop: Stop) -> Result<Life, Fail> {
    let sessions = planned(alloc, stop)?;
    if let Some(start) = start {
        let conn = Connection::open_in_memory(alloc)?;
        return life_over(alloc, conn, start, sessions.as_slice());
    }
    match live_in_memory(alloc, sessions.as_slice()) {
        Ok((said, desk)) => seen(alloc, said, &desk),
        Err(_) => Err(Fail::new("sessions in memory that ended early")),
    }
}

// The same over these disks.
fn over_disks<D: Crash + Drop>(
    alloc: Global,
    disks: Files<D>,
    start: Start,
    sessions: &[PlannedSession],
) -> Result<Life, Fail> {
    if !disks.log.may_be_used() || !disks.db.may_be_used() {
        return Err(Fail::new("a disk that may not be used"));
    }
    match Connection::open_files(alloc, disks, Options::new(1)) {
        Ok(conn) => life_over(alloc, conn, start, sessions),
        Err(_) => Ok(Life {
            said: Vec::new(alloc),
            end: None,
        }),
    }
}

// The same over two disks in memory. That of the log passes this number of calls on, and fails each later one.
fn over_a_log(alloc: Global, calls: u64, start: Start, stop: Stop) -> Result<Life, Fail> {
    let disks = Files {
        log: Fuse::new(Memory::new(alloc), calls),
        db: Fuse::new(Memory::new(alloc), u64::MAX),
    };
    over_disks(alloc, disks, start, planned(alloc, stop)?.as_slice())
}

// Gives a desk the commands of a session that were answered, each of which it must answer so too, and the one that met
// a fault where this says that it acted. Answers of how many were answered.
fn repeat<K: Keeper>(
    desk: &mut Desk<K>,
    commands: &[Command],
    replies: &[Reply],
    acted: bool,
) -> Result<usize, Fail> {
    let mut count = 0usize;
    for (command, reply) in commands.iter().zip(replies) {
        match reply {
            Err(Refusal::StoreFault) if acted => {
                let _ = desk.submit(*command);
            }
            Err(Refusal::StoreFault | Refusal::Failed) => {}
            _ => {
                ensure(desk.submit(*command) == *reply)?;
                count = count.saturating_add(1);
            }
        }
    }
    Ok(count)
}

// How many commands of each session were answered, where a desk in memory that is given them, and the one that met a
// fault where this says that it acted, is then as the sessions left theirs. Else none.
fn answered_as(
    alloc: Global,
    life: &Life,
    stop: Stop,
    acted: bool,
) -> Result<Option<[usize; 2]>, Fail> {
    let sessions = planned(alloc, stop)?;
    let mut desk = desk_over(alloc, MemoryKeeper::new(alloc))?;
    let mut counts = [0usize; 2];
    for (index, session) in sessions.iter().enumerate() {
        let (Some(count), Some(replies)) = (counts.get_mut(index), life.said.get(index)) else {
            return Err(Fail::new("another number of sessions"));
        };
        ensure(session.commands.len() == replies.len())?;
        *count = repeat(
            &mut desk,
            session.commands.as_slice(),
            replies.as_slice(),
            acted,
        )?;
    }
    if life.end == Some(seen_of(alloc, &desk)?) {
        Ok(Some(counts))
    } else {
        Ok(None)
    }
}

// How many commands of each session were answered. It fails unless the desk is in the end as after these, or also after
// the one that met a fault, whole.
fn answered(alloc: Global, life: &Life, stop: Stop) -> Result<[usize; 2], Fail> {
    if let Some(counts) = answered_as(alloc, life, stop, false)? {
        return Ok(counts);
    }
    match answered_as(alloc, life, stop, true)? {
        Some(counts) => Ok(counts),
        None => Err(Fail::new("another end")),
    }
}

#[test]
fn two_sessions_are_had_in_memory(rt: HostRuntime) -> Result<(), Fail> {
    for stop in [Stop::Close, Stop::Crash] {
        for start in [None, Some(Start::Empty), Some(Start::Made)] {
            let life = in_memory(rt.alloc(), start, stop)?;
            ensure(answered(rt.alloc(), &life, stop)? == [7, 3])?;
        }
    }
    Ok(())
}

// Has the sessions while the log passes one call more each time, until no fault is met. Answers of how many of these
// lives met it in the second session, and had their desk found again. Whatever was met, a desk that is found is as after
// what was answered.
fn count_found_again(alloc: Global, start: Start, stop: Stop) -> Result<usize, Fail> {
    let mut count = 0usize;
    for calls in 0..1000 {
        let life = over_a_log(alloc, calls, start, stop)?;
        if life.end.is_none() {
            continue;
        }
        match answered(alloc, &life, stop)? {
            [7, 3] => return Ok(count),
            [7, _] => count = count.saturating_add(1),
            _ => {}
        }
    }
    Err(Fail::new("each log failed"))
}

#[test]
fn a_fault_in_the_second_session_leaves_what_was_answered(rt: HostRuntime) -> Result<(), Fail> {
    for stop in [Stop::Close, Stop::Crash] {
        for start in [Start::Empty, Start::Made] {
            ensure(count_found_again(rt.alloc(), start, stop)? > 2)?;
        }
    }
    Ok(())
}
