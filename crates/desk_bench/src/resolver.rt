//! The resolver, over cascades among 100 participants.
use anyhow::{Result, ensure};
use rtgs_gridlock::{OutOfMemory, Payment, Position, Positions, Queues, Workspace, greatest};
use std::alloc::{AllocError, Global};
use std::rt::Clock;
use std::time::{Duration, Instant};

const PARTICIPANTS: usize = 100;

const TIMES: usize = 200;

/// Participants with nothing.
fn poor(alloc: Global) -> Result<Positions, OutOfMemory> {
    let mut positions = Positions::new(alloc);
    for _ in 0..PARTICIPANTS {
        positions.push(Position {
            balance: 0,
            floor: 0,
        })?;
    }
    Ok(positions)
}

/// This many payments of one cent to a receiver.
fn cents_to(alloc: Global, receiver: usize, count: usize) -> Result<Vec<Payment>, AllocError> {
    let mut queue = Vec::new(alloc);
    for _ in 0..count {
        queue.push(Payment {
            receiver,
            amount: 1,
        })?;
    }
    Ok(queue)
}

/// A cascade: each participant pays the one before it, and nobody pays the last, so that each
/// removal leaves the next one short. The first two pay each other, and theirs alone settle.
fn cascade(alloc: Global, each: usize) -> Result<Queues, OutOfMemory> {
    let mut queues = Queues::new(alloc);
    for index in 0..PARTICIPANTS {
        let receiver = index.checked_sub(1).unwrap_or(1);
        queues.push(cents_to(alloc, receiver, each)?)?;
    }
    Ok(queues)
}

/// Measures the resolution of a cascade of this many payments in each queue.
pub fn measure<R: Print + Clock + Alloc<A = Global>>(
    rt: &R,
    each: usize,
    timed: bool,
) -> Result<()> {
    let positions = poor(rt.alloc())?;
    let queues = cascade(rt.alloc(), each)?;
    let count = queues.payment_count().unwrap_or(0);
    let mut workspace = Workspace::reserve(rt.alloc(), PARTICIPANTS, count)?;
    ensure!(positions.len() == PARTICIPANTS, "positions");
    ensure!(queues.len() == PARTICIPANTS, "queues");
    ensure!(positions.are_floored(), "floors");
    ensure!(queues.are_in_range(), "receivers");
    ensure!(queues.payment_count() == Some(count), "payments");
    let mut shortest = Duration::MAX;
    let mut steps = 0;
    for _ in 0..TIMES {
        let before = workspace.steps();
        let start = Instant::now(rt)?;
        greatest(&positions, &queues, &mut workspace);
        shortest = shortest.min(start.elapsed(rt)?);
        steps = workspace.steps() - before;
    }
    let settled: usize = workspace
        .lengths()
        .iter()
        .filter(|length| **length > 0)
        .count();
    print!(rt; "{count} queued: {steps} steps, {settled} participants settle")?;
    if timed {
        print!(rt; ", {} ns", shortest.as_nanos())?;
    }
    println!(rt;)?;
    Ok(())
}
