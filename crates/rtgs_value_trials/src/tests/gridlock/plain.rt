//! The greatest choice by the published procedure, written as plainly as can be: every position is
//! summed afresh at each turn (Bech and Soramäki 2001).
use rtgs_gridlock::{Payment, Positions};
use std::alloc::{AllocError, Global};
use std::test::Fail;

/// The lengths that are left when, from all payments, the newest chosen payment of a participant
/// that is short has been taken back until none is short.
pub fn greatest_plainly(
    alloc: Global,
    positions: &Positions,
    queues: &[Vec<Payment>],
) -> Result<Vec<usize>, Fail> {
    let mut lengths = all(alloc, queues)?;
    let payments = lengths
        .iter()
        .try_fold(0usize, |sum, length| sum.checked_add(*length));
    for _ in 0..payments.ok_or("too many payments")? {
        let Some(short) = first_short(alloc, positions, queues, &lengths)? else {
            return Ok(lengths);
        };
        let length = lengths.get_mut(short).ok_or("no such participant")?;
        *length = length.checked_sub(1).ok_or("nothing is left to take back")?;
    }
    Ok(lengths)
}

/// The lengths of all queues.
fn all(alloc: Global, queues: &[Vec<Payment>]) -> Result<Vec<usize>, AllocError> {
    let mut lengths = Vec::new(alloc);
    for queue in queues {
        lengths.push(queue.len())?;
    }
    Ok(lengths)
}

/// The first participant whose balance the chosen payments leave below its floor.
fn first_short(
    alloc: Global,
    positions: &Positions,
    queues: &[Vec<Payment>],
    lengths: &[usize],
) -> Result<Option<usize>, Fail> {
    let mut after = Vec::new(alloc);
    for position in positions.iter() {
        after.push(i128::from(position.balance))?;
    }
    for (sender, queue) in queues.iter().enumerate() {
        let length = lengths.get(sender).copied().ok_or("no such sender")?;
        settle(&mut after, sender, queue.as_slice(), length)?;
    }
    let short = positions
        .iter()
        .zip(&after)
        .position(|(position, after)| *after < i128::from(position.floor));
    Ok(short)
}

/// Settles the first payments of a queue.
fn settle(
    balances: &mut [i128],
    sender: usize,
    queue: &[Payment],
    length: usize,
) -> Result<(), Fail> {
    for payment in queue.iter().take(length) {
        let amount = i128::from(payment.amount);
        let from = balances.get_mut(sender).ok_or("no such sender")?;
        *from = from.checked_sub(amount).ok_or("too much sent")?;
        let to = balances
            .get_mut(payment.receiver)
            .ok_or("no such receiver")?;
        *to = to.checked_add(amount).ok_or("too much received")?;
    }
    Ok(())
}
