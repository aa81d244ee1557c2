//! Generated books.
ghost use Rattle.std.specs.Prelude.{◌<◌};

use rtgs_gridlock::{OutOfMemory, Payment, Position, Positions, Queues};
use std::alloc::{AllocError, Global};

/// The arguments of a resolution, and the payments of the queues once more, which the resolver keeps to itself.
#[derive(Debug, Drop)]
pub struct ResolverInput {
    pub positions: Positions,
    pub queues: Queues,
    pub payments: Vec<Vec<Payment>>,
}

impl ResolverInput {
    /// A book without participants.
    pub fn new(alloc: Global) -> ResolverInput {
        ResolverInput {
            positions: Positions::new(alloc),
            queues: Queues::new(alloc),
            payments: Vec::new(alloc),
        }
    }

    /// Adds a participant with its queue.
    pub fn add(
        &mut self,
        alloc: Global,
        position: Position,
        queue: Vec<Payment>,
    ) -> Result<(), OutOfMemory> {
        self.positions.push(position)?;
        self.payments.push(queue.as_slice().to_vec(alloc)?)?;
        self.queues.push(queue)
    }
}

/// A number's digits, the lowest first, each in a base of its own.
#[derive(Drop)]
struct Digits {
    rest: usize,
}

impl Digits {
    fn next(&mut self, base: usize) -> usize
        requires { 0 < base }
        ensures { result < base }
    {
        let digit = self.rest % base;
        self.rest /= base;
        digit
    }
}

/// How many small books there are: for each of three participants two balances, and 21 queues.
pub const SMALL_BOOKS: usize = 42 * 42 * 42;

/// A small book by its number.
pub fn small(alloc: Global, number: usize) -> Result<ResolverInput, OutOfMemory> {
    let mut digits = Digits { rest: number };
    let mut book = ResolverInput::new(alloc);
    for sender in 0..3usize {
        let balance = digits.next(2) as i64;
        let queue = small_queue(alloc, sender, digits.next(21))?;
        book.add(alloc, Position { balance, floor: 0 }, queue)?;
    }
    Ok(book)
}

/// One of the 21 queues of at most two payments, each of one or two cents to one of two others.
fn small_queue(alloc: Global, sender: usize, number: usize) -> Result<Vec<Payment>, AllocError>
    requires { sender < 3 }
{
    let (length, code) = match number {
        0 => (0, 0),
        1..=4 => (1, number - 1),
        _ => (2, number - 5),
    };
    let mut digits = Digits { rest: code };
    let mut queue = Vec::new(alloc);
    for _ in 0..length {
        let receiver = (sender + 1 + digits.next(2)) % 3;
        let amount = 1 + digits.next(2) as u64;
        queue.push(Payment { receiver, amount })?;
    }
    Ok(queue)
}

/// This many payments of one cent to a receiver.
fn cents_to(alloc: Global, receiver: usize, count: usize) -> Result<Vec<Payment>, AllocError> {
    let mut queue = Vec::new(alloc);
    for _ in 0..count {
        queue.push(Payment {
            receiver,
            amount: 1,
        })?;
    }
    Ok(queue)
}

/// A ring without money: each participant pays the next one, and the last the first.
pub fn ring(alloc: Global, participants: usize, each: usize) -> Result<ResolverInput, OutOfMemory> {
    let mut book = ResolverInput::new(alloc);
    for index in 0..participants {
        let next = (index + 1) % participants;
        let position = Position {
            balance: 0,
            floor: 0,
        };
        book.add(alloc, position, cents_to(alloc, next, each)?)?;
    }
    Ok(book)
}

/// A chain: each participant but the first pays the one before it, and the last has money.
pub fn chain(
    alloc: Global,
    participants: usize,
    each: usize,
    money: i64,
) -> Result<ResolverInput, OutOfMemory> {
    let mut book = ResolverInput::new(alloc);
    for index in 0..participants {
        let balance = if index + 1 == participants { money } else { 0 };
        let position = Position { balance, floor: 0 };
        let queue = match index.checked_sub(1) {
            Some(before) => cents_to(alloc, before, each)?,
            None => Vec::new(alloc),
        };
        book.add(alloc, position, queue)?;
    }
    Ok(book)
}

/// Payments between all participants, whose receivers and amounts follow from a stride. Each
/// participant has the same credit.
pub fn mixed(
    alloc: Global,
    participants: usize,
    each: usize,
    stride: usize,
    credit: u32,
) -> Result<ResolverInput, OutOfMemory> {
    let mut book = ResolverInput::new(alloc);
    for sender in 0..participants {
        let mut queue = Vec::new(alloc);
        for place in 0..each {
            let drawn = sender
                .wrapping_mul(stride)
                .wrapping_add(place.wrapping_mul(place));
            let receiver = drawn % participants;
            let amount = 1 + (drawn % 97) as u64;
            queue.push(Payment { receiver, amount })?;
        }
        let position = Position {
            balance: (sender % 5) as i64,
            floor: -i64::from(credit),
        };
        book.add(alloc, position, queue)?;
    }
    Ok(book)
}
