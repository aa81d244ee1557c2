//! Scenarios for the resolver alone.
use super::lengths_of;
use rtgs_gridlock::{Payment, Position, Positions, Queues};
use rtgs_tests_desks::{
    BANK_COUNT, Layer, ScenarioAccount, ScenarioOrder, bank_index, references_of,
};
use std::alloc::Global;
use std::test::Fail;

/// The resolver, and the position of each bank.
#[derive(Drop)]
pub struct Resolver {
    alloc: Global,
    positions: [Position; BANK_COUNT],
}

/// The queue of the bank with this index, among all orders that wait.
fn payments_of(
    alloc: Global,
    waiting: &[ScenarioOrder<'_>],
    bank: usize,
) -> Result<Vec<Payment>, Fail> {
    let mut queue = Vec::new(alloc);
    for order in waiting {
        if bank_index(order.sender)? == bank {
            queue.push(Payment {
                receiver: bank_index(order.receiver)?,
                amount: u64::from(order.cents),
            })?;
        }
    }
    Ok(queue)
}

/// The references of the orders that beginnings of these lengths have, in the order in which they came.
fn chosen_among(
    alloc: Global,
    waiting: &[ScenarioOrder<'_>],
    lengths: &[usize],
) -> Result<String, Fail> {
    let mut left = lengths.to_vec(alloc)?;
    let mut chosen = Vec::new(alloc);
    for order in waiting {
        let index = bank_index(order.sender)?;
        let length = left.get_mut(index).ok_or("no length of a bank")?;
        if let Some(less) = length.checked_sub(1) {
            *length = less;
            chosen.push(*order)?;
        }
    }
    let nothing = [0usize; BANK_COUNT];
    if left.as_slice() == nothing.as_slice() {
        return Ok(references_of(alloc, chosen.as_slice())?);
    }
    Err(Fail::from("lengths of other banks, or of more than a queue"))
}

impl Resolver {
    /// With three banks that have nothing.
    pub fn new(alloc: Global) -> Resolver {
        let nothing = Position {
            balance: 0,
            floor: 0,
        };
        Resolver {
            alloc,
            positions: [nothing; BANK_COUNT],
        }
    }

    /// Moves this many cents to a bank, or from it where they are below 0.
    fn moves(&mut self, bank: &str, cents: i64) -> Result<(), Fail> {
        let index = bank_index(bank)?;
        let position = self
            .positions
            .get_mut(index)
            .ok_or("no position of a bank")?;
        position.balance = position.balance.saturating_add(cents);
        Ok(())
    }

    /// The references of the orders that the resolver chooses of those that wait.
    fn chosen(&self, waiting: &[ScenarioOrder<'_>]) -> Result<String, Fail> {
        let mut positions = Positions::new(self.alloc);
        let mut queues = Queues::new(self.alloc);
        for (index, position) in self.positions.iter().enumerate() {
            positions.push(*position)?;
            queues.push(payments_of(self.alloc, waiting, index)?)?;
        }
        let lengths = lengths_of(self.alloc, &positions, &queues)?;
        chosen_among(self.alloc, waiting, lengths.as_slice())
    }
}

impl Layer for Resolver {
    fn posts(&mut self, _number: u64, bank: &str, cents: u32) -> Result<(), Fail> {
        self.moves(bank, i64::from(cents))
    }

    fn limits(&mut self, bank: &str, cents: u32) -> Result<(), Fail> {
        let index = bank_index(bank)?;
        let position = self
            .positions
            .get_mut(index)
            .ok_or("no position of a bank")?;
        position.floor = -i64::from(cents);
        Ok(())
    }

    fn queues(&mut self, _order: &ScenarioOrder<'_>, _place: u64) -> Result<(), Fail> {
        Ok(())
    }

    fn resolves(
        &mut self,
        waiting: &[ScenarioOrder<'_>],
        settled: &[ScenarioOrder<'_>],
        _mark: u64,
    ) -> Result<(), Fail> {
        let chosen = self.chosen(waiting)?;
        let wanted = references_of(self.alloc, settled)?;
        if chosen.as_str() != wanted.as_str() {
            let said = format!(in self.alloc; "the resolver chose {chosen}, and not {wanted}")?;
            return Err(Fail::from(said));
        }
        for order in settled {
            self.moves(order.sender, -i64::from(order.cents))?;
            self.moves(order.receiver, i64::from(order.cents))?;
        }
        Ok(())
    }

    fn has(
        &mut self,
        account: &ScenarioAccount<'_>,
        _queue: &[ScenarioOrder<'_>],
    ) -> Result<(), Fail> {
        let (bank, wanted) = (account.bank, account.balance);
        let index = bank_index(bank)?;
        let position = self.positions.get(index).ok_or("no position of a bank")?;
        let balance = position.balance;
        if balance == wanted {
            return Ok(());
        }
        let said = format!(in self.alloc; "{bank} has {balance}, and not {wanted}")?;
        Err(Fail::from(said))
    }
}
