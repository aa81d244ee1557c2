//! The reader of scenarios.
use crate::scenarios::layer::Layer;
use crate::scenarios::scenario_account::{BANK_COUNT, ScenarioAccount, bank_index};
use crate::scenarios::scenario_order::{ScenarioOrder, references_of};
use std::alloc::Global;
use std::test::Fail;

/// What has happened in a scenario so far.
#[derive(Drop)]
struct Scenario<'a> {
    alloc: Global,
    // how many postings and orders came, and how many marks were made
    postings: u64,
    orders: u64,
    marks: u64,
    credits: [u32; BANK_COUNT],
    // the orders that wait, in the order in which they came
    waiting: Vec<ScenarioOrder<'a>>,
    // whether there was a resolution, and how many banks, in their order, have been read since anything happened
    is_resolved: bool,
    banks_read: usize,
}

/// Runs a scenario at a layer. It fails where the layer does otherwise than the scenario says, and where the scenario
/// is no whole one.
pub fn plays<L: Layer>(alloc: Global, layer: &mut L, text: &str) -> Result<(), Fail> {
    let mut scenario = Scenario::new(alloc);
    for line in text.lines() {
        if !line.is_empty() {
            scenario.line(layer, line)?;
        }
    }
    if scenario.is_resolved && scenario.banks_read == BANK_COUNT {
        Ok(())
    } else {
        Err(Fail::from("a scenario without a resolution, or without what each bank has then"))
    }
}

impl<'a> Scenario<'a> {
    fn new(alloc: Global) -> Scenario<'a> {
        Scenario {
            alloc,
            postings: 0,
            orders: 0,
            marks: 0,
            credits: [0; BANK_COUNT],
            waiting: Vec::new(alloc),
            is_resolved: false,
            banks_read: 0,
        }
    }

    fn line<L: Layer>(&mut self, layer: &mut L, line: &'a str) -> Result<(), Fail> {
        let (kind, words) = line.split_once(' ').unwrap_or((line, ""));
        if kind == "has" {
            return self.has(layer, words);
        }
        self.banks_read = 0;
        match kind {
            "post" => self.posts(layer, words),
            "credit" => self.limits(layer, words),
            "order" => self.queues(layer, words),
            "resolve" => self.resolves(layer, words),
            _ => Err(Fail::from("a line of a scenario that is not understood")),
        }
    }

    fn posts<L: Layer>(&mut self, layer: &mut L, words: &str) -> Result<(), Fail> {
        let (bank, cents) = words.split_once(' ').ok_or("a posting without cents")?;
        self.postings = self.postings.saturating_add(1);
        layer.posts(self.postings, bank, cents.parse::<u32>()?)
    }

    fn limits<L: Layer>(&mut self, layer: &mut L, words: &str) -> Result<(), Fail> {
        let (bank, cents) = words.split_once(' ').ok_or("a limit without cents")?;
        let (index, limit) = (bank_index(bank)?, cents.parse::<u32>()?);
        let credit = self.credits.get_mut(index).ok_or("no bank of a scenario")?;
        *credit = limit;
        layer.limits(bank, limit)
    }

    fn queues<L: Layer>(&mut self, layer: &mut L, words: &'a str) -> Result<(), Fail> {
        let (sender, words) = words.split_once(' ').ok_or("an order without a reference")?;
        let (reference, words) = words.split_once(' ').ok_or("an order without a receiver")?;
        let (receiver, cents) = words.split_once(' ').ok_or("an order without cents")?;
        let cents = cents.parse::<u32>()?;
        self.orders = self.orders.saturating_add(1);
        let order = ScenarioOrder {
            number: self.orders,
            sender,
            reference,
            receiver,
            cents,
        };
        let place = self.queue_length(sender).saturating_add(1);
        layer.queues(&order, place)?;
        self.waiting.push(order)?;
        Ok(())
    }

    // How many orders of a bank wait.
    fn queue_length(&self, sender: &str) -> u64 {
        let mut length = 0u64;
        for order in self.waiting.as_slice() {
            if order.sender == sender {
                length = length.saturating_add(1);
            }
        }
        length
    }

    fn resolves<L: Layer>(&mut self, layer: &mut L, references: &str) -> Result<(), Fail> {
        let mut settled = Vec::new(self.alloc);
        let mut left = Vec::new(self.alloc);
        for order in self.waiting.as_slice() {
            if is_named(references, order.reference) {
                settled.push(*order)?;
            } else {
                left.push(*order)?;
            }
        }
        self.are_named(settled.as_slice(), references)?;
        if !settled.is_empty() {
            self.marks = self.marks.saturating_add(1);
        }
        layer.resolves(self.waiting.as_slice(), settled.as_slice(), self.marks)?;
        self.waiting = left;
        self.is_resolved = true;
        Ok(())
    }

    // Fails unless these are the references of the orders, in their order.
    fn are_named(&self, orders: &[ScenarioOrder<'_>], references: &str) -> Result<(), Fail> {
        let found = references_of(self.alloc, orders)?;
        if found.as_str() == references {
            return Ok(());
        }
        Err(Fail::from(format!(in self.alloc; "{references}: the scenario has {found}")?))
    }

    fn has<L: Layer>(&mut self, layer: &mut L, words: &str) -> Result<(), Fail> {
        let (account, references) = words
            .split_once(" queued ")
            .ok_or("a bank without a queue")?;
        let (bank, balance) = account.split_once(' ').ok_or("a bank without a balance")?;
        let account = ScenarioAccount {
            bank,
            balance: balance.parse::<i64>()?,
            credit: self.credit_of(bank)?,
        };
        let mut queue = Vec::new(self.alloc);
        for order in self.waiting.as_slice() {
            if order.sender == bank {
                queue.push(*order)?;
            }
        }
        self.are_named(queue.as_slice(), references)?;
        if bank_index(bank)? == self.banks_read {
            self.banks_read = self.banks_read.saturating_add(1);
        }
        layer.has(&account, queue.as_slice())
    }

    fn credit_of(&self, bank: &str) -> Result<u32, Fail> {
        let index = bank_index(bank)?;
        let credit = self.credits.get(index).copied();
        Ok(credit.ok_or("no bank of a scenario")?)
    }
}

// Whether this is one of these references.
fn is_named(references: &str, reference: &str) -> bool {
    for named in references.split_whitespace() {
        if named == reference {
            return true;
        }
    }
    false
}
