//! Scenarios as scripts for a ledger or a desk.
use rtgs_tests_desks::{Layer, ScenarioAccount, ScenarioOrder, cents_of, plays};
use std::alloc::Global;
use std::fmt::Write;
use std::test::Fail;

/// The banks of a scenario, and its day.
const BEGIN: &str = "\
add ALFA 0000000000000000000000000000000a => Added
add BETA 0000000000000000000000000000000b => Added
add GAMA 0000000000000000000000000000000c => Added
open 2024-03-04 => Opened
";

/// The script that a scenario is, line by line.
#[derive(Drop)]
struct WordScript {
    alloc: Global,
    text: String,
}

/// The script that a scenario is, for the ledger or the desk of a new book.
pub fn script_of(alloc: Global, scenario: &str) -> Result<String, Fail> {
    let mut script = WordScript {
        alloc,
        text: String::from_str(alloc, BEGIN)?,
    };
    plays(alloc, &mut script, scenario)?;
    let WordScript { alloc: _, text } = script;
    Ok(text)
}

/// Adds an order in this state, as a script tells it.
fn add_order(text: &mut String, order: &ScenarioOrder<'_>, state: &str) -> Result<(), Fail> {
    let (number, sender, reference) = (order.number, order.sender, order.reference);
    let (receiver, cents) = (order.receiver, order.cents);
    Ok(write!(
        text,
        "{number} {sender} {reference} {receiver} {cents} 2024-03-04 {state}"
    )?)
}

/// Adds what is kept of an order, which is in this state.
fn add_settled(text: &mut String, order: &ScenarioOrder<'_>, state: &str) -> Result<(), Fail> {
    let (sender, reference) = (order.sender, order.reference);
    write!(text, "kept {sender} {reference} => ")?;
    add_order(text, order, state)?;
    Ok(text.push_str("\n")?)
}

/// Adds the orders of a queue, of which there are some, with a comma between them.
fn add_queue(text: &mut String, queue: &[ScenarioOrder<'_>]) -> Result<(), Fail> {
    let mut gap = "";
    for order in queue {
        text.push_str(gap)?;
        add_order(text, order, "Queued")?;
        gap = ", ";
    }
    Ok(text.push_str("\n")?)
}

impl Layer for WordScript {
    fn posts(&mut self, number: u64, bank: &str, cents: u32) -> Result<(), Fail> {
        let text = &mut self.text;
        Ok(write!(
            text,
            "post {bank} P-{number} {cents} => Posted {{ number: {number} }}\n"
        )?)
    }

    fn limits(&mut self, bank: &str, cents: u32) -> Result<(), Fail> {
        let text = &mut self.text;
        Ok(write!(text, "credit {bank} {cents} => CreditSet\n")?)
    }

    fn queues(&mut self, order: &ScenarioOrder<'_>, place: u64) -> Result<(), Fail> {
        let text = &mut self.text;
        let (number, sender, reference) = (order.number, order.sender, order.reference);
        let (receiver, cents) = (order.receiver, order.cents);
        Ok(write!(
            text,
            "order {sender} {reference} {receiver} {cents} => Queued {{ number: {number}, place: {place} }}\n"
        )?)
    }

    fn resolves(
        &mut self,
        _waiting: &[ScenarioOrder<'_>],
        settled: &[ScenarioOrder<'_>],
        mark: u64,
    ) -> Result<(), Fail> {
        let state = format!(in self.alloc; "Settled({mark})")?;
        let text = &mut self.text;
        if settled.is_empty() {
            return Ok(text.push_str("resolve => Nothing\n")?);
        }
        let (count, value) = (settled.len(), cents_of(settled));
        write!(
            text,
            "resolve => Resolved {{ mark: {mark}, count: {count}, value: Cents({value}) }}\n"
        )?;
        for order in settled {
            add_settled(text, order, state.as_str())?;
        }
        Ok(())
    }

    fn has(
        &mut self,
        account: &ScenarioAccount<'_>,
        queue: &[ScenarioOrder<'_>],
    ) -> Result<(), Fail> {
        let text = &mut self.text;
        let (bank, balance, queued) = (account.bank, account.balance, queue.len());
        write!(text, "account {bank} => {balance} cents, {queued} queued\n")?;
        write!(text, "queue {bank} => ")?;
        if queue.is_empty() {
            return Ok(text.push_str("empty\n")?);
        }
        add_queue(text, queue)
    }
}
