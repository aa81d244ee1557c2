//! Scripts for a ledger, and the keeper in memory in which what it adopts is kept.
use super::super::setting::{Reply, code, reference};
use super::records::{order_if_any, queue_text};
use super::rows::{day_text, rows_text};
use super::{Answers, command_of, follows, reply_text, words_of};
use rtgs_book::{Answer, Command, Found, NewOrder, Resolution};
use rtgs_keeper::Keeper;
use rtgs_ledger::Ledger;
use rtgs_money::BusinessDate;
use rtgs_tests_desks::MemoryKeeper;
use std::alloc::Global;
use std::test::Fail;

/// A ledger, and the keeper in which what it adopts is kept.
#[derive(Drop)]
struct Kept {
    ledger: Ledger,
    keeper: MemoryKeeper,
}

impl Answers for Kept {
    fn answer(&mut self, alloc: Global, asked: &str) -> Result<String, Fail> {
        let words = words_of(alloc, asked)?;
        match words.as_slice() {
            ["balance", participant] => balance_text(alloc, &self.ledger, participant),
            ["account", participant] => account_text(alloc, &self.ledger, participant),
            ["queue", sender] => queue_of(alloc, &self.ledger, sender),
            ["kept", sender, name] => kept_order(alloc, &mut self.keeper, sender, name),
            ["in-memory"] => numbers_in_memory(alloc, &self.ledger),
            ["day"] => day_text(alloc, &self.ledger.day()),
            ["rows", others @ ..] => rows_line(alloc, self, others),
            others => reply_line(alloc, self, others),
        }
    }
}

/// ALFA, BETA and GAMA, of which ALFA has 100 cents, and an open day.
const FUNDED: &str = "
add ALFA 0000000000000000000000000000000a => Added
add BETA 0000000000000000000000000000000b => Added
add GAMA 0000000000000000000000000000000c => Added
post ALFA P-1 100 => Posted { number: 1 }
open 2024-03-04 => Opened
";

/// Fails unless a ledger of three banks, of which ALFA has 100 cents, answers the script as it tells on an open day.
pub fn funded_ledger_follows(rt: &HostRuntime, script: &str) -> Result<(), Fail> {
    let mut kept = new_kept(rt.alloc())?;
    follows(rt.alloc(), &mut kept, FUNDED)?;
    follows(rt.alloc(), &mut kept, script)
}

/// ALFA, BETA and GAMA, of which nobody has anything, and an automatic day.
const AUTOMATIC: &str = "
add ALFA 0000000000000000000000000000000a => Added
add BETA 0000000000000000000000000000000b => Added
add GAMA 0000000000000000000000000000000c => Added
open 2024-03-04 automatic => Opened
";

/// Fails unless a ledger of three banks answers the script as it tells on an automatic day.
pub fn automatic_ledger_follows(rt: &HostRuntime, script: &str) -> Result<(), Fail> {
    let mut kept = new_kept(rt.alloc())?;
    follows(rt.alloc(), &mut kept, AUTOMATIC)?;
    follows(rt.alloc(), &mut kept, script)
}

/// Fails unless the ledger of a new book answers the script as it tells.
pub fn new_ledger_follows(rt: &HostRuntime, script: &str) -> Result<(), Fail> {
    let mut kept = new_kept(rt.alloc())?;
    follows(rt.alloc(), &mut kept, script)
}

/// The ledger of the book that a keeper has.
pub fn ledger_of<K: Keeper>(alloc: Global, keeper: &mut K) -> Result<Ledger, Fail> {
    let core = match keeper.core(alloc) {
        Ok(core) => core,
        Err(fault) => return Err(Fail::from(fault)),
    };
    Ok(Ledger::load(alloc, core)?)
}

/// The ledger of a new book.
pub fn new_ledger(alloc: Global) -> Result<Ledger, Fail> {
    ledger_of(alloc, &mut MemoryKeeper::new(alloc))
}

/// The ledger of a new book, and a keeper of a new book.
fn new_kept(alloc: Global) -> Result<Kept, Fail> {
    let ledger = new_ledger(alloc)?;
    Ok(Kept {
        ledger,
        keeper: MemoryKeeper::new(alloc),
    })
}

/// What the keeper finds for the command.
fn found_for(keeper: &mut MemoryKeeper, command: &Command) -> Result<Found, Fail> {
    match command {
        Command::Order { sender, order } => Ok(Found {
            order: keeper.find_order(sender, &order.reference)?,
            posting: None,
        }),
        Command::Withdraw { sender, reference } => Ok(Found {
            order: keeper.find_order(sender, reference)?,
            posting: None,
        }),
        Command::Post { reference, .. } => Ok(Found {
            order: None,
            posting: keeper.find_posting(reference)?,
        }),
        _ => Ok(Found::NOTHING),
    }
}

/// What a command of these words is answered.
fn reply_line(alloc: Global, kept: &mut Kept, words: &[&str]) -> Result<String, Fail> {
    // Names the types in commands and replies for the borrow checker, which finds them nowhere else in this function.
    let (_no_order, _no_date): (Option<NewOrder>, Option<BusinessDate>) = (None, None);
    let _no_answer: Option<Answer> = None;
    let _no_resolution: Option<Resolution> = None;
    let command = command_of(words)?;
    let reply = submit(kept, &command)?;
    reply_text(alloc, &reply)
}

/// The rows of the change that a command of these words makes, which is adopted.
fn rows_line(alloc: Global, kept: &mut Kept, words: &[&str]) -> Result<String, Fail> {
    // Names the types in commands and replies for the borrow checker, which finds them nowhere else in this function.
    let (_no_order, _no_date): (Option<NewOrder>, Option<BusinessDate>) = (None, None);
    let _no_answer: Option<Answer> = None;
    let _no_resolution: Option<Resolution> = None;
    let command = command_of(words)?;
    let text = rows_of(alloc, kept, &command)?;
    let _ = submit(kept, &command)?;
    Ok(text)
}

/// The rows of the change that a command makes, which is not adopted.
fn rows_of(alloc: Global, kept: &mut Kept, command: &Command) -> Result<String, Fail> {
    let found = match found_for(&mut kept.keeper, command) {
        Ok(found) => found,
        Err(fail) => return Err(fail),
    };
    match kept.ledger.prepare(command, &found) {
        Ok((_, change)) => rows_text(alloc, change.as_slice()),
        Err(refusal) => Ok(format!(in alloc; "refused: {refusal:?}")?),
    }
}

fn submit(kept: &mut Kept, command: &Command) -> Result<Reply, Fail> {
    let found = match found_for(&mut kept.keeper, command) {
        Ok(found) => found,
        Err(fail) => return Err(fail),
    };
    let (answer, change) = match kept.ledger.prepare(command, &found) {
        Ok(prepared) => prepared,
        Err(refusal) => return Ok(Err(refusal)),
    };
    match kept.keeper.commit(&change) {
        Ok(()) => {}
        Err(fault) => return Err(Fail::from(fault)),
    }
    kept.ledger.adopt(change);
    Ok(Ok(answer))
}

/// What a participant has.
fn balance_text(alloc: Global, ledger: &Ledger, participant: &str) -> Result<String, Fail> {
    match ledger.account(&code(participant)?) {
        Some(account) => {
            let cents = account.balance.cents();
            Ok(format!(in alloc; "{cents} cents")?)
        }
        None => Ok(format!(in alloc; "no participant")?),
    }
}

/// What a participant has, and how many orders its queue has.
fn account_text(alloc: Global, ledger: &Ledger, participant: &str) -> Result<String, Fail> {
    // Names the type of due dates for the borrow checker, which finds it nowhere else in this function.
    let _no_date: Option<BusinessDate> = None;
    let balance = balance_text(alloc, ledger, participant)?;
    let queue = ledger.queue(&code(participant)?)?;
    let queued = queue.as_slice().len();
    Ok(format!(in alloc; "{balance}, {queued} queued")?)
}

/// The orders that wait in the sender's queue.
fn queue_of(alloc: Global, ledger: &Ledger, sender: &str) -> Result<String, Fail> {
    let queue = ledger.queue(&code(sender)?)?;
    queue_text(alloc, queue.as_slice())
}

/// The sender's order of this reference, as the keeper has it.
fn kept_order<K: Keeper>(
    alloc: Global,
    keeper: &mut K,
    sender: &str,
    name: &str,
) -> Result<String, Fail> {
    let found = keeper.find_order(&code(sender)?, &reference(name)?)?;
    order_if_any(alloc, &found)
}

/// The numbers of the orders that a ledger has in memory.
fn numbers_in_memory(alloc: Global, ledger: &Ledger) -> Result<String, Fail> {
    let mut numbers = Vec::new(alloc);
    for order in ledger.waiting() {
        numbers.push(order.number)?;
    }
    Ok(format!(in alloc; "{:?}", numbers.as_slice())?)
}
