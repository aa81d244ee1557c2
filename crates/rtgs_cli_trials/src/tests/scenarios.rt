//! Scenarios as scripts of runs.
use rtgs_tests_desks::{Layer, ScenarioAccount, ScenarioOrder, cents_of, plays, queue_json};
use std::alloc::Global;
use std::fmt::Write;
use std::test::Fail;

/// The script that a scenario is, run by run.
#[derive(Drop)]
struct RunScript {
    alloc: Global,
    text: String,
}

/// The script that a scenario is, for a book of three banks on a Monday.
pub fn script_of(alloc: Global, scenario: &str) -> Result<String, Fail> {
    let mut script = RunScript {
        alloc,
        text: String::from_str(alloc, "\n")?,
    };
    plays(alloc, &mut script, scenario)?;
    let RunScript { alloc: _, text } = script;
    Ok(text)
}

impl Layer for RunScript {
    fn posts(&mut self, number: u64, bank: &str, cents: u32) -> Result<(), Fail> {
        let text = &mut self.text;
        Ok(write!(
            text,
            "$ desk post @ {bank} P-{number} {cents}\n> posted {number}\n"
        )?)
    }

    fn limits(&mut self, bank: &str, cents: u32) -> Result<(), Fail> {
        let text = &mut self.text;
        Ok(write!(text, "$ desk credit @ {bank} {cents}\n> credit set\n")?)
    }

    fn queues(&mut self, order: &ScenarioOrder<'_>, place: u64) -> Result<(), Fail> {
        let text = &mut self.text;
        let (number, sender, reference) = (order.number, order.sender, order.reference);
        let (receiver, cents) = (order.receiver, order.cents);
        Ok(write!(
            text,
            "$ orders @.csv {reference},{receiver},{cents}\n\
            $ desk import @ {sender} @.csv\n\
            > reference,result,number,detail\n\
            > {reference},queued,{number},{place}\n"
        )?)
    }

    fn resolves(
        &mut self,
        _waiting: &[ScenarioOrder<'_>],
        settled: &[ScenarioOrder<'_>],
        mark: u64,
    ) -> Result<(), Fail> {
        let alloc = self.alloc;
        let text = &mut self.text;
        text.push_str("$ desk resolve @\n")?;
        if settled.is_empty() {
            return Ok(text.push_str("> nothing\n")?);
        }
        let (count, value) = (settled.len(), cents_of(settled));
        write!(text, "> resolved mark {mark} count {count} value {value}\n")?;
        for order in settled {
            let (sender, reference) = (order.sender, order.reference);
            let json = order.settled_json(alloc, mark)?;
            write!(text, "$ desk order @ {sender} {reference}\n> {json}\n")?;
        }
        Ok(())
    }

    fn has(
        &mut self,
        account: &ScenarioAccount<'_>,
        queue: &[ScenarioOrder<'_>],
    ) -> Result<(), Fail> {
        let bank = account.bank;
        let account = account.json(self.alloc, queue)?;
        let queue = queue_json(self.alloc, queue)?;
        let text = &mut self.text;
        write!(text, "$ desk account @ {bank}\n> {account}\n")?;
        Ok(write!(text, "$ desk queue @ {bank}\n> {queue}\n")?)
    }
}
