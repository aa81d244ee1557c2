//! Scenarios as scripts for a desk in memory that serves requests.
use rtgs_tests_desks::{Layer, ScenarioAccount, ScenarioOrder, cents_of, plays, queue_json};
use std::alloc::Global;
use std::fmt::Write;
use std::test::Fail;

/// The script that a scenario is, request by request.
#[derive(Drop)]
struct RequestScript {
    alloc: Global,
    text: String,
}

/// The script that a scenario is, for a desk of three banks on a Monday.
pub fn script_of(alloc: Global, scenario: &str) -> Result<String, Fail> {
    let mut script = RequestScript {
        alloc,
        text: String::new(alloc),
    };
    plays(alloc, &mut script, scenario)?;
    let RequestScript { alloc: _, text } = script;
    Ok(text)
}

impl RequestScript {
    /// Adds what is asked, and the JSON that answers it.
    fn add(&mut self, asked: &str, json: &str) -> Result<(), Fail> {
        let text = &mut self.text;
        Ok(write!(text, "{asked}\n-> 200 OK {json}\n\n")?)
    }
}

impl Layer for RequestScript {
    fn posts(&mut self, number: u64, bank: &str, cents: u32) -> Result<(), Fail> {
        let asked = format!(in self.alloc;
            "OPERATOR POST /desk/post {{\"cents\":{cents},\"code\":\"{bank}\",\"reference\":\"P-{number}\"}}"
        )?;
        let json = format!(in self.alloc; "{{\"answer\":\"posted\",\"number\":{number}}}")?;
        self.add(asked.as_str(), json.as_str())
    }

    fn limits(&mut self, bank: &str, cents: u32) -> Result<(), Fail> {
        let asked = format!(in self.alloc;
            "OPERATOR POST /desk/credit {{\"code\":\"{bank}\",\"credit\":{cents}}}"
        )?;
        self.add(asked.as_str(), "{\"answer\":\"credit set\"}")
    }

    fn queues(&mut self, order: &ScenarioOrder<'_>, place: u64) -> Result<(), Fail> {
        let (number, sender, reference) = (order.number, order.sender, order.reference);
        let (receiver, cents) = (order.receiver, order.cents);
        let asked = format!(in self.alloc;
            "{sender} POST /orders {{\"amount\":{cents},\"reference\":\"{reference}\",\"to\":\"{receiver}\"}}"
        )?;
        let json = format!(in self.alloc;
            "{{\"answer\":\"queued\",\"number\":{number},\"place\":{place}}}"
        )?;
        self.add(asked.as_str(), json.as_str())
    }

    fn resolves(
        &mut self,
        _waiting: &[ScenarioOrder<'_>],
        settled: &[ScenarioOrder<'_>],
        mark: u64,
    ) -> Result<(), Fail> {
        let asked = "OPERATOR POST /desk/resolve {}";
        if settled.is_empty() {
            return self.add(asked, "{\"answer\":\"nothing\"}");
        }
        let (count, value) = (settled.len(), cents_of(settled));
        let json = format!(in self.alloc;
            "{{\"answer\":\"resolved\",\"count\":{count},\"mark\":{mark},\"value\":{value}}}"
        )?;
        self.add(asked, json.as_str())?;
        for order in settled {
            let (sender, reference) = (order.sender, order.reference);
            let asked = format!(in self.alloc; "{sender} GET /orders/{reference}")?;
            let json = order.settled_json(self.alloc, mark)?;
            self.add(asked.as_str(), json.as_str())?;
        }
        Ok(())
    }

    fn has(
        &mut self,
        account: &ScenarioAccount<'_>,
        queue: &[ScenarioOrder<'_>],
    ) -> Result<(), Fail> {
        let bank = account.bank;
        let asked = format!(in self.alloc; "{bank} GET /account")?;
        let json = account.json(self.alloc, queue)?;
        self.add(asked.as_str(), json.as_str())?;
        let asked = format!(in self.alloc; "{bank} GET /queue")?;
        let json = queue_json(self.alloc, queue)?;
        self.add(asked.as_str(), json.as_str())
    }
}
