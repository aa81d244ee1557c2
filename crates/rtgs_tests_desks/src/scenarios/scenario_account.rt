//! The banks of a scenario.
use crate::scenarios::scenario_order::{ScenarioOrder, cents_of};
use std::alloc::Global;
use std::test::Fail;

/// How many banks a scenario has.
pub const BANK_COUNT: usize = 3;

/// What a bank of a scenario has.
#[derive(Clone, Copy)]
pub struct ScenarioAccount<'a> {
    pub bank: &'a str,
    pub balance: i64,
    pub credit: u32,
}

impl<'a> ScenarioAccount<'a> {
    /// What the bank reads of its account, while these orders wait in its queue.
    pub fn json(&self, alloc: Global, queue: &[ScenarioOrder<'_>]) -> Result<String, Fail> {
        let (bank, balance, credit) = (self.bank, self.balance, self.credit);
        let (queued, value) = (queue.len(), cents_of(queue));
        let name = name_of(bank)?;
        Ok(format!(in alloc;
            "{{\"balance\":{balance},\"code\":\"{bank}\",\"credit\":{credit},\"date\":\"2024-03-04\",\
            \"name\":\"{name}\",\"phase\":\"OPEN\",\"queued\":{queued},\"queued_value\":{value}}}"
        )?)
    }
}

// The name of a bank.
fn name_of(bank: &str) -> Result<&'static str, Fail> {
    match bank {
        "ALFA" => Ok("Alfa Bank"),
        "BETA" => Ok("Beta Bank"),
        "GAMA" => Ok("Gama Bank"),
        _ => Err(Fail::from("no bank of a scenario")),
    }
}

/// Which of the banks this is, from 0 on.
pub fn bank_index(bank: &str) -> Result<usize, Fail> {
    match bank {
        "ALFA" => Ok(0),
        "BETA" => Ok(1),
        "GAMA" => Ok(2),
        _ => Err(Fail::from("no bank of a scenario")),
    }
}
