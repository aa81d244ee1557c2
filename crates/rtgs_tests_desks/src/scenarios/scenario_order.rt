//! The orders of a scenario.
use std::alloc::{AllocError, Global};

/// An order of a scenario. Its number is its place among all that came.
#[derive(Clone, Copy)]
pub struct ScenarioOrder<'a> {
    pub number: u64,
    pub sender: &'a str,
    pub reference: &'a str,
    pub receiver: &'a str,
    pub cents: u32,
}

impl<'a> ScenarioOrder<'a> {
    /// What its sender reads of it once it has settled under this mark.
    pub fn settled_json(&self, alloc: Global, mark: u64) -> Result<String, AllocError> {
        let (number, cents) = (self.number, self.cents);
        let (reference, receiver) = (self.reference, self.receiver);
        format!(in alloc;
            "{{\"amount\":{cents},\"date\":\"2024-03-04\",\"mark\":{mark},\"number\":{number},\
            \"reference\":\"{reference}\",\"state\":\"settled\",\"to\":\"{receiver}\"}}"
        )
    }

    // What its sender reads of it while it waits at this place of its queue.
    fn queued_json(&self, alloc: Global, place: u64) -> Result<String, AllocError> {
        let (number, cents) = (self.number, self.cents);
        let (reference, receiver) = (self.reference, self.receiver);
        format!(in alloc;
            "{{\"amount\":{cents},\"number\":{number},\"place\":{place},\"reference\":\"{reference}\",\
            \"to\":\"{receiver}\"}}"
        )
    }
}

/// The references of orders, with a space between them, or `nothing` where there are none.
pub fn references_of(alloc: Global, orders: &[ScenarioOrder<'_>]) -> Result<String, AllocError> {
    if orders.is_empty() {
        return String::from_str(alloc, "nothing");
    }
    let mut text = String::new(alloc);
    for order in orders {
        if !text.is_empty() {
            text.push_str(" ")?;
        }
        text.push_str(order.reference)?;
    }
    Ok(text)
}

/// What orders pay in all.
pub fn cents_of(orders: &[ScenarioOrder<'_>]) -> u64 {
    let mut sum = 0u64;
    for order in orders {
        sum = sum.saturating_add(u64::from(order.cents));
    }
    sum
}

/// What a bank reads of its queue.
pub fn queue_json(alloc: Global, queue: &[ScenarioOrder<'_>]) -> Result<String, AllocError> {
    let mut text = String::from_str(alloc, "{\"orders\":[")?;
    let mut place = 0u64;
    for order in queue {
        if place > 0 {
            text.push_str(",")?;
        }
        place = place.saturating_add(1);
        let json = order.queued_json(alloc, place)?;
        text.push_str(json.as_str())?;
    }
    text.push_str("]}")?;
    Ok(text)
}
