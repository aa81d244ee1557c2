//! What a scenario is run at.
use crate::scenarios::scenario_account::ScenarioAccount;
use crate::scenarios::scenario_order::ScenarioOrder;
use std::test::Fail;

/// What a scenario is run at, line by line. Each call fails where the layer does otherwise than the line says; a layer
/// that is given a script may note what the line says, and fail when the script is followed.
pub trait Layer {
    /// A bank gets this many cents by the posting with this number.
    fn posts(&mut self, number: u64, bank: &str, cents: u32) -> Result<(), Fail>;

    /// A bank's credit limit becomes this many cents.
    fn limits(&mut self, bank: &str, cents: u32) -> Result<(), Fail>;

    /// An order comes, and waits at this place of its queue.
    fn queues(&mut self, order: &ScenarioOrder<'_>, place: u64) -> Result<(), Fail>;

    /// Of all orders that wait, in the order in which they came, a resolution settles these and no others. The mark is
    /// theirs, where there are any.
    fn resolves(
        &mut self,
        waiting: &[ScenarioOrder<'_>],
        settled: &[ScenarioOrder<'_>],
        mark: u64,
    ) -> Result<(), Fail>;

    /// A bank has what its account says, and these orders wait in its queue.
    fn has(
        &mut self,
        account: &ScenarioAccount<'_>,
        queue: &[ScenarioOrder<'_>],
    ) -> Result<(), Fail>;
}
