//! What the tests of desks share: the keeper in memory, keepers that fail or count, scripts, which say in words what a
//! desk is given and what it answers, and scenarios of gridlocks. Only crates of trials stand on this crate.
#![tactic(auto)]

mod batch_orders;
mod counting_keeper;
mod ensuring;
mod failing_keeper;
mod in_memory;
mod opened;
mod readings;
mod scenarios;
mod scripts;
mod silence;

pub use crate::batch_orders::{orders, sent};
pub use crate::counting_keeper::CountingKeeper;
pub use crate::ensuring::{ensure, is};
pub use crate::failing_keeper::{FailingKeeper, Trouble, failing};
pub use crate::in_memory::MemoryKeeper;
pub use crate::opened::{BANKS, begun, desk_over};
pub use crate::readings::seen_of;
pub use crate::scenarios::{
    BANK_COUNT, GRIDLOCKS, Layer, ScenarioAccount, ScenarioOrder, bank_index, cents_of, plays,
    queue_json, references_of,
};
pub use crate::scripts::{
    Reply, addition, answered, command, commands, follows, is_expected, is_expected_by_itself,
    reply_text,
};
pub use crate::silence::is_silent;
