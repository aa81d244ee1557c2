//! What a run says: the line of what it did, or of why it did not, what became of that, and the exit status of the run.
#![tactic(auto)]

mod done;
mod ended;
mod failure;
mod line;
mod printed;

pub use crate::done::Done;
pub use crate::ended::Ended;
pub use crate::failure::Failure;
pub use crate::printed::Printed;
