//! What one HTTP request asks of the desk: its caller, its body, and the command, batch or reading that they mean, or
//! the fault of the first step that fails. And input that comes in pieces (`feeds`), and heads of requests (`heads`).
#![tactic(auto)]

mod admitted;
mod asked;
mod bank_requests;
mod body;
mod contents;
pub mod feeds;
pub mod heads;
mod http_fault;
pub mod laws;
mod meaning;
mod members;
mod operator_requests;
mod order_body;
mod plan;
mod spelling;

pub use crate::admitted::Admitted;
pub use crate::asked::Asked;
pub use crate::body::body_length;
pub use crate::feeds::{BodyFeed, BodyStep, HeadFeed, HeadStep, Truncated};
pub use crate::heads::{BankRoute, Head, HeadFault, OperatorRoute, Parameters, Route};
pub use crate::http_fault::HttpFault;
pub use crate::meaning::read_asked;
pub use crate::plan::Plan;
