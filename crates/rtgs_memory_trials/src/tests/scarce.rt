//! Calls whose requests for memory are refused in turn: what is called, how memory is held back from it, and which
//! answers there may be.
mod asking;
mod call;
mod held;
mod judged;
mod limit;
mod opening;
mod page;
mod sending;
mod serving;
pub mod setting;
mod store;
mod submitting;
mod taking_keeper;
mod worked;

pub use asking::{Asks, Question};
pub use call::{Call, Outcome};
pub use held::{Held, had_none, is_none_left};
pub use judged::same;
pub use limit::{for_each_refusal, for_no_more_requests, for_no_request, in_a_process, is_limited};
pub use opening::Opens;
pub use sending::{ORDERS, Sends, orders_desk};
pub use serving::{ANSWER_LOST, OPERATOR, Sent, Serves, request_of, rows_of};
pub use store::{InMemory, Store};
pub use submitting::Submits;
pub use taking_keeper::TakingKeeper;
pub use worked::Worked;
