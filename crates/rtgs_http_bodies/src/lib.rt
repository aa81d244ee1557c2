//! What replies tell: the desk's answers and refusals, its readings, the result file of a batch, statements and
//! reports. And how a reply is made whole (`replies`), and the texts of a desk's book (`desks`).
#![tactic(auto)]

mod answered;
mod batch;
pub mod desks;
pub mod laws;
mod members;
mod order;
mod queue;
mod refused;
mod replies;
mod text;

pub use crate::answered::answer_reply;
pub use crate::batch::batch_reply;
pub use crate::desks::{
    account_reply, account_text, accounts_reply, accounts_text, held_reply, held_text, marks_text,
    orders_text, queues_reply, queues_text, report_text, statement_text, status_reply, status_text,
    text_of, waiting_reply, waiting_text, write_marks, write_orders, write_report, write_statement,
};
pub use crate::order::{order_reply, order_text};
pub use crate::queue::{queue_reply, queue_text};
pub use crate::refused::{batch_fault_reply, kind_reply, refusal_reply};
pub use crate::replies::{ContentType, Reply};
pub use crate::text::{csv_reply, text_reply};
