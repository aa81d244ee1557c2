//! Amounts of money, names, keys and business dates. Each type keeps its range, and what is read is read from exactly
//! the text that it displays.
#![tactic(auto)]

mod amount;
mod cents;
mod code;
mod credit;
mod date;
mod decimal;
mod key;
mod key_digest;
pub mod laws;
mod lexical;
mod name;
mod posting_amount;
mod reference;
mod text;
mod units;

pub use crate::amount::Amount;
pub use crate::cents::Cents;
pub use crate::code::Code;
pub use crate::credit::Credit;
pub use crate::date::BusinessDate;
pub use crate::key::Key;
pub use crate::key_digest::KeyDigest;
pub use crate::lexical::Lexical;
pub use crate::name::Name;
pub use crate::posting_amount::PostingAmount;
pub use crate::reference::Reference;
pub use crate::text::Text;
pub use crate::units::Units;
