//! What is looked up for a command.
use crate::{Order, Posting};

/// What was looked up for a command before it is prepared: the order or the posting that has its reference, where
/// there is one.
#[derive(Clone, Copy, Debug)]
pub struct Found {
    pub order: Option<Order>,
    pub posting: Option<Posting>,
}

impl Found {
    /// For a command that needs no look-up.
    pub const NOTHING: Found = Found {
        order: None,
        posting: None,
    };
}
