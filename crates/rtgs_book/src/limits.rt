//! How large a book may be. The test of soundness and the ledger cite these limits, and so do the definitions.
use rtgs_money::Credit;

/// The greatest number of participants.
pub const MOST_PARTICIPANTS: usize = 100;

/// The greatest number of orders of one sender that are queued or held.
pub const LONGEST_QUEUE: usize = 500;

/// The greatest number of queued orders in all.
pub const MOST_QUEUED: usize = MOST_PARTICIPANTS * LONGEST_QUEUE;

/// The greatest number of an order, a posting or a mark.
pub const LARGEST_NUMBER: usize = 999_999_999;

/// The most that all balances together may be, in cents.
pub const LARGEST_TOTAL: u64 = 1_000_000_000_000_000;

/// The most that a balance may be in cents, either way: all others may be as far below zero as a credit limit allows.
pub const LARGEST_BALANCE: u64 = LARGEST_TOTAL + (MOST_PARTICIPANTS as u64 - 1) * Credit::MAX;
