//! The resolver's choices by index as the book's choices by code: laws by which a ledger settles
//! what `rtgs_gridlock` chooses.
#![tactic(auto)]

pub mod laws;
