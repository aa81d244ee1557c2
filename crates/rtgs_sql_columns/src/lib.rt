//! The values of the columns of a desk's tables, and what a query of one table answers.
#![tactic(auto)]

pub mod columns;
pub mod fields;
pub mod laws;
