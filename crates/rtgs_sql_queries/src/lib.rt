//! The queries of the tables of a desk: what each shows, and the record that each row tells.
#![tactic(auto)]

pub mod alive;
mod answer;
pub mod asked;
pub mod laws;
mod rows;
pub mod table_row;
pub mod whole_table;
