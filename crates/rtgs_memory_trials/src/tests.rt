//! Calls whose requests for memory are refused in turn, and what they answer.
mod in_memory;
mod over_tables;
mod scarce;
