//! Each request for memory refused in turn, of calls to desks in memory and over tables.
#![tactic(auto)]

#[cfg(test)]
mod tests;
