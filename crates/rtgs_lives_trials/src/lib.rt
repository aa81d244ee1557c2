//! Lives of a desk, by the functions whose contracts are the headline.
#![tactic(auto)]

#[cfg(test)]
mod tests;
