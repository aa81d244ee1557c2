//! The command line, each line that it prints and each status that it ends with.
#![tactic(auto)]

#[cfg(test)]
mod tests;
