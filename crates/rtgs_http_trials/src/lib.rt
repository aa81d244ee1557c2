//! Requests of all routes, hostile ones, the same request in pieces, and replies to the byte.
#![tactic(auto)]

#[cfg(test)]
mod tests;
