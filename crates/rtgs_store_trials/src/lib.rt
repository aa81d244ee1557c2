//! What keeps a book, what rests on it, and both over a file and over memory.
#![tactic(auto)]

#[cfg(test)]
mod tests;
