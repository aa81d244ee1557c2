//! Values, books, statements and reports, as a caller reads, compares, tests and prints them; and the resolver.
#![tactic(auto)]

#[cfg(test)]
mod tests;
