//! Definitions and lemmas about lists, truth values and sums, which say nothing of books. Each stands here once, and
//! every crate may cite it.
#![tactic(auto)]
