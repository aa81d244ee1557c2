//! Texts and values from outside, each call on its happy path, and proved uses of the clauses; and the resolver.
mod book;
mod books;
mod cores;
mod gridlock;
mod limits;
mod money;
mod refusals;
mod script;
mod setting;
mod soundness;
mod statements;
