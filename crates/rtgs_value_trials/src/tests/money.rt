//! Values from outside, and proved uses of the clauses.
mod amounts;
mod dates;
mod forms;
mod keys;
mod texts;
mod uses;
