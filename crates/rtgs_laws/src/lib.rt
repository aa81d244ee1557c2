//! What commands leave: a command and a list of commands keep a book sound, make no money and leave what is final.
//! And what a command or a batch does that comes twice, also after a desk was opened again (`repeats`).
#![tactic(auto)]

pub mod laws;
pub mod repeats;
