//! Inputs of which the desk may refuse any, and what it must hold for each: a reply that is one of those that are
//! listed, and no command where it was refused.
mod changed;
mod edits;
mod limits;
mod listed;
mod replies;
mod sent;
mod serving;
