//! Calls to desks in memory, and calls to none.
mod batches;
mod commands;
mod feeds;
mod freeing_none;
mod lost;
mod nothing;
mod openings;
mod readings;
mod serving;
