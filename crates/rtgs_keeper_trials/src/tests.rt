//! Two desks that are given the same commands, ten thousand of them from a fixed random generator and those at the
//! bounds of all forms; and disks in memory that fail, keepers that fail, and what is found then.
mod answers;
mod automatic_days;
mod automatic_faults;
mod boundaries;
mod business;
mod counted;
mod creation;
mod disks;
mod failing_automatic;
mod failing_batch;
mod failing_desk;
mod failing_due;
mod failing_texts;
mod faults;
mod found;
mod held_faults;
mod later_days;
mod look_ups;
mod memory;
mod migration;
mod runs;
mod seen;
mod store;
mod stored_desk;
mod trial;
mod two_keepers;
