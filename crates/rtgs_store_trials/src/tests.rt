//! Ledgers, tables, look-ups, desks, files of orders and whole days, over keepers in memory and in a file.
mod batches;
mod days;
mod desk;
mod ledger;
mod look_ups;
mod order_files;
mod scripts;
mod setting;
mod tables;
