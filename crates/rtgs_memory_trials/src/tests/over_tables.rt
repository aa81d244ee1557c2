//! Calls to desks over tables: what opens, commits and rolls back.
mod batches;
mod commands;
mod commits;
mod creations;
mod migrations;
mod openings;
mod over_sql;
mod readings;
mod serving;
mod stopped_rows;
