//! Records found by name, and the next records of a date.
mod asking;
mod both;
mod looking;
mod passing;
mod steps;
