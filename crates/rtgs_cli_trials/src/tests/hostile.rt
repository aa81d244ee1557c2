//! What is answered to hostile requests and files, and that nothing is changed where they are refused.
mod bytes;
mod draw;
pub mod files;
mod met;
mod requests;
