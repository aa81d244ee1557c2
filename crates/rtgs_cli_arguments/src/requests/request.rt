//! A request to a run.

use crate::requests::command_words::CommandWords;
use crate::requests::reading_words::ReadingWords;
use rtgs_book::{Command, Reading};
use rtgs_money::{Code, KeyDigest};

/// What a run is to do with the book in a file. `C` is what stands for a command, `R` for a reading, `P` for a
/// participant, and `K` for the operator's key.
#[derive(Clone, Copy, Debug)]
pub enum Request<'a, C, R, P, K> {
    /// To make it.
    Make {
        file: &'a str,
    },
    /// To bring its tables to the newest version.
    Migrate {
        file: &'a str,
    },
    /// To give its desk a command.
    Submit {
        file: &'a str,
        command: C,
    },
    /// To submit a participant's file of orders.
    Import {
        file: &'a str,
        sender: P,
        orders: &'a str,
    },
    /// To show what its desk tells.
    Read {
        file: &'a str,
        reading: R,
    },
    /// To serve this many connections to its desk on a port, one after another.
    Serve {
        file: &'a str,
        port: u16,
        count: u32,
        operator: K,
    },
}

/// A request in words that have not been judged.
pub type Words<'a> = Request<'a, CommandWords<'a>, ReadingWords<'a>, &'a str, &'a str>;

/// A request, each word of which was in its form. Of the operator's key it holds the digest.
pub type JudgedRequest<'a> = Request<'a, Command, Reading, Code, KeyDigest>;
