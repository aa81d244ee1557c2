//! Files of orders and withdrawals, as the command line names them.
ghost use Rattle.std.specs.Prelude.{IfOk, codes};
ghost use Rattle.clap.specs.Words.{found_of, rows_of};
ghost use Rattle.rtgs_cli_arguments.specs.Invocation.{AreWordsOfRun, IsCommand};
ghost use Rattle.rtgs_cli_arguments.specs.CommandLine as line;

use crate::requests::{CommandWords, Request, Words};
use crate::subcommand::{book_command, with_code, with_reference, with_word};
use crate::{file_word, word};
use clap::{ArgMatches, Command};
use std::alloc::{AllocError, Global};

/// The subcommand that submits a file of orders: a book's file, a participant and the file of orders.
pub fn import_command<'a>(alloc: Global) -> Result<Command<'a>, AllocError>
    ensures { IfOk result (line.IsSubcommand line.import_orders) }
{
    let orders = "The file of orders, as CSV";
    let import = book_command(alloc, "import", "Submits a participant's file of orders");
    with_word(alloc, with_code(alloc, import), "orders", "ORDERS", orders)
}

/// The book's file, the participant and the file of orders, as they were given.
pub fn import_words<'a>(given: &ArgMatches<'a>) -> Words<'a>
    ensures { AreWordsOfRun (codes "import") (rows_of (found_of given.now)) result }
{
    Request::Import {
        file: file_word(given),
        sender: word(given, "code"),
        orders: word(given, "orders"),
    }
}

/// The subcommand that takes back an order that is queued or held: a book's file, its sender and its reference.
pub fn withdraw_command<'a>(alloc: Global) -> Result<Command<'a>, AllocError>
    ensures { IfOk result (line.IsSubcommand line.withdraw) }
{
    let withdraw = book_command(
        alloc,
        "withdraw",
        "Takes back an order that is queued or held",
    );
    with_reference(alloc, with_code(alloc, withdraw))
}

/// The sender and the reference of an order, as they were given.
pub fn withdraw_words<'a>(given: &ArgMatches<'a>) -> CommandWords<'a>
    ensures { IsCommand (codes "withdraw") (rows_of (found_of given.now)) result }
{
    CommandWords::Withdraw {
        code: word(given, "code"),
        reference: word(given, "reference"),
    }
}
