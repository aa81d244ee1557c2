//! The course of a business day, as the command line names it.
ghost use Rattle.std.specs.Prelude.{IfOk, ◌∷◌, [], codes};
ghost use Rattle.clap.specs.Words.{found_of, rows_of};
ghost use Rattle.rtgs_cli_arguments.specs.Invocation.{IsCommand};
ghost use Rattle.rtgs_cli_arguments.specs.CommandLine as line;

use crate::requests::CommandWords;
use crate::subcommand::{book_command, flag_argument, with_argument, with_date};
use crate::{flag, word};
use clap::{Arg, ArgMatches, Command};
use std::alloc::{AllocError, Global};

/// A subcommand of a date.
fn dated_command<'a>(
    alloc: Global,
    name: &'a str,
    about: &'a str,
) -> Result<Command<'a>, AllocError>
    ensures { IfOk result (line.IsSubcommand (line.subcommand name.now (line.word (codes "date") ∷ []))) }
{
    with_date(alloc, book_command(alloc, name, about))
}

/// The subcommand that opens a business day: a book's file, a date and the flag of an automatic day.
pub fn open_command<'a>(alloc: Global) -> Result<Command<'a>, AllocError>
    ensures { IfOk result (line.IsSubcommand line.open_day) }
{
    let open = dated_command(alloc, "open", "Opens a business day");
    with_argument(open, automatic_argument(alloc))
}

/// The flag of a day in which a resolution follows each command that may free orders.
fn automatic_argument<'a>(alloc: Global) -> Arg<'a>
    ensures { line.IsArgument line.automatic result }
{
    let help = "Resolves gridlock after each command that may free orders";
    flag_argument(alloc, "automatic", help)
}

/// The date of the day to open, as it was given, and whether it is automatic.
pub fn open_words<'a>(given: &ArgMatches<'a>) -> CommandWords<'a>
    ensures { IsCommand (codes "open") (rows_of (found_of given.now)) result }
{
    CommandWords::Open {
        date: word(given, "date"),
        automatic: flag(given, "automatic"),
    }
}

/// The subcommand that settles queued orders together: a book's file alone.
pub fn resolve_command<'a>(alloc: Global) -> Result<Command<'a>, AllocError>
    ensures { IfOk result (line.IsSubcommand line.resolve) }
{
    let about = "Settles as many queued orders together as there is cover for";
    book_command(alloc, "resolve", about)
}

/// The subcommand that ends the taking of orders: a book's file and a date.
pub fn cut_off_command<'a>(alloc: Global) -> Result<Command<'a>, AllocError>
    ensures { IfOk result (line.IsSubcommand line.cut_off) }
{
    dated_command(alloc, "cutoff", "Ends the taking of orders")
}

/// The date of the day that takes no more orders, as it was given.
pub fn cut_off_words<'a>(given: &ArgMatches<'a>) -> CommandWords<'a>
    ensures { IsCommand (codes "cutoff") (rows_of (found_of given.now)) result }
{
    CommandWords::CutOff {
        date: word(given, "date"),
    }
}

/// The subcommand that closes a business day: a book's file and a date.
pub fn close_command<'a>(alloc: Global) -> Result<Command<'a>, AllocError>
    ensures { IfOk result (line.IsSubcommand line.close_day) }
{
    dated_command(alloc, "close", "Closes the day and rejects what is queued")
}

/// The date of the day to close, as it was given.
pub fn close_words<'a>(given: &ArgMatches<'a>) -> CommandWords<'a>
    ensures { IsCommand (codes "close") (rows_of (found_of given.now)) result }
{
    CommandWords::Close {
        date: word(given, "date"),
    }
}
