//! What the desk shows of a date, as the command line names it.
ghost use Rattle.std.specs.Prelude.{IfOk, ◌∷◌, [], codes};
ghost use Rattle.clap.specs.Words.{found_of, rows_of};
ghost use Rattle.rtgs_cli_arguments.specs.Invocation.{AreWordsOfReading};
ghost use Rattle.rtgs_cli_arguments.specs.CommandLine as line;

use crate::requests::ReadingWords;
use crate::subcommand::{book_command, with_code, with_date};
use crate::word;
use clap::{ArgMatches, Command};
use std::alloc::{AllocError, Global};

/// A subcommand of a date.
fn dated_command<'a>(
    alloc: Global,
    name: &'a str,
    about: &'a str,
) -> Result<Command<'a>, AllocError>
    ensures { IfOk result (line.IsSubcommand (line.subcommand name.now (line.word (codes "date") ∷ []))) }
{
    with_date(alloc, book_command(alloc, name, about))
}

/// The subcommand that shows a participant's day: a book's file, a participant and a date.
pub fn statement_command<'a>(alloc: Global) -> Result<Command<'a>, AllocError>
    ensures { IfOk result (line.IsSubcommand line.statement) }
{
    let statement = book_command(alloc, "statement", "Shows a participant's business day");
    with_date(alloc, with_code(alloc, statement))
}

/// The participant and the date of a statement, as they were given.
pub fn statement_words<'a>(given: &ArgMatches<'a>) -> ReadingWords<'a>
    ensures { AreWordsOfReading (codes "statement") (rows_of (found_of given.now)) result }
{
    ReadingWords::Statement {
        code: word(given, "code"),
        date: word(given, "date"),
    }
}

/// The subcommand that shows the day of all participants: a book's file and a date.
pub fn report_command<'a>(alloc: Global) -> Result<Command<'a>, AllocError>
    ensures { IfOk result (line.IsSubcommand line.report) }
{
    dated_command(
        alloc,
        "report",
        "Shows the business day of all participants",
    )
}

/// The date of a report, as it was given.
pub fn report_words<'a>(given: &ArgMatches<'a>) -> ReadingWords<'a>
    ensures { AreWordsOfReading (codes "report") (rows_of (found_of given.now)) result }
{
    ReadingWords::Report {
        date: word(given, "date"),
    }
}

/// The subcommand that shows each order of a date: a book's file and the date.
pub fn orders_command<'a>(alloc: Global) -> Result<Command<'a>, AllocError>
    ensures { IfOk result (line.IsSubcommand line.orders) }
{
    dated_command(alloc, "orders", "Shows each order of a date, as CSV")
}

/// The date whose orders are shown, as it was given.
pub fn orders_words<'a>(given: &ArgMatches<'a>) -> ReadingWords<'a>
    ensures { AreWordsOfReading (codes "orders") (rows_of (found_of given.now)) result }
{
    ReadingWords::Orders {
        date: word(given, "date"),
    }
}

/// The subcommand that shows each mark of a date: a book's file and the date.
pub fn marks_command<'a>(alloc: Global) -> Result<Command<'a>, AllocError>
    ensures { IfOk result (line.IsSubcommand line.marks) }
{
    dated_command(alloc, "marks", "Shows each mark of a date, as CSV")
}

/// The date whose marks are shown, as it was given.
pub fn marks_words<'a>(given: &ArgMatches<'a>) -> ReadingWords<'a>
    ensures { AreWordsOfReading (codes "marks") (rows_of (found_of given.now)) result }
{
    ReadingWords::Marks {
        date: word(given, "date"),
    }
}
