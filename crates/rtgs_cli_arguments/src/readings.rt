//! What the desk shows without a date, as the command line names it.
ghost use Rattle.std.specs.Prelude.{IfOk, ◌∷◌, [], codes};
ghost use Rattle.clap.specs.Words.{found_of, rows_of};
ghost use Rattle.rtgs_cli_arguments.specs.Invocation.{AreWordsOfReading};
ghost use Rattle.rtgs_cli_arguments.specs.CommandLine as line;

use crate::requests::ReadingWords;
use crate::subcommand::{book_command, with_code, with_reference};
use crate::word;
use clap::{ArgMatches, Command};
use std::alloc::{AllocError, Global};

/// A subcommand of a participant.
fn participant_command<'a>(
    alloc: Global,
    name: &'a str,
    about: &'a str,
) -> Result<Command<'a>, AllocError>
    ensures { IfOk result (line.IsSubcommand (line.subcommand name.now (line.word (codes "code") ∷ []))) }
{
    with_code(alloc, book_command(alloc, name, about))
}

/// The subcommand that shows how the desk stands: a book's file alone.
pub fn status_command<'a>(alloc: Global) -> Result<Command<'a>, AllocError>
    ensures { IfOk result (line.IsSubcommand line.status) }
{
    let about = "Shows the day, what waits in all and the numbers that come next, as JSON";
    book_command(alloc, "status", about)
}

/// The subcommand that shows an account: a book's file and a participant.
pub fn account_command<'a>(alloc: Global) -> Result<Command<'a>, AllocError>
    ensures { IfOk result (line.IsSubcommand line.account) }
{
    participant_command(alloc, "account", "Shows a participant's account, as JSON")
}

/// The participant of an account, as it was given.
pub fn account_words<'a>(given: &ArgMatches<'a>) -> ReadingWords<'a>
    ensures { AreWordsOfReading (codes "account") (rows_of (found_of given.now)) result }
{
    ReadingWords::Account {
        code: word(given, "code"),
    }
}

/// The subcommand that shows all accounts: a book's file alone.
pub fn accounts_command<'a>(alloc: Global) -> Result<Command<'a>, AllocError>
    ensures { IfOk result (line.IsSubcommand line.accounts) }
{
    book_command(
        alloc,
        "accounts",
        "Shows the accounts of all participants, as JSON",
    )
}

/// The subcommand that shows a queue: a book's file and a participant.
pub fn queue_command<'a>(alloc: Global) -> Result<Command<'a>, AllocError>
    ensures { IfOk result (line.IsSubcommand line.queue) }
{
    participant_command(
        alloc,
        "queue",
        "Shows a participant's queued orders, as JSON",
    )
}

/// The participant of a queue, as it was given.
pub fn queue_words<'a>(given: &ArgMatches<'a>) -> ReadingWords<'a>
    ensures { AreWordsOfReading (codes "queue") (rows_of (found_of given.now)) result }
{
    ReadingWords::Queue {
        code: word(given, "code"),
    }
}

/// The subcommand that shows all queues: a book's file alone.
pub fn queues_command<'a>(alloc: Global) -> Result<Command<'a>, AllocError>
    ensures { IfOk result (line.IsSubcommand line.queues) }
{
    let about = "Shows all queues and what a resolution would settle of each, as JSON";
    book_command(alloc, "queues", about)
}

/// The subcommand that shows what the first order of a queue waits for: a book's file and a participant.
pub fn waiting_command<'a>(alloc: Global) -> Result<Command<'a>, AllocError>
    ensures { IfOk result (line.IsSubcommand line.waiting) }
{
    let about = "Shows what a participant's first queued order lacks, as JSON";
    participant_command(alloc, "waiting", about)
}

/// The participant whose first order waits, as it was given.
pub fn waiting_words<'a>(given: &ArgMatches<'a>) -> ReadingWords<'a>
    ensures { AreWordsOfReading (codes "waiting") (rows_of (found_of given.now)) result }
{
    ReadingWords::Waiting {
        code: word(given, "code"),
    }
}

/// The subcommand that shows the orders that are held until their due dates: a book's file and a participant.
pub fn held_command<'a>(alloc: Global) -> Result<Command<'a>, AllocError>
    ensures { IfOk result (line.IsSubcommand line.held) }
{
    let about = "Shows a participant's orders that are held until their due dates, as JSON";
    participant_command(alloc, "held", about)
}

/// The participant whose orders are held, as it was given.
pub fn held_words<'a>(given: &ArgMatches<'a>) -> ReadingWords<'a>
    ensures { AreWordsOfReading (codes "held") (rows_of (found_of given.now)) result }
{
    ReadingWords::Held {
        code: word(given, "code"),
    }
}

/// The subcommand that shows an order: a book's file, its sender and its reference.
pub fn order_command<'a>(alloc: Global) -> Result<Command<'a>, AllocError>
    ensures { IfOk result (line.IsSubcommand line.order) }
{
    let order = participant_command(alloc, "order", "Shows an order of a participant, as JSON");
    with_reference(alloc, order)
}

/// The sender and the reference of an order, as they were given.
pub fn order_words<'a>(given: &ArgMatches<'a>) -> ReadingWords<'a>
    ensures { AreWordsOfReading (codes "order") (rows_of (found_of given.now)) result }
{
    ReadingWords::Order {
        code: word(given, "code"),
        reference: word(given, "reference"),
    }
}
