//! The arguments of the program, as the command line names them, and the request that they make (`requests`).
#![tactic(auto)]

ghost use Rattle.std.specs.Prelude.{◌++◌, IfOk, codes};
ghost use Rattle.clap.specs.Words.{App, Shape, found_of, rows_of, subcommand_rows_of, with_subcommand};
ghost use Rattle.clap.specs.declared.parser.matches.ArgMatches.{ArgMatches as Found};
ghost use Rattle.rtgs_cli_arguments.specs.Invocation.{AreWordsOfRun, Invokes, IsChosen, IsCommand, IsFlag};
ghost use Rattle.rtgs_cli_arguments.specs.Invocation.{AreWordsOfReading, IsWord};
ghost use Rattle.rtgs_cli_arguments.specs.CommandLine as line;

use crate::subcommand::book_command;
use crate::version::VERSION;
use clap::{ArgMatches, Command, Error};
use std::alloc::{AllocError, Global};

mod accounts;
mod dated_readings;
mod days;
mod invocation;
mod orders;
mod readings;
mod refusals;
mod requests;
mod serving;
mod subcommand;
mod version;

pub use crate::invocation::Invocation;
pub use crate::requests::{
    CommandWords, JudgedRequest, ReadingWords, Request, Words, judge_request,
};

/// The subcommand that makes a book: its file alone.
fn init_command<'a>(alloc: Global) -> Result<Command<'a>, AllocError>
    ensures { IfOk result (line.IsSubcommand line.init) }
{
    book_command(alloc, "init", "Makes a new book, without participants")
}

/// The subcommand that brings a book to the newest version: its file alone.
fn migrate_command<'a>(alloc: Global) -> Result<Command<'a>, AllocError>
    ensures { IfOk result (line.IsSubcommand line.migrate) }
{
    book_command(
        alloc,
        "migrate",
        "Brings the tables of a book to the newest version",
    )
}

/// A command with one more subcommand. It takes results: so its callers do without `?`, each of which is one more exit
/// to prove.
fn joined<'a>(
    command: Result<Command<'a>, AllocError>,
    subcommand: Result<Command<'a>, AllocError>,
) -> Result<Command<'a>, AllocError>
    ensures { (above : App) (below : Shape) → IfOk command.entry (line.IsLine above)
        → IfOk subcommand.entry (line.IsSubcommand below) → IfOk result (line.IsLine (with_subcommand above below)) }
{
    match command {
        Ok(command) => match subcommand {
            Ok(subcommand) => command.subcommand(subcommand),
            Err(error) => Err(error),
        },
        Err(error) => Err(error),
    }
}

/// The command line of the desk, without its subcommands.
fn bare_command<'a>(alloc: Global) -> Result<Command<'a>, AllocError>
    ensures { IfOk result (line.IsSubcommand line.program) }
{
    Command::new(alloc, "desk")
        .about("The settlement desk of a central bank")
        .version(VERSION)
        .no_binary_name(true)
        .subcommand_required(true)
        .bin_name("desk")
}

/// The command line of the desk, with the subcommands of participants.
fn with_participants<'a>(alloc: Global) -> Result<Command<'a>, AllocError>
    ensures { IfOk result (line.IsLine (line.desk_with line.of_participants)) }
{
    let desk = joined(bare_command(alloc), init_command(alloc));
    let desk = joined(desk, migrate_command(alloc));
    let desk = joined(desk, accounts::add_command(alloc));
    let desk = joined(desk, accounts::credit_command(alloc));
    joined(desk, accounts::post_command(alloc))
}

/// The command line of the desk, with the subcommands of a business day too.
fn with_days<'a>(alloc: Global) -> Result<Command<'a>, AllocError>
    ensures { IfOk result (line.IsLine (line.desk_with (line.of_participants ++ line.of_days))) }
{
    let desk = joined(with_participants(alloc), days::open_command(alloc));
    let desk = joined(desk, orders::import_command(alloc));
    let desk = joined(desk, orders::withdraw_command(alloc));
    let desk = joined(desk, days::resolve_command(alloc));
    let desk = joined(desk, days::cut_off_command(alloc));
    joined(desk, days::close_command(alloc))
}

/// The command line of the desk, with the readings that name no date too.
fn with_readings<'a>(alloc: Global) -> Result<Command<'a>, AllocError>
    ensures { IfOk result (line.IsLine (line.desk_with (line.of_participants ++ line.of_days ++ line.of_readings))) }
{
    let desk = joined(with_days(alloc), readings::status_command(alloc));
    let desk = joined(desk, readings::account_command(alloc));
    let desk = joined(desk, readings::accounts_command(alloc));
    let desk = joined(desk, readings::queue_command(alloc));
    let desk = joined(desk, readings::queues_command(alloc));
    let desk = joined(desk, readings::waiting_command(alloc));
    let desk = joined(desk, readings::held_command(alloc));
    joined(desk, readings::order_command(alloc))
}

/// The command line of the desk, with all its subcommands.
fn desk_command<'a>(alloc: Global) -> Result<Command<'a>, AllocError>
    ensures { IfOk result (line.IsLine line.desk) }
{
    let desk = joined(
        with_readings(alloc),
        dated_readings::statement_command(alloc),
    );
    let desk = joined(desk, dated_readings::report_command(alloc));
    let desk = joined(desk, dated_readings::orders_command(alloc));
    let desk = joined(desk, dated_readings::marks_command(alloc));
    let desk = joined(desk, serving::serve_command(alloc));
    joined(desk, refusals::explain_command(alloc))
}

/// The word that was given for an argument. One that is missing reads as no characters, which no form takes.
fn word<'a>(matches: &ArgMatches<'a>, id: &str) -> &'a str
    ensures { IsWord (rows_of (found_of matches.now)) id.now result }
{
    matches.get_str(id).unwrap_or("")
}

/// Whether a flag was given.
fn flag(matches: &ArgMatches<'_>, id: &str) -> bool
    ensures { IsFlag (rows_of (found_of matches.now)) id.now result }
{
    matches.get_flag(id)
}

/// The book's file, as it was given.
fn file_word<'a>(matches: &ArgMatches<'a>) -> &'a str
    ensures { IsWord (rows_of (found_of matches.now)) (codes "file") result }
{
    word(matches, "file")
}

fn command_words<'a>(name: &str, given: &ArgMatches<'a>) -> Option<CommandWords<'a>>
    ensures { IsChosen (IsCommand name.now (rows_of (found_of given.now))) result }
{
    match name {
        "add" => Some(accounts::add_words(given)),
        "credit" => Some(accounts::credit_words(given)),
        "post" => Some(accounts::post_words(given)),
        "withdraw" => Some(orders::withdraw_words(given)),
        "open" => Some(days::open_words(given)),
        "resolve" => Some(CommandWords::Resolve),
        "cutoff" => Some(days::cut_off_words(given)),
        "close" => Some(days::close_words(given)),
        _ => None,
    }
}

fn reading_words<'a>(name: &str, given: &ArgMatches<'a>) -> Option<ReadingWords<'a>>
    ensures { IsChosen (AreWordsOfReading name.now (rows_of (found_of given.now))) result }
{
    match name {
        "status" => Some(ReadingWords::Status),
        "account" => Some(readings::account_words(given)),
        "accounts" => Some(ReadingWords::Accounts),
        "queue" => Some(readings::queue_words(given)),
        "queues" => Some(ReadingWords::Queues),
        "waiting" => Some(readings::waiting_words(given)),
        "held" => Some(readings::held_words(given)),
        "order" => Some(readings::order_words(given)),
        "statement" => Some(dated_readings::statement_words(given)),
        "report" => Some(dated_readings::report_words(given)),
        "orders" => Some(dated_readings::orders_words(given)),
        "marks" => Some(dated_readings::marks_words(given)),
        _ => None,
    }
}

/// The words of a run.
fn words_of<'a>(name: &str, given: &ArgMatches<'a>) -> Option<Words<'a>>
    ensures { IsChosen (AreWordsOfRun name.now (rows_of (found_of given.now))) result }
{
    let file = file_word(given);
    match name {
        "init" => Some(Request::Make { file }),
        "migrate" => Some(Request::Migrate { file }),
        "import" => Some(orders::import_words(given)),
        "serve" => serving::serve_words(given),
        _ => match reading_words(name, given) {
            Some(reading) => Some(Request::Read { file, reading }),
            None => Some(Request::Submit {
                file,
                command: command_words(name, given)?,
            }),
        },
    }
}

/// What the matches ask for. The number of no refusal is a fault of the command line.
fn invocation_of<'a>(
    alloc: Global,
    matches: &ArgMatches<'a>,
) -> Result<Option<Invocation<'a>>, Error>
    ensures { IfOk result (Invokes (subcommand_rows_of matches.now)) }
{
    let Some((name, given)) = matches.subcommand() else {
        return Ok(None);
    };
    if name == "explain" {
        let which = refusals::named_refusal(alloc, given)?;
        return Ok(Some(Invocation::Refusals(which)));
    }
    match words_of(name, given) {
        Some(words) => Ok(Some(Invocation::Run(words))),
        None => Ok(None),
    }
}

/// What the words ask for, or the fault or the help of the command line.
pub fn read_words<'a>(alloc: Global, words: &'a [&'a str]) -> Result<Option<Invocation<'a>>, Error>
    ensures { IfOk result (λ asked. (found : Found) × line.MeetsOne found × Invokes (subcommand_rows_of found)
        asked) }
{
    let matches = desk_command(alloc)?.try_get_matches_from(words)?;
    invocation_of(alloc, &matches)
}
