//! The server, as the command line names it.
ghost use Rattle.std.specs.Prelude.{◌≡◌, IfOk, codes, true, false};
ghost use Rattle.clap.specs.Words.{found_of, rows_of, rule_of};
ghost use Rattle.rtgs_cli_arguments.specs.Invocation.{AreWordsOfRun, IsChosen, IsNumber};
ghost use Rattle.rtgs_cli_arguments.specs.CommandLine as line;

use crate::requests::{Request, Words};
use crate::subcommand::{book_command, needed_argument, with_argument};
use crate::{file_word, word};
use clap::{Arg, ArgMatches, Command, value_parser};
use std::alloc::{AllocError, Global};

/// An option that a run needs.
fn needed_option<'a>(alloc: Global, name: &'a str, shown: &'a str, help: &'a str) -> Arg<'a>
    ensures { line.IsArgument (line.named (line.needed name.now)) result }
{
    needed_argument(alloc, name, shown, help).long(name)
}

/// The port, 1 to 65535.
fn port_option<'a>(alloc: Global) -> Arg<'a>
    ensures { line.IsArgument line.port result }
{
    needed_option(alloc, "port", "P", "The port on 127.0.0.1, 1 to 65535").value_parser(
        value_parser!(u16).range(1..=65535),
    )
}

/// How many connections are served, 1 to 1000000.
fn count_option<'a>(alloc: Global) -> Arg<'a>
    ensures { line.IsArgument line.count result }
{
    needed_option(
        alloc,
        "count",
        "N",
        "How many connections are served, 1 to 1000000",
    )
    .value_parser(value_parser!(u32).range(1..=1000000))
}

/// The key of the operator, which its own form judges.
fn key_option<'a>(alloc: Global) -> Arg<'a>
    ensures rule { line.IsArgument (line.named (line.word (codes "operator-key"))) result }
    ensures dash { result.allow_hyphen_values ≡ true }
    ensures plain { rule_of (record result { allow_hyphen_values = false })
        ≡ line.named (line.needed (codes "operator-key")) }
{
    needed_option(
        alloc,
        "operator-key",
        "KEY",
        "The operator's key, 32 characters of 0-9 and a-f",
    )
    .allow_hyphen_values(true)
}

/// The subcommand that serves connections: a book's file, a port, their number and the operator's key.
pub fn serve_command<'a>(alloc: Global) -> Result<Command<'a>, AllocError>
    ensures { IfOk result (line.IsSubcommand line.serve) }
{
    let about = "Serves connections over HTTP, one after the other";
    let serve = book_command(alloc, "serve", about);
    let serve = with_argument(serve, port_option(alloc));
    let serve = with_argument(serve, count_option(alloc));
    with_argument(serve, key_option(alloc))
}

fn port_number(given: &ArgMatches<'_>) -> Option<u16>
    ensures { IsChosen (IsNumber 16 (rows_of (found_of given.now)) (codes "port")) result }
{
    given.get_one::<u16>("port")
}

/// The number of connections that was given.
fn count_number(given: &ArgMatches<'_>) -> Option<u32>
    ensures { IsChosen (IsNumber 32 (rows_of (found_of given.now)) (codes "count")) result }
{
    given.get_one::<u32>("count")
}

/// The book's file, the port, the number of connections and the operator's key, as they were given.
pub fn serve_words<'a>(given: &ArgMatches<'a>) -> Option<Words<'a>>
    ensures { IsChosen (AreWordsOfRun (codes "serve") (rows_of (found_of given.now))) result }
{
    Some(Request::Serve {
        file: file_word(given),
        port: port_number(given)?,
        count: count_number(given)?,
        operator: word(given, "operator-key"),
    })
}
