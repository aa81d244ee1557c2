//! What is said of refusals, as the command line asks for it.
ghost use Rattle.std.specs.Prelude.{IfOk, codes};
ghost use Rattle.clap.specs.Words.{found_of, rows_of};
ghost use Rattle.rtgs_cli_arguments.specs.Invocation.{IsChosen, IsNumber, NamesRefusal};
ghost use Rattle.rtgs_cli_arguments.specs.CommandLine as line;

use crate::subcommand::{bare_subcommand, with_argument};
use clap::error::ErrorKind;
use clap::{Arg, ArgAction, ArgMatches, Command, Error, value_parser};
use rtgs_refusal_texts::kind_numbered;
use rtgs_refusals::RefusalKind;
use std::alloc::{AllocError, Global};

/// The number of a refusal, which may be left out.
fn number_argument<'a>(alloc: Global) -> Arg<'a>
    ensures { line.IsArgument line.refusal result }
{
    Arg::new(alloc, "number")
        .value_name("NUMBER")
        .help("The number of the refusal; without it, each is explained")
        .action(ArgAction::Set)
        .value_parser(value_parser!(u8))
}

/// The subcommand that says what refusals mean: a number, which may be left out.
pub fn explain_command<'a>(alloc: Global) -> Result<Command<'a>, AllocError>
    ensures { IfOk result (line.IsSubcommand line.explain) }
{
    let about = "Says what a refusal means, what it comes from and what to do";
    let explain = bare_subcommand(alloc, "explain", about);
    with_argument(explain, number_argument(alloc))
}

/// The number that was given.
fn refusal_number(given: &ArgMatches<'_>) -> Option<u8>
    ensures { IsChosen (IsNumber 8 (rows_of (found_of given.now)) (codes "number")) result }
{
    given.get_one::<u8>("number")
}

/// The fault of a command line with a number that no refusal has.
fn unknown_number(alloc: Global) -> Result<Error, AllocError> {
    let mut command = explain_command(alloc)?.bin_name("desk explain")?;
    command.error(ErrorKind::ValueValidation, "no refusal has this number")
}

/// The refusal whose number was given, and none where no number was. A number that no refusal has is a fault.
pub fn named_refusal(alloc: Global, given: &ArgMatches<'_>) -> Result<Option<RefusalKind>, Error>
    ensures { IfOk result (NamesRefusal (rows_of (found_of given.now))) }
{
    match refusal_number(given) {
        None => Ok(None),
        Some(number) => match kind_numbered(number) {
            Some(kind) => Ok(Some(kind)),
            None => Err(unknown_number(alloc)?),
        },
    }
}
