//! Subcommands, and what they take.
ghost use Rattle.std.specs.Prelude.{◌≡◌, IfOk, [], codes, false, true};
ghost use Rattle.clap.specs.Simple.{new_shape};
ghost use Rattle.clap.specs.Words.{Rule, Shape, rule_of};
ghost use Rattle.rtgs_cli_arguments.specs.CommandLine as line;

use clap::{Arg, ArgAction, Command};
use std::alloc::{AllocError, Global};

/// An argument that has to be given, with one value.
pub(crate) fn needed_argument<'a>(
    alloc: Global,
    id: &'a str,
    shown: &'a str,
    help: &'a str,
) -> Arg<'a>
    ensures { line.IsArgument (line.needed id.now) result }
{
    Arg::new(alloc, id)
        .value_name(shown)
        .help(help)
        .required(true)
        .action(ArgAction::Set)
}

/// A word that its own form judges, also where it begins with a dash.
fn word_argument<'a>(alloc: Global, id: &'a str, shown: &'a str, help: &'a str) -> Arg<'a>
    ensures rule { line.IsArgument (line.word id.now) result }
    ensures dash { result.allow_hyphen_values ≡ true }
    ensures plain { rule_of (record result { allow_hyphen_values = false }) ≡ line.needed id.now }
{
    needed_argument(alloc, id, shown, help).allow_hyphen_values(true)
}

/// A flag, which is known by its name.
pub(crate) fn flag_argument<'a>(alloc: Global, name: &'a str, help: &'a str) -> Arg<'a>
    ensures { line.IsArgument (line.flag name.now) result }
{
    Arg::new(alloc, name)
        .long(name)
        .help(help)
        .action(ArgAction::SetTrue)
}

/// A subcommand that takes nothing. It comes as a result, which the functions that add an argument take: so their
/// callers do without `?`, each of which is one more exit to prove.
pub(crate) fn bare_subcommand<'a>(
    alloc: Global,
    name: &'a str,
    about: &'a str,
) -> Result<Command<'a>, AllocError>
    ensures { IfOk result (line.IsSubcommand (new_shape name.now)) }
{
    Ok(Command::new(alloc, name).about(about))
}

/// The subcommand with one more argument, the last.
pub(crate) fn with_argument<'a>(
    subcommand: Result<Command<'a>, AllocError>,
    argument: Arg<'a>,
) -> Result<Command<'a>, AllocError>
    ensures { (shape : Shape) (rule : Rule) → IfOk subcommand.entry (line.IsSubcommand shape)
        → line.IsArgument rule argument.entry → IfOk result (line.IsSubcommand (line.with_last shape rule)) }
{
    match subcommand {
        Ok(subcommand) => subcommand.arg(argument),
        Err(error) => Err(error),
    }
}

/// A subcommand that takes the book's file first.
pub(crate) fn book_command<'a>(
    alloc: Global,
    name: &'a str,
    about: &'a str,
) -> Result<Command<'a>, AllocError>
    ensures { IfOk result (line.IsSubcommand (line.subcommand name.now [])) }
{
    let file = needed_argument(alloc, "file", "FILE", "The file of the book");
    with_argument(bare_subcommand(alloc, name, about), file)
}

/// The subcommand with one more word, which its own form judges.
pub(crate) fn with_word<'a>(
    alloc: Global,
    subcommand: Result<Command<'a>, AllocError>,
    id: &'a str,
    shown: &'a str,
    help: &'a str,
) -> Result<Command<'a>, AllocError>
    ensures { (shape : Shape) → IfOk subcommand.entry (line.IsSubcommand shape)
        → IfOk result (line.IsSubcommand (line.with_last shape (line.word id.now))) }
{
    with_argument(subcommand, word_argument(alloc, id, shown, help))
}

/// The subcommand with the code of a participant that is there.
pub(crate) fn with_code<'a>(
    alloc: Global,
    subcommand: Result<Command<'a>, AllocError>,
) -> Result<Command<'a>, AllocError>
    ensures { (shape : Shape) → IfOk subcommand.entry (line.IsSubcommand shape)
        → IfOk result (line.IsSubcommand (line.with_last shape (line.word (codes "code")))) }
{
    with_word(alloc, subcommand, "code", "CODE", "The participant")
}

/// The subcommand with the reference of an order that is there.
pub(crate) fn with_reference<'a>(
    alloc: Global,
    subcommand: Result<Command<'a>, AllocError>,
) -> Result<Command<'a>, AllocError>
    ensures { (shape : Shape) → IfOk subcommand.entry (line.IsSubcommand shape)
        → IfOk result (line.IsSubcommand (line.with_last shape (line.word (codes "reference")))) }
{
    let help = "The reference of the order";
    with_word(alloc, subcommand, "reference", "REFERENCE", help)
}

/// The subcommand with a business date.
pub(crate) fn with_date<'a>(
    alloc: Global,
    subcommand: Result<Command<'a>, AllocError>,
) -> Result<Command<'a>, AllocError>
    ensures { (shape : Shape) → IfOk subcommand.entry (line.IsSubcommand shape)
        → IfOk result (line.IsSubcommand (line.with_last shape (line.word (codes "date")))) }
{
    let help = "The business date, as YYYY-MM-DD";
    with_word(alloc, subcommand, "date", "DATE", help)
}
