//! Participants, their credit and their postings, as the command line names them.
ghost use Rattle.std.specs.Prelude.{IfOk, codes};
ghost use Rattle.clap.specs.Words.{found_of, rows_of};
ghost use Rattle.rtgs_cli_arguments.specs.Invocation.{IsCommand};
ghost use Rattle.rtgs_cli_arguments.specs.CommandLine as line;

use crate::requests::CommandWords;
use crate::subcommand::{book_command, flag_argument, with_argument, with_code, with_word};
use crate::{flag, word};
use clap::{Arg, ArgMatches, Command};
use std::alloc::{AllocError, Global};

/// The subcommand that adds a participant: a book's file, a code, a name and a key.
pub fn add_command<'a>(alloc: Global) -> Result<Command<'a>, AllocError>
    ensures { IfOk result (line.IsSubcommand line.add) }
{
    let code = "3 to 8 capitals and digits, a capital first";
    let name = "1 to 40 printable characters";
    let key = "32 characters of 0-9 and a-f";
    let add = book_command(alloc, "add", "Adds a participant");
    let add = with_word(alloc, add, "code", "CODE", code);
    let add = with_word(alloc, add, "name", "NAME", name);
    with_word(alloc, add, "key", "KEY", key)
}

/// The code, the name and the key of a participant, as they were given.
pub fn add_words<'a>(given: &ArgMatches<'a>) -> CommandWords<'a>
    ensures { IsCommand (codes "add") (rows_of (found_of given.now)) result }
{
    CommandWords::Add {
        code: word(given, "code"),
        name: word(given, "name"),
        key: word(given, "key"),
    }
}

/// The subcommand that sets a credit limit: a book's file, a participant and an amount.
pub fn credit_command<'a>(alloc: Global) -> Result<Command<'a>, AllocError>
    ensures { IfOk result (line.IsSubcommand line.credit) }
{
    let cents = "How far below zero the balance may go, in cents";
    let credit = book_command(alloc, "credit", "Sets the credit limit of a participant");
    with_word(alloc, with_code(alloc, credit), "cents", "CENTS", cents)
}

/// The participant and the credit limit, as they were given.
pub fn credit_words<'a>(given: &ArgMatches<'a>) -> CommandWords<'a>
    ensures { IsCommand (codes "credit") (rows_of (found_of given.now)) result }
{
    CommandWords::Credit {
        code: word(given, "code"),
        cents: word(given, "cents"),
    }
}

/// The subcommand that posts an amount: a book's file, a participant, a reference, the amount and the flag of a debit.
pub fn post_command<'a>(alloc: Global) -> Result<Command<'a>, AllocError>
    ensures { IfOk result (line.IsSubcommand line.post) }
{
    let reference = "1 to 16 capitals, digits and dashes, which name the posting for good";
    let cents = "The amount in cents, without a sign";
    let post = book_command(alloc, "post", "Posts an amount to a participant's account");
    let post = with_code(alloc, post);
    let post = with_word(alloc, post, "reference", "REFERENCE", reference);
    let post = with_word(alloc, post, "cents", "CENTS", cents);
    with_argument(post, debit_argument(alloc))
}

/// The flag of a posting that takes from the account.
fn debit_argument<'a>(alloc: Global) -> Arg<'a>
    ensures { line.IsArgument line.debit result }
{
    flag_argument(alloc, "debit", "Takes the amount from the account")
}

/// The participant, the reference and the amount of a posting, as they were given, and whether it is a debit.
pub fn post_words<'a>(given: &ArgMatches<'a>) -> CommandWords<'a>
    ensures { IsCommand (codes "post") (rows_of (found_of given.now)) result }
{
    CommandWords::Post {
        code: word(given, "code"),
        reference: word(given, "reference"),
        cents: word(given, "cents"),
        debit: flag(given, "debit"),
    }
}
