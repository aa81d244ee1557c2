//! Help, and faults of the command line.
use super::script::{follows, follows_each};
use std::test::Fail;

const HELPS: &str = "
$ names --help
> desk <COMMAND>
> Brings the tables of a book to the newest version
status 0 helped
$ names add --help
= Adds a participant
> 3 to 8 capitals and digits, a capital first
> 1 to 40 printable characters
> 32 characters of 0-9 and a-f
status 0 helped
$ names post --help
= Posts an amount to a participant's account
> 1 to 16 capitals, digits and dashes
> The amount in cents, without a sign
> --debit
status 0 helped
$ names open --help
= Opens a business day
> --automatic
> Resolves gridlock after each command that may free orders
status 0 helped
";

#[test]
fn helps_name_the_commands_and_the_forms_of_their_words(rt: HostRuntime) -> Result<(), Fail> {
    follows(&rt, "helps", HELPS)
}

/// The help of the other subcommands: what each does, and its words in their order.
const EACH: &str = "
$ names init --help
= Makes a new book, without participants
= Usage: desk init <FILE>
status 0 helped
$ names migrate --help
= Brings the tables of a book to the newest version
= Usage: desk migrate <FILE>
status 0 helped
$ names credit --help
= Sets the credit limit of a participant
= Usage: desk credit <FILE> <CODE> <CENTS>
status 0 helped
$ names import --help
= Submits a participant's file of orders
= Usage: desk import <FILE> <CODE> <ORDERS>
status 0 helped
$ names resolve --help
= Settles as many queued orders together as there is cover for
= Usage: desk resolve <FILE>
status 0 helped
$ names cutoff --help
= Ends the taking of orders
= Usage: desk cutoff <FILE> <DATE>
status 0 helped
$ names close --help
= Closes the day and rejects what is queued
= Usage: desk close <FILE> <DATE>
status 0 helped
$ names withdraw --help
= Takes back an order that is queued or held
= Usage: desk withdraw <FILE> <CODE> <REFERENCE>
status 0 helped
$ names account --help
= Shows a participant's account, as JSON
= Usage: desk account <FILE> <CODE>
status 0 helped
$ names accounts --help
= Shows the accounts of all participants, as JSON
= Usage: desk accounts <FILE>
status 0 helped
$ names queue --help
= Shows a participant's queued orders, as JSON
= Usage: desk queue <FILE> <CODE>
status 0 helped
$ names status --help
= Shows the day, what waits in all and the numbers that come next, as JSON
= Usage: desk status <FILE>
status 0 helped
$ names queues --help
= Shows all queues and what a resolution would settle of each, as JSON
= Usage: desk queues <FILE>
status 0 helped
$ names waiting --help
= Shows what a participant's first queued order lacks, as JSON
= Usage: desk waiting <FILE> <CODE>
status 0 helped
$ names held --help
= Shows a participant's orders that are held until their due dates, as JSON
= Usage: desk held <FILE> <CODE>
status 0 helped
$ names order --help
= Shows an order of a participant, as JSON
= Usage: desk order <FILE> <CODE> <REFERENCE>
status 0 helped
$ names statement --help
= Shows a participant's business day
= Usage: desk statement <FILE> <CODE> <DATE>
status 0 helped
$ names report --help
= Shows the business day of all participants
= Usage: desk report <FILE> <DATE>
status 0 helped
$ names orders --help
= Shows each order of a date, as CSV
= Usage: desk orders <FILE> <DATE>
status 0 helped
$ names marks --help
= Shows each mark of a date, as CSV
= Usage: desk marks <FILE> <DATE>
status 0 helped
$ names serve --help
= Serves connections over HTTP, one after the other
= Usage: desk serve --port <P> --count <N> --operator-key <KEY> <FILE>
status 0 helped
$ names explain --help
= Says what a refusal means, what it comes from and what to do
= Usage: desk explain [NUMBER]
> The number of the refusal; without it, each is explained
status 0 helped
$ names help serve
= Serves connections over HTTP, one after the other
status 0 helped
";

#[test]
fn each_subcommand_has_its_own_help(rt: HostRuntime) -> Result<(), Fail> {
    follows(&rt, "each_help", EACH)
}

/// The version of the tables is that of a new book, or else what is inserted has no value, which is refused.
const VERSIONS: &str = "
$ names --version
> desk 0.14.0, tables 3, rattle-kit-
status 0 helped
$ desk init @
> initialised
$ sql @ CREATE TABLE seen (is_so INTEGER NOT NULL)
$ sql @ INSERT INTO seen SELECT CASE WHEN sum(version) = 3 THEN 1 END FROM desk
";

#[test]
fn version_names_the_program_its_tables_and_the_kit(rt: HostRuntime) -> Result<(), Fail> {
    follows(&rt, "version", VERSIONS)
}

/// The words are no command line, which is reported on standard error alone.
pub const MISUSED: &str = "
$ ends %1
!
status 2 misused
";

#[test]
fn words_that_are_no_command_line_are_reported_on_standard_error(
    rt: HostRuntime,
) -> Result<(), Fail> {
    follows_each(&rt, "misused", MISUSED, "\ninit\npay F\ninit F G")
}

const UNHEARD: &str = "
$ out 4 --help
> The ~
status 3 unheard
";

#[test]
fn help_that_nobody_takes_fails(rt: HostRuntime) -> Result<(), Fail> {
    follows(&rt, "unheard_help", UNHEARD)
}
