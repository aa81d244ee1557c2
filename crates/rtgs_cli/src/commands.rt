//! The run that gives the desk over the file of a book one command, and the runs that make a book, and that bring its
//! tables to the newest version. Where one of them is refused, nothing is printed.
ghost use Rattle.std.specs.Prelude.{◌≡◌, ◌∷◌, [], true, None, Ok, Err, IfOk, IfErr, OnErr, string_bytes};
ghost use Rattle.rtgs_book.specs.declared.book.Book.{Book};
ghost use Rattle.rtgs_book_file.specs.LockName.{lock_name};
ghost use Rattle.rtgs_book_file.specs.OverFile.{over};
ghost use Rattle.rtgs_desk.specs.Holding.{Acts, Holds};
ghost use Rattle.rtgs_desk.specs.Replies.{IsOfItsKind};
ghost use Rattle.rtgs_cli_lines.specs.Lines.{done_line};
ghost use Rattle.rtgs_cli_lines.specs.Texts.{Prints};
ghost use Rattle.rtgs_cli.specs.commands.Commands.{HasAnswered, HasMade, HasMigrated, IsNotAnswered, IsSubmitted};
ghost use Rattle.rtgs_cli.specs.commands.Commands.{done_by_migration};
ghost use Rattle.rtgs_cli.specs.files.Printing.{ended_line, PrintsText};
ghost use Rattle.rtgs_cli.specs.files.Touching.{IsNoBookMade, IsNotMigrated, IsOf};

use crate::files::{Acted, Finished, Touched, Used, close_book, refused};
use rtgs_book::{Command, Refusal, WholeAnswer};
use rtgs_book_file::BookFile;
use rtgs_cli_lines::{Done, Failure, Printed};
use rtgs_desk::Desk;
use rtgs_keeper::Keeper;
use std::io::Write;

/// Makes a new book in a file, and says so.
pub fn make_book<B: BookFile, O: Write, F, P, N>(
    rt: &HostRuntime,
    file: &str,
    start: B,
    out: &mut O,
) -> Acted<B, Used<F, P, N>>
    ensures printed { IfOk result.0 (λ printed. PrintsText
        (HasMade (over ⟦<B::Kept as Keeper>⟧ B.facts) result.1) printed
        (O.contents out.old) (O.contents out.new)) }
    ensures refused { IfErr result.0 (IsNoBookMade (over ⟦<B::Kept as Keeper>⟧ B.facts) result.1) }
    ensures unchanged { OnErr result.0 (out.new ≡ out.old) }
    ensures at { IsOf (over ⟦<B::Kept as Keeper>⟧ B.facts) file.now result.1 }
{
    match start.make(rt, file) {
        Ok(made) => (Ok(say(Done::Made, out)), Touched::Book(made, Used::Nothing)),
        Err(unmade) => refused(unmade),
    }
}

/// Brings the tables of the book in a file to the newest version, and says whether anything was written.
pub fn migrate_book<B: BookFile, O: Write, F, P, N>(
    rt: &HostRuntime,
    file: &str,
    start: B,
    out: &mut O,
) -> Acted<B, Used<F, P, N>>
    ensures printed { IfOk result.0 (λ printed. PrintsText
        (HasMigrated (over ⟦<B::Kept as Keeper>⟧ B.facts) result.1) printed
        (O.contents out.old) (O.contents out.new)) }
    ensures refused { IfErr result.0 (IsNotMigrated (over ⟦<B::Kept as Keeper>⟧ B.facts) result.1) }
    ensures unchanged { OnErr result.0 (out.new ≡ out.old) }
    ensures at { IsOf (over ⟦<B::Kept as Keeper>⟧ B.facts) file.now result.1 }
{
    match start.migrate(rt, file) {
        Ok((migrated, wrote)) => (
            Ok(say(migration(wrote), out)),
            Touched::Book(migrated, Used::Nothing),
        ),
        Err(unmigrated) => refused(unmigrated),
    }
}

/// Gives the desk over a file one command, and prints its answer.
pub fn answer<B: BookFile, O: Write, F, P, N>(
    rt: &HostRuntime,
    file: &str,
    command: Command,
    start: B,
    out: &mut O,
) -> Acted<B, Used<F, P, N>>
    ensures printed { IfOk result.0 (λ printed. PrintsText
        (HasAnswered (over ⟦<B::Kept as Keeper>⟧ B.facts) command result.1) printed
        (O.contents out.old) (O.contents out.new)) }
    ensures refused { IfErr result.0 (IsNotAnswered (over ⟦<B::Kept as Keeper>⟧ B.facts) command result.1) }
    ensures unchanged { OnErr result.0 (out.new ≡ out.old) }
    ensures at { IsOf (over ⟦<B::Kept as Keeper>⟧ B.facts) file.now result.1 }
{
    match close_book::<B, _>(submit(rt, file, command, start)) {
        Ok((closed, reply)) => (print(reply, out), Touched::Book(closed, Used::Nothing)),
        Err(unopened) => refused(unopened),
    }
}

// Opens the book in a file, and gives its desk one command.
fn submit<B: BookFile>(
    rt: &HostRuntime,
    file: &str,
    command: Command,
    start: B,
) -> Finished<B, Result<WholeAnswer, Refusal>>
    ensures replied { IfOk result (λ (book, reply). IsSubmitted
        (over ⟦<B::Kept as Keeper>⟧ B.facts) command reply book.desk) }
    ensures of_its_kind { IfOk result (λ (_, reply). IfOk reply (IsOfItsKind command)) }
    ensures unopened { IfErr result (λ unopened. B.facts.was_unopened unopened) }
    ensures at { IfOk result (λ (book, _). string_bytes book.lock.locked.name ≡ lock_name file.now) }
    ensures of { IfErr result (λ unopened. B.facts.refused_at file.now unopened) }
{
    let mut book = start.open(rt, file)?;
    let reply = give_command::<B>(book.desk(), command);
    Ok((book.finish(), reply))
}

// Gives a desk over a file one command.
fn give_command<B: BookFile>(
    desk: &mut Desk<B::Kept>,
    command: Command,
) -> Result<WholeAnswer, Refusal>
    ensures acts { ⟦<B::Kept as Keeper>⟧.is_honest desk.new.keeper → (book : Book)
        → Holds ⟦<B::Kept as Keeper>⟧ desk.old book → Acts ⟦<B::Kept as Keeper>⟧ book command result desk.new }
    ensures left { ⟦<B::Kept as Keeper>⟧.is_honest desk.new.keeper → (book : Book)
        → Holds ⟦<B::Kept as Keeper>⟧ desk.old book
        → B.facts.stop_leaves desk.new book (command ∷ []) (result ∷ []) }
    ensures honest { ⟦<B::Kept as Keeper>⟧.is_honest desk.new.keeper
        → ⟦<B::Kept as Keeper>⟧.is_honest desk.old.keeper }
    ensures of_its_kind { IfOk result (IsOfItsKind command) }
{
    let reply = desk.submit(command);
    B::what_a_session_leaves(desk);
    reply
}

// Prints what the desk answered. Where it refused the command, nothing is printed.
fn print<O: Write>(reply: Result<WholeAnswer, Refusal>, out: &mut O) -> Result<Printed, Failure>
    ensures printed { IfOk result (λ printed. (answer : _) × (reply ≡ Ok answer)
        × Prints (ended_line (done_line (Done.Answered answer))) None printed (O.contents out.old)
        (O.contents out.new)) }
    ensures refused { IfErr result (λ why. (refusal : _) × (reply ≡ Err refusal) × (why ≡ Failure.Refused refusal)) }
    ensures unchanged { OnErr result (out.new ≡ out.old) }
{
    match reply {
        Ok(answer) => Ok(say(Done::Answered(answer), out)),
        Err(refusal) => Err(Failure::Refused(refusal)),
    }
}

// What a migration did: it wrote, or there was nothing to write.
fn migration(wrote: bool) -> Done
    ensures { result ≡ done_by_migration wrote }
{
    if wrote {
        Done::Migrated
    } else {
        Done::Repeated
    }
}

// Prints the line of what was done.
fn say<O: Write>(done: Done, out: &mut O) -> Printed
    ensures { Prints (ended_line (done_line done)) None result (O.contents out.old) (O.contents out.new) }
{
    Printed::sent(done.print(out))
}
