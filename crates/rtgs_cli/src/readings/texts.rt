//! Runs that show what the desk tells: a text that is gathered in memory, or a statement.
ghost use Rattle.std.specs.Prelude.{◌≡◌, None, Ok, Err, IfOk, IfErr, OnErr, string_bytes};
ghost use Rattle.rtgs_book_file.specs.LockName.{lock_name};
ghost use Rattle.rtgs_book_file.specs.OverFile.{over};
ghost use Rattle.rtgs_cli_lines.specs.Texts.{Prints};
ghost use Rattle.rtgs_cli.specs.files.Printing.{PrintsText};
ghost use Rattle.rtgs_cli.specs.files.Touching.{IsOf};
ghost use Rattle.rtgs_cli.specs.readings.Readings.{Denies, HasRead, IsNotRead, IsRead, Shows};

use crate::files::{Acted, Finished, Touched, Used, close_book, refused};
use crate::readings::statements::show_statement;
use rtgs_book::{Reading, Refusal};
use rtgs_book_file::BookFile;
use rtgs_cli_lines::{Failure, Printed};
use rtgs_http_bodies::text_of;
use rtgs_keeper::Keeper;
use rtgs_output::send_all;
use std::io::Write;

/// Prints what the desk over a file says of a reading: a statement row by row, as its records are read, and else the
/// whole text, once the file is closed.
pub fn show<B: BookFile, O: Write, F, P, N>(
    rt: &HostRuntime,
    file: &str,
    reading: Reading,
    start: B,
    out: &mut O,
) -> Acted<B, Used<F, P, N>>
    ensures printed { IfOk result.0 (λ printed. Shows
        (over ⟦<B::Kept as Keeper>⟧ B.facts) reading result.1 printed
        (O.contents out.old) (O.contents out.new)) }
    ensures refused { IfErr result.0 (λ why. Denies
        (over ⟦<B::Kept as Keeper>⟧ B.facts) O.contents reading result.1 why out.old out.new) }
    ensures at { IsOf (over ⟦<B::Kept as Keeper>⟧ B.facts) file.now result.1 }
{
    match reading {
        Reading::Statement { code, date } => show_statement(rt, file, code, date, start, out),
        _ => show_text(rt, file, reading, start, out),
    }
}

// Prints the text of a reading, gathered in memory, once the file is closed.
fn show_text<B: BookFile, O: Write, F, P, N>(
    rt: &HostRuntime,
    file: &str,
    reading: Reading,
    start: B,
    out: &mut O,
) -> Acted<B, Used<F, P, N>>
    ensures printed { IfOk result.0 (λ printed. PrintsText
        (HasRead (over ⟦<B::Kept as Keeper>⟧ B.facts) reading result.1) printed
        (O.contents out.old) (O.contents out.new)) }
    ensures refused { IfErr result.0 (IsNotRead (over ⟦<B::Kept as Keeper>⟧ B.facts) reading result.1) }
    ensures unchanged { OnErr result.0 (out.new ≡ out.old) }
    ensures at { IsOf (over ⟦<B::Kept as Keeper>⟧ B.facts) file.now result.1 }
{
    match close_book::<B, _>(read(rt, file, reading, start)) {
        Ok((closed, read)) => (print_read(read, out), Touched::Book(closed, Used::Nothing)),
        Err(unopened) => refused(unopened),
    }
}

// Opens the book in a file, and reads what its desk tells.
fn read<B: BookFile>(
    rt: &HostRuntime,
    file: &str,
    reading: Reading,
    start: B,
) -> Finished<B, Result<Vec<u8>, Refusal>>
    ensures read { IfOk result (λ (book, read). IsRead
        (over ⟦<B::Kept as Keeper>⟧ B.facts)
        (λ text. text.items) reading read book.desk) }
    ensures unopened { IfErr result (λ unopened. B.facts.was_unopened unopened) }
    ensures at { IfOk result (λ (book, _). string_bytes book.lock.locked.name ≡ lock_name file.now) }
    ensures of { IfErr result (λ unopened. B.facts.refused_at file.now unopened) }
{
    let mut book = start.open(rt, file)?;
    let read = text_of(rt.alloc(), book.desk(), &reading);
    Ok((book.finish(), read))
}

// Prints a text that was read. Where that was refused, nothing is printed.
fn print_read<O: Write>(read: Result<Vec<u8>, Refusal>, out: &mut O) -> Result<Printed, Failure>
    ensures printed { IfOk result (λ printed. (text : _) × (read ≡ Ok text)
        × Prints text.items None printed (O.contents out.old) (O.contents out.new)) }
    ensures refused { IfErr result (λ why. (refusal : _) × (read ≡ Err refusal) × (why ≡ Failure.Refused refusal)) }
    ensures unchanged { OnErr result (out.new ≡ out.old) }
{
    match read {
        Ok(text) => Ok(print_text(out, text.as_slice())),
        Err(refusal) => Err(Failure::Refused(refusal)),
    }
}

fn print_text<O: Write>(out: &mut O, text: &[u8]) -> Printed
    ensures { Prints text.now None result (O.contents out.old) (O.contents out.new) }
{
    Printed::sent(send_all(out, text))
}
