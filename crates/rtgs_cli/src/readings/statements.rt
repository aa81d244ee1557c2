//! Runs that print a participant's statement, row by row.
ghost use Rattle.std.specs.Prelude.{◌≡◌, true, Ok, Err, IfOk, IfErr, OnErr, string_bytes};
ghost use Rattle.rtgs_book.specs.declared.reading.Reading.{Reading};
ghost use Rattle.rtgs_book.specs.declared.refusal.Refusal.{Refusal};
ghost use Rattle.rtgs_book_file.specs.LockName.{lock_name};
ghost use Rattle.rtgs_book_file.specs.OverFile.{over};
ghost use Rattle.rtgs_statements.specs.Reads.{LeavesLines};
ghost use Rattle.rtgs_cli.specs.files.Touching.{IsOf};
ghost use Rattle.rtgs_cli.specs.readings.Outcomes.{outcome_of_text};
ghost use Rattle.rtgs_cli.specs.readings.Readings.{Denies, IsWritten, Shows};

use crate::files::{Acted, Finished, Touched, Used, close_book, refused};
use rtgs_book_file::BookFile;
use rtgs_cli_lines::{Failure, Printed};
use rtgs_http_bodies::write_statement;
use rtgs_keeper::Keeper;
use rtgs_money::{BusinessDate, Code};
use rtgs_statements::BookTextFault;
use std::io::Write;

/// Prints a participant's statement for a date, each row as its record is read. Where nobody has the code, or no desk
/// is opened over the file, nothing is printed; where the store fails, or memory runs out, the rows before it were.
pub fn show_statement<B: BookFile, O: Write, F, P, N>(
    rt: &HostRuntime,
    file: &str,
    code: Code,
    date: BusinessDate,
    start: B,
    out: &mut O,
) -> Acted<B, Used<F, P, N>>
    ensures printed { IfOk result.0 (λ printed. Shows
        (over ⟦<B::Kept as Keeper>⟧ B.facts)
        (Reading.Statement code date) result.1 printed (O.contents out.old) (O.contents out.new)) }
    ensures refused { IfErr result.0 (λ why. Denies
        (over ⟦<B::Kept as Keeper>⟧ B.facts) O.contents
        (Reading.Statement code date) result.1 why out.old out.new) }
    ensures at { IsOf (over ⟦<B::Kept as Keeper>⟧ B.facts) file.now result.1 }
{
    match close_book::<B, _>(write(rt, file, &code, date, start, out)) {
        Ok((closed, written)) => (outcome(written), Touched::Book(closed, Used::Nothing)),
        Err(unopened) => refused(unopened),
    }
}

// Opens the book in a file, and writes a participant's statement as its desk reads it.
fn write<B: BookFile, O: Write>(
    rt: &HostRuntime,
    file: &str,
    code: &Code,
    date: BusinessDate,
    start: B,
    out: &mut O,
) -> Finished<B, Result<(), BookTextFault>>
    ensures written { IfOk result (λ (book, written). IsWritten
        (over ⟦<B::Kept as Keeper>⟧ B.facts) code.now date written
        (O.contents out.old) (O.contents out.new) book.desk) }
    ensures unknown { IfOk result (λ (_, written). written ≡ Err (BookTextFault.Refused Refusal.UnknownParticipant)
        → out.new ≡ out.old) }
    ensures fault { IfOk result (λ (book, written). written ≡ Err (BookTextFault.Refused Refusal.StoreFault)
        → ⟦<B::Kept as Keeper>⟧.has_failed book.desk.keeper ≡ true) }
    ensures lines { IfOk result (λ (_, written). LeavesLines written (O.contents out.old) (O.contents out.new)) }
    ensures unopened { IfErr result (λ unopened. B.facts.was_unopened unopened) }
    ensures unchanged { OnErr result (out.new ≡ out.old) }
    ensures at { IfOk result (λ (book, _). string_bytes book.lock.locked.name ≡ lock_name file.now) }
    ensures of { IfErr result (λ unopened. B.facts.refused_at file.now unopened) }
{
    let mut book = start.open(rt, file)?;
    let written = write_statement(rt.alloc(), out, book.desk(), code, date);
    Ok((book.finish(), written))
}

// What a run gives that wrote a text of the book like this.
fn outcome(written: Result<(), BookTextFault>) -> Result<Printed, Failure>
    ensures { result ≡ outcome_of_text written }
{
    match written {
        Ok(()) => Ok(Printed::Whole),
        Err(BookTextFault::Refused(refusal)) => Err(Failure::Refused(refusal)),
        Err(BookTextFault::Text(fault)) => Printed::of(Err(fault)),
    }
}
