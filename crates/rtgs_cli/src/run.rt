//! One run of the program.
ghost use Rattle.std.specs.Prelude.{◌≡◌, ⊤, Result, IfOk, IfErr};
ghost use Rattle.rtgs_book_file.specs.FileOnDisk.{facts_from};
ghost use Rattle.rtgs_book_file.specs.OverFile.{over};
ghost use Rattle.clap.specs.Words.{kind_of};
ghost use Rattle.rtgs_output.specs.declared.WriterFailed.{WriterFailed};
ghost use Rattle.rtgs_cli_lines.specs.Failures.{failure_line as refusal_line};
ghost use Rattle.rtgs_cli_lines.specs.SentTo.{IsSentTo};
ghost use Rattle.rtgs_cli.specs.files.Printing.{ended_line};
ghost use Rattle.rtgs_cli.specs.Runs.{AreExplained, Ends, EndsAfter, IsDenied, IsExplained, IsCarriedOut};

use crate::actions::{RunUsed, act};
use crate::files::{Acted, Touched, Traces};
use clap::Error;
use clap::error::ErrorKind;
use rtgs_book_file::{BookFile, FileKeeper};
use rtgs_cli_arguments::{Invocation, Words, judge_request, read_words};
use rtgs_cli_lines::{Ended, Failure, Printed};
use rtgs_keeper::Keeper;
use rtgs_output::send_all;
use rtgs_refusal_texts::print_texts;
use rtgs_refusals::RefusalKind;
use sqlite::Start;
use std::alloc::{AllocError, Global};
use std::io::Write;

/// Says what the command line itself has to say: help on standard output, a fault on standard error. Where memory ran
/// out, that is refused.
fn explain<O: Write, E: Write>(alloc: Global, error: &Error, out: &mut O, err: &mut E) -> Ended
    ensures { IsExplained (kind_of error.now) (record {
      out = record { contents = O.contents; before = out.old; after = out.new };
      err = record { contents = E.contents; before = err.old; after = err.new };
    }) result }
{
    if error.kind() == ErrorKind::OutOfMemory {
        return report_refusal(Failure::from(AllocError), err);
    }
    match format!(in alloc; "{error}") {
        Ok(text) if error.use_stderr() => Ended::Misused(send_all(err, text.as_bytes())),
        Ok(text) => Ended::Helped(send_all(out, text.as_bytes())),
        Err(error) => report_refusal(Failure::from(error), err),
    }
}

// Says what a refusal means, or each, on standard output.
fn explain_refusals<O: Write>(which: Option<RefusalKind>, out: &mut O) -> Ended
    ensures { AreExplained which (record { contents = O.contents; before = out.old; after = out.new }) result }
{
    match print_texts(which, out) {
        Ok(()) => Ended::Helped(Ok(())),
        Err(failed) => Ended::Helped(Err(failed)),
    }
}

// Reports on standard error that a run is refused.
fn report_refusal<E: Write>(failure: Failure, err: &mut E) -> Ended
    ensures { (sent : Result ⊤ WriterFailed) × (result ≡ Ended.Refused failure sent)
        × IsSentTo sent (E.contents err.old) (E.contents err.new) (ended_line (refusal_line failure)) }
{
    Ended::Refused(failure, failure.print(err))
}

/// Reads the words' forms, and does what they ask for.
fn carry_out<B: BookFile, O: Write>(
    rt: &HostRuntime,
    words: &Words<'_>,
    start: B,
    out: &mut O,
) -> Acted<B, RunUsed>
    ensures printed { IfOk result.0 (IsCarriedOut (over ⟦<B::Kept as Keeper>⟧ B.facts) words.now
        (record { contents = O.contents; before = out.old; after = out.new }) result.1) }
    ensures refused { IfErr result.0 (IsDenied (over ⟦<B::Kept as Keeper>⟧ B.facts) words.now
        (record { contents = O.contents; before = out.old; after = out.new }) result.1) }
{
    match judge_request(words) {
        Ok(request) => act(rt, &request, start, out),
        Err(form) => (Err(Failure::Form(form)), Touched::Nothing(start)),
    }
}

/// Does what the words of a command line ask for that was read so, and tells how that ended, and what was touched.
fn end<B: BookFile, O: Write, E: Write>(
    rt: &HostRuntime,
    read: Result<Option<Invocation<'_>>, Error>,
    start: B,
    out: &mut O,
    err: &mut E,
) -> (Ended, Traces<B, RunUsed>)
    ensures { EndsAfter (over ⟦<B::Kept as Keeper>⟧ B.facts) read.entry (record {
      out = record { contents = O.contents; before = out.old; after = out.new };
      err = record { contents = E.contents; before = err.old; after = err.new };
    }) result.0 result.1 }
{
    match read {
        Ok(Some(Invocation::Run(words))) => {
            let (acted, touched) = carry_out(rt, &words, start, out);
            match acted {
                Ok(printed) => (Ended::Printed(printed), touched),
                Err(failure) => (report_refusal(failure, err), touched),
            }
        }
        Ok(Some(Invocation::Refusals(which))) => {
            (explain_refusals(which, out), Touched::Nothing(start))
        }
        Ok(None) => (Ended::Misused(Ok(())), Touched::Nothing(start)),
        Err(error) => {
            let ended = explain(rt.alloc(), &error, out, err);
            (ended, Touched::Nothing(start))
        }
    }
}

/// One run of the program with the words after its name, over the file of a book. What was done and help are printed on
/// `out`, refusals and faults of the command line on `err`, each line with its end. A statement is printed row by row,
/// so that rows of it can stand on `out` where it is then refused. The result says what became of that, and has the
/// exit status; and beside it stands what the run touched of the file.
fn run_over<B: BookFile, O: Write, E: Write>(
    rt: &HostRuntime,
    words: &[&str],
    start: B,
    out: &mut O,
    err: &mut E,
) -> (Ended, Traces<B, RunUsed>)
    ensures { Ends (over ⟦<B::Kept as Keeper>⟧ B.facts) (record {
      out = record { contents = O.contents; before = out.old; after = out.new };
      err = record { contents = E.contents; before = err.old; after = err.new };
    }) result.0 result.1 }
{
    end(rt, read_words(rt.alloc(), words), start, out, err)
}

/// One run of the program with the words after its name, over a book's file on a disk that held what `S` says, as
/// `run_over` does it over a file of any kind. Here alone contracts name the store again.
pub fn run_words<S: Start, O: Write, E: Write>(
    rt: &HostRuntime,
    words: &[&str],
    start: S,
    out: &mut O,
    err: &mut E,
) -> (Ended, Traces<S, RunUsed>)
    ensures { Ends (over ⟦<FileKeeper<S> as Keeper>⟧ (facts_from ⟦<FileKeeper<S> as Keeper>⟧ S.Start
        (λ keeper. keeper.conn))) (record {
          out = record { contents = O.contents; before = out.old; after = out.new };
          err = record { contents = E.contents; before = err.old; after = err.new };
        }) result.0 result.1 }
{
    run_over(rt, words, start, out, err)
}
