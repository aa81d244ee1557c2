//! Printing what is said of refusals.
ghost use Rattle.std.specs.Prelude.{OnOk, OnErr};
ghost use Rattle.std.specs.Io.KnownBytes.{Appends};
ghost use Rattle.std.specs.List.{flat_map};
ghost use Rattle.rtgs_output.specs.Sent.{AppendsPart};
ghost use Rattle.rtgs_refusal_texts.specs.Texts.{explanation, text_of};
ghost use Rattle.rtgs_refusal_texts.specs.declared.kinds.TheConstants.{KINDS};

use crate::kinds::KINDS;
use crate::texts::text_of;
use rtgs_output::{WriterFailed, send_all};
use rtgs_refusals::RefusalKind;
use std::io::Write;

/// Prints what is said of a refusal; without one, what is said of each, by rising numbers. Where the writer fails, a
/// beginning of that is printed, and not all.
pub fn print_texts<O: Write>(which: Option<RefusalKind>, out: &mut O) -> Result<(), WriterFailed>
    ensures sent { OnOk result (Appends (O.contents out.old) (O.contents out.new) (explanation which)) }
    ensures begun { OnErr result (AppendsPart (O.contents out.old) (O.contents out.new) (explanation which)) }
{
    match which {
        Some(kind) => print_text(kind, out),
        None => print_each(out),
    }
}

// Prints what is said of a refusal.
fn print_text<O: Write>(kind: RefusalKind, out: &mut O) -> Result<(), WriterFailed>
    ensures sent { OnOk result (Appends (O.contents out.old) (O.contents out.new) (text_of kind)) }
    ensures begun { OnErr result (AppendsPart (O.contents out.old) (O.contents out.new) (text_of kind)) }
{
    send_all(out, text_of(kind).as_bytes())
}

// Prints what is said of each refusal, by rising numbers.
fn print_each<O: Write>(out: &mut O) -> Result<(), WriterFailed>
    ensures sent { OnOk result (Appends (O.contents out.old) (O.contents out.new) (flat_map text_of KINDS)) }
    ensures begun { OnErr result (AppendsPart (O.contents out.old) (O.contents out.new) (flat_map text_of KINDS)) }
{
    for kind in KINDS {
        print_text(kind, out)?;
    }
    Ok(())
}
