//! Lines that are written one after another.
ghost use Rattle.std.specs.Prelude.{◌≡◌, OnOk, OnErr, IfErr};
ghost use Rattle.std.specs.Io.KnownBytes.{Appends};
ghost use Rattle.rtgs_output.specs.Sent.{AppendsPart};
ghost use Rattle.rtgs_statements.specs.Texts.{line_text, text_of};

use crate::line::Line;
use crate::parts::text_of_parts;
use rtgs_output::{TextFault, send_all};
use std::alloc::Global;
use std::io::Write;

/// Writes a line. Where it finds no memory, nothing was asked of the writer; where the writer fails, a beginning of it
/// was written, and not the whole.
pub fn write_line<W: Write>(alloc: Global, out: &mut W, line: &Line) -> Result<(), TextFault>
    ensures written { OnOk result (Appends (W.contents out.old) (W.contents out.new) (line_text line.now)) }
    ensures begun { OnErr result (AppendsPart (W.contents out.old) (W.contents out.new) (line_text line.now)) }
    ensures memory { IfErr result (λ fault. fault ≡ TextFault.OutOfMemory → out.new ≡ out.old) }
{
    let text = match line.text(alloc) {
        Ok(text) => text,
        Err(refused) => return Err(TextFault::from(refused)),
    };
    match send_all(out, text.as_bytes()) {
        Ok(()) => Ok(()),
        Err(failed) => Err(TextFault::from(failed)),
    }
}

/// Writes four lines, as `write_line` writes one.
pub fn write_four<W: Write>(alloc: Global, out: &mut W, lines: &[Line; 4]) -> Result<(), TextFault>
    ensures written { OnOk result (Appends (W.contents out.old) (W.contents out.new) (text_of lines.now)) }
    ensures begun { OnErr result (AppendsPart (W.contents out.old) (W.contents out.new) (text_of lines.now)) }
    ensures memory { IfErr result (λ fault. fault ≡ TextFault.OutOfMemory → out.new ≡ out.old) }
{
    let text = match text_of_parts(alloc, lines, &[], &[], &[]) {
        Ok(text) => text,
        Err(refused) => return Err(TextFault::from(refused)),
    };
    match send_all(out, text.as_bytes()) {
        Ok(()) => Ok(()),
        Err(failed) => Err(TextFault::from(failed)),
    }
}
