//! Writing to a writer of any kind.
ghost use Rattle.std.specs.Prelude.{OnOk, OnErr};
ghost use Rattle.std.specs.Io.KnownBytes.{Appends};
ghost use Rattle.rtgs_output.specs.Sent.{AppendsPart};

use crate::writer_failed::{WriterFailed, write_some};
use std::io::Write;

/// Writes all the bytes. After a write that failed, or took no byte, a beginning of them was written, and not all.
pub fn send_all<W: Write>(out: &mut W, bytes: &[u8]) -> Result<(), WriterFailed>
    ensures sent { OnOk result (Appends (W.contents out.old) (W.contents out.new) bytes.now) }
    ensures begun { OnErr result (AppendsPart (W.contents out.old) (W.contents out.new) bytes.now) }
{
    let mut at = 0;
    for _ in 0..bytes.len() {
        if at == bytes.len() {
            return Ok(());
        }
        let taken = write_some(out, &bytes[at..])?;
        at += taken;
    }
    Ok(())
}
