//! The text of lines.
ghost use Rattle.std.specs.Prelude.{◌≡◌, ◌++◌, IfOk, OnOk, string_bytes};
ghost use Rattle.rtgs_statements.specs.Texts.{text_of};

use crate::line::Line;
use std::alloc::{AllocError, Global};

/// The texts of four groups of lines in order. The only error is lack of memory.
pub fn text_of_parts(
    alloc: Global,
    first: &[Line],
    second: &[Line],
    third: &[Line],
    fourth: &[Line],
) -> Result<String, AllocError>
    ensures { IfOk result (λ text. string_bytes text ≡ text_of (first.now ++ second.now ++ third.now ++ fourth.now)) }
{
    let mut text = String::new(alloc);
    add_lines(alloc, &mut text, first)?;
    add_lines(alloc, &mut text, second)?;
    add_lines(alloc, &mut text, third)?;
    add_lines(alloc, &mut text, fourth)?;
    Ok(text)
}

// Adds the lines in order.
fn add_lines(alloc: Global, text: &mut String, lines: &[Line]) -> Result<(), AllocError>
    ensures { OnOk result (string_bytes text.new ≡ string_bytes text.old ++ text_of lines.now) }
{
    for line in lines {
        let more = line.text(alloc)?;
        text.push_str(more.as_str())?;
    }
    Ok(())
}
