//! Changes of a text, as chance would have them.
use super::super::bytes::{Edit, edited, flipped, part, parts, piece};
use super::super::draw::Draw;
use super::limits::{limit, word};
use std::alloc::{AllocError, Global};

/// What stands between two lines, or in its place: eight texts, parted by a |.
const JOINTS: &str = "| |\n|\r|, |\r\n\r\n|\r\n |\0";

/// The text with one change: of bytes, cut, without a part or with one twice, with two lines joined, or of a value.
pub fn changed(alloc: Global, draw: &mut Draw, text: &[u8]) -> Result<Vec<u8>, AllocError> {
    let kind = draw.below(6);
    if kind == 0 {
        return flipped(alloc, draw, text, false);
    }
    let edit = match kind {
        1 => Edit {
            at: draw.below(text.len()),
            gone: text.len(),
            others: b"",
        },
        2 => repeated(draw, text, false),
        3 => repeated(draw, text, true),
        4 => joined(draw, text),
        _ => revaluation(draw, text),
    };
    edited(alloc, text, edit)
}

/// The text with another number, or another word, in place of a value.
pub fn revalued(alloc: Global, draw: &mut Draw, text: &[u8]) -> Result<Vec<u8>, AllocError> {
    let edit = revaluation(draw, text);
    edited(alloc, text, edit)
}

// Another number, or another word, in place of a value.
fn revaluation(draw: &mut Draw, text: &[u8]) -> Edit<'static> {
    match draw.below(3) {
        0 => renumbered(draw, text),
        _ => reworded(draw, text),
    }
}

// A part is left out, or stands twice.
fn repeated<'a>(draw: &mut Draw, text: &'a [u8], is_twice: bool) -> Edit<'a> {
    let at = draw.below(text.len());
    let (_, rest) = parts(text, at);
    let length = draw.below(rest.len()).saturating_add(1);
    Edit {
        at,
        gone: if is_twice { 0 } else { length },
        others: if is_twice {
            piece(text, at, length)
        } else {
            b""
        },
    }
}

// Something else stands in place of one line end, or of one comma.
fn joined(draw: &mut Draw, text: &[u8]) -> Edit<'static> {
    let at = draw.below(text.len());
    let joint = part(JOINTS, "|", draw.below(8));
    let (_, rest) = parts(text, at);
    let length = first(rest, b"\r\n,", true).unwrap_or(0);
    let (_, behind) = parts(rest, length);
    Edit {
        at: at.saturating_add(length),
        gone: if behind.starts_with(b"\r\n") { 2 } else { 1 },
        others: joint.as_bytes(),
    }
}

// A number at a limit stands in place of one number.
fn renumbered(draw: &mut Draw, text: &[u8]) -> Edit<'static> {
    let at = draw.below(text.len());
    let number = limit(draw.below(32));
    let (_, rest) = parts(text, at);
    let length = first(rest, b"0123456789", true).unwrap_or(0);
    let (_, behind) = parts(rest, length);
    Edit {
        at: at.saturating_add(length),
        gone: first(behind, b"0123456789", false).unwrap_or(behind.len()),
        others: number.as_bytes(),
    }
}

// A word stands in place of one value: of what stands behind a colon or a comma, up to the next comma or bracket.
fn reworded(draw: &mut Draw, text: &[u8]) -> Edit<'static> {
    let at = value(draw, text);
    let (_, behind) = parts(text, at);
    let among = if behind.starts_with(b"\"") { 13 } else { 32 };
    Edit {
        at,
        gone: first(behind, b",}\n\r", true).unwrap_or(behind.len()),
        others: word(draw.below(among)).as_bytes(),
    }
}

// Where a value begins: the first one behind some place, or else the first of all.
fn value(draw: &mut Draw, text: &[u8]) -> usize {
    let at = draw.below(text.len());
    let (_, rest) = parts(text, at);
    let mark = match first(rest, b":,\n", true) {
        Some(length) => at.saturating_add(length),
        None => first(text, b":,\n", true).unwrap_or(0),
    };
    mark.saturating_add(1)
}

// Where the first byte stands that is one of these, or the first that is not.
fn first(text: &[u8], these: &[u8], is_one: bool) -> Option<usize> {
    let mut place = 0usize;
    for byte in text {
        if these.contains(byte) == is_one {
            return Some(place);
        }
        place = place.saturating_add(1);
    }
    None
}
