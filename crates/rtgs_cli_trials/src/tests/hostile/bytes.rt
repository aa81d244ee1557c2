//! Bytes and texts in parts, and changes of bytes that requests and files share.
use super::draw::Draw;
use std::alloc::{AllocError, Global};

/// A change of bytes: at a place a number of them are gone, and others stand there.
#[derive(Clone, Copy)]
pub struct Edit<'a> {
    pub at: usize,
    pub gone: usize,
    pub others: &'a [u8],
}

/// The bytes in two parts at this place, or at their end.
pub fn parts(bytes: &[u8], at: usize) -> (&[u8], &[u8]) {
    match bytes.split_at_checked(at) {
        Some(both) => both,
        None => (bytes, b""),
    }
}

/// This many bytes from this place on, or as many as there are.
pub fn piece(bytes: &[u8], at: usize, length: usize) -> &[u8] {
    let (_, rest) = parts(bytes, at);
    parts(rest, length).0
}

/// The bytes with a change.
pub fn edited(alloc: Global, bytes: &[u8], edit: Edit<'_>) -> Result<Vec<u8>, AllocError> {
    let (before, rest) = parts(bytes, edit.at);
    let (_, behind) = parts(rest, edit.gone);
    let mut sum = Vec::from_slice(alloc, before)?;
    sum.extend_from_slice(edit.others)?;
    sum.extend_from_slice(behind)?;
    Ok(sum)
}

/// The bytes with one to three that have another bit, or are others, at places that this draws.
pub fn flipped(
    alloc: Global,
    draw: &mut Draw,
    bytes: &[u8],
    is_file: bool,
) -> Result<Vec<u8>, AllocError> {
    let mut flipped = Vec::from_slice(alloc, bytes)?;
    for _ in 0..=draw.below(3) {
        let bit = 1u8 << (draw.below(8) & 7);
        let other = (draw.below(256) & 255) as u8;
        let by_bit = draw.below(2) == 0;
        let place = draw.place(bytes.len(), is_file);
        if let Some(byte) = flipped.as_mut_slice().get_mut(place) {
            *byte = if by_bit { *byte ^ bit } else { other };
        }
    }
    Ok(flipped)
}

/// The part of a text at this place, where the parts stand between these marks, and no text behind them.
pub fn part(text: &'static str, mark: &'static str, place: usize) -> &'static str {
    text.split(mark).nth(place).unwrap_or("")
}
