//! Changes of a file, as chance would have them, in which a page is one of 4096 bytes.
use super::super::bytes::{Edit, edited, flipped, piece};
use super::super::draw::{Draw, PAGE};
use std::alloc::{AllocError, Global};

// Numbers at a limit of one, two or four bytes, or just beyond it, and page numbers that there are.
const LIMITS: &[[u8; 4]; 16] = &[
    [0, 0, 0, 0],
    [0, 0, 0, 1],
    [0, 0, 0, 2],
    [0, 0, 0, 3],
    [0, 0, 0, 5],
    [0, 0, 0, 100],
    [0, 0, 0, 255],
    [0, 0, 1, 0],
    [0, 0, 1, 255],
    [0, 0, 2, 0],
    [0, 0, 15, 255],
    [0, 0, 16, 0],
    [0, 0, 255, 255],
    [0, 1, 0, 0],
    [127, 255, 255, 255],
    [255, 255, 255, 255],
];

// A page of nothing.
const NOTHING: &[u8; PAGE] = &[0; PAGE];

/// The file with one change: of bytes, cut, with a page again or in another's place, or with another number.
pub fn changed(alloc: Global, draw: &mut Draw, file: &[u8]) -> Result<Vec<u8>, AllocError> {
    let kind = draw.below(8);
    if kind < 2 {
        return flipped(alloc, draw, file, true);
    }
    let edit = match kind {
        2 => cut(draw, file),
        3 => repeated(draw, file),
        4 => replaced(draw, file),
        _ => renumbered(draw, file),
    };
    edited(alloc, file, edit)
}

// The beginning of the file alone, whole pages half of the time.
fn cut<'a>(draw: &mut Draw, file: &'a [u8]) -> Edit<'a> {
    let at = if draw.below(2) == 0 {
        draw.page(file.len())
    } else {
        draw.below(file.len())
    };
    Edit {
        at,
        gone: file.len(),
        others: b"",
    }
}

// One page stands twice, so that those behind it have other numbers.
fn repeated<'a>(draw: &mut Draw, file: &'a [u8]) -> Edit<'a> {
    let at = draw.page(file.len());
    Edit {
        at,
        gone: 0,
        others: piece(file, at, PAGE),
    }
}

// One page stands in another's place too, or nothing does.
fn replaced<'a>(draw: &mut Draw, file: &'a [u8]) -> Edit<'a> {
    let from = draw.page(file.len());
    let others = if draw.below(3) == 0 {
        NOTHING.as_slice()
    } else {
        piece(file, from, PAGE)
    };
    Edit {
        at: draw.page(file.len()),
        gone: PAGE,
        others,
    }
}

// A number at a limit stands in place of one, in one, two or four bytes.
fn renumbered<'a>(draw: &mut Draw, file: &'a [u8]) -> Edit<'a> {
    let limit = LIMITS[draw.below(16) & 15].as_slice();
    let others = piece(limit, [0, 2, 3][draw.below(3).min(2)], 4);
    Edit {
        at: draw.place(file.len(), true),
        gone: others.len(),
        others,
    }
}
