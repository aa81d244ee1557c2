//! Memory that is held, so that a call finds none.
use std::alloc::{AllocError, Global};
use std::test::Fail;

/// What the smallest block has room for, of which the allocator makes 32 bytes.
const SMALL: usize = 24;

/// How many small blocks can be given back.
const SMALL_BLOCKS: usize = 16384;

/// How many blocks there are beside them.
const BLOCKS: usize = 16384;

/// All the memory that this process may have.
#[derive(Drop)]
pub struct Held {
    small: Vec<Vec<u8>>,
    others: Vec<Vec<u8>>,
}

impl Held {
    /// Takes all memory. There is none where some is left, or there was no room to begin with.
    pub fn all(alloc: Global) -> Option<Held> {
        let Ok(mut small) = Vec::with_capacity(alloc, SMALL_BLOCKS) else {
            return None;
        };
        let Ok(mut others) = Vec::with_capacity(alloc, BLOCKS) else {
            return None;
        };
        let is_held = fill(alloc, &mut small, SMALL_BLOCKS, SMALL).is_ok()
            && fill_sizes(alloc, &mut others).is_ok();
        if !is_held || others.len() >= BLOCKS {
            return None;
        }
        Some(Held { small, others })
    }

    /// Takes all memory except this many small blocks that lie side by side.
    pub fn all_but(alloc: Global, given: usize) -> Result<Held, Fail> {
        let Held { mut small, others } = Held::all(alloc).ok_or("memory is left")?;
        if given > small.len() {
            return Err(Fail::from("too little is held"));
        }
        small.truncate(small.len() - given);
        Ok(Held { small, others })
    }

    /// Gives all of it back.
    pub fn free(self) {
        let Held { small, others } = self;
        drop(small);
        drop(others);
    }
}

/// Whether a request for one byte is refused.
pub fn is_none_left(alloc: Global) -> bool {
    Vec::<u8>::with_capacity(alloc, 1).is_err()
}

/// There was no memory. Without this a test could pass while memory is not held.
pub fn had_none(is_none: bool) -> Result<(), Fail> {
    if is_none {
        return Ok(());
    }
    Err(Fail::from("memory was left"))
}

// Takes blocks of all sizes, from large to small.
fn fill_sizes(alloc: Global, blocks: &mut Vec<Vec<u8>>) -> Result<(), AllocError> {
    for size in [1 << 20, 1 << 14, 1 << 8, SMALL] {
        fill(alloc, blocks, BLOCKS, size)?;
    }
    Ok(())
}

// Takes blocks of this size until there is no room, or that many are taken.
fn fill(
    alloc: Global,
    blocks: &mut Vec<Vec<u8>>,
    most: usize,
    size: usize,
) -> Result<(), AllocError> {
    for _ in blocks.len()..most {
        let Ok(block) = Vec::with_capacity(alloc, size) else {
            return Ok(());
        };
        blocks.push(block)?;
    }
    Ok(())
}
