//! Files that are made of others, and a book that many are made of.
use super::super::bytes::{Edit, edited};
use super::views::{with_circles, with_views};
use std::alloc::{AllocError, Global};
use std::test::Fail;

/// Makes a book with three banks and a day, in which two orders have settled under two marks, one is withdrawn and one
/// waits, and keeps a copy of it. Its pages are large, so that the first one has the whole list of its objects.
pub const BOOK: &str = "
$ large @
$ desk add @ ALFA 'A Bank' 0000000000000000000000000000000a
> added
$ desk add @ BETA 'A Bank' 0000000000000000000000000000000b
> added
$ desk add @ GAMA 'A Bank' 0000000000000000000000000000000c
> added
$ desk post @ ALFA P-1 150
> posted 1
$ desk open @ 2024-03-04
> opened
$ orders @.csv A-1,BETA,100 A-2,GAMA,50 A-3,BETA,25 A-4,GAMA,25
$ desk import @ ALFA @.csv
> reference,result,number,detail
> A-1,settled,1,1
> A-2,settled,2,2
> A-3,queued,3,1
> A-4,queued,4,2
$ desk withdraw @ ALFA A-3
> withdrawn 3
$ copy @ @.book
";

// The bytes, and then the last of them again, up to this length.
fn filled(alloc: Global, bytes: &[u8], length: u32) -> Result<Vec<u8>, AllocError> {
    let last = bytes.last().copied().unwrap_or(0);
    let mut filled = Vec::from_slice(alloc, bytes)?;
    for _ in bytes.len()..length as usize {
        filled.push(last)?;
    }
    Ok(filled)
}

// A book with this many views more, whose header says that each page ends in a checksum, and none does.
fn without_sums(alloc: Global, book: &[u8], count: u32) -> Result<Vec<u8>, AllocError> {
    let file = with_views(alloc, book, count)?;
    let sums = Edit {
        at: 20,
        gone: 4,
        others: &[8, 64, 32, 32],
    };
    edited(alloc, file.as_slice(), sums)
}

/// A file that is made of the bytes of another: a `copy`; `filled` by its last byte up to a length; a book with this
/// many `views` more, or with those and `no_sums` that its header says are there; or one with many pages that lead to
/// one another in `circles` by this many steps.
pub fn made(alloc: Global, kind: &str, bytes: &[u8], number: u32) -> Result<Vec<u8>, Fail> {
    let made = match kind {
        "copy" => Vec::from_slice(alloc, bytes),
        "filled" => filled(alloc, bytes, number),
        "views" => with_views(alloc, bytes, number),
        "no_sums" => without_sums(alloc, bytes, number),
        "circles" => with_circles(alloc, bytes, number),
        _ => return Err(Fail::from("a step of no known kind")),
    };
    Ok(made?)
}
