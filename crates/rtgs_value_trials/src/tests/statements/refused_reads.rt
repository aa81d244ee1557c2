//! Reads that are refused, each in turn: what was written is a beginning of the text.
use super::super::books::book_of;
use super::super::setting::{MONDAY, code, date};
use super::shelf::{Shelf, Trouble};
use rtgs_book::Refusal;
use rtgs_statements::{BookTextFault, write_marks, write_orders, write_report, write_statement};
use rtgs_tests_desks::ensure;
use std::alloc::Global;
use std::test::Fail;

/// Three postings to ALFA, two orders and a mark.
const RECORDS: &str = "
participant ALFA
participant BETA
posting 1 ALFA P-1 250 2024-03-04
posting 2 ALFA P-2 -50 2024-03-04
posting 3 ALFA P-3 100 2024-03-04
order 1 ALFA BETA A-1 60 2024-03-04 1
order 2 BETA ALFA B-1 10 2024-03-04 queued
mark 1 2024-03-04 1 60
";

// Whether a text ended by this trouble.
fn is_by(ended: &Result<(), BookTextFault>, trouble: Trouble) -> bool {
    match ended {
        Err(BookTextFault::Refused(Refusal::StoreFault)) => trouble == Trouble::StoreFault,
        Err(BookTextFault::Refused(Refusal::OutOfMemory)) => trouble == Trouble::OutOfMemory,
        _ => false,
    }
}

// How many lines the bytes have.
fn lines_of(bytes: &[u8]) -> usize {
    bytes.iter().filter(|byte| **byte == b'\n').count()
}

/// What was written of a text, and how it ended.
#[derive(Drop)]
struct Tried {
    out: Vec<u8>,
    ended: Result<(), BookTextFault>,
    has_failed: bool,
}

impl Tried {
    /// Whether this trouble ended the text, and the shelf has failed where it is a fault of the store.
    fn is_by(&self, trouble: Trouble) -> bool {
        is_by(&self.ended, trouble) && self.has_failed == (trouble == Trouble::StoreFault)
    }

    /// Whether the text ended well.
    fn is_well(&self) -> bool {
        self.ended.is_ok()
    }
}

// ALFA's statement from this shelf.
fn statement(alloc: Global, mut shelf: Shelf) -> Result<Tried, Fail> {
    let (alfa, monday) = (code("ALFA")?, date(MONDAY)?);
    let mut out = Vec::new(alloc);
    let ended = write_statement(alloc, &mut out, &mut shelf, &alfa, monday);
    let has_failed = shelf.has_failed();
    Ok(Tried {
        out,
        ended,
        has_failed,
    })
}

// The report from this shelf.
fn report(alloc: Global, mut shelf: Shelf) -> Result<Tried, Fail> {
    let monday = date(MONDAY)?;
    let mut out = Vec::new(alloc);
    let ended = write_report(alloc, &mut out, &mut shelf, monday);
    let has_failed = shelf.has_failed();
    Ok(Tried {
        out,
        ended,
        has_failed,
    })
}

// The orders of the day from this shelf.
fn orders(alloc: Global, mut shelf: Shelf) -> Result<Tried, Fail> {
    let monday = date(MONDAY)?;
    let mut out = Vec::new(alloc);
    let ended = write_orders(alloc, &mut out, &mut shelf, monday);
    let has_failed = shelf.has_failed();
    Ok(Tried {
        out,
        ended,
        has_failed,
    })
}

// The marks of the day from this shelf.
fn marks(alloc: Global, mut shelf: Shelf) -> Result<Tried, Fail> {
    let monday = date(MONDAY)?;
    let mut out = Vec::new(alloc);
    let ended = write_marks(alloc, &mut out, &mut shelf, monday);
    let has_failed = shelf.has_failed();
    Ok(Tried {
        out,
        ended,
        has_failed,
    })
}

// A shelf whose reads end in this trouble after this many.
fn failing(alloc: Global, reads: usize, trouble: Trouble) -> Result<Shelf, Fail> {
    Ok(Shelf::failing(book_of(alloc, RECORDS)?, reads, trouble))
}

fn whole_statement(alloc: Global) -> Result<Tried, Fail> {
    statement(alloc, Shelf::new(book_of(alloc, RECORDS)?))
}

fn whole_report(alloc: Global) -> Result<Tried, Fail> {
    report(alloc, Shelf::new(book_of(alloc, RECORDS)?))
}

#[test]
fn third_posting_that_is_refused_leaves_a_title_and_two_rows(rt: HostRuntime) -> Result<(), Fail> {
    let tried = statement(rt.alloc(), failing(rt.alloc(), 2, Trouble::StoreFault)?)?;
    ensure(tried.is_by(Trouble::StoreFault))?;
    ensure(
        std::str::from_utf8(tried.out.as_slice())?
            == "statement ALFA 2024-03-04
posting    000000001 P-1              -                        2.50         -
posting    000000002 P-2              -                       -0.50         -
",
    )
}

// The lines of ALFA's statement that are written before N reads went well: the title, a row for each posting,
// and of the orders a row for the first, which alone is about it.
const LINES_AFTER: [usize; 7] = [1, 2, 3, 4, 4, 5, 5];

// A statement whose read after this many is refused is begun, as many lines of it as LINES_AFTER has.
fn begins(alloc: Global, whole: &[u8], reads: usize, trouble: Trouble) -> Result<(), Fail> {
    let tried = statement(alloc, failing(alloc, reads, trouble)?)?;
    let lines = LINES_AFTER.get(reads).copied().unwrap_or(0);
    ensure(
        tried.is_by(trouble)
            && whole.starts_with(tried.out.as_slice())
            && lines_of(tried.out.as_slice()) == lines,
    )
}

// A statement that takes this many reads is whole where they go well.
fn is_whole_statement(
    alloc: Global,
    whole: &[u8],
    reads: usize,
    trouble: Trouble,
) -> Result<(), Fail> {
    let tried = statement(alloc, failing(alloc, reads, trouble)?)?;
    ensure(tried.is_well() && tried.out.as_slice() == whole)
}

#[test]
fn each_read_of_a_statement_is_refused_in_turn(rt: HostRuntime) -> Result<(), Fail> {
    let whole = whole_statement(rt.alloc())?;
    ensure(whole.is_well())?;
    for trouble in [Trouble::StoreFault, Trouble::OutOfMemory] {
        for reads in 0..7 {
            begins(rt.alloc(), whole.out.as_slice(), reads, trouble)?;
        }
        is_whole_statement(rt.alloc(), whole.out.as_slice(), 7, trouble)?;
    }
    Ok(())
}

// Of a report whose read after this many is refused nothing is written.
fn is_no_report(alloc: Global, reads: usize, trouble: Trouble) -> Result<(), Fail> {
    let tried = report(alloc, failing(alloc, reads, trouble)?)?;
    ensure(tried.is_by(trouble) && tried.out.is_empty())
}

// A report that takes this many reads is whole where they go well.
fn is_whole_report(
    alloc: Global,
    whole: &[u8],
    reads: usize,
    trouble: Trouble,
) -> Result<(), Fail> {
    let tried = report(alloc, failing(alloc, reads, trouble)?)?;
    ensure(tried.is_well() && tried.out.as_slice() == whole)
}

#[test]
fn each_read_of_a_report_is_refused_in_turn(rt: HostRuntime) -> Result<(), Fail> {
    let whole = whole_report(rt.alloc())?;
    ensure(whole.is_well())?;
    for trouble in [Trouble::StoreFault, Trouble::OutOfMemory] {
        // Four reads of postings, three of orders and two of marks.
        for reads in 0..9 {
            is_no_report(rt.alloc(), reads, trouble)?;
        }
        is_whole_report(rt.alloc(), whole.out.as_slice(), 9, trouble)?;
    }
    Ok(())
}

// What was tried ended by this trouble, with this many lines of the whole text.
fn is_begun(tried: &Tried, whole: &[u8], lines: usize, trouble: Trouble) -> Result<(), Fail> {
    ensure(
        tried.is_by(trouble)
            && whole.starts_with(tried.out.as_slice())
            && lines_of(tried.out.as_slice()) == lines,
    )
}

#[test]
fn each_read_of_orders_is_refused_in_turn(rt: HostRuntime) -> Result<(), Fail> {
    let whole = orders(rt.alloc(), Shelf::new(book_of(rt.alloc(), RECORDS)?))?;
    ensure(whole.is_well() && lines_of(whole.out.as_slice()) == 3)?;
    for trouble in [Trouble::StoreFault, Trouble::OutOfMemory] {
        // A line is written once the next order was read: after each read one more.
        for reads in 0..3 {
            let tried = orders(rt.alloc(), failing(rt.alloc(), reads, trouble)?)?;
            is_begun(&tried, whole.out.as_slice(), reads, trouble)?;
        }
        let tried = orders(rt.alloc(), failing(rt.alloc(), 3, trouble)?)?;
        ensure(tried.is_well() && tried.out.as_slice() == whole.out.as_slice())?;
    }
    Ok(())
}

#[test]
fn each_read_of_marks_is_refused_in_turn(rt: HostRuntime) -> Result<(), Fail> {
    let whole = marks(rt.alloc(), Shelf::new(book_of(rt.alloc(), RECORDS)?))?;
    ensure(whole.is_well() && lines_of(whole.out.as_slice()) == 2)?;
    for trouble in [Trouble::StoreFault, Trouble::OutOfMemory] {
        for reads in 0..2 {
            let tried = marks(rt.alloc(), failing(rt.alloc(), reads, trouble)?)?;
            is_begun(&tried, whole.out.as_slice(), reads, trouble)?;
        }
        let tried = marks(rt.alloc(), failing(rt.alloc(), 2, trouble)?)?;
        ensure(tried.is_well() && tried.out.as_slice() == whole.out.as_slice())?;
    }
    Ok(())
}
