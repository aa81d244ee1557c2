//! A statement and a day report whose reads meet trouble, each in turn: what was written is a beginning of the text.
use rtgs_book::Refusal;
use rtgs_desk::Desk;
use rtgs_keeper::Keeper;
use rtgs_money::{BusinessDate, Code};
use rtgs_statements::{BookTextFault, write_report, write_statement};
use rtgs_tests_desks::{FailingKeeper, Trouble, begun, desk_over, failing, is_silent};
use std::alloc::Global;
use std::test::Fail;

/// The first line of ALFA's statement, and two of its postings.
const BEGINNING: &str = "statement ALFA 2024-03-04\n\
    posting    000000001 P-1              -                        1.00         -\n\
    posting    000000002 P-2              -                       20.00         -\n";

/// ALFA has three postings on Monday, and no other bank has one. One order settles, and two wait.
const COMMANDS: &str = "\
open 2024-03-04 => Ok(Opened)
post ALFA P-1 100 => Ok(Posted { number: 1 })
post ALFA P-2 2000 => Ok(Posted { number: 2 })
debit ALFA P-3 50 => Ok(Posted { number: 3 })
order ALFA A-1 BETA 60 => Ok(Settled { number: 1, mark: 1 })
order ALFA A-2 GAMA 9000 => Ok(Queued { number: 2, place: 1 })
order BETA B-1 ALFA 500 => Ok(Queued { number: 3, place: 1 })";

/// Writes the text of Monday, which is the statement of this bank, or the day report where none is named. It
/// tells why a read was refused, where one was.
fn write<K: Keeper>(
    alloc: Global,
    desk: &mut Desk<K>,
    bank: Option<&str>,
    out: &mut Vec<u8>,
) -> Result<Option<Refusal>, Fail> {
    let monday = BusinessDate::read(b"2024-03-04")?;
    let written = match bank {
        Some(code) => write_statement(alloc, out, desk, &Code::read(code.as_bytes())?, monday),
        None => write_report(alloc, out, desk, monday),
    };
    match written {
        Ok(()) => Ok(None),
        Err(BookTextFault::Refused(refusal)) => Ok(Some(refusal)),
        Err(BookTextFault::Text(_)) => Err(Fail::new("a line was not written")),
    }
}

/// What was written, and then once more, after lack of memory.
#[derive(Drop)]
struct Written {
    out: Vec<u8>,
    refused: Option<Refusal>,
    again: Vec<u8>,
}

/// Writes the text by a desk over this keeper of a new book, which is given the commands, and then meets this trouble
/// after this many calls. Once the store has failed, the desk then answers nothing else, and after lack of memory it
/// writes once more.
fn written_by<K: Keeper + Drop>(
    alloc: Global,
    keeper: FailingKeeper<K>,
    bank: Option<&str>,
    calls: usize,
    trouble: Trouble,
) -> Result<Written, Fail> {
    let keeper = begun(alloc, keeper, COMMANDS)?.into_keeper();
    let mut desk = desk_over(alloc, keeper.restarted(calls, trouble))?;
    let (mut out, mut again) = (Vec::new(alloc), Vec::new(alloc));
    let refused = write(alloc, &mut desk, bank, &mut out)?;
    match refused {
        None => (),
        Some(Refusal::StoreFault) => is_silent(&mut desk)?,
        Some(_) => {
            if write(alloc, &mut desk, bank, &mut again)?.is_some() {
                return Err(Fail::new("refused once more"));
            }
        }
    }
    Ok(Written {
        out,
        refused,
        again,
    })
}

impl Written {
    /// Whether the whole text was written. Else a beginning of it was, and after lack of memory the whole text.
    fn is_whole(&self, whole: &[u8]) -> Result<bool, Fail> {
        let (out, again) = (self.out.as_slice(), self.again.as_slice());
        match self.refused {
            None if out == whole => return Ok(true),
            Some(Refusal::StoreFault) if again.is_empty() => (),
            Some(Refusal::OutOfMemory) if again == whole => (),
            _ => return Err(Fail::new("another text, or another refusal")),
        }
        if out == whole || !whole.starts_with(out) {
            return Err(Fail::new("no beginning of the text"));
        }
        Ok(false)
    }
}

/// What is written by a desk that meets this trouble after this many reads.
fn written_after(
    alloc: Global,
    bank: Option<&str>,
    reads: usize,
    trouble: Trouble,
) -> Result<Written, Fail> {
    // the opening is a call too
    let calls = reads.saturating_add(1);
    written_by(
        alloc,
        failing(alloc, usize::MAX, trouble),
        bank,
        calls,
        trouble,
    )
}

/// How many reads go well where first no writing meets this trouble.
fn reads_of(alloc: Global, bank: Option<&str>, trouble: Trouble) -> Result<usize, Fail> {
    let whole = written_after(alloc, bank, 1000, trouble)?;
    for reads in 0..100 {
        let written = written_after(alloc, bank, reads, trouble)?;
        if written.is_whole(whole.out.as_slice())? {
            return Ok(reads);
        }
    }
    Err(Fail::new("each writing met trouble"))
}

/// Fails unless this many reads go well where first no writing meets a trouble, whichever it is.
fn reads_are(alloc: Global, bank: Option<&str>, expected: usize) -> Result<(), Fail> {
    for trouble in [Trouble::Lost, Trouble::Kept, Trouble::OutOfMemory] {
        let reads = reads_of(alloc, bank, trouble)?;
        if reads != expected {
            return Err(Fail::from(format!(in alloc; "{reads} reads at {trouble:?}")?));
        }
    }
    Ok(())
}

#[test]
fn a_statement_is_begun_where_a_read_is_refused(rt: HostRuntime) -> Result<(), Fail> {
    // three postings and then none, and three orders and then none
    reads_are(rt.alloc(), Some("ALFA"), 8)
}

#[test]
fn a_report_is_begun_where_a_read_is_refused(rt: HostRuntime) -> Result<(), Fail> {
    // the same, and then one mark and none
    reads_are(rt.alloc(), None, 10)
}

#[test]
fn two_postings_are_written_where_the_third_is_not_read(rt: HostRuntime) -> Result<(), Fail> {
    let written = written_after(rt.alloc(), Some("ALFA"), 2, Trouble::Lost)?;
    if written.refused == Some(Refusal::StoreFault)
        && written.out.as_slice() == BEGINNING.as_bytes()
    {
        Ok(())
    } else {
        Err(Fail::new("another refusal, or another beginning"))
    }
}
