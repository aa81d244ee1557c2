//! Writers that fail, take nothing, or take little.
use super::super::books::book_of;
use super::super::setting::{MONDAY, code, date};
use super::shelf::Shelf;
use rtgs_output::TextFault;
use rtgs_statements::{BookTextFault, write_marks, write_orders, write_report, write_statement};
use std::alloc::Global;
use std::io::{Error, ErrorKind, Result as IoResult, Write};
use std::test::Fail;

/// Takes a number of bytes at a call, and fails after a number of calls.
#[derive(Drop)]
struct Narrow {
    taken: Vec<u8>,
    width: usize,
    calls: usize,
}

impl Narrow {
    fn new(alloc: Global, width: usize, calls: usize) -> Narrow {
        Narrow {
            taken: Vec::new(alloc),
            width,
            calls,
        }
    }
}

impl Write for Narrow {
    fn write(&mut self, bytes: &[u8]) -> IoResult<usize> {
        if self.calls == 0 {
            return Err(Error::from(ErrorKind::BrokenPipe));
        }
        self.calls -= 1;
        let count = bytes.len().min(self.width);
        self.taken.extend_from_slice(&bytes[..count])?;
        Ok(count)
    }

    fn flush(&mut self) -> IoResult<()> {
        Ok(())
    }
}

/// A posting to ALFA, and its order of a cent to BETA, which is queued.
const QUEUED: &str = "
participant ALFA
participant BETA
posting 1 ALFA P-1 10 2024-03-04
order 1 ALFA BETA A-1 1 2024-03-04 queued
mark 1 2024-03-04 1 1
";

/// The same with the order settled.
const SETTLED: &str = "
participant ALFA
participant BETA
posting 1 ALFA P-1 10 2024-03-04
order 1 ALFA BETA A-1 1 2024-03-04 1
mark 1 2024-03-04 1 1
";

/// Which text is written.
#[derive(Clone, Copy, Debug, PartialEq, Eq)]
enum Text {
    Statement,
    Report,
    Orders,
    Marks,
}

const TEXTS: [Text; 4] = [Text::Statement, Text::Report, Text::Orders, Text::Marks];

impl Text {
    // ALFA's statement is of its queued order, and the other texts of the settled one.
    fn records(self) -> &'static str {
        if self == Text::Statement {
            QUEUED
        } else {
            SETTLED
        }
    }

    /// Writes it, for that day.
    fn write<W: Write>(self, alloc: Global, out: &mut W) -> Result<Ended, Fail> {
        let (alfa, monday) = (code("ALFA")?, date(MONDAY)?);
        let mut shelf = Shelf::new(book_of(alloc, self.records())?);
        let ended = match self {
            Text::Statement => write_statement(alloc, out, &mut shelf, &alfa, monday),
            Text::Report => write_report(alloc, out, &mut shelf, monday),
            Text::Orders => write_orders(alloc, out, &mut shelf, monday),
            Text::Marks => write_marks(alloc, out, &mut shelf, monday),
        };
        Ok(Ended::of(&ended))
    }

    /// All its bytes.
    fn whole(self, alloc: Global) -> Result<Vec<u8>, Fail> {
        let mut out = Vec::new(alloc);
        match self.write(alloc, &mut out)? {
            Ended::Whole => Ok(out),
            _ => Err(Fail::from("the text is not whole")),
        }
    }

    /// For a writer that takes this many bytes at a call, and fails after this many calls, it ends so with these bytes.
    fn ends(
        self,
        alloc: Global,
        width: usize,
        calls: usize,
        wanted: Ended,
        text: &[u8],
    ) -> Result<(), Fail> {
        let mut out = Narrow::new(alloc, width, calls);
        let ended = self.write(alloc, &mut out)?;
        if ended == wanted && out.taken.as_slice() == text {
            Ok(())
        } else {
            Err(Fail::from("it ended otherwise, or another text was written"))
        }
    }

    /// For a writer that takes a byte at a call, it ends at the call that fails, whichever that is.
    fn ends_at_each_byte(self, alloc: Global) -> Result<(), Fail> {
        let whole = self.whole(alloc)?;
        for calls in 0..whole.len() {
            self.ends(alloc, 1, calls, Ended::WriterFailed, &whole[..calls])?;
        }
        self.ends(alloc, 1, whole.len(), Ended::Whole, whole.as_slice())
    }
}

// How a text ended.
#[derive(Clone, Copy, Debug, PartialEq, Eq)]
enum Ended {
    Whole,
    WriterFailed,
    NothingTaken,
    Otherwise,
}

impl Ended {
    fn of(ended: &Result<(), BookTextFault>) -> Ended {
        match ended {
            Ok(()) => Ended::Whole,
            Err(BookTextFault::Text(TextFault::Write(error))) => match error.kind() {
                ErrorKind::BrokenPipe => Ended::WriterFailed,
                ErrorKind::WriteZero => Ended::NothingTaken,
                _ => Ended::Otherwise,
            },
            Err(_) => Ended::Otherwise,
        }
    }
}

#[test]
fn each_text_ends_at_the_byte_that_fails(rt: HostRuntime) -> Result<(), Fail> {
    for text in TEXTS {
        text.ends_at_each_byte(rt.alloc())?;
    }
    Ok(())
}

#[test]
fn statement_is_written_line_by_line(rt: HostRuntime) -> Result<(), Fail> {
    let whole = Text::Statement.whole(rt.alloc())?;
    let title = "statement ALFA 2024-03-04\n".len();
    // A title, two rows and four sums, which are written at once.
    let ends = [0, title, title + 78, title + 156];
    for calls in 0..4 {
        let end = whole.len().min(ends[calls]);
        Text::Statement.ends(rt.alloc(), 500, calls, Ended::WriterFailed, &whole[..end])?;
    }
    Text::Statement.ends(rt.alloc(), 500, 4, Ended::Whole, whole.as_slice())
}

#[test]
fn orders_and_marks_are_written_line_by_line(rt: HostRuntime) -> Result<(), Fail> {
    for text in [Text::Orders, Text::Marks] {
        let whole = text.whole(rt.alloc())?;
        let header = whole.iter().take_while(|byte| **byte != b'\n').count() + 1;
        let end = whole.len().min(header);
        text.ends(rt.alloc(), 500, 0, Ended::WriterFailed, b"")?;
        text.ends(rt.alloc(), 500, 1, Ended::WriterFailed, &whole[..end])?;
        text.ends(rt.alloc(), 500, 2, Ended::Whole, whole.as_slice())?;
    }
    Ok(())
}

#[test]
fn write_that_takes_no_byte_is_a_fault(rt: HostRuntime) -> Result<(), Fail> {
    for text in TEXTS {
        text.ends(rt.alloc(), 0, 9, Ended::NothingTaken, b"")?;
    }
    Ok(())
}
