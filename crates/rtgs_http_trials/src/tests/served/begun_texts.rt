//! Statements and reports of a desk whose reads meet trouble, each in turn: which rows the writer then has.
use super::super::is_same;
use super::super::test_desk::TestDesk;
use rtgs_book::Refusal;
use rtgs_http_bodies::{write_report, write_statement};
use rtgs_money::{BusinessDate, Code};
use rtgs_statements::BookTextFault;
use rtgs_tests_desks::{Trouble, ensure};
use std::alloc::Global;
use std::test::Fail;

// All three postings of Monday are to ALFA.
const POSTINGS: &str = r#"
OPERATOR POST /desk/post {"cents":100,"code":"ALFA","reference":"P-1"}
-> 200 OK {"answer":"posted","number":1}

OPERATOR POST /desk/post {"cents":2000,"code":"ALFA","reference":"P-2"}
-> 200 OK {"answer":"posted","number":2}

OPERATOR POST /desk/post {"cents":-50,"code":"ALFA","reference":"P-3"}
-> 200 OK {"answer":"posted","number":3}
"#;

// The statement of ALFA.
const STATEMENT: &str = "statement ALFA 2024-03-04
posting    000000001 P-1              -                        1.00         -
posting    000000002 P-2              -                       20.00         -
posting    000000003 P-3              -                       -0.50         -
sum-posted                          20.50
sum-sent                             0.00
sum-recv                             0.00
net                                 20.50
";

// How many reads a statement takes: three postings and then none, and no order.
const READS_OF_A_STATEMENT: usize = 5;

// How many reads a report takes: three postings and then none, no order and no mark.
const READS_OF_A_REPORT: usize = 6;

// A desk of that Monday whose keeper meets this trouble after this many reads.
fn desk_after(alloc: Global, reads: usize, trouble: Trouble) -> Result<TestDesk, Fail> {
    let mut desk = TestDesk::open(alloc)?;
    desk.follow(POSTINGS)?;
    // the opening is a call too
    desk.troubled_again(reads.saturating_add(1), trouble)
}

// Why a text was refused, where it was, and on the lines after that what was written of it.
fn in_words(alloc: Global, written: Result<(), BookTextFault>, out: &[u8]) -> Result<String, Fail> {
    let refused = match written {
        Ok(()) => None,
        Err(BookTextFault::Refused(refusal)) => Some(refusal),
        Err(BookTextFault::Text(_)) => return Err(Fail::from("a line was not written")),
    };
    let text = std::str::from_utf8(out).unwrap_or("no text");
    Ok(format!(in alloc; "{refused:?}\n{text}")?)
}

// What came of a participant's statement of Monday.
fn statement(alloc: Global, desk: &mut TestDesk, code: &str) -> Result<String, Fail> {
    let code = Code::read(code.as_bytes())?;
    let monday = BusinessDate::read(b"2024-03-04")?;
    let mut out = Vec::new(alloc);
    let written = write_statement(alloc, &mut out, &mut desk.desk, &code, monday);
    in_words(alloc, written, out.as_slice())
}

// What came of the report of Monday.
fn report(alloc: Global, desk: &mut TestDesk) -> Result<String, Fail> {
    let monday = BusinessDate::read(b"2024-03-04")?;
    let mut out = Vec::new(alloc);
    let written = write_report(alloc, &mut out, &mut desk.desk, monday);
    in_words(alloc, written, out.as_slice())
}

// What a read is refused with at this trouble.
fn refusal_of(trouble: Trouble) -> Refusal {
    match trouble {
        Trouble::Lost | Trouble::Kept => Refusal::StoreFault,
        Trouble::OutOfMemory => Refusal::OutOfMemory,
    }
}

// What the same desk shows of the same text afterwards.
fn expected_after(alloc: Global, trouble: Trouble, whole: &str) -> Result<String, Fail> {
    match trouble {
        Trouble::Lost | Trouble::Kept => Ok(String::from_str(alloc, "Some(Failed)\n")?),
        Trouble::OutOfMemory => Ok(format!(in alloc; "None\n{whole}")?),
    }
}

// The first lines of the statement.
fn first_lines(alloc: Global, count: usize) -> Result<String, Fail> {
    let mut text = String::new(alloc);
    for line in STATEMENT.lines().take(count) {
        text.push_str(line)?;
        text.push_str("\n")?;
    }
    Ok(text)
}

#[test]
fn a_third_posting_that_is_not_read_leaves_two(rt: HostRuntime) -> Result<(), Fail> {
    let mut desk = desk_after(rt.alloc(), 2, Trouble::Lost)?;
    let shown = statement(rt.alloc(), &mut desk, "ALFA")?;
    ensure(desk.desk.failed())?;
    is_same(
        shown.as_str(),
        "Some(StoreFault)
statement ALFA 2024-03-04
posting    000000001 P-1              -                        1.00         -
posting    000000002 P-2              -                       20.00         -
",
    )
}

// What is expected of a text that was refused at this trouble, after this many lines of the statement.
fn expected_begun(alloc: Global, trouble: Trouble, lines: usize) -> Result<String, Fail> {
    let refusal = refusal_of(trouble);
    let begun = first_lines(alloc, lines)?;
    Ok(format!(in alloc; "Some({refusal:?})\n{begun}")?)
}

// Of ALFA's statement this is shown.
fn has_statement(alloc: Global, desk: &mut TestDesk, wanted: &str) -> Result<(), Fail> {
    let found = statement(alloc, desk, "ALFA")?;
    is_same(found.as_str(), wanted)
}

// The read of a statement after this many meets this trouble, and this many lines are written before.
fn is_begun(alloc: Global, trouble: Trouble, reads: usize, lines: usize) -> Result<(), Fail> {
    let begun = expected_begun(alloc, trouble, lines)?;
    let later = expected_after(alloc, trouble, STATEMENT)?;
    let mut desk = desk_after(alloc, reads, trouble)?;
    has_statement(alloc, &mut desk, begun.as_str())?;
    has_statement(alloc, &mut desk, later.as_str())
}

// Each read of a statement meets this trouble. Each posting is written once it is read, and the sums after the one look
// for an order.
fn each_is_begun(alloc: Global, trouble: Trouble) -> Result<(), Fail> {
    is_begun(alloc, trouble, 0, 1)?;
    is_begun(alloc, trouble, 1, 2)?;
    is_begun(alloc, trouble, 2, 3)?;
    is_begun(alloc, trouble, 3, 4)?;
    is_begun(alloc, trouble, 4, 4)
}

#[test]
fn each_read_of_a_statement_meets_trouble(rt: HostRuntime) -> Result<(), Fail> {
    each_is_begun(rt.alloc(), Trouble::Lost)?;
    each_is_begun(rt.alloc(), Trouble::Kept)?;
    each_is_begun(rt.alloc(), Trouble::OutOfMemory)
}

#[test]
fn a_statement_takes_five_reads(rt: HostRuntime) -> Result<(), Fail> {
    let wanted = expected_after(rt.alloc(), Trouble::OutOfMemory, STATEMENT)?;
    let mut desk = desk_after(rt.alloc(), READS_OF_A_STATEMENT, Trouble::Lost)?;
    has_statement(rt.alloc(), &mut desk, wanted.as_str())
}

#[test]
fn a_statement_of_nobody_is_refused_before_a_read(rt: HostRuntime) -> Result<(), Fail> {
    let mut desk = desk_after(rt.alloc(), 0, Trouble::Lost)?;
    let found = statement(rt.alloc(), &mut desk, "ZETA")?;
    ensure(!desk.desk.failed())?;
    is_same(found.as_str(), "Some(UnknownParticipant)\n")
}

// Of the report this is shown.
fn has_report(alloc: Global, desk: &mut TestDesk, wanted: &str) -> Result<(), Fail> {
    let found = report(alloc, desk)?;
    is_same(found.as_str(), wanted)
}

// The read of a report after this many meets this trouble, and nothing is written. Afterwards the desk has failed, or
// tells the whole report.
fn is_not_begun(alloc: Global, trouble: Trouble, reads: usize, whole: &str) -> Result<(), Fail> {
    let nothing = expected_begun(alloc, trouble, 0)?;
    let later = expected_after(alloc, trouble, whole)?;
    let mut desk = desk_after(alloc, reads, trouble)?;
    has_report(alloc, &mut desk, nothing.as_str())?;
    has_report(alloc, &mut desk, later.as_str())
}

// Each read of a report meets this trouble.
fn none_is_begun(alloc: Global, trouble: Trouble, whole: &str) -> Result<(), Fail> {
    for reads in 0..READS_OF_A_REPORT {
        is_not_begun(alloc, trouble, reads, whole)?;
    }
    Ok(())
}

// The whole report, which takes READS_OF_A_REPORT reads.
fn whole_report(alloc: Global) -> Result<String, Fail> {
    let mut desk = desk_after(alloc, READS_OF_A_REPORT, Trouble::Lost)?;
    let shown = report(alloc, &mut desk)?;
    match shown.as_str().strip_prefix("None\n") {
        Some(whole) => Ok(String::from_str(alloc, whole)?),
        None => Err(Fail::from("a report that was refused")),
    }
}

#[test]
fn a_report_is_begun_once_all_is_read(rt: HostRuntime) -> Result<(), Fail> {
    let shown = whole_report(rt.alloc())?;
    let whole = shown.as_str();
    ensure(whole.starts_with("report 2024-03-04\n"))?;
    none_is_begun(rt.alloc(), Trouble::Lost, whole)?;
    none_is_begun(rt.alloc(), Trouble::Kept, whole)?;
    none_is_begun(rt.alloc(), Trouble::OutOfMemory, whole)
}
