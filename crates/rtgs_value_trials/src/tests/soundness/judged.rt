//! The rules that books break, by number, a book a line.
use super::super::books::book_of;
use super::super::script::{lines_of, sides};
use rtgs_book::Fault;
use rtgs_soundness::check;
use rtgs_tests_desks::ensure;
use std::alloc::Global;
use std::fmt::Write;
use std::test::Fail;

/// Two banks, of which ALFA can pay.
pub const BANKS: &str = "participant ALFA
participant BETA
posting 1 ALFA P-1 100 -";

/// The number of the rule that a book breaks, or that it is sound.
pub fn judged(alloc: Global, records: &str) -> Result<String, Fail> {
    match check(&book_of(alloc, records)?) {
        Ok(()) => Ok(String::from_str(alloc, "sound")?),
        Err(Fault::Inconsistent { rule }) => Ok(format!(in alloc; "{}", rule.number())?),
        Err(fault) => Err(Fail::from(fault)),
    }
}

// The records that a line has between semicolons, behind those of the two banks.
fn records_of(alloc: Global, line: &str) -> Result<String, Fail> {
    let mut records = String::from_str(alloc, BANKS)?;
    for record in line.split("; ") {
        write!(records, "\n{record}")?;
    }
    Ok(records)
}

// A line's book is judged as the line tells.
fn is_judged(alloc: Global, line: &str) -> Result<(), Fail> {
    let (records, expected) = sides(line, " => ")?;
    let records = records_of(alloc, records)?;
    let found = judged(alloc, records.as_str())?;
    if found.as_str() == expected {
        Ok(())
    } else {
        Err(Fail::new(format_args!("{line}, and not {found}")))
    }
}

/// Each of this many books is judged as its line tells. The records of a line stand between semicolons, behind those of
/// the two banks.
pub fn are_judged(alloc: Global, cases: &str, count: usize) -> Result<(), Fail> {
    let mut judged = 0usize;
    for line in lines_of(cases)? {
        is_judged(alloc, line)?;
        judged = judged.saturating_add(1);
    }
    ensure(judged == count)
}
