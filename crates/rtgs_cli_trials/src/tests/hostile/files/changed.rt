//! Files that chance has changed, and files in which a page is said to stand behind another, or under it, that it
//! cannot.
use super::super::bytes::{Edit, edited};
use super::super::draw::{Draw, PAGE};
use super::super::met::{are_met, column, row_of};
use super::edits::changed;
use super::making::BOOK;
use crate::tests::runs::run;
use crate::tests::script::{follows, follows_both, has_bytes, shown_of, write};
use std::alloc::{AllocError, Global};
use std::fs;
use std::test::Fail;

// What a report on a file may show: the report, or a refusal with its number and one of the rules, and the status.
const ANSWERS: &str = "report | > report 2024-03-04\n | \n> marks              2\n
= 91 | ! refused 91 StoreFault\nstatus 3\n | =
= 93 | ! refused 93 NotADeskFile\nstatus 3\n | =
= 94 | ! refused 94 Inconsistent 1\nstatus 3\n | =
= 94 | ! refused 94 Inconsistent 2\nstatus 3\n | =
= 94 | ! refused 94 Inconsistent 3\nstatus 3\n | =
= 94 | ! refused 94 Inconsistent 4\nstatus 3\n | =
= 94 | ! refused 94 Inconsistent 5\nstatus 3\n | =
= 94 | ! refused 94 Inconsistent 6\nstatus 3\n | =
= 94 | ! refused 94 Inconsistent 7\nstatus 3\n | =
= 94 | ! refused 94 Inconsistent 8\nstatus 3\n | =
= 94 | ! refused 94 Inconsistent 9\nstatus 3\n | =
= 94 | ! refused 94 Inconsistent 10\nstatus 3\n | =
= 94 | ! refused 94 Inconsistent 11\nstatus 3\n | =
= 94 | ! refused 94 Inconsistent 12\nstatus 3\n | =
= 94 | ! refused 94 Inconsistent 13\nstatus 3\n | =
= 94 | ! refused 94 Inconsistent 14\nstatus 3\n | =
= 94 | ! refused 94 Inconsistent 15\nstatus 3\n | =
= 94 | ! refused 94 Inconsistent 16\nstatus 3\n | =";

// The word for what a report on a file shows.
fn answer_word(rt: &HostRuntime, file: &str) -> Result<&'static str, Fail> {
    let run = run(rt, &["report", file, "2024-03-04"], usize::MAX, usize::MAX);
    let shown = shown_of(rt.alloc(), "desk", "", &run)?;
    let row = row_of(ANSWERS, shown.as_str())?;
    Ok(column(row, 0))
}

// Adds the word for what a report on a file of these bytes shows, of which no byte may change.
fn meet(
    rt: &HostRuntime,
    file: &str,
    bytes: &[u8],
    met: &mut Vec<&'static str>,
) -> Result<(), Fail> {
    write(rt, file, bytes)?;
    let word = answer_word(rt, file)?;
    has_bytes(rt, file, bytes)?;
    Ok(met.push(word)?)
}

// The book with one to three changes.
fn with_changes(alloc: Global, draw: &mut Draw, book: &[u8]) -> Result<Vec<u8>, AllocError> {
    let mut bytes = changed(alloc, draw, book)?;
    for _ in 0..draw.below(3) {
        bytes = changed(alloc, draw, bytes.as_slice())?;
    }
    Ok(bytes)
}

// How many pages there are at least.
const PAGES: usize = 20;

// The book where a page but the first points at itself, or at the next, by the number at one of the places where a page
// leads to another. The turn says which page, which place, and whether at the next.
fn leading(alloc: Global, book: &[u8], turn: usize) -> Result<Vec<u8>, AllocError> {
    let page = turn % (PAGES - 1) + 1;
    let place = turn / (PAGES - 1) % 3 * 4;
    let behind = turn / (PAGES - 1) / 3;
    let number = (page.saturating_add(behind).saturating_add(1) % 256) as u8;
    let edit = Edit {
        at: page.saturating_mul(PAGE).saturating_add(place),
        gone: 4,
        others: &[0, 0, 0, number],
    };
    edited(alloc, book, edit)
}

// A file that is made of a book: by chance, where there is a seed, and else with a page that leads to another.
fn file_of(
    alloc: Global,
    draw: &mut Option<Draw>,
    book: &[u8],
    turn: usize,
) -> Result<Vec<u8>, AllocError> {
    match draw {
        Some(draw) => with_changes(alloc, draw, book),
        None => leading(alloc, book, turn),
    }
}

// Adds the words for what reports show on this many files that are made of this one, by a seed or without one.
fn meet_all(
    rt: &HostRuntime,
    file: &str,
    draw: Option<Draw>,
    count: usize,
    met: &mut Vec<&'static str>,
) -> Result<(), Fail> {
    let book = fs::read(rt, file)?;
    let mut draw = draw;
    for turn in 0..count {
        let bytes = file_of(rt.alloc(), &mut draw, book.as_slice(), turn)?;
        meet(rt, file, bytes.as_slice(), met)?;
    }
    Ok(())
}

// These counts are met where a book is changed 250 times by this seed.
fn changes_are_met(rt: &HostRuntime, file: &str, seed: u64, all: &str) -> Result<(), Fail> {
    follows(rt, file, BOOK)?;
    let mut met = Vec::new(rt.alloc());
    meet_all(rt, file, Some(Draw::new(seed)), 250, &mut met)?;
    are_met(met.as_slice(), all)
}

#[test]
fn files_with_changes(rt: HostRuntime) -> Result<(), Fail> {
    changes_are_met(&rt, "changes", 1, "report 85, 91 138, 93 27")
}

#[test]
fn more_files_with_changes(rt: HostRuntime) -> Result<(), Fail> {
    changes_are_met(&rt, "more_changes", 2, "report 75, 91 150, 93 25")
}

// A table of more than one page, two rows over many pages, and pages that are free. Each text grows to five times
// itself.
const MORE: &str = "
$ sql @ CREATE TABLE more (id INTEGER PRIMARY KEY, filling TEXT); \
    INSERT INTO more VALUES (1, 'twenty letters of it'), (2, 'twenty letters of it'); \
    UPDATE more SET filling = filling || filling || filling || filling || filling; \
    UPDATE more SET filling = filling || filling || filling || filling || filling; \
    UPDATE more SET filling = filling || filling || filling || filling || filling; \
    INSERT INTO more SELECT id + 2, filling FROM more; \
    UPDATE more SET filling = filling || filling || filling || filling || filling WHERE id < 3; \
    DELETE FROM more WHERE id = 1
";

// Of the files in which pages lead to one another by the same place some fail.
fn some_fail_of_each(met: &[&'static str]) -> Result<(), Fail> {
    for some in met.chunks(PAGES - 1) {
        if !some.contains(&"91") {
            return Err(Fail::from("no failure"));
        }
    }
    Ok(())
}

// Each page leads to itself, or to the next, at each place where a page leads to another.
#[test]
fn that_lead_to_one_another(rt: HostRuntime) -> Result<(), Fail> {
    follows_both(&rt, "leading", BOOK, MORE)?;
    let mut met = Vec::new(rt.alloc());
    meet_all(&rt, "leading", None, 6 * (PAGES - 1), &mut met)?;
    some_fail_of_each(met.as_slice())?;
    are_met(met.as_slice(), "report 21, 91 93")
}
