//! What may be met, as rows of a table, and how often each row was.
//!
//! Rows are parted by `\n= `. Between ` | ` a row has a word for what is met, how its text begins and ends, and what
//! else stands of it. A `=` in place of the end stands for a text that is the beginning, and no more.
use super::bytes::part;
use std::test::Fail;

pub fn column(row: &'static str, place: usize) -> &'static str {
    part(row, " | ", place)
}

// Whether a text is that of a row.
fn fits(row: &'static str, text: &str) -> bool {
    let last = column(row, 2);
    match text.strip_prefix(column(row, 1)) {
        Some(rest) if last == "=" => rest.is_empty(),
        Some(_) => text.ends_with(last),
        None => false,
    }
}

/// The row of this text.
pub fn row_of(rows: &'static str, text: &str) -> Result<&'static str, Fail> {
    for row in rows.split("\n= ") {
        if fits(row, text) {
            return Ok(row);
        }
    }
    Err(Fail::new(format_args!("{text:?}, of which there is no row")))
}

// How often a word was met.
fn count_of(met: &[&'static str], word: &str) -> usize {
    let mut count = 0usize;
    for other in met {
        if *other == word {
            count = count.saturating_add(1);
        }
    }
    count
}

/// The words that were met are these, each as often as the number behind it says, and no other: "word count, word
/// count".
pub fn are_met(met: &[&'static str], all: &str) -> Result<(), Fail> {
    let mut sum = 0usize;
    for expected in all.split(", ") {
        let (word, expected_count) = expected.split_once(' ').unwrap_or((expected, ""));
        let count = count_of(met, word);
        if expected_count.parse::<usize>().unwrap_or(usize::MAX) != count {
            return Err(Fail::new(format_args!("{word} {count}, and not {expected_count}")));
        }
        sum = sum.saturating_add(count);
    }
    if sum == met.len() {
        return Ok(());
    }
    Err(Fail::new(format_args!("{} besides {all}", met.len().saturating_sub(sum))))
}
