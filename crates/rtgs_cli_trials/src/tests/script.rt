//! Runs of the program as one text.
//!
//! A script begins with a line's end. Each step is a line that begins with `$ `:
//!
//! - `$ desk WORDS` is a run of the program. Below it stands all that the run prints: each line of standard output
//!   after `> `, each of standard error after `! `, and `status N` where the status is not 0. Where the run ended
//!   otherwise than with a text that was printed or with a refusal, that line ends with a word for it (`end_of`). A `~`
//!   stands for an end that a line lacks. A word in single quotes may hold spaces, or nothing.
//! - `$ out N WORDS` is the same where standard output takes only N bytes, and `$ err N WORDS` where standard error
//!   does.
//! - `$ names WORDS` is a run whose standard output has each text after `> ` in it, and each after `= ` as a line.
//! - `$ writes WORDS` is one of which only this is shown: in how many writes it printed its lines.
//! - `$ ends WORDS` is one of which only this is shown: on which streams it printed, by `>` and `!`, and how it ended.
//! - `$ file PATH TEXT` writes a file; `\n` in the text is a line's end.
//! - `$ orders PATH ROWS` writes a file of orders: their header, and a line for each of these rows.
//! - `$ sql PATH STATEMENT` changes a book's file by SQL, as another program does; `$ log PATH STATEMENT` leaves the
//!   change in its log.
//! - `$ large PATH` makes a new book whose file has larger pages than `init` gives it.
//! - `$ folder PATH` makes a folder, and `$ link PATH OTHER` a link to the other file.
//! - `$ copy PATH OTHER` copies a file to the other, which then has no log. With another word in place of `copy`, the
//!   copy is made hostile (`files::made`).
//! - `$ same PATH OTHER` compares two files, byte for byte, and `$ gone PATH` holds that there is none.
//!
//! Each `@` stands for the book that the script is followed over. All tests share a folder, so that each has a book of
//! its own.
use super::databases::{change, make_large};
use super::hostile::files::made;
use super::runs::{Outcome, run};
use std::alloc::{AllocError, Global};
use std::fmt::Write;
use std::fs;
use std::os::unix::fs::symlink;
use std::test::Fail;

/// Adds the words that spaces part.
fn add_words<'a>(words: &mut Vec<&'a str>, text: &'a str) -> Result<(), AllocError> {
    for word in text.split(' ') {
        if !word.is_empty() {
            words.push(word)?;
        }
    }
    Ok(())
}

/// Adds the words of a line, some of which may be quoted.
fn read_words<'a>(words: &mut Vec<&'a str>, line: &'a str) -> Result<(), Fail> {
    let mut quoted = false;
    for part in line.split('\'') {
        if quoted {
            words.push(part)?;
        } else {
            add_words(words, part)?;
        }
        quoted = !quoted;
    }
    if quoted {
        return Ok(());
    }
    Err(Fail::from("a quote that has no end"))
}

/// Adds each line of what was printed, after its sign.
fn add_lines(shown: &mut String, sign: &str, printed: &str) -> Result<(), AllocError> {
    for line in printed.split_inclusive('\n') {
        shown.push_str(sign)?;
        shown.push_str(line)?;
    }
    if printed.is_empty() || printed.ends_with('\n') {
        return Ok(());
    }
    shown.push_str("~\n")
}

/// Whether the text has this line.
fn has_line(text: &str, wanted: &str) -> bool {
    for line in text.split_inclusive('\n') {
        if line == wanted {
            return true;
        }
    }
    false
}

/// Whether what was printed has what a line expects: a line after `= `, or a part of one after `> `.
fn has_expected(printed: &str, expected: &str) -> bool {
    if let Some(line) = expected.strip_prefix("= ") {
        return has_line(printed, line);
    }
    match expected.strip_prefix("> ") {
        Some(part) => printed.contains(part.strip_suffix('\n').unwrap_or(part)),
        None => false,
    }
}

/// Adds those lines of what is expected that were printed.
fn add_expected(shown: &mut String, expected: &str, printed: &str) -> Result<(), AllocError> {
    for line in expected.split_inclusive('\n') {
        if has_expected(printed, line) {
            shown.push_str(line)?;
        }
    }
    Ok(())
}

/// Adds what a step of this kind shows of a run's standard output.
fn add_out(shown: &mut String, kind: &str, expected: &str, run: &Outcome) -> Result<(), Fail> {
    let printed = std::str::from_utf8(run.out.bytes())?;
    if kind == "names" {
        return Ok(add_expected(shown, expected, printed)?);
    }
    if kind == "writes" && printed.ends_with('\n') {
        return Ok(writeln!(shown, "{} writes", run.out.writes())?);
    }
    if kind == "ends" {
        let sign = if printed.is_empty() { "" } else { ">\n" };
        return Ok(shown.push_str(sign)?);
    }
    Ok(add_lines(shown, "> ", printed)?)
}

/// Adds what a step of this kind shows of a run's standard error.
fn add_err(shown: &mut String, kind: &str, run: &Outcome) -> Result<(), Fail> {
    let printed = std::str::from_utf8(run.err.bytes())?;
    if kind == "ends" && !printed.is_empty() {
        return Ok(shown.push_str("!\n")?);
    }
    Ok(add_lines(shown, "! ", printed)?)
}

/// Adds how a run ended.
fn add_end(shown: &mut String, status: u8, end: &str) -> Result<(), Fail> {
    if end.is_empty() && status == 0 {
        return Ok(());
    }
    let gap = if end.is_empty() { "" } else { " " };
    Ok(writeln!(shown, "status {status}{gap}{end}")?)
}

/// What a step of this kind shows of a run.
pub fn shown_of(alloc: Global, kind: &str, expected: &str, run: &Outcome) -> Result<String, Fail> {
    let mut shown = String::new(alloc);
    add_out(&mut shown, kind, expected, run)?;
    add_err(&mut shown, kind, run)?;
    add_end(&mut shown, run.status, run.end)?;
    Ok(shown)
}

/// What a step of this kind shows of a run with these words, where standard output and standard error take these
/// numbers of bytes.
fn shown_by_run(
    rt: &HostRuntime,
    kind: &str,
    line: &str,
    expected: &str,
    (out_room, err_room): (usize, usize),
) -> Result<String, Fail> {
    let mut words = Vec::new(rt.alloc());
    read_words(&mut words, line)?;
    let run = run(rt, words.as_slice(), out_room, err_room);
    shown_of(rt.alloc(), kind, expected, &run)
}

/// The same, where one stream takes only as many bytes as stand before the words.
fn shown_in_room(
    rt: &HostRuntime,
    kind: &str,
    words: &str,
    expected: &str,
) -> Result<String, Fail> {
    let (room, line) = words.split_once(' ').unwrap_or((words, ""));
    let room = room.parse::<usize>()?;
    let rooms = match kind {
        "out" => (room, usize::MAX),
        _ => (usize::MAX, room),
    };
    shown_by_run(rt, kind, line, expected, rooms)
}

/// The text of a file, as a step gives it.
fn text_of(alloc: Global, kind: &str, text: &str) -> Result<String, AllocError> {
    if kind == "file" {
        return text.replace(alloc, "\\n", "\n");
    }
    let lines = format!(in alloc; "reference,to,amount {text} ")?;
    lines.as_str().replace(alloc, " ", "\n")
}

/// Makes a file of another one, as a step of this kind says.
fn remake(rt: &HostRuntime, kind: &str, from: &str, words: &str) -> Result<(), Fail> {
    let (to, number) = words.split_once(' ').unwrap_or((words, "0"));
    let number = number.parse::<u32>()?;
    let bytes = fs::read(rt, from)?;
    let made = made(rt.alloc(), kind, bytes.as_slice(), number)?;
    write(rt, to, made.as_slice())
}

/// Writes a file, which then has no log.
pub fn write(rt: &HostRuntime, path: &str, bytes: &[u8]) -> Result<(), Fail> {
    fs::write(rt, path, bytes)?;
    let log = format!(in rt.alloc(); "{path}-wal")?;
    let _ = fs::remove_file(rt, log.as_str());
    Ok(())
}

/// The file has these bytes.
pub fn has_bytes(rt: &HostRuntime, path: &str, bytes: &[u8]) -> Result<(), Fail> {
    if fs::read(rt, path)?.as_slice() == bytes {
        return Ok(());
    }
    Err(Fail::from("the file was changed"))
}

/// There is no file.
fn is_gone(rt: &HostRuntime, path: &str) -> Result<(), Fail> {
    if fs::metadata(rt, path).is_err() {
        return Ok(());
    }
    Err(Fail::from("a file"))
}

/// Writes a file, as a step of this kind says.
fn write_text(rt: &HostRuntime, kind: &str, path: &str, text: &str) -> Result<(), Fail> {
    let text = text_of(rt.alloc(), kind, text)?;
    write(rt, path, text.as_bytes())
}

/// Two files are the same.
fn is_same(rt: &HostRuntime, path: &str, other: &str) -> Result<(), Fail> {
    let bytes = fs::read(rt, other)?;
    has_bytes(rt, path, bytes.as_slice())
}

/// Follows a step that runs nothing.
fn prepare(rt: &HostRuntime, kind: &str, path: &str, text: &str) -> Result<(), Fail> {
    match kind {
        "file" | "orders" => write_text(rt, kind, path, text),
        "sql" => change(rt, path, text, false),
        "log" => change(rt, path, text, true),
        "same" => is_same(rt, path, text),
        "gone" => is_gone(rt, path),
        "large" => make_large(rt, path),
        "folder" => Ok(fs::create_dir(rt, path)?),
        "link" => Ok(symlink(rt, text, path)?),
        _ => remake(rt, kind, path, text),
    }
}

/// What a step shows.
fn shown_by(rt: &HostRuntime, line: &str, expected: &str) -> Result<String, Fail> {
    let (kind, words) = line.split_once(' ').unwrap_or((line, ""));
    if kind == "out" || kind == "err" {
        return shown_in_room(rt, kind, words, expected);
    }
    if kind == "desk" || kind == "names" || kind == "writes" || kind == "ends" {
        return shown_by_run(rt, kind, words, expected, (usize::MAX, usize::MAX));
    }
    let (path, text) = words.split_once(' ').unwrap_or((words, ""));
    prepare(rt, kind, path, text)?;
    Ok(String::new(rt.alloc()))
}

/// Follows one step: its line, and below that what it shows.
fn follow(rt: &HostRuntime, step: &str) -> Result<(), Fail> {
    let (line, expected) = step.split_once('\n').unwrap_or((step, "a line's end"));
    let shown = shown_by(rt, line, expected)?;
    if shown.as_str() == expected {
        return Ok(());
    }
    Err(Fail::new(format_args!("{line} printed {shown:?} and not {expected:?}")))
}

/// Follows the steps of a script.
fn follow_all(rt: &HostRuntime, script: &str) -> Result<(), Fail> {
    let Some(steps) = script.strip_prefix("\n$ ") else {
        return Err(Fail::from("a script begins with a step"));
    };
    for step in steps.split("$ ") {
        follow(rt, step)?;
    }
    Ok(())
}

/// Follows a script over a book.
pub fn follows(rt: &HostRuntime, book: &str, script: &str) -> Result<(), Fail> {
    let script = script.replace(rt.alloc(), "@", book)?;
    follow_all(rt, script.as_str())
}

/// Follows two scripts over a book.
pub fn follows_both(rt: &HostRuntime, book: &str, first: &str, then: &str) -> Result<(), Fail> {
    follows(rt, book, first)?;
    follows(rt, book, then)
}

/// Follows a script over a book, in which the case stands in place of the `%1` and the `%2`: what stands before ` ! `
/// in it, and what behind.
pub fn follows_case(rt: &HostRuntime, book: &str, script: &str, case: &str) -> Result<(), Fail> {
    let (first, second) = case.split_once(" ! ").unwrap_or((case, ""));
    let script = script.replace(rt.alloc(), "%1", first)?;
    let script = script.as_str().replace(rt.alloc(), "%2", second)?;
    follows(rt, book, script.as_str())
}

/// Follows a script over a book for each case, which is a line.
pub fn follows_each(rt: &HostRuntime, book: &str, script: &str, cases: &str) -> Result<(), Fail> {
    for case in cases.split('\n') {
        follows_case(rt, book, script, case)?;
    }
    Ok(())
}

/// Runs that are refused, with status 1. Each line has the words of a run and, after ` ! `, what it says.
pub const REFUSED: &str = "\n$ desk %1\n! %2\nstatus 1\n";
