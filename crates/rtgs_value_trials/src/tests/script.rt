//! Tables of cases as text: a case a line, which the tests read one after another.
use std::alloc::Global;
use std::str::Lines;
use std::test::Fail;

/// The lines of a table, which has one at least.
pub fn lines_of(table: &str) -> Result<Lines<'_>, Fail> {
    let table = table.trim();
    if table.is_empty() {
        return Err(Fail::from("a table without a line"));
    }
    Ok(table.lines())
}

/// What stands in a line before and after the first `between`.
pub fn sides<'a>(line: &'a str, between: &str) -> Result<(&'a str, &'a str), Fail> {
    match line.split_once(between) {
        Some(sides) => Ok(sides),
        None => Err(Fail::new(line)),
    }
}

/// The bytes of a text in quotes, in which `%` and two digits stand for the byte of that number.
pub fn bytes_of(alloc: Global, quoted: &str) -> Result<Vec<u8>, Fail> {
    let mut parts = unquoted(quoted)?.split('%');
    let plain = parts.next().unwrap_or("");
    let mut bytes = Vec::from_slice(alloc, plain.as_bytes())?;
    for part in parts {
        add(&mut bytes, part)?;
    }
    Ok(bytes)
}

// What stands between the quotes.
fn unquoted(quoted: &str) -> Result<&str, Fail> {
    let text = quoted.strip_prefix("'").ok_or("no quote before a text")?;
    Ok(text.strip_suffix("'").ok_or("no quote after a text")?)
}

// Adds the byte of the two digits that a part begins with, and the bytes of the rest.
fn add(bytes: &mut Vec<u8>, part: &str) -> Result<(), Fail> {
    let (byte, rest) = byte_of(part)?;
    bytes.push(byte)?;
    bytes.extend_from_slice(rest.as_bytes())?;
    Ok(())
}

fn byte_of(part: &str) -> Result<(u8, &str), Fail> {
    let (digits, rest) = part.split_at_checked(2).ok_or("no two digits of a byte")?;
    Ok((u8::from_str_radix(digits, 16)?, rest))
}
