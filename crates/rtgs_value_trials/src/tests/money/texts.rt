//! Codes, references and names, and the refusals' numbers.
use super::super::script::{lines_of, sides};
use super::super::setting::code;
use super::forms::{Form, reads};
use rtgs_money::{BusinessDate, Code, Key, Lexical, Name, Reference};
use rtgs_tests_desks::{ensure, is};
use std::alloc::Global;
use std::test::Fail;

/// Bytes, and the bytes of the code.
const CODES: &str = "
'AAA' = 'AAA'
'ZZZ' = 'ZZZ'
'A00' = 'A00'
'ALFA' = 'ALFA'
'Z9Z9Z9Z9' = 'Z9Z9Z9Z9'
'' = BadCode
'AB' = BadCode
'ABCDEFGHI' = BadCode
'1AB' = BadCode
'aBC' = BadCode
'ABc' = BadCode
'AB-' = BadCode
'AB ' = BadCode
'AB@' = BadCode
'AB[' = BadCode
'AB/' = BadCode
'A%c3%84' = BadCode
";

#[test]
fn a_code_is_a_letter_and_then_letters_and_digits(rt: HostRuntime) -> Result<(), Fail> {
    reads(rt.alloc(), Form::Code, CODES)
}

/// Bytes, and the bytes of the reference.
const REFERENCES: &str = "
'A' = 'A'
'-' = '-'
'0' = '0'
'A-1' = 'A-1'
'ABCDEFGHIJ-01239' = 'ABCDEFGHIJ-01239'
'' = BadReference
'ABCDEFGHIJ-012345' = BadReference
'a' = BadReference
'A_1' = BadReference
'A 1' = BadReference
'A.1' = BadReference
'%ff' = BadReference
";

#[test]
fn a_reference_is_letters_digits_and_dashes(rt: HostRuntime) -> Result<(), Fail> {
    reads(rt.alloc(), Form::Reference, REFERENCES)
}

/// Bytes, and the bytes of the name.
const NAMES: &str = "
'!' = '!'
'~' = '~'
'Alfa Bank' = 'Alfa Bank'
'a  b, \"c\"' = 'a  b, \"c\"'
'1234567890123456789012345678901234567890' = '1234567890123456789012345678901234567890'
'' = BadName
' ' = BadName
' A' = BadName
'A ' = BadName
'A%1fB' = BadName
'A%7fB' = BadName
'A%c3%84' = BadName
'12345678901234567890123456789012345678901' = BadName
";

#[test]
fn a_name_is_printable_with_no_space_at_its_ends(rt: HostRuntime) -> Result<(), Fail> {
    reads(rt.alloc(), Form::Name, NAMES)
}

/// Two codes, of which the first is the lesser.
const RISING_CODES: &str = "
AAA < AAA0
AAA0 < AAAA
AAAA < AAB
AAB < B00
";

// The first code of a line is the lesser.
fn rises(line: &str) -> Result<(), Fail> {
    let (earlier, later) = sides(line, " < ")?;
    if code(earlier)? < code(later)? {
        Ok(())
    } else {
        Err(Fail::new(line))
    }
}

#[test]
fn codes_stand_in_the_order_of_their_bytes(_rt: HostRuntime) -> Result<(), Fail> {
    for line in lines_of(RISING_CODES)? {
        rises(line)?;
    }
    ensure(Reference::read(b"A-1")? < Reference::read(b"A01")?)
}

// Codes, references and names.
fn short_texts_are_lent() -> Result<(), Fail> {
    is(Code::read(b"ALFA")?.as_str(), "ALFA")?;
    is(Reference::read(b"A-1")?.as_str(), "A-1")?;
    is(Name::read(b"Alfa Bank")?.as_str(), "Alfa Bank")
}

fn a_key_is_lent() -> Result<(), Fail> {
    let key = Key::read(b"0123456789abcdef0123456789abcdef")?;
    is(key.as_str(), "0123456789abcdef0123456789abcdef")
}

fn a_date_is_lent(alloc: Global) -> Result<(), Fail> {
    let text = BusinessDate::read(b"2024-03-04")?.text();
    let printed = format!(in alloc; "{text:>12}|{text:?}")?;
    is(printed.as_str(), "  2024-03-04|\"2024-03-04\"")
}

#[test]
fn texts_are_lent_as_they_were_read(rt: HostRuntime) -> Result<(), Fail> {
    short_texts_are_lent()?;
    a_key_is_lent()?;
    a_date_is_lent(rt.alloc())
}

/// The refusals with their numbers and names, and what they print.
const REFUSALS: &str = "
BadCode = 30 BadCode BadCode
BadReference = 31 BadReference BadReference
BadAmount = 32 BadAmount BadAmount
BadName = 33 BadName BadName
BadKey = 34 BadKey BadKey
BadDate = 35 BadDate BadDate
";

// The refusal that stands after this one.
fn refusal_after(refusal: Lexical) -> Option<Lexical> {
    match refusal {
        Lexical::BadCode => Some(Lexical::BadReference),
        Lexical::BadReference => Some(Lexical::BadAmount),
        Lexical::BadAmount => Some(Lexical::BadName),
        Lexical::BadName => Some(Lexical::BadKey),
        Lexical::BadKey => Some(Lexical::BadDate),
        Lexical::BadDate => None,
    }
}

// The refusal with its number and name, and what it prints.
fn in_words(alloc: Global, refusal: Lexical) -> Result<String, Fail> {
    let (number, name) = (refusal.kind().number(), refusal.kind().name());
    Ok(format!(in alloc; "{refusal:?} = {number} {name} {refusal}")?)
}

// There is a refusal, and it is that of this line.
fn is_refusal(alloc: Global, refusal: Option<Lexical>, line: &str) -> Result<(), Fail> {
    let refusal = refusal.ok_or("a line after that of the last refusal")?;
    is(in_words(alloc, refusal)?.as_str(), line)
}

#[test]
fn refusals_have_their_numbers_and_names(rt: HostRuntime) -> Result<(), Fail> {
    let mut next = Some(Lexical::BadCode);
    for line in lines_of(REFUSALS)? {
        is_refusal(rt.alloc(), next, line)?;
        next = next.and_then(refusal_after);
    }
    ensure(next.is_none())
}
