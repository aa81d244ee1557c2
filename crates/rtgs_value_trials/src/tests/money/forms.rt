//! What bytes are read as, as text: a value of the form that was asked for, or why they are none.
use super::super::script::{bytes_of, lines_of, sides};
use rtgs_money::{Amount, BusinessDate, Code, Credit, Key, Name, PostingAmount, Reference};
use std::alloc::Global;
use std::test::Fail;

/// What is asked for.
#[derive(Clone, Copy)]
pub enum Form {
    Code,
    Reference,
    Name,
    Key,
    Amount,
    Posting,
    Debit,
    Credit,
    Date,
    Weekend,
}

/// In each line of the table, the bytes in quotes before ` = ` are read as what stands after it.
pub fn reads(alloc: Global, form: Form, table: &str) -> Result<(), Fail> {
    for line in lines_of(table)? {
        let (given, said) = sides(line, " = ")?;
        let bytes = bytes_of(alloc, given)?;
        let in_words = in_words(alloc, form, &bytes)?;
        if in_words.as_str() != said {
            return Err(Fail::new(format!(in alloc; "{line}, and not {in_words}")?));
        }
    }
    Ok(())
}

fn in_words(alloc: Global, form: Form, bytes: &[u8]) -> Result<String, Fail> {
    match form {
        Form::Code => code(alloc, bytes),
        Form::Reference => reference(alloc, bytes),
        Form::Name => name(alloc, bytes),
        Form::Key => key(alloc, bytes),
        Form::Amount => amount(alloc, bytes),
        Form::Posting => posting(alloc, bytes),
        Form::Debit => debit(alloc, bytes),
        Form::Credit => credit(alloc, bytes),
        Form::Date => date(alloc, bytes),
        Form::Weekend => weekend(alloc, bytes),
    }
}

// The bytes of a text, in quotes.
fn quoted(alloc: Global, bytes: &[u8]) -> Result<String, Fail> {
    Ok(format!(in alloc; "'{}'", str::from_utf8(bytes)?)?)
}

fn code(alloc: Global, bytes: &[u8]) -> Result<String, Fail> {
    match Code::read(bytes) {
        Ok(code) => quoted(alloc, code.as_bytes()),
        Err(refusal) => Ok(format!(in alloc; "{refusal:?}")?),
    }
}

fn reference(alloc: Global, bytes: &[u8]) -> Result<String, Fail> {
    match Reference::read(bytes) {
        Ok(reference) => quoted(alloc, reference.as_bytes()),
        Err(refusal) => Ok(format!(in alloc; "{refusal:?}")?),
    }
}

fn name(alloc: Global, bytes: &[u8]) -> Result<String, Fail> {
    match Name::read(bytes) {
        Ok(name) => quoted(alloc, name.as_bytes()),
        Err(refusal) => Ok(format!(in alloc; "{refusal:?}")?),
    }
}

fn key(alloc: Global, bytes: &[u8]) -> Result<String, Fail> {
    match Key::read(bytes) {
        Ok(key) => quoted(alloc, key.as_bytes()),
        Err(refusal) => Ok(format!(in alloc; "{refusal:?}")?),
    }
}

fn amount(alloc: Global, bytes: &[u8]) -> Result<String, Fail> {
    match Amount::read(bytes) {
        Ok(amount) => Ok(format!(in alloc; "{}", amount.cents())?),
        Err(refusal) => Ok(format!(in alloc; "{refusal:?}")?),
    }
}

fn posting(alloc: Global, bytes: &[u8]) -> Result<String, Fail> {
    match PostingAmount::read(bytes) {
        Ok(posting) => Ok(format!(in alloc; "{}", posting.cents())?),
        Err(refusal) => Ok(format!(in alloc; "{refusal:?}")?),
    }
}

fn debit(alloc: Global, bytes: &[u8]) -> Result<String, Fail> {
    match PostingAmount::read_debit(bytes) {
        Ok(posting) => Ok(format!(in alloc; "{}", posting.cents())?),
        Err(refusal) => Ok(format!(in alloc; "{refusal:?}")?),
    }
}

fn credit(alloc: Global, bytes: &[u8]) -> Result<String, Fail> {
    match Credit::read(bytes) {
        Ok(credit) => Ok(format!(in alloc; "{}", credit.cents())?),
        Err(refusal) => Ok(format!(in alloc; "{refusal:?}")?),
    }
}

// The date's number and text. By its number the date is found again.
fn date(alloc: Global, bytes: &[u8]) -> Result<String, Fail> {
    match BusinessDate::read(bytes) {
        Ok(date) if BusinessDate::from_number(date.number()) != Some(date) => {
            Err(Fail::from("another date by the date's number"))
        }
        Ok(date) => Ok(format!(in alloc; "{} {}", date.number(), date.text())?),
        Err(refusal) => Ok(format!(in alloc; "{refusal:?}")?),
    }
}

fn weekend(alloc: Global, bytes: &[u8]) -> Result<String, Fail> {
    match BusinessDate::read(bytes) {
        Ok(date) if date.is_weekend() => Ok(format!(in alloc; "weekend")?),
        Ok(_) => Ok(format!(in alloc; "weekday")?),
        Err(refusal) => Ok(format!(in alloc; "{refusal:?}")?),
    }
}
