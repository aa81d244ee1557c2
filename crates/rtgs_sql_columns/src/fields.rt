//! The values of a row, by their place.
ghost use Rattle.std.specs.Prelude.{◌≡◌, ◌<◌, ℕ, ℤ, pos, List, length, Some, None, true, false, IsSome, IfSome, OnSome};
ghost use Rattle.std.specs.Prelude.{IsSomeAnd};
ghost use Rattle.sqlite_value.specs.Order.{column};
ghost use Rattle.sqlite.specs.declared.types.Value.TheVariants.{Null, Int, Text, Blob};
ghost use Rattle.rtgs_money.specs.Forms.{IsCode, IsReference, IsName};
ghost use Rattle.rtgs_money.specs.Date.{date_text, IsBusinessDate};
ghost use Rattle.rtgs_rows.specs.Fitting.{FitsDate};
ghost use Rattle.rtgs_rows.specs.Rows.{date_value};
ghost use Rattle.rtgs_sql_columns.specs.Numbers.{at_least_zero};

use rtgs_money::{BusinessDate, Cents, Code, Name, Reference};
use sqlite::Row;
use sqlite::types::ValueRef;

/// Nothing, where the row has this many values.
pub fn width(row: &Row, wide: usize) -> Option<()>
    ensures found { length row.now ≡ wide → IsSome result }
    ensures is { OnSome result (length row.now ≡ wide) }
{
    if row.column_count() == wide {
        Some(())
    } else {
        None
    }
}

/// The integer in this column, counted from 0, if it holds one.
pub fn int(row: &Row, at: usize) -> Option<i64>
    ensures found { (n : ℤ) → at < length row.now → column row.now at ≡ Int n → result ≡ Some n }
    ensures is { IfSome result (λ n. column row.now at ≡ Int n) }
{
    match row.get_ref(at) {
        Ok(ValueRef::Int(n)) => Some(n),
        _ => None,
    }
}

/// A number of a record. One below zero is read as 0, which breaks the same rule of a sound book.
pub fn number(row: &Row, at: usize) -> Option<u64>
    ensures found { (n : ℕ) → at < length row.now → at_least_zero (column row.now at) ≡ Int (pos n)
        → result ≡ Some n }
    ensures is { IfSome result (λ n. at_least_zero (column row.now at) ≡ Int (pos n)) }
{
    let n = int(row, at)?;
    Some(u64::try_from(n).unwrap_or(0))
}

/// A number that is not below zero.
pub fn unsigned(row: &Row, at: usize) -> Option<u64>
    ensures found { (n : ℕ) → at < length row.now → column row.now at ≡ Int (pos n) → result ≡ Some n }
    ensures is { IfSome result (λ n. column row.now at ≡ Int (pos n)) }
{
    u64::try_from(int(row, at)?).ok()
}

/// A balance or a value, in cents.
pub fn cents(row: &Row, at: usize) -> Option<Cents>
    ensures found { (n : ℤ) → at < length row.now → column row.now at ≡ Int n → result ≡ Some n }
    ensures is { IfSome result (λ n. column row.now at ≡ Int n) }
{
    Some(Cents::new(int(row, at)?))
}

/// The bytes of a text.
pub fn text(row: &Row, at: usize) -> Option<&[u8]>
    ensures found { (bytes : List ℕ) → at < length row.now → column row.now at ≡ Text bytes
        → IsSomeAnd result (λ s. s.now ≡ bytes) }
    ensures is { IfSome result (λ s. column row.now at ≡ Text s.now) }
{
    match row.get_ref(at) {
        Ok(ValueRef::Text(bytes)) => Some(bytes),
        _ => None,
    }
}

/// The bytes of a blob.
pub fn blob(row: &Row, at: usize) -> Option<&[u8]>
    ensures found { (bytes : List ℕ) → at < length row.now → column row.now at ≡ Blob bytes
        → IsSomeAnd result (λ s. s.now ≡ bytes) }
    ensures is { IfSome result (λ s. column row.now at ≡ Blob s.now) }
{
    match row.get_ref(at) {
        Ok(ValueRef::Blob(bytes)) => Some(bytes),
        _ => None,
    }
}

/// Whether there is no value.
pub fn is_null(row: &Row, at: usize) -> bool
    ensures null { at < length row.now → column row.now at ≡ Null → result ≡ true }
    ensures text { (bytes : List ℕ) → at < length row.now → column row.now at ≡ Text bytes → result ≡ false }
    ensures int { (n : ℤ) → at < length row.now → column row.now at ≡ Int n → result ≡ false }
    ensures is { result ≡ true → column row.now at ≡ Null }
{
    matches!(row.get_ref(at), Ok(ValueRef::Null))
}

/// The code in this column, counted from 0, if it holds the text of one.
pub fn code(row: &Row, at: usize) -> Option<Code>
    ensures found { (code : List ℕ) → IsCode code → at < length row.now → column row.now at ≡ Text code
        → result ≡ Some code }
    ensures is { IfSome result (λ it. IsCode it × (column row.now at ≡ Text it)) }
{
    Code::read(text(row, at)?).ok()
}

/// The reference in this column, counted from 0, if it holds the text of one.
pub fn reference(row: &Row, at: usize) -> Option<Reference>
    ensures found { (reference : List ℕ) → IsReference reference → at < length row.now
        → column row.now at ≡ Text reference → result ≡ Some reference }
    ensures is { IfSome result (λ it. IsReference it × (column row.now at ≡ Text it)) }
{
    Reference::read(text(row, at)?).ok()
}

/// The name in this column, counted from 0, if it holds the text of one.
pub fn name(row: &Row, at: usize) -> Option<Name>
    ensures found { (name : List ℕ) → IsName name → at < length row.now → column row.now at ≡ Text name
        → result ≡ Some name }
    ensures is { IfSome result (λ it. IsName it × (column row.now at ≡ Text it)) }
{
    Name::read(text(row, at)?).ok()
}

/// The date in this column, counted from 0, if it holds the text of one.
pub fn date(row: &Row, at: usize) -> Option<BusinessDate>
    ensures found { (date : ℕ) → IsBusinessDate date → at < length row.now → column row.now at ≡ Text (date_text date)
        → result ≡ Some date }
    ensures is { IfSome result (λ it. IsBusinessDate it × (column row.now at ≡ Text (date_text it))) }
{
    BusinessDate::read(text(row, at)?).ok()
}

/// A business date, or none.
pub fn date_or_null(row: &Row, at: usize) -> Option<Option<BusinessDate>>
    ensures none { at < length row.now → column row.now at ≡ Null → result ≡ Some None }
    ensures some { (date : ℕ) → IsBusinessDate date → at < length row.now → column row.now at ≡ Text (date_text date)
        → result ≡ Some (Some date) }
    ensures is { IfSome result (λ it. FitsDate it × (column row.now at ≡ date_value it)) }
{
    if is_null(row, at) {
        return Some(None);
    }
    Some(Some(date(row, at)?))
}
