//! The members of the value of a body that is no order: exactly the keys of a route, of their kinds.
ghost use Rattle.std.specs.Prelude.{◌≡◌, ◌↔◌, ℕ, ℤ, Bool, List, None, IsTrue, IfSome, option_and_then};
ghost use Rattle.serde_json.specs.Find.{as_integer, as_number};
ghost use Rattle.serde_json.specs.View.{view};
ghost use Rattle.rtgs_http_requests.specs.Contents.{HasPosting, HasCredit, HasDate, HasChoice, HasOpening, HasNothing};

use crate::members::{are_all_taken, text_under, value_under, whole_under};
use serde_json::Value;

/// The code, the reference and the cents of a posting.
pub fn posting_of(value: &Value) -> Option<(&str, &str, i128)>
    ensures some { IfSome result (λ (code, reference, cents).
        HasPosting (code.now, reference.now, cents) (view value.now)) }
    ensures none { result ≡ None → (code reference : List ℕ) (cents : ℤ)
        → ¬ HasPosting (code, reference, cents) (view value.now) }
{
    let mut members = value.as_object()?.iter();
    let cents = whole_of(value_under(&mut members, "cents")?)?;
    let code = text_under(&mut members, "code")?;
    let reference = text_under(&mut members, "reference")?;
    if !are_all_taken(&mut members) {
        return None;
    }
    Some((code, reference, cents))
}

/// The code and the limit of a credit.
pub fn credit_of(value: &Value) -> Option<(&str, u64)>
    ensures some { IfSome result (λ (code, credit). HasCredit (code.now, credit) (view value.now)) }
    ensures none { result ≡ None → (code : List ℕ) (credit : ℕ) → ¬ HasCredit (code, credit) (view value.now) }
{
    let mut members = value.as_object()?.iter();
    let code = text_under(&mut members, "code")?;
    let credit = whole_under(&mut members, "credit")?;
    if !are_all_taken(&mut members) {
        return None;
    }
    Some((code, credit))
}

/// The date of a day.
pub fn date_of(value: &Value) -> Option<&str>
    ensures some { IfSome result (λ date. HasDate date.now (view value.now)) }
    ensures none { result ≡ None → (date : List ℕ) → ¬ HasDate date (view value.now) }
{
    let mut members = value.as_object()?.iter();
    let (first, date) = members.next()?;
    if members.next().is_some() || first.as_str() != "date" {
        return None;
    }
    date.as_str()
}

/// The date of a day that opens, and whether the day is to be automatic: it is not where nothing is said of that.
pub fn opening_of(value: &Value) -> Option<(&str, bool)>
    ensures some { IfSome result (λ (date, automatic). HasOpening (date.now, automatic) (view value.now)) }
    ensures none { result ≡ None → (date : List ℕ) (automatic : Bool)
        → ¬ HasOpening (date, automatic) (view value.now) }
{
    match date_of(value) {
        Some(date) => Some((date, false)),
        None => chosen_opening_of(value),
    }
}

// The same where it is said whether the day is to be automatic.
fn chosen_opening_of(value: &Value) -> Option<(&str, bool)>
    ensures some { IfSome result (λ (date, automatic). HasChoice (date.now, automatic) (view value.now)) }
    ensures none { result ≡ None → (date : List ℕ) (automatic : Bool)
        → ¬ HasChoice (date, automatic) (view value.now) }
{
    let mut members = value.as_object()?.iter();
    let automatic = value_under(&mut members, "automatic")?.as_bool()?;
    let date = text_under(&mut members, "date")?;
    if !are_all_taken(&mut members) {
        return None;
    }
    Some((date, automatic))
}

/// Whether the value is the object with no members.
pub fn is_nothing(value: &Value) -> bool
    ensures { IsTrue result ↔ HasNothing (view value.now) }
{
    match value.as_object() {
        Some(members) => members.iter().next().is_none(),
        None => false,
    }
}

// The whole number that the value is.
fn whole_of(value: &Value) -> Option<i128>
    ensures { result ≡ option_and_then as_integer (as_number (view value.now)) }
{
    match value.as_u64() {
        Some(number) => Some(i128::from(number)),
        None => value.as_i64().map(i128::from),
    }
}
