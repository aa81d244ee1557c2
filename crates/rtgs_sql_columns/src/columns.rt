//! Values as the columns hold them.
ghost use Rattle.std.specs.Prelude.{◌≡◌, ◌<◌, ◌≤◌, ◌^◌, pos, option_map, OnOk, IfErr};
ghost use Rattle.sqlite.specs.Values.{or_null};
ghost use Rattle.sqlite.specs.declared.types.Value.TheVariants.{Int, Text as TextValue, Blob};
ghost use Rattle.sqlite_value.specs.Value.{owned};
ghost use Rattle.rtgs_money.specs.Amounts.{IsAmount, IsPostingAmount, IsCredit};
ghost use Rattle.rtgs_money.specs.Date.{date_text, IsBusinessDate};
ghost use Rattle.rtgs_rows.specs.Fitting.{FitsDate};
ghost use Rattle.rtgs_rows.specs.Rows.{phase_number, resolution_number, state_number, mark_value as value_of_mark};
ghost use Rattle.rtgs_rows.specs.Rows.{FitsColumn};

use rtgs_book::{OrderState, Phase};
use rtgs_money::{Amount, BusinessDate, Cents, Credit, PostingAmount, Text};
use rtgs_rows::numbers::{
    PHASE_CLOSED, PHASE_CUT_OFF, PHASE_OPEN, RESOLUTION_AUTOMATIC, RESOLUTION_ON_REQUEST,
    STATE_HELD, STATE_QUEUED, STATE_REJECTED, STATE_SETTLED, STATE_WITHDRAWN,
};
use sqlite::types::ValueRef;
use sqlite::{Error, ErrorCode};

/// The greatest number that a column can hold.
const GREATEST: u64 = 0x7fff_ffff_ffff_ffff;

/// Refuses a number that no column can hold, and no other, as too big for the store.
pub fn check_number(n: u64) -> Result<(), Error>
    ensures fits { OnOk result (n < 2 ^ 63) }
    ensures refused { IfErr result (λ e. (2 ^ 63 ≤ n) × (e ≡ Error.SqliteFailure ErrorCode.TooBig)) }
{
    if n > GREATEST {
        return Err(Error::SqliteFailure(ErrorCode::TooBig));
    }
    Ok(())
}

/// Refuses a mark that no column can hold, and no other, as too big for the store.
pub fn check_mark(state: OrderState) -> Result<(), Error>
    ensures fits { OnOk result (FitsColumn state) }
    ensures refused { IfErr result (λ e. (¬ FitsColumn state) × (e ≡ Error.SqliteFailure ErrorCode.TooBig)) }
{
    match state {
        OrderState::Settled(mark) => check_number(mark),
        _ => Ok(()),
    }
}

/// A number as an integer of a table.
pub fn number_value(n: u64) -> ValueRef<'static>
    requires { n < 2 ^ 63 }
    ensures { owned result ≡ Int (pos n) }
{
    ValueRef::Int(n as i64)
}

/// The mark of a settled order, and null for any other.
pub fn mark_value(state: OrderState) -> ValueRef<'static>
    requires { FitsColumn state }
    ensures { owned result ≡ value_of_mark state }
{
    match state {
        OrderState::Settled(mark) => number_value(mark),
        _ => ValueRef::Null,
    }
}

/// The number of the state.
pub fn state_value(state: OrderState) -> ValueRef<'static>
    ensures { owned result ≡ Int (pos (state_number state)) }
{
    number_value(match state {
        OrderState::Queued => STATE_QUEUED,
        OrderState::Held => STATE_HELD,
        OrderState::Settled(_) => STATE_SETTLED,
        OrderState::Withdrawn => STATE_WITHDRAWN,
        OrderState::Rejected => STATE_REJECTED,
    })
}

/// The number of the phase.
pub fn phase_value(phase: Phase) -> ValueRef<'static>
    ensures { owned result ≡ Int (pos (phase_number phase)) }
{
    number_value(match phase {
        Phase::Closed => PHASE_CLOSED,
        Phase::Open => PHASE_OPEN,
        Phase::CutOff => PHASE_CUT_OFF,
    })
}

/// The number of the choice whether a day is automatic.
pub fn resolution_value(automatic: bool) -> ValueRef<'static>
    ensures { owned result ≡ Int (pos (resolution_number automatic)) }
{
    number_value(if automatic {
        RESOLUTION_AUTOMATIC
    } else {
        RESOLUTION_ON_REQUEST
    })
}

/// An amount in cents.
pub fn amount_value(amount: Amount) -> ValueRef<'static>
    ensures value { owned result ≡ Int (pos amount) }
    ensures in_range { IsAmount amount }
{
    number_value(amount.cents())
}

/// A credit limit in cents.
pub fn credit_value(credit: Credit) -> ValueRef<'static>
    ensures value { owned result ≡ Int (pos credit) }
    ensures in_range { IsCredit credit }
{
    number_value(credit.cents())
}

/// What a posting adds, in cents.
pub fn posting_value(amount: PostingAmount) -> ValueRef<'static>
    ensures value { owned result ≡ Int amount }
    ensures in_range { IsPostingAmount amount }
{
    ValueRef::Int(amount.cents())
}

/// A balance or a value, in cents.
pub fn cents_value(cents: Cents) -> ValueRef<'static>
    ensures { owned result ≡ Int cents }
{
    ValueRef::Int(cents.cents())
}

/// Bytes as a text of a table. They are not copied.
pub fn text(bytes: &[u8]) -> ValueRef<'_>
    ensures { owned result ≡ TextValue bytes.now }
{
    ValueRef::Text(bytes)
}

/// Bytes as a blob of a table. They are not copied.
pub fn blob(bytes: &[u8]) -> ValueRef<'_>
    ensures { owned result ≡ Blob bytes.now }
{
    ValueRef::Blob(bytes)
}

fn text_of_date(date: BusinessDate) -> Text<10>
    ensures text { result ≡ date_text date }
    ensures in_range { IsBusinessDate date }
{
    // States that the date is in its range, which the text does not state.
    date.number();
    date.text()
}

/// The text of a date, if there is one.
pub fn text_of(date: Option<BusinessDate>) -> Option<Text<10>>
    ensures text { result ≡ option_map date_text date }
    ensures in_range { FitsDate date }
{
    match date {
        Some(date) => Some(text_of_date(date)),
        None => None,
    }
}

/// A text as a text of a table, or NULL where there is none.
pub fn text_or_null(text: &Option<Text<10>>) -> ValueRef<'_>
    ensures { owned result ≡ or_null TextValue text.now }
{
    match text {
        Some(text) => ValueRef::Text(text.as_bytes()),
        None => ValueRef::Null,
    }
}
