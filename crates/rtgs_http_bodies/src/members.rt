//! The members of a JSON object, added one after another. Each call takes those before it: so where memory runs out,
//! its caller has nothing left to drop, which would be proved again for each member.
ghost use Rattle.std.specs.Prelude.{◌≡◌, IfOk, FitsSigned};
ghost use Rattle.std.specs.Int.{w64};
ghost use Rattle.serde_json.specs.Data.{no_members, object, put as with_member, string};
ghost use Rattle.serde_json.specs.View.{members_view, view};
ghost use Rattle.rtgs_http_bodies.specs.replies.Bodies.{signed, whole};

use rtgs_money::Units;
use serde_json::{Map, Value, put};
use std::alloc::{AllocError, Global};

/// The members of an object, as far as they were added.
pub(crate) type Members = Map<String, Value>;

/// The members with a text as one more.
pub(crate) fn with_text(
    alloc: Global,
    mut members: Members,
    key: &str,
    text: &str,
) -> Result<Members, AllocError>
    ensures { IfOk result (λ added. members_view added.entries
        ≡ with_member key.now (string text.now) (members_view members.entries)) }
{
    let value = Value::try_from_str(alloc, text)?;
    put(&mut members, alloc, key, value)?;
    Ok(members)
}

/// The members with a number that is never below zero as one more.
pub(crate) fn with_whole(
    alloc: Global,
    mut members: Members,
    key: &str,
    number: u64,
) -> Result<Members, AllocError>
    ensures { IfOk result (λ added. members_view added.entries
        ≡ with_member key.now (whole number) (members_view members.entries)) }
{
    put(&mut members, alloc, key, Value::from(number))?;
    Ok(members)
}

/// The members with a number with its sign as one more.
pub(crate) fn with_signed(
    alloc: Global,
    mut members: Members,
    key: &str,
    number: i64,
) -> Result<Members, AllocError>
    ensures { IfOk result (λ added. members_view added.entries
        ≡ with_member key.now (signed number) (members_view members.entries)) }
{
    put(&mut members, alloc, key, Value::from(number))?;
    Ok(members)
}

/// The members with a sum of cents as one more. It is shown up to 2^63 - 1 cents.
pub(crate) fn with_sum(
    alloc: Global,
    members: Members,
    key: &str,
    sum: Units,
) -> Result<Members, AllocError>
    ensures { FitsSigned w64 sum → IfOk result (λ added. members_view added.entries
        ≡ with_member key.now (signed sum) (members_view members.entries)) }
{
    with_signed(alloc, members, key, in_64_bits(sum.cents()))
}

/// This many cents, where 64 bits hold them, and else the most that they hold.
pub(crate) fn in_64_bits(cents: i128) -> i64
    ensures { FitsSigned w64 cents → result ≡ cents }
{
    i64::try_from(cents).unwrap_or(i64::MAX)
}

/// The members with a value as one more.
pub(crate) fn with_value(
    alloc: Global,
    mut members: Members,
    key: &str,
    value: Value,
) -> Result<Members, AllocError>
    ensures { IfOk result (λ added. members_view added.entries
        ≡ with_member key.now (view value) (members_view members.entries)) }
{
    put(&mut members, alloc, key, value)?;
    Ok(members)
}

/// The object that begins with this text.
pub(crate) fn begun_by(alloc: Global, key: &str, text: &str) -> Result<Members, AllocError>
    ensures { IfOk result (λ added. members_view added.entries ≡ with_member key.now (string text.now) no_members) }
{
    with_text(alloc, Map::new(alloc), key, text)
}
