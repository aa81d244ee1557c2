//! The members of an object, taken one after another in the order of their keys.
ghost use Rattle.std.specs.Prelude.{◌≡◌, ◌≢◌, ℕ, List, None, IfSome, true, false};
ghost use Rattle.serde_json.specs.Data.{Data, Members, member, no_members, number, string, unsigned};
ghost use Rattle.serde_json.specs.View.{members_view, view};

use serde_json::Value;
use std::collections::btree_map::Iter;

/// The members that are left of an object.
pub(crate) type Left<'a> = Iter<'a, String, Value>;

/// The value of the next member, where it has this key.
pub(crate) fn value_under<'a>(members: &mut Left<'a>, key: &str) -> Option<&'a Value>
    ensures some { IfSome result (λ value. members_view members.old
        ≡ member key.now (view value.now) (members_view members.new)) }
    ensures none { result ≡ None → (value : Data) (rest : Members)
        → members_view members.old ≢ member key.now value rest }
{
    let (name, value) = members.next()?;
    if name.as_str() != key {
        return None;
    }
    Some(value)
}

/// The text of the next member, where it has this key and is one.
pub(crate) fn text_under<'a>(members: &mut Left<'a>, key: &str) -> Option<&'a str>
    ensures some { IfSome result (λ text. members_view members.old
        ≡ member key.now (string text.now) (members_view members.new)) }
    ensures none { result ≡ None → (text : List ℕ) (rest : Members)
        → members_view members.old ≢ member key.now (string text) rest }
{
    value_under(members, key)?.as_str()
}

/// The number of the next member, where it has this key and is one that is never below zero.
pub(crate) fn whole_under(members: &mut Left<'_>, key: &str) -> Option<u64>
    ensures some { IfSome result (λ whole. members_view members.old
        ≡ member key.now (number (unsigned whole)) (members_view members.new)) }
    ensures none { result ≡ None → (whole : ℕ) (rest : Members)
        → members_view members.old ≢ member key.now (number (unsigned whole)) rest }
{
    value_under(members, key)?.as_u64()
}

/// Whether no member is left.
pub(crate) fn are_all_taken(members: &mut Left<'_>) -> bool
    ensures yes { result ≡ true → members_view members.old ≡ no_members }
    ensures no { result ≡ false → members_view members.old ≢ no_members }
{
    members.next().is_none()
}
