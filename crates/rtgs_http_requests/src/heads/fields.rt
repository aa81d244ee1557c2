//! The fields of a head.
ghost use Rattle.std.specs.Prelude.{◌≡◌, ℕ, Option, All, map, length, codes, IfOk, IfErr, OnErr};
ghost use Rattle.std.specs.Str.{str_eq_ignore_ascii_case};
ghost use Rattle.httparse.specs.Spans.{IsHeaderWithin, header_bytes};
ghost use Rattle.rtgs_http_requests.specs.heads.Fields.{values_of, HasLength, HasKey};
ghost use Rattle.rtgs_http_requests.specs.heads.NamedValues.{AreNamed};
ghost use Rattle.rtgs_http_requests.specs.declared.heads.head_fault.HeadFault.{HeadFault};

use crate::heads::head_fault::HeadFault;
use crate::heads::named_values::NamedValues;
use crate::heads::number::read_number;
use httparse::spans::HeaderSpan;
use rtgs_money::{Key, KeyDigest};

/// The length of the body that the fields declare (RFC 9112, section 6.2), or none. `BadHead` where a transfer coding
/// is named (section 6.1), where two lengths stand or one has not 1 to `MOST_DIGITS` digits, and where a GET declares
/// content.
pub fn length_of(
    region: &[u8],
    fields: &[HeaderSpan],
    method: &[u8],
) -> Result<Option<u32>, HeadFault>
    requires { All (IsHeaderWithin (length region.now)) fields.now }
    ensures length { IfOk result (HasLength method.now (map (header_bytes region.now) fields.now)) }
    ensures bad { OnErr result ((length : Option ℕ)
        → ¬ HasLength method.now (map (header_bytes region.now) fields.now) length) }
    ensures fault { IfErr result (λ fault. fault ≡ HeadFault.BadHead) }
{
    let codings = values_of(region, fields, b"transfer-encoding");
    if !matches!(codings, NamedValues::None) {
        return Err(HeadFault::BadHead);
    }
    let length = match values_of(region, fields, b"content-length") {
        NamedValues::None => return Ok(None),
        NamedValues::One(digits) => read_number(digits).ok_or(HeadFault::BadHead)?,
        NamedValues::More => return Err(HeadFault::BadHead),
    };
    if length != 0 && method == b"GET".as_slice() {
        return Err(HeadFault::BadHead);
    }
    Ok(Some(length))
}

/// The digest of the key in the only `desk-key` field; none where there is no such field, more than one, or no key in
/// it.
pub fn key_of(region: &[u8], fields: &[HeaderSpan]) -> Option<KeyDigest>
    requires { All (IsHeaderWithin (length region.now)) fields.now }
    ensures { HasKey (map (header_bytes region.now) fields.now) result }
{
    match values_of(region, fields, b"desk-key") {
        NamedValues::One(key) => Some(Key::read(key).ok()?.digest()),
        NamedValues::None | NamedValues::More => None,
    }
}

// The values of the fields with this name, whatever the case of its letters (RFC 9110, section 5.1).
fn values_of<'a>(region: &'a [u8], fields: &[HeaderSpan], name: &[u8]) -> NamedValues<'a>
    requires { All (IsHeaderWithin (length region.now)) fields.now }
    ensures { AreNamed (values_of name.now (map (header_bytes region.now) fields.now)) result }
{
    let mut found = NamedValues::None;
    for field in fields {
        if is_named(field.name.of(region), name) {
            found = found.with(field.value.of(region));
        }
    }
    found
}

// Whether two names are the same except for the case of their letters.
fn is_named(name: &[u8], other: &[u8]) -> bool
    ensures { result ≡ str_eq_ignore_ascii_case name.now other.now }
{
    name.eq_ignore_ascii_case(other)
}
