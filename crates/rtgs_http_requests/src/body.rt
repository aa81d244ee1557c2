//! Bodies: how long they are, and the value that they spell.
ghost use Rattle.std.specs.Prelude.{◌≡◌};
ghost use Rattle.std.specs.Result.{result_map_both};
ghost use Rattle.serde_json.specs.View.{view};
ghost use Rattle.rtgs_http_requests.specs.Bodies.{body_length, ReadsJson};

use crate::feeds::limits::LONGEST_BODY;
use crate::http_fault::HttpFault;
use serde_json::Value;
use std::alloc::Global;

/// How many bytes the body has, where the head declares a number (RFC 9112, section 6.2). A GET has none. A POST that
/// declares none is `NoLength`, and one that declares more than a body may have is `BodyTooLong`.
pub fn body_length(posts: bool, declared: Option<u32>) -> Result<u32, HttpFault>
    ensures { result ≡ body_length posts declared }
{
    if !posts {
        return Ok(0);
    }
    let length = declared.ok_or(HttpFault::NoLength)?;
    if length as usize > LONGEST_BODY {
        return Err(HttpFault::BodyTooLong);
    }
    Ok(length)
}

/// The value of JSON that a body spells (RFC 8259), as `serde_json` reads it: of a key that comes twice the last
/// stands. `BadJson` where it spells none, and `OutOfMemory`.
pub fn read_json(alloc: Global, body: &[u8]) -> Result<Value, HttpFault>
    ensures { ReadsJson body.now (result_map_both view (λ fault. fault) result) }
{
    match Value::from_slice(alloc, body) {
        Ok(value) => Ok(value),
        Err(error) if error.is_memory() => Err(HttpFault::OutOfMemory),
        Err(_) => Err(HttpFault::BadJson),
    }
}
