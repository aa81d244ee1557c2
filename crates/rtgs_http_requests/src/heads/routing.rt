//! The route of a target.
ghost use Rattle.std.specs.Prelude.{◌≡◌, true, false, None, IfSome, option_map};
ghost use Rattle.std.specs.List.{list_all};
ghost use Rattle.std.specs.Str.{IsAscii};
ghost use Rattle.matchit.specs.Params.{walk};
ghost use Rattle.rtgs_http_requests.specs.heads.Parameters.{parts_of, taken};
ghost use Rattle.rtgs_http_requests.specs.heads.Tables.{found_in};
ghost use Rattle.rtgs_http_requests.specs.heads.Targets.{is_plain_byte, is_plain_target, GivesRoute};

use crate::heads::head_fault::HeadFault;
use crate::heads::parameters::Parameters;
use crate::heads::route::Route;
use crate::heads::tables::{command_routes, read_routes};
use crate::heads::whole_paths::whole_route;
use matchit::{Params, Router};
use std::alloc::Global;

/// The row for a method and a target, with what its parameters took of the target. `NoSuchRoute` where there is no row;
/// so for each other method, and for a target that is not in origin form without a query (RFC 9112, section 3.2.1), or
/// has a byte that is no visible character. `OutOfMemory` where the routes found no room.
pub fn route_of<'a>(
    alloc: Global,
    method: &[u8],
    target: &'a [u8],
) -> Result<(Route, Parameters<'a>), HeadFault>
    ensures { GivesRoute method.now target.now result }
{
    if let Some(route) = whole_route(method, target) {
        return Ok((route, Parameters::NONE));
    }
    let Some(path) = plain_target(target) else {
        return Err(HeadFault::NoSuchRoute);
    };
    let routes = if method == b"GET".as_slice() {
        read_routes(alloc)
    } else if method == b"POST".as_slice() {
        command_routes(alloc)
    } else {
        return Err(HeadFault::NoSuchRoute);
    };
    let Ok(router) = routes else {
        return Err(HeadFault::OutOfMemory);
    };
    find(&router, path).ok_or(HeadFault::NoSuchRoute)
}

// The row of the router that the path matches, and what its parameters took.
fn find<'p>(router: &Router<Route>, path: &'p str) -> Option<(Route, Parameters<'p>)>
    requires { IsAscii path.now }
    ensures { option_map (λ (route, parameters). (route, taken parameters)) result ≡ found_in router.now path.now }
{
    match router.at(path) {
        Ok(found) => Some((*found.value, parts_of(&found.params))),
        Err(_) => None,
    }
}

// What the first two parameters took of the path.
fn parts_of<'p>(params: &Params<'_, 'p>) -> Parameters<'p>
    requires { IsAscii params.now.path.now }
    ensures { taken result ≡ parts_of (walk params.now.pattern.now params.now.text.now params.now.path.now
        params.now.names.now 0 0) }
{
    let mut parts = params.iter();
    let Some((_, first)) = parts.next() else {
        return Parameters::NONE;
    };
    match parts.next() {
        Some((_, second)) => Parameters { first, second },
        None => Parameters { first, second: "" },
    }
}

// The target as a text, where it is a plain path.
fn plain_target(target: &[u8]) -> Option<&str>
    ensures some { IfSome result (λ path.
        (path.now ≡ target.now) × (is_plain_target target.now ≡ true) × IsAscii path.now) }
    ensures none { result ≡ None → is_plain_target target.now ≡ false }
{
    if !is_plain_target(target) {
        return None;
    }
    str::from_utf8(target).ok()
}

// Whether the target begins with a slash, and is of visible characters other than a question mark.
fn is_plain_target(target: &[u8]) -> bool
    ensures { result ≡ is_plain_target target.now }
{
    target.first() == Some(&b'/') && has_plain_bytes(target)
}

// Whether each byte is a visible character other than a question mark.
fn has_plain_bytes(target: &[u8]) -> bool
    ensures { result ≡ list_all is_plain_byte target.now }
{
    target
        .iter()
        .all(|byte| (33..=126).contains(byte) && *byte != b'?')
}
