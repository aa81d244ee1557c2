//! Paths without a parameter, which are found without a table of routes.
//!
//! Most requests ask for one of these. A path that stands in the tables alone is found as well, but the table has to be
//! made for it.
ghost use Rattle.std.specs.Prelude.{◌≡◌, true, Some, IfSome};
ghost use Rattle.rtgs_http_requests.specs.heads.Parameters.{no_parts};
ghost use Rattle.rtgs_http_requests.specs.heads.Tables.{holding, read_paths, command_paths, found_in};
ghost use Rattle.rtgs_http_requests.specs.heads.Targets.{is_plain_target, routed};

use crate::heads::bank_route::BankRoute;
use crate::heads::operator_route::OperatorRoute;
use crate::heads::route::Route;

/// The row for a method and a target that is the whole path of the row. None where there is none, or a table has to
/// tell.
pub fn whole_route(method: &[u8], target: &[u8]) -> Option<Route>
    ensures { IfSome result (λ route. routed method.now target.now ≡ Some (route, no_parts)) }
{
    if method == b"GET".as_slice() {
        return whole_reading(target);
    }
    if method == b"POST".as_slice() {
        return whole_command(target);
    }
    None
}

// The row under GET.
fn whole_reading(target: &[u8]) -> Option<Route>
    ensures { IfSome result (λ route. (is_plain_target target.now ≡ true)
        × (found_in (holding read_paths) target.now ≡ Some (route, no_parts))) }
{
    if target == b"/account".as_slice() {
        return Some(Route::Bank(BankRoute::ReadAccount));
    }
    if target == b"/queue".as_slice() {
        return Some(Route::Bank(BankRoute::ReadQueue));
    }
    if target == b"/held".as_slice() {
        return Some(Route::Bank(BankRoute::ReadHeld));
    }
    if target == b"/waiting".as_slice() {
        return Some(Route::Bank(BankRoute::ReadWaiting));
    }
    if target == b"/desk/accounts".as_slice() {
        return Some(Route::Operator(OperatorRoute::ReadAccounts));
    }
    if target == b"/desk/status".as_slice() {
        return Some(Route::Operator(OperatorRoute::ReadStatus));
    }
    if target == b"/desk/queues".as_slice() {
        return Some(Route::Operator(OperatorRoute::ReadQueues));
    }
    None
}

// The row under POST.
fn whole_command(target: &[u8]) -> Option<Route>
    ensures { IfSome result (λ route. (is_plain_target target.now ≡ true)
        × (found_in (holding command_paths) target.now ≡ Some (route, no_parts))) }
{
    if target == b"/orders".as_slice() {
        return Some(Route::Bank(BankRoute::SendOrder));
    }
    if target == b"/batches".as_slice() {
        return Some(Route::Bank(BankRoute::SendBatch));
    }
    if target == b"/desk/post".as_slice() {
        return Some(Route::Operator(OperatorRoute::Post));
    }
    if target == b"/desk/credit".as_slice() {
        return Some(Route::Operator(OperatorRoute::SetCredit));
    }
    if target == b"/desk/open".as_slice() {
        return Some(Route::Operator(OperatorRoute::OpenDay));
    }
    if target == b"/desk/resolve".as_slice() {
        return Some(Route::Operator(OperatorRoute::Resolve));
    }
    if target == b"/desk/cutoff".as_slice() {
        return Some(Route::Operator(OperatorRoute::CutOff));
    }
    if target == b"/desk/close".as_slice() {
        return Some(Route::Operator(OperatorRoute::CloseDay));
    }
    None
}
