//! Laws of the definitions. Each function does nothing: its contract is the law.
ghost use Rattle.std.specs.Prelude.{◌≡◌, ◌≢◌, ℕ, List, Ok, Err};
ghost use Rattle.rtgs_http_requests.specs.Callers.{CodeOf};
ghost use Rattle.rtgs_http_requests.specs.Exchange.{AsksFor};
ghost use Rattle.rtgs_http_requests.specs.Meaning.{Answer};
ghost use Rattle.rtgs_http_requests.specs.Same.{AreTheSame};
ghost use Rattle.rtgs_http_requests.specs.Steps.{HasAnswer};
ghost use Rattle.rtgs_http_requests.specs.declared.asked.Asked.{Asked};
ghost use Rattle.rtgs_http_requests.specs.Access.{CarriesKey, MayAsk};
ghost use Rattle.rtgs_http_requests.specs.declared.http_fault.HttpFault.{HttpFault};

use crate::feeds::laws::{every_input_has_an_outcome, outcomes_are_apart, regions_are_determined};
use crate::heads::laws::{heads_are_determined, keys_are_determined};
use rtgs_money::laws::dates_have_distinct_texts;
use rtgs_order_files::laws::{
    faults_are_determined, order_files_have_no_fault, rows_are_determined,
};
use std::alloc::Global;

/// Whatever is asked is asked by the bearer of a key: the operator, or a participant who asks for its own alone.
pub fn participants_ask_for_their_own()
    ensures { (operator : List ℕ) (code_of : CodeOf) (input : List ℕ) (asked : Asked)
        → AsksFor operator code_of input (Ok asked)
        → (digest : List ℕ) × CarriesKey input digest × MayAsk operator code_of digest asked }
{}

/// An input asks for one thing, or has one fault, but that memory may be wanting.
pub fn answers_are_determined()
    ensures { (operator : List ℕ) (code_of : CodeOf) (input : List ℕ) (one other : Answer)
        → AsksFor operator code_of input one → AsksFor operator code_of input other
        → one ≢ Err HttpFault.OutOfMemory → other ≢ Err HttpFault.OutOfMemory → AreTheSame one other }
{
    dates_have_distinct_texts();
    rows_are_determined();
    order_files_have_no_fault();
    faults_are_determined();
    regions_are_determined();
    outcomes_are_apart();
    heads_are_determined();
    keys_are_determined();
}

/// No input is without an answer: it asks for something, or has a fault other than that memory was refused. The rows
/// of a batch stand in memory of the allocator.
pub fn every_input_has_an_answer(_alloc: Global)
    ensures { (operator : List ℕ) (code_of : CodeOf) (input : List ℕ) → HasAnswer (AsksFor operator code_of input) }
{
    every_input_has_an_outcome();
}
