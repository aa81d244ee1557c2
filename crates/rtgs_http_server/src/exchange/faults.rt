//! Replies where nothing is asked.
ghost use Rattle.std.specs.Prelude.{◌≡◌, IfOk};
ghost use Rattle.rtgs_book.specs.declared.refusal.Refusal.{Refusal};
ghost use Rattle.rtgs_http_server.specs.exchange.ReplyMessages.{IsSaid, fault_message};
ghost use Rattle.rtgs_http_bodies.specs.Refusals.{refused_message};

use rtgs_book::Refusal;
use rtgs_http_bodies::{Reply, batch_fault_reply, kind_reply, refusal_reply};
use rtgs_http_requests::HttpFault;
use std::alloc::{AllocError, Global};

/// The reply that tells why nothing is asked. Where memory is refused for it, it is the fixed one.
pub(in crate::exchange) fn fault_reply(alloc: Global, fault: HttpFault) -> Reply
    ensures { IsSaid (fault_message fault) result }
{
    match made_of(alloc, fault) {
        Ok(reply) => reply,
        Err(_) => Reply::out_of_memory(),
    }
}

fn made_of(alloc: Global, fault: HttpFault) -> Result<Reply, AllocError>
    ensures { IfOk result (λ reply. reply ≡ fault_message fault) }
{
    match fault {
        HttpFault::Batch(fault) => batch_fault_reply(alloc, fault),
        _ => kind_reply(alloc, fault.kind()),
    }
}

/// The reply of a desk that has failed.
pub(in crate::exchange) fn failed_reply(alloc: Global) -> Reply
    ensures { IsSaid (refused_message Refusal.Failed) result }
{
    refused(alloc, Refusal::Failed)
}

/// The reply that tells why a reading was refused.
pub(in crate::exchange) fn refused(alloc: Global, refusal: Refusal) -> Reply
    ensures { IsSaid (refused_message refusal) result }
{
    match refusal_reply(alloc, refusal) {
        Ok(reply) => reply,
        Err(_) => Reply::out_of_memory(),
    }
}
