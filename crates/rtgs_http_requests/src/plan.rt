//! What a head leaves to be known.
ghost use Rattle.std.specs.Prelude.{IfOk};

use crate::admitted::Admitted;
use crate::heads::{Head, Parameters};
use crate::http_fault::HttpFault;
use rtgs_money::KeyDigest;
use std::alloc::Global;

/// What a head leaves to be known: who the caller is, and what the body says.
#[derive(Clone, Copy, Debug)]
pub struct Plan<'a> {
    pub caller: Admitted<KeyDigest>,
    /// What the route's parameters took of the target.
    pub parameters: Parameters<'a>,
    /// Whether the method is POST.
    pub posts: bool,
    /// The declared length of the body.
    pub length: Option<u32>,
}

impl<'a> Plan<'a> {
    ghost use Rattle.rtgs_http_requests.specs.Plans.{Plans, MayLookUp};

    /// What the region leaves to be known, whoever the participants are and whatever comes behind the region. A caller
    /// is left to be looked up only where the next step does so.
    pub fn read(
        alloc: Global,
        operator: &KeyDigest,
        region: &'a [u8],
    ) -> Result<Plan<'a>, HttpFault>
        ensures plans { Plans operator.now region.now result }
        ensures looks_up { IfOk result (λ plan. MayLookUp operator.now region.now plan.caller) }
    {
        let Some(head) = Head::read(region) else {
            return Err(HttpFault::BadHead);
        };
        let posts = head.posts();
        let found = match head.route(alloc) {
            Ok(found) => found,
            Err(fault) => return Err(HttpFault::from(fault)),
        };
        let caller = match Admitted::of_key(found.0, head.key, operator) {
            Ok(caller) => caller,
            Err(fault) => return Err(fault),
        };
        Ok(Plan {
            caller,
            parameters: found.1,
            posts,
            length: head.length,
        })
    }
}
