//! What the orders of a day come to.
ghost use Rattle.std.specs.Prelude.{◌≡◌, OnOk};
ghost use Rattle.rtgs_statements.specs.Days.{Adds, TotalsAreSmall, HasNone, IsAddedTo, IsRoomy};
ghost use Rattle.rtgs_statements.specs.Rows.{settled_by};

use crate::party::Party;
use crate::tallies::Tallies;
use crate::totals::add;
use rtgs_book::{Order, OrderState};
use rtgs_money::Code;
use std::alloc::{AllocError, Global};
use std::collections::BTreeMap;

/// What each participant sent and received by settled orders, and the orders by where they stand.
#[derive(Debug, Drop)]
pub struct Ordered {
    pub sent: BTreeMap<Code, i128>,
    pub received: BTreeMap<Code, i128>,
    pub tallies: Tallies,
}

impl Ordered {
    /// Of no order.
    pub fn none(alloc: Global) -> Ordered
        ensures { HasNone result }
    {
        Ordered {
            sent: BTreeMap::new(alloc),
            received: BTreeMap::new(alloc),
            tallies: Tallies::none(),
        }
    }

    /// With this order too.
    pub fn add(&mut self, order: &Order) -> Result<(), AllocError>
        requires { IsRoomy self.old }
        ensures { OnOk result (Adds self.old order.now self.new) }
    {
        add_settled(&mut self.sent, Party::Sender, order)?;
        add_settled(&mut self.received, Party::Receiver, order)?;
        self.tallies = self.tallies.with(order);
        Ok(())
    }
}

// Adds a settled order to the total of the participant that is this party of it.
fn add_settled(
    totals: &mut BTreeMap<Code, i128>,
    party: Party,
    order: &Order,
) -> Result<(), AllocError>
    requires { TotalsAreSmall totals.old }
    ensures { OnOk result (IsAddedTo totals.old (λ code. settled_by party code order.now) totals.new) }
{
    let OrderState::Settled(_) = order.state else {
        return Ok(());
    };
    add(totals, party.code(order), i128::from(order.amount.cents()))?;
    Ok(())
}
