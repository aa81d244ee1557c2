//! The parties of an order.
ghost use Rattle.std.specs.Prelude.{◌≡◌};
ghost use Rattle.rtgs_statements.specs.Sums.{party_code};

use rtgs_book::Order;
use rtgs_money::Code;

/// Which party of an order.
#[derive(Clone, Copy, Debug, PartialEq, Eq)]
pub enum Party {
    Sender,
    Receiver,
}

impl Party {
    /// The code of this party to the order: of its sender, or of its receiver.
    pub fn code(self, order: &Order) -> Code
        ensures { result ≡ party_code self order.now }
    {
        match self {
            Party::Sender => order.sender,
            Party::Receiver => order.receiver,
        }
    }
}
