//! What the desk looks up in its store.
ghost use Rattle.std.specs.Prelude.{◌≡◌, true, false, IfOk, IfErr};
ghost use Rattle.rtgs_book.specs.declared.book.Book.{Book};
ghost use Rattle.rtgs_book.specs.Lookup.{order_named, posting_named};
ghost use Rattle.rtgs_book.specs.cores.Cores.{found_for};
ghost use Rattle.rtgs_desk.specs.Holding.{Holds};
ghost use Rattle.rtgs_desk.specs.LookUps.{LooksUp, refusal_of};
ghost use Rattle.rtgs_desk.specs.Replies.{is_looked_up};
ghost use Rattle.rtgs_statements.specs.Reads.{refused_by};

use super::Desk;
use rtgs_book::{Command, Fault, Found, Order, Posting, Refusal};
use rtgs_keeper::Keeper;
use rtgs_money::{Code, Reference};

impl<K: Keeper> Desk<K> {
    /// What the command asks for: of an order and of a withdrawal the order of its name, of a posting that of its
    /// reference.
    pub(super) fn look_up(&mut self, command: &Command) -> Result<Found, Refusal>
        ensures looked { LooksUp K.Keeper self.old self.new (refused_by result) }
        ensures found { K.is_honest self.new.keeper → (book : Book) → Holds K.Keeper self.old book
            → IfOk result (λ found. found ≡ found_for book command.now) }
        ensures nothing { is_looked_up command.now ≡ false → self.new ≡ self.old }
        ensures freely { is_looked_up command.now ≡ false → IfErr result (λ refusal. refusal ≡ Refusal.Failed) }
    {
        if self.failed {
            return Err(Refusal::Failed);
        }
        let mut found = Found::NOTHING;
        match *command {
            Command::Order { sender, order } => {
                found.order = self.find_order(&sender, &order.reference)?;
            }
            Command::Withdraw { sender, reference } => {
                found.order = self.find_order(&sender, &reference)?;
            }
            Command::Post { reference, .. } => found.posting = self.find_posting(&reference)?,
            _ => {}
        }
        Ok(found)
    }

    /// The order that the sender gave this reference, where the book has one.
    pub(super) fn find_order(
        &mut self,
        sender: &Code,
        reference: &Reference,
    ) -> Result<Option<Order>, Refusal>
        ensures looked { LooksUp K.Keeper self.old self.new (refused_by result) }
        ensures found { K.is_honest self.new.keeper → (book : Book) → Holds K.Keeper self.old book
            → IfOk result (λ found. found ≡ order_named book sender.now reference.now) }
    {
        if self.failed {
            return Err(Refusal::Failed);
        }
        match self.keeper.find_order(sender, reference) {
            Ok(found) => Ok(found),
            Err(fault) => Err(refused(fault, &mut self.failed)),
        }
    }

    // The posting with this reference, where the book has one.
    fn find_posting(&mut self, reference: &Reference) -> Result<Option<Posting>, Refusal>
        ensures looked { LooksUp K.Keeper self.old self.new (refused_by result) }
        ensures found { K.is_honest self.new.keeper → (book : Book) → Holds K.Keeper self.old book
            → IfOk result (λ found. found ≡ posting_named book reference.now) }
    {
        if self.failed {
            return Err(Refusal::Failed);
        }
        match self.keeper.find_posting(reference) {
            Ok(found) => Ok(found),
            Err(fault) => Err(refused(fault, &mut self.failed)),
        }
    }
}

/// What is answered where the keeper meets this fault in a look-up. After a fault of the store the desk has failed.
pub(super) fn refused(fault: Fault, failed: &mut bool) -> Refusal
    ensures refusal { result ≡ refusal_of fault }
    ensures memory { fault ≡ Fault.OutOfMemory → failed.new ≡ failed.old }
    ensures fault { result ≡ Refusal.StoreFault → failed.new ≡ true }
{
    match fault {
        Fault::OutOfMemory => Refusal::OutOfMemory,
        Fault::StoreFault | Fault::NotADeskFile | Fault::Inconsistent { .. } => {
            *failed = true;
            Refusal::StoreFault
        }
    }
}
