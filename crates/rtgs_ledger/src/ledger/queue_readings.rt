//! What the desk reads of all queues together.
ghost use Rattle.std.specs.Prelude.{◌≡◌, ◌-ℤ◌, FitsSigned, IfOk, IfErr, map};
ghost use Rattle.std.specs.Int.{w64};
ghost use Rattle.rtgs_book.specs.declared.book.Book.{Book};
ghost use Rattle.rtgs_book.specs.Balance.{balance, floor};
ghost use Rattle.rtgs_book.specs.Choice.{Choice, IsGreatest};
ghost use Rattle.rtgs_book.specs.Lookup.{codes_of};
ghost use Rattle.rtgs_book.specs.cores.Cores.{IsCoreOf};

use super::Ledger;
use rtgs_book::{Account, Refusal, laws};
use rtgs_choices::laws::choices_agree;
use rtgs_money::{Cents, Code};

impl Ledger {
    /// Each participant with its balance, in the order of the codes.
    pub fn accounts(&self) -> &[Account]
        ensures { result.now ≡ self.now.core.accounts }
    {
        self.records.accounts.as_slice()
    }

    /// How much the balance of the participant with this code is above its floor, in cents. A code that is no
    /// participant's has nothing.
    pub fn headroom(&self, code: &Code) -> Cents
        ensures { (book : Book) → IsCoreOf book self.now.core → result ≡ balance book code.now -ℤ floor book code.now }
    {
        laws::balances_are_small();
        laws::balance_of_unknown_code();
        let Some(account) = self.records.accounts.get(code) else {
            return Cents::new(0);
        };
        let floor = Cents::new(self.records.floor(&account));
        above(account.balance, floor)
    }

    /// How many orders, from the beginning of each queue, the greatest choice has, in the order of the codes. The only
    /// refusal is lack of memory.
    pub fn greatest_choice(&self) -> Result<Vec<usize>, Refusal>
        ensures chosen { (book : Book) (choice : Choice) → IsCoreOf book self.now.core → IsGreatest book choice
            → IfOk result (λ lengths. lengths.items ≡ map choice (codes_of book)) }
        ensures kinds { IfErr result (λ refusal. refusal ≡ Refusal.OutOfMemory) }
    {
        laws::greatest_is_unique();
        choices_agree();
        match self.greatest_lengths() {
            Ok(lengths) => Ok(lengths),
            Err(_) => Err(Refusal::OutOfMemory),
        }
    }
}

// How much the balance is above the floor, where 64 bits hold it.
fn above(balance: Cents, floor: Cents) -> Cents
    ensures { FitsSigned w64 (balance -ℤ floor) → result ≡ balance -ℤ floor }
{
    Cents::new(balance.cents().saturating_sub(floor.cents()))
}
