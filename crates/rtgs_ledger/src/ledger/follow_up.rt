//! What follows a command.
ghost use Rattle.std.specs.Prelude.{◌≡◌, IfOk, IfErr, Ok, true, false, filter};
ghost use Rattle.rtgs_book.specs.declared.book.Book.{Book};
ghost use Rattle.rtgs_book.specs.Books.{is_automatic};
ghost use Rattle.rtgs_book.specs.Calm.{IsCalm};
ghost use Rattle.rtgs_book.specs.Laws.{CommandFits};
ghost use Rattle.rtgs_book.specs.Outcome.{is_done};
ghost use Rattle.rtgs_book.specs.Step.{may_free};
ghost use Rattle.rtgs_book.specs.cores.Cores.{IsCoreOf};
ghost use Rattle.rtgs_ledger.specs.Following.{FreesOrders, day_after, is_followed_by, sets_no_balance};
ghost use Rattle.rtgs_ledger.specs.Kept.{IsPrepared, IsPreparedByItself};
ghost use Rattle.rtgs_ledger.specs.Kinds.{CanAnswer, CanAnswerByItself, is_of_the_store};
ghost use Rattle.rtgs_ledger.specs.Rooms.{CanBeMade};

use super::Ledger;
use rtgs_book::cores::laws::cores_follow_changes;
use rtgs_book::laws::greatest_exists;
use rtgs_book::{Answer, Change, Command, Day, Phase, Refusal, RowChange, Rows, WholeAnswer};
use rtgs_choices::laws::changes_join;
use rtgs_laws::laws::{
    new_credit_leaves_the_accounts, own_step_keeps_ranges, own_step_keeps_soundness,
};

impl Ledger {
    /// The whole change, where a resolution follows this change of the command by itself.
    pub(super) fn decide_following(
        &self,
        command: &Command,
        own: Answer,
        change: Change,
    ) -> Result<(WholeAnswer, Change), Refusal>
        requires made { CanBeMade self.now.core change }
        requires frees { FreesOrders change }
        requires answered { CanAnswerByItself command.now own change }
        requires followed { is_followed_by command.now own self.now.core.day change ≡ true }
        ensures made { IfOk result (λ (answer, change). CanBeMade self.now.core change) }
        ensures answered { IfOk result (λ (answer, change). CanAnswer command.now answer change) }
        ensures of_the_command { IfErr result (λ refusal. is_of_the_store refusal ≡ false) }
        ensures prepared { (book : Book) → IsCoreOf book self.now.core → IsCalm book
            → IsPreparedByItself book self.now.core command.now own change
            → IfOk result (λ (answer, change). IsPrepared book self.now.core command.now answer change) }
        ensures refused { (book : Book) → IsCoreOf book self.now.core
            → IsPreparedByItself book self.now.core command.now own change
            → IfErr result (λ refusal. refusal ≡ Refusal.OutOfMemory) }
    {
        changes_join();
        cores_follow_changes();
        greatest_exists();
        new_credit_leaves_the_accounts();
        own_step_keeps_ranges();
        own_step_keeps_soundness();
        judge(command);
        if !self.records.counts_marks() {
            return Err(Refusal::NumbersUsedUp);
        }
        let between = self.after(&change)?;
        let Some(settlement) = between.settlement()? else {
            return Ok((WholeAnswer { own, auto: None }, change));
        };
        let mut rows = change.into_vec();
        take_balances_out(&mut rows);
        let settling = settlement.rows(self.alloc, &self.records.accounts)?;
        rows.extend_from_slice(&settling)?;
        let auto = Some(settlement.resolution());
        Ok((WholeAnswer { own, auto }, Rows::from_vec(rows)))
    }

    /// Whether a resolution follows the command that has this answer and change by itself.
    pub(super) fn is_followed(&self, command: &Command, own: &Answer, change: &Change) -> bool
        ensures { result ≡ is_followed_by command.now own.now self.now.core.day change.now }
    {
        may_free(command) && is_done(own) && self.leaves_automatic_day(change)
    }

    // Whether the day is an automatic one after these rows.
    fn leaves_automatic_day(&self, change: &Change) -> bool
        ensures { result ≡ is_automatic (day_after self.now.core.day change.now) }
    {
        let mut day = self.records.day;
        for row in change.as_slice() {
            if let RowChange::SetDay(later) = row {
                day = *later;
            }
        }
        is_automatic(day)
    }
}

// Takes out the rows that set a balance.
fn take_balances_out(rows: &mut Vec<RowChange>)
    ensures { rows.new.items ≡ filter sets_no_balance rows.old.items }
{
    rows.retain(|row| sets_no_balance(row));
}

/// Whether a resolution follows commands on the day.
pub(super) fn is_automatic(day: Day) -> bool
    ensures { result ≡ is_automatic day }
{
    day.automatic && !matches!(day.phase, Phase::Closed)
}

// Whether the row sets no balance.
#[tactic(auto, unfolding(crate::specs::Following::sets_no_balance))]
fn sets_no_balance(row: &RowChange) -> bool
    ensures { result ≡ sets_no_balance row.now }
{
    !matches!(row, RowChange::SetBalance { .. })
}

// Whether orders may settle after the command that could not before.
fn may_free(command: &Command) -> bool
    ensures { result ≡ may_free command.now }
{
    match command {
        Command::SetCredit { .. }
        | Command::Post { .. }
        | Command::OpenDay(_)
        | Command::Order { .. }
        | Command::Withdraw { .. } => true,
        Command::Add { .. } | Command::Resolve | Command::CutOff(_) | Command::CloseDay(_) => false,
    }
}

// Whether a command with this answer acted.
fn is_done(answer: &Answer) -> bool
    ensures { result ≡ is_done (Ok answer.now) }
{
    !matches!(answer, Answer::Repeated(_))
}

/// The amounts of a command are in their ranges, since their types say so.
pub(super) fn judge(command: &Command)
    ensures { CommandFits command.now }
{
    match command {
        Command::SetCredit { credit, .. } => {
            // Each call states its range, and what it gives is dropped.
            credit.cents();
        }
        Command::Post { cents, .. } => {
            cents.cents();
        }
        Command::Order { order, .. } => {
            order.amount.cents();
        }
        _ => {}
    }
}
