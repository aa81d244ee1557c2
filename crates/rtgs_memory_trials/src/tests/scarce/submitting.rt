//! A command that is submitted.
use super::call::{Call, Outcome};
use super::setting::{desk_after, seen_of};
use super::store::Store;
use super::worked::Worked;
use rtgs_book::{Command, NewOrder, Refusal, WholeAnswer};
use rtgs_desk::Desk;
use rtgs_keeper::Keeper;
use rtgs_money::BusinessDate;
use rtgs_tests_desks::{command, desk_over, is_expected};
use std::alloc::Global;
use std::test::Fail;

/// A command to a desk over this store.
#[derive(Clone, Copy)]
pub struct Submits<'a, S> {
    pub store: S,
    pub worked: Worked<'a>,
}

/// A desk, and the command that it is given.
#[derive(Drop)]
pub struct DeskAndCommand<K: Keeper + Drop> {
    desk: Desk<K>,
    command: Command,
}

impl<S: Store> Call for Submits<'_, S>
where
    S::Kept: Keeper + Drop,
{
    type State = DeskAndCommand<S::Kept>;

    type Answer = Result<WholeAnswer, Refusal>;

    fn begin(&self, alloc: Global) -> Result<DeskAndCommand<S::Kept>, Fail> {
        // Names the types of orders and of due dates for the borrow checker: they stand nowhere else in this function.
        let (_no_order, _no_date): (Option<NewOrder>, Option<BusinessDate>) = (None, None);
        let command = command(self.worked.line)?;
        let desk = desk_after(alloc, self.store.keeper(alloc)?, self.worked.before)?;
        Ok(DeskAndCommand { desk, command })
    }

    fn call(
        &self,
        _alloc: Global,
        state: &mut DeskAndCommand<S::Kept>,
    ) -> Result<WholeAnswer, Refusal> {
        state.desk.submit(state.command)
    }

    fn outcome(&self, answer: &Result<WholeAnswer, Refusal>) -> Outcome {
        match answer {
            Err(Refusal::OutOfMemory) => Outcome::Refused,
            Err(Refusal::StoreFault) if self.store.may_fail() => Outcome::Faulted,
            _ => Outcome::Other,
        }
    }

    fn is_ample(&self, alloc: Global, answer: &Result<WholeAnswer, Refusal>) -> Result<bool, Fail> {
        is_expected(alloc, answer, self.worked.line, false)
    }

    fn reopened(
        &self,
        alloc: Global,
        state: DeskAndCommand<S::Kept>,
    ) -> Result<DeskAndCommand<S::Kept>, Fail> {
        let DeskAndCommand { desk, command } = state;
        let keeper = self.store.restarted(alloc, desk.into_keeper())?;
        Ok(DeskAndCommand {
            desk: desk_over(alloc, keeper)?,
            command,
        })
    }

    fn seen(&self, alloc: Global, state: &mut DeskAndCommand<S::Kept>) -> Result<String, Fail> {
        seen_of(alloc, &mut state.desk)
    }
}
