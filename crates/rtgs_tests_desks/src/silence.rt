//! Desks whose store has failed.
use rtgs_book::{Command, Refusal};
use rtgs_desk::Desk;
use rtgs_keeper::Keeper;
use rtgs_money::{BusinessDate, Code, Key, Reference};
use rtgs_statements::Source;
use std::test::Fail;

fn is_failed<T: Drop>(reply: Result<T, Refusal>) -> bool {
    matches!(reply, Err(Refusal::Failed))
}

/// Fails unless the desk answers nothing but that it has failed.
pub fn is_silent<K: Keeper>(desk: &mut Desk<K>) -> Result<(), Fail> {
    let (alfa, name) = (Code::read(b"ALFA")?, Reference::read(b"A-1")?);
    let date = BusinessDate::read(b"2024-03-04")?;
    let key = Key::read(b"0000000000000000000000000000000a")?.digest();
    let is_silent = desk.failed()
        & is_failed(desk.submit(Command::Resolve))
        & is_failed(desk.account(&alfa))
        & is_failed(desk.accounts())
        & is_failed(desk.day())
        & is_failed(desk.queue_of(&alfa))
        & is_failed(desk.held_of(&alfa))
        & is_failed(desk.waiting_of(&alfa))
        & is_failed(desk.status())
        & is_failed(desk.order_of(&alfa, &name))
        & is_failed(desk.code_of(&key))
        & is_failed(desk.next_posting(date, 0))
        & is_failed(desk.next_order(date, 0))
        & is_failed(desk.next_mark(date, 0));
    if is_silent {
        Ok(())
    } else {
        Err(Fail::new("a failed desk spoke"))
    }
}
