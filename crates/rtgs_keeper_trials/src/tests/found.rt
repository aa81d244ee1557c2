//! What is found of a desk: its book, and how its three banks stand.
use super::store::Booked;
use rtgs_book::Refusal;
use rtgs_desk::Desk;
use rtgs_keeper::Keeper;
use rtgs_money::Code;
use std::alloc::Global;
use std::test::Fail;

/// The balances of ALFA, BETA and GAMA in cents, and how many orders each of them has in its queue.
pub type Standings = [(i64, usize); 3];

// How this bank stands. One that is not there has nothing.
fn standing<K: Keeper>(desk: &Desk<K>, code: &[u8]) -> Result<(i64, usize), Fail> {
    match desk.account(&Code::read(code)?) {
        Ok(account) => Ok((account.balance.cents(), account.queued)),
        Err(Refusal::UnknownParticipant) => Ok((0, 0)),
        Err(refusal) => Err(Fail::from(refusal)),
    }
}

/// How the three stand.
pub fn standings<K: Keeper>(desk: &Desk<K>) -> Result<Standings, Fail> {
    let alfa = standing(desk, b"ALFA")?;
    let beta = standing(desk, b"BETA")?;
    Ok([alfa, beta, standing(desk, b"GAMA")?])
}

/// A line of how the three stand, and then the whole book, as both display themselves. The desk ends so.
pub fn found_of<K: Booked>(alloc: Global, desk: Desk<K>) -> Result<(String, K), Fail> {
    let standings = standings(&desk)?;
    let mut keeper = desk.into_keeper();
    let book = keeper.book(alloc)?;
    Ok((format!(in alloc; "{standings:?}\n{book:?}")?, keeper))
}
