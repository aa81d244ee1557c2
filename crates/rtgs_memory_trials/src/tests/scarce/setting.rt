//! Banks, and desks over keepers that were given commands.
use rtgs_desk::Desk;
use rtgs_keeper::Keeper;
use rtgs_money::{BusinessDate, Code, Reference};
use rtgs_tests_desks::{BANKS, command, desk_over};
use std::alloc::Global;
use std::test::Fail;

/// The key of ALFA.
pub const ALFAS_KEY: &str = "0000000000000000000000000000000a";

/// The key of BETA.
pub const BETAS_KEY: &str = "0000000000000000000000000000000b";

/// The first day, a Monday.
pub const MONDAY: &str = "2024-03-04";

/// The day after it.
pub const TUESDAY: &str = "2024-03-05";

/// A day with a posting, an order that settles and one that waits.
pub const DAY: &str = "\
credit ALFA 100
open 2024-03-04
post ALFA P-1 5
order ALFA A-1 BETA 100
order ALFA A-2 BETA 7";

/// An open day on which an order of ALFA is held until the day after.
pub const HELD_DAY: &str = "\
open 2024-03-04
order ALFA A-1 BETA 7 due 2024-03-05";

/// An automatic day with a posting, two orders that wait, and one that frees the first of them.
pub const AUTOMATIC_DAY: &str = "\
open 2024-03-04 automatic
post ALFA P-1 10
order ALFA A-1 BETA 60
order ALFA A-2 GAMA 10
order BETA B-1 ALFA 50";

/// An open day on which ALFA has 150 cents.
pub const FUNDED_DAY: &str = "\
post ALFA P-1 150
open 2024-03-04";

/// The code of this text.
pub fn code(text: &str) -> Result<Code, Fail> {
    Ok(Code::read(text.as_bytes())?)
}

/// The reference of this text.
pub fn reference(text: &str) -> Result<Reference, Fail> {
    Ok(Reference::read(text.as_bytes())?)
}

/// The date of this text.
pub fn date(text: &str) -> Result<BusinessDate, Fail> {
    Ok(BusinessDate::read(text.as_bytes())?)
}

// Gives a desk the commands in the lines of a script, each of which it has to accept.
fn submit_all<K: Keeper>(desk: &mut Desk<K>, script: &str) -> Result<(), Fail> {
    for line in script.lines() {
        desk.submit(command(line)?)?;
    }
    Ok(())
}

/// A desk with three banks over a keeper, after the commands of a script.
pub fn desk_after<K: Keeper + Drop>(
    alloc: Global,
    keeper: K,
    script: &str,
) -> Result<Desk<K>, Fail> {
    let mut desk = desk_over(alloc, keeper)?;
    submit_all(&mut desk, BANKS)?;
    submit_all(&mut desk, script)?;
    Ok(desk)
}

/// What a desk says of its participants, of Monday and of Tuesday.
pub fn seen_of<K: Keeper>(alloc: Global, desk: &mut Desk<K>) -> Result<String, Fail> {
    let mut seen = rtgs_tests_desks::seen_of(alloc, desk, MONDAY)?;
    let tuesday = rtgs_tests_desks::seen_of(alloc, desk, TUESDAY)?;
    seen.push_str(tuesday.as_str())?;
    Ok(seen)
}
