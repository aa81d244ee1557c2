//! What the program says of refusals.
use super::helps::MISUSED;
use super::runs::run;
use super::script::{follows, follows_each};
use rtgs_refusal_texts::KINDS;
use std::test::Fail;

/// A number is taken as a refusal's line has it, and as a reply or a result file has it.
const ONE: &str = "
$ desk explain 6
> 06 NoCover
>   means: the balance would be below its floor, or is below the floor that the new limit gives
>   comes from: `post --debit`; `credit`, unless the desk is closed
>   do: take less, set a higher limit, or post money first
status 0 helped
$ desk explain 06
> 06 NoCover
>   means: the balance would be below its floor, or is below the floor that the new limit gives
>   comes from: `post --debit`; `credit`, unless the desk is closed
>   do: take less, set a higher limit, or post money first
status 0 helped
$ out 4 explain 6
> 06 N~
status 3 unheard
";

#[test]
fn a_refusal_is_explained_by_its_number(rt: HostRuntime) -> Result<(), Fail> {
    follows(&rt, "explained", ONE)
}

#[test]
fn numbers_of_no_refusal_are_reported_on_standard_error(rt: HostRuntime) -> Result<(), Fail> {
    follows_each(
        &rt,
        "unexplained",
        MISUSED,
        "explain 0\nexplain 21\nexplain 99\nexplain 256\nexplain -1\nexplain x\nexplain 6 7",
    )
}

/// The number and the name that a line begins with, where it is the first line of what is said of a refusal.
fn first_words(line: &str) -> Option<(u8, &str)> {
    let (number, name) = line.split_once(' ')?;
    Some((number.parse::<u8>().ok()?, name))
}

/// How many refusals are explained, where their numbers and names are those of all kinds, in their order.
fn count_explained(text: &str) -> Result<usize, Fail> {
    let mut count = 0;
    for line in text.split('\n') {
        let Some((number, name)) = first_words(line) else {
            continue;
        };
        let kind = KINDS.get(count).ok_or("a refusal too many")?;
        if number != kind.number() || name != kind.name() {
            return Err(Fail::new(format_args!("{line} in the place of {name}")));
        }
        count += 1;
    }
    Ok(count)
}

#[test]
fn each_refusal_is_explained_once(rt: HostRuntime) -> Result<(), Fail> {
    let run = run(&rt, &["explain"], usize::MAX, usize::MAX);
    let count = count_explained(std::str::from_utf8(run.out.bytes())?)?;
    if count == KINDS.len() && run.status == 0 && run.err.bytes().is_empty() {
        return Ok(());
    }
    Err(Fail::new(format_args!("{count} refusals")))
}
