//! Commands of every kind, each to a desk where it changes something.
use std::test::Fail;

/// A script for each command, behind its name: what the desk is given first, and in the last line the command itself,
/// with what it is answered.
const SCRIPTS: &str = "\
add:
add DELT 0000000000000000000000000000000d => Ok(Added)
= set_credit:
credit ALFA 100 => Ok(CreditSet)
= post:
post ALFA P-1 10 => Ok(Posted { number: 1 })
= open_day:
open 2024-03-04 => Ok(Opened)
= order_that_settles:
credit ALFA 100
open 2024-03-04
order ALFA A-1 BETA 100 => Ok(Settled { number: 1, mark: 1 })
= order_that_waits:
open 2024-03-04
order ALFA A-1 BETA 100 => Ok(Queued { number: 1, place: 1 })
= order_that_is_held:
open 2024-03-04
order ALFA A-1 BETA 100 due 2024-03-05 => Ok(Held { number: 1, due: BusinessDate { number: 20240305 } })
= open_day_that_lets_in:
open 2024-03-04
order ALFA A-1 BETA 100 due 2024-03-05
order ALFA A-2 BETA 7 due 2024-03-06
order ALFA A-3 BETA 5 due 2024-03-05
order ALFA A-4 BETA 3 due 2024-03-05
cutoff 2024-03-04
close 2024-03-04
open 2024-03-05 => Ok(Opened)
= withdraw:
open 2024-03-04
order ALFA A-1 BETA 100
withdraw ALFA A-1 => Ok(Withdrawn { number: 1 })
= resolve:
open 2024-03-04
order ALFA A-1 BETA 100
order BETA B-1 GAMA 100
order GAMA G-1 ALFA 100
resolve => Ok(Resolved { mark: 1, count: 3, value: Cents(300) })
= cut_off:
open 2024-03-04
cutoff 2024-03-04 => Ok(CutOffDone)
= close_day:
open 2024-03-04
order ALFA A-1 BETA 100
order BETA B-1 GAMA 90
cutoff 2024-03-04
close 2024-03-04 => Ok(Closed { rejected: 2 })
= order_that_frees:
open 2024-03-04 automatic
post ALFA P-1 10
order ALFA A-1 BETA 60
order ALFA A-2 GAMA 10
order BETA B-1 ALFA 50 => Ok(Queued { number: 3, place: 1 }) auto 1 2 110
= order_that_settles_and_frees:
open 2024-03-04 automatic
post ALFA P-1 10
order ALFA A-1 BETA 60
order ALFA A-2 GAMA 10
post BETA P-2 50
order BETA B-1 ALFA 50 => Ok(Settled { number: 3, mark: 1 }) auto 2 1 60
= post_that_frees:
open 2024-03-04 automatic
post ALFA P-1 10
order ALFA A-1 BETA 60
order ALFA A-2 GAMA 10
post ALFA P-2 50 => Ok(Posted { number: 2 }) auto 1 1 60
= set_credit_that_frees:
open 2024-03-04 automatic
post ALFA P-1 10
order ALFA A-1 BETA 60
order ALFA A-2 GAMA 10
credit ALFA 60 => Ok(CreditSet) auto 1 2 70
= withdraw_that_frees:
open 2024-03-04 automatic
post ALFA P-1 10
order ALFA A-1 BETA 60
order ALFA A-2 GAMA 10
withdraw ALFA A-1 => Ok(Withdrawn { number: 1 }) auto 1 1 10
= open_day_that_frees:
open 2024-03-04
order ALFA A-1 BETA 100 due 2024-03-05
order ALFA A-2 BETA 7 due 2024-03-06
order ALFA A-3 BETA 5 due 2024-03-05
post ALFA P-1 104
cutoff 2024-03-04
close 2024-03-04
open 2024-03-05 automatic => Ok(Opened) auto 1 1 100";

/// A command to a desk with three banks, after other commands, in words.
#[derive(Clone, Copy)]
pub struct Worked<'a> {
    /// The lines of those that come before it.
    pub before: &'a str,
    /// Its own, with its answer.
    pub line: &'a str,
}

impl<'a> Worked<'a> {
    /// The command in the last line of a script, after those before it.
    pub fn of(script: &'a str) -> Worked<'a> {
        match script.rsplit_once('\n') {
            Some((before, line)) => Worked { before, line },
            None => Worked {
                before: "",
                line: script,
            },
        }
    }

    /// The command of this name.
    pub fn named(name: &str) -> Result<Worked<'static>, Fail> {
        for listed in SCRIPTS.split("\n= ") {
            let mut parts = listed.split(":\n");
            if parts.next() == Some(name) {
                return Ok(Worked::of(parts.next().unwrap_or_default()));
            }
        }
        Err(Fail::from("no script of this name"))
    }
}
