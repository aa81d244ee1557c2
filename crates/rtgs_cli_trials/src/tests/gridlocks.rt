//! Orders that wait for each other, on the command line.
use super::days::OPEN_DAY;
use super::scenarios::script_of;
use super::script::follows_both;
use rtgs_tests_desks::{GRIDLOCKS, ensure};
use std::test::Fail;

#[test]
fn runs_do_what_each_scenario_says(rt: HostRuntime) -> Result<(), Fail> {
    let mut count = 0usize;
    for scenario in GRIDLOCKS {
        let script = script_of(rt.alloc(), scenario)?;
        let book = format!(in rt.alloc(); "scenario_{count}")?;
        follows_both(&rt, book.as_str(), OPEN_DAY, script.as_str())?;
        count = count.saturating_add(1);
    }
    ensure(count == 8)
}

const DEADLOCK: &str = "
$ orders deadlock.csv A-1,BETA,100
$ desk import @ ALFA deadlock.csv
> reference,result,number,detail
> A-1,queued,1,1
$ orders deadlock.csv B-1,GAMA,90
$ desk import @ BETA deadlock.csv
> reference,result,number,detail
> B-1,queued,2,1
$ desk resolve @
> nothing
$ desk report @ 2024-03-04
> report 2024-03-04
> ALFA                               0.00                           0.00                           0.00
> BETA                               0.00                           0.00                           0.00
> GAMA                               0.00                           0.00                           0.00
> settled            0                           0.00
> queued             2                           1.90
> held               0                           0.00
> withdrawn          0                           0.00
> rejected           0                           0.00
> marks              0
$ desk cutoff @ 2024-03-04
> cut off
$ orders deadlock.csv A-2,BETA,1
$ desk import @ ALFA deadlock.csv
> reference,result,number,detail
> A-2,refused,,5
$ desk close @ 2024-03-04
> closed rejected 2
$ desk close @ 2024-03-04
> repeated
$ orders deadlock.csv A-1,BETA,100
$ desk import @ ALFA deadlock.csv
> reference,result,number,detail
> A-1,repeated,1,rejected
";

#[test]
fn a_deadlock_stays_until_the_close(rt: HostRuntime) -> Result<(), Fail> {
    follows_both(&rt, "deadlock", OPEN_DAY, DEADLOCK)
}

const READ: &str = "
$ orders read.csv A-1,BETA,100
$ desk import @ ALFA read.csv
> reference,result,number,detail
> A-1,queued,1,1
$ orders read.csv B-1,GAMA,100
$ desk import @ BETA read.csv
> reference,result,number,detail
> B-1,queued,2,1
$ orders read.csv G-1,ALFA,100
$ desk import @ GAMA read.csv
> reference,result,number,detail
> G-1,queued,3,1
$ desk account @ ALFA
> {\"balance\":0,\"code\":\"ALFA\",\"credit\":0,\"date\":\"2024-03-04\",\"name\":\"Alfa Bank\",\
   \"phase\":\"OPEN\",\"queued\":1,\"queued_value\":100}
$ desk queue @ ALFA
> {\"orders\":[{\"amount\":100,\"number\":1,\"place\":1,\"reference\":\"A-1\",\"to\":\"BETA\"}]}
$ desk statement @ ALFA 2024-03-04
> statement ALFA 2024-03-04
> queued     000000001 A-1              BETA                     1.00         -
> sum-posted                           0.00
> sum-sent                             0.00
> sum-recv                             0.00
> net                                  0.00
$ desk order @ ALFA A-1
> {\"amount\":100,\"date\":\"2024-03-04\",\"number\":1,\"reference\":\"A-1\",\"state\":\"queued\",\"to\":\"BETA\"}
$ desk order @ ALFA A-1
> {\"amount\":100,\"date\":\"2024-03-04\",\"number\":1,\"reference\":\"A-1\",\"state\":\"queued\",\"to\":\"BETA\"}
$ desk resolve @
> resolved mark 1 count 3 value 300
";

#[test]
fn what_is_read_settles_nothing(rt: HostRuntime) -> Result<(), Fail> {
    follows_both(&rt, "read", OPEN_DAY, READ)
}
