//! Orders for a later day, from their file to their settlement.
use super::imports::DAY;
use super::script::follows_both;
use std::test::Fail;

/// ALFA's order is held over a close, enters its queue, and is settled by a resolution. Nothing else settles it.
const HELD: &str = r#"
$ file @.csv reference,to,amount,due\nA-1,BETA,100,2024-03-05\nA-2,BETA,90,\n
$ desk import @ ALFA @.csv
> reference,result,number,detail
> A-1,held,1,2024-03-05
> A-2,settled,2,1
$ desk account @ ALFA
> {"balance":60,"code":"ALFA","credit":0,"date":"2024-03-04","name":"A Bank","phase":"OPEN","queued":0,"queued_value":0}
$ desk import @ ALFA @.csv
> reference,result,number,detail
> A-1,repeated,1,held
> A-2,repeated,2,settled
$ orders @.csv A-1,BETA,100
$ desk import @ ALFA @.csv
> reference,result,number,detail
> A-1,refused,,4
$ file @.csv reference,to,amount,due\nA-3,BETA,60,2024-03-04\nA-3,BETA,60,2024-03-09\nA-3,BETA,60,2024-03-06\n
$ desk import @ ALFA @.csv
> reference,result,number,detail
> A-3,refused,,20
> A-3,refused,,16
> A-3,held,3,2024-03-06
$ desk order @ ALFA A-1
> {"amount":100,"date":"2024-03-05","due":"2024-03-05","number":1,"reference":"A-1","state":"held","to":"BETA"}
$ desk cutoff @ 2024-03-04
> cut off
$ desk close @ 2024-03-04
> closed rejected 0
$ desk withdraw @ ALFA A-3
> withdrawn 3
$ desk withdraw @ ALFA A-3
> repeated
$ desk report @ 2024-03-05
> report 2024-03-05
> ALFA                               0.00                           0.00                           0.00
> BETA                               0.00                           0.00                           0.00
> GAMA                               0.00                           0.00                           0.00
> settled            0                           0.00
> queued             0                           0.00
> held               1                           1.00
> withdrawn          0                           0.00
> rejected           0                           0.00
> marks              0
$ desk open @ 2024-03-05
> opened
$ desk queue @ ALFA
> {"orders":[{"amount":100,"number":1,"place":1,"reference":"A-1","to":"BETA"}]}
$ orders @.csv A-4,GAMA,10
$ desk import @ ALFA @.csv
> reference,result,number,detail
> A-4,queued,4,2
$ desk resolve @
> nothing
$ desk post @ ALFA P-2 40
> posted 2
$ desk resolve @
> resolved mark 2 count 1 value 100
$ desk statement @ ALFA 2024-03-05
> statement ALFA 2024-03-05
> posting    000000002 P-2              -                        0.40         -
> sent       000000001 A-1              BETA                     1.00         2
> queued     000000004 A-4              GAMA                     0.10         -
> sum-posted                           0.40
> sum-sent                             1.00
> sum-recv                             0.00
> net                                 -0.60
$ desk statement @ ALFA 2024-03-06
> statement ALFA 2024-03-06
> withdrawn  000000003 A-3              BETA                     0.60         -
> sum-posted                           0.00
> sum-sent                             0.00
> sum-recv                             0.00
> net                                  0.00
"#;

#[test]
fn a_held_order_enters_its_queue_when_its_day_opens(rt: HostRuntime) -> Result<(), Fail> {
    follows_both(&rt, "due", DAY, HELD)
}

/// A day that is never opened lets nothing in; the next one does.
const PASSED_OVER: &str = "
$ file @.csv reference,to,amount,due\\nA-1,BETA,100,2024-03-06\\nA-2,BETA,10,2024-03-08\\n
$ desk import @ ALFA @.csv
> reference,result,number,detail
> A-1,held,1,2024-03-06
> A-2,held,2,2024-03-08
$ desk cutoff @ 2024-03-04
> cut off
$ desk close @ 2024-03-04
> closed rejected 0
$ desk open @ 2024-03-07
> opened
$ desk queue @ ALFA
> {\"orders\":[{\"amount\":100,\"number\":1,\"place\":1,\"reference\":\"A-1\",\"to\":\"BETA\"}]}
$ desk order @ ALFA A-1
> {\"amount\":100,\"date\":\"2024-03-07\",\"due\":\"2024-03-06\",\"number\":1,\"reference\":\"A-1\",\
   \"state\":\"queued\",\"to\":\"BETA\"}
$ desk statement @ ALFA 2024-03-06
> statement ALFA 2024-03-06
> sum-posted                           0.00
> sum-sent                             0.00
> sum-recv                             0.00
> net                                  0.00
";

#[test]
fn an_order_due_on_a_day_without_business_enters_on_the_next(rt: HostRuntime) -> Result<(), Fail> {
    follows_both(&rt, "passed", DAY, PASSED_OVER)
}

/// Files with a column for due dates that are refused whole.
const BAD: &str = "
$ file @.csv reference,to,amount,due\\nA-1,BETA,100\\n
$ desk import @ ALFA @.csv
! refused 41 BadRow 1
status 1
$ file @.csv reference,to,amount\\nA-1,BETA,100,2024-03-05\\n
$ desk import @ ALFA @.csv
! refused 41 BadRow 1
status 1
$ file @.csv reference,to,amount,due\\nA-1,BETA,100,\\nA-2,BETA,100,2024-02-30\\n
$ desk import @ ALFA @.csv
! refused 41 BadRow 2
status 1
$ file @.csv reference,to,amount,due,x\\nA-1,BETA,100,,\\n
$ desk import @ ALFA @.csv
! refused 40 BadHeader
status 1
$ file @.csv reference,to,due,amount\\nA-1,BETA,,100\\n
$ desk import @ ALFA @.csv
! refused 40 BadHeader
status 1
$ file @.csv reference,to,amount,due\\n
$ desk import @ ALFA @.csv
! refused 42 BadCount
status 1
";

#[test]
fn a_file_with_a_bad_due_date_is_not_taken(rt: HostRuntime) -> Result<(), Fail> {
    follows_both(&rt, "bad_due", DAY, BAD)
}
