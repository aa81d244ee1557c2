//! What the desk says of accounts, queues and orders, as JSON, and withdrawals.
use super::BEGIN;
use super::imports::DAY;
use super::script::{REFUSED, follows, follows_both, follows_each};
use std::test::Fail;

const READINGS: &str = "
$ orders shown.csv A-1,BETA,100 A-2,GAMA,60
$ desk import @ ALFA shown.csv
> reference,result,number,detail
> A-1,settled,1,1
> A-2,queued,2,1
$ desk account @ ALFA
> {\"balance\":50,\"code\":\"ALFA\",\"credit\":0,\"date\":\"2024-03-04\",\"name\":\"A Bank\",\
   \"phase\":\"OPEN\",\"queued\":1,\"queued_value\":60}
$ desk queue @ ALFA
> {\"orders\":[{\"amount\":60,\"number\":2,\"place\":1,\"reference\":\"A-2\",\"to\":\"GAMA\"}]}
$ desk queue @ BETA
> {\"orders\":[]}
$ desk order @ ALFA A-1
> {\"amount\":100,\"date\":\"2024-03-04\",\"mark\":1,\"number\":1,\"reference\":\"A-1\",\
   \"state\":\"settled\",\"to\":\"BETA\"}
$ desk order @ ALFA A-3
! refused 09 UnknownOrder
status 1
$ desk order @ ALFA a
! refused 31 BadReference
status 1
$ desk account @ ZETA
! refused 01 UnknownParticipant
status 1
$ desk queue @ alfa
! refused 30 BadCode
status 1
$ desk withdraw @ ALFA A-2
> withdrawn 2
$ desk withdraw @ ALFA A-2
> repeated
$ desk withdraw @ ALFA A-1
! refused 17 NotQueued
status 1
";

#[test]
fn accounts_queues_and_orders_are_shown_as_json(rt: HostRuntime) -> Result<(), Fail> {
    follows_both(&rt, "shown", DAY, READINGS)
}

/// The accounts of a new book: nobody's, and then those of two participants before the first day.
const BEFORE_A_DAY: &str = "
$ desk init @
> initialised
$ desk accounts @
> {\"accounts\":[],\"phase\":\"CLOSED\"}
$ desk add @ GAMA 'Gama Bank' 0000000000000000000000000000000c
> added
$ desk add @ ALFA 'Alfa Bank' 0000000000000000000000000000000a
> added
$ desk post @ GAMA P-1 7
> posted 1
$ desk accounts @
> {\"accounts\":[{\"balance\":0,\"code\":\"ALFA\",\"credit\":0,\"lacking\":0,\"name\":\"Alfa Bank\",\
   \"queued\":0,\"queued_value\":0},{\"balance\":7,\"code\":\"GAMA\",\"credit\":0,\"lacking\":0,\
   \"name\":\"Gama Bank\",\"queued\":0,\"queued_value\":0}],\"phase\":\"CLOSED\"}
";

#[test]
fn accounts_of_a_new_book_have_no_date(rt: HostRuntime) -> Result<(), Fail> {
    follows(&rt, "before", BEFORE_A_DAY)
}

/// ALFA pays by its credit, and what its queue lacks cover for waits. What it lacks is posted, and then the day can be
/// closed.
const OVERDRAWN: &str = "
$ desk credit @ ALFA 500
> credit set
$ orders drawn.csv A-1,GAMA,450 A-2,BETA,900 A-3,GAMA,20
$ desk import @ ALFA drawn.csv
> reference,result,number,detail
> A-1,settled,1,1
> A-2,queued,2,1
> A-3,queued,3,2
$ desk accounts @
> {\"accounts\":[{\"balance\":-300,\"code\":\"ALFA\",\"credit\":500,\"lacking\":300,\"name\":\"A Bank\",\
   \"queued\":2,\"queued_value\":920},{\"balance\":0,\"code\":\"BETA\",\"credit\":0,\"lacking\":0,\
   \"name\":\"A Bank\",\"queued\":0,\"queued_value\":0},{\"balance\":450,\"code\":\"GAMA\",\"credit\":0,\
   \"lacking\":0,\"name\":\"A Bank\",\"queued\":0,\"queued_value\":0}],\"date\":\"2024-03-04\",\
   \"phase\":\"OPEN\"}
$ desk cutoff @ 2024-03-04
> cut off
$ desk close @ 2024-03-04
! refused 19 Overdrawn ALFA 1
status 1
$ desk post @ ALFA P-2 300
> posted 2
$ desk close @ 2024-03-04
> closed rejected 2
$ desk accounts @
> {\"accounts\":[{\"balance\":0,\"code\":\"ALFA\",\"credit\":500,\"lacking\":0,\"name\":\"A Bank\",\
   \"queued\":0,\"queued_value\":0},{\"balance\":0,\"code\":\"BETA\",\"credit\":0,\"lacking\":0,\
   \"name\":\"A Bank\",\"queued\":0,\"queued_value\":0},{\"balance\":450,\"code\":\"GAMA\",\"credit\":0,\
   \"lacking\":0,\"name\":\"A Bank\",\"queued\":0,\"queued_value\":0}],\"date\":\"2024-03-04\",\
   \"phase\":\"CLOSED\"}
";

#[test]
fn accounts_tell_what_each_lacks_for_the_close(rt: HostRuntime) -> Result<(), Fail> {
    follows_both(&rt, "drawn", DAY, OVERDRAWN)
}

/// ALFA pays one order, two wait in its queue, and two are held until later days. Then money for the first one comes.
const WAITING: &str = "
$ desk held @ ALFA
> {\"orders\":[]}
$ desk waiting @ ALFA
> {\"headroom\":150,\"held\":0,\"held_value\":0,\"queued\":0,\"queued_value\":0,\"short\":0}
$ desk queues @
> {\"automatic\":false,\"date\":\"2024-03-04\",\"phase\":\"OPEN\",\"queues\":[]}
$ desk status @
> {\"automatic\":false,\"date\":\"2024-03-04\",\"held\":0,\"held_value\":0,\"next_mark\":1,\"next_order\":1,\
   \"next_posting\":2,\"participants\":3,\"phase\":\"OPEN\",\"queued\":0,\"queued_value\":0,\"sum\":150,\
   \"tables\":3,\"version\":\"0.14.0\"}
$ desk orders @ 2024-03-04
> number,sender,reference,receiver,amount,due,state,mark
$ desk marks @ 2024-03-04
> number,count,value
$ file @.csv reference,to,amount,due\\nA-1,BETA,100,\\nA-2,GAMA,90,\\nA-3,GAMA,60,2024-03-06\\nA-4,BETA,20,\
   2024-03-05\\nA-5,BETA,5,\\n
$ desk import @ ALFA @.csv
> reference,result,number,detail
> A-1,settled,1,1
> A-2,queued,2,1
> A-3,held,3,2024-03-06
> A-4,held,4,2024-03-05
> A-5,queued,5,2
$ desk held @ ALFA
> {\"orders\":[{\"amount\":20,\"due\":\"2024-03-05\",\"number\":4,\"reference\":\"A-4\",\"to\":\"BETA\"},\
   {\"amount\":60,\"due\":\"2024-03-06\",\"number\":3,\"reference\":\"A-3\",\"to\":\"GAMA\"}]}
$ desk held @ BETA
> {\"orders\":[]}
$ desk waiting @ ALFA
> {\"first\":{\"amount\":90,\"number\":2,\"reference\":\"A-2\",\"to\":\"GAMA\"},\"headroom\":50,\"held\":2,\
   \"held_value\":80,\"queued\":2,\"queued_value\":95,\"short\":40}
$ desk queues @
> {\"automatic\":false,\"date\":\"2024-03-04\",\"phase\":\"OPEN\",\"queues\":[{\"code\":\"ALFA\",\
   \"first\":{\"amount\":90,\"number\":2,\"reference\":\"A-2\",\"to\":\"GAMA\"},\"headroom\":50,\"queued\":2,\
   \"queued_value\":95,\"receivers\":[{\"queued\":1,\"queued_value\":5,\"to\":\"BETA\"},{\"queued\":1,\
   \"queued_value\":90,\"to\":\"GAMA\"}],\"settling\":0,\"settling_value\":0,\"short\":40}]}
$ desk status @
> {\"automatic\":false,\"date\":\"2024-03-04\",\"held\":2,\"held_value\":80,\"next_mark\":2,\"next_order\":6,\
   \"next_posting\":2,\"participants\":3,\"phase\":\"OPEN\",\"queued\":2,\"queued_value\":95,\"sum\":150,\
   \"tables\":3,\"version\":\"0.14.0\"}
$ desk post @ ALFA P-2 40
> posted 2
$ desk waiting @ ALFA
> {\"first\":{\"amount\":90,\"number\":2,\"reference\":\"A-2\",\"to\":\"GAMA\"},\"headroom\":90,\"held\":2,\
   \"held_value\":80,\"queued\":2,\"queued_value\":95,\"short\":0}
$ desk queues @
> {\"automatic\":false,\"date\":\"2024-03-04\",\"phase\":\"OPEN\",\"queues\":[{\"code\":\"ALFA\",\
   \"first\":{\"amount\":90,\"number\":2,\"reference\":\"A-2\",\"to\":\"GAMA\"},\"headroom\":90,\"queued\":2,\
   \"queued_value\":95,\"receivers\":[{\"queued\":1,\"queued_value\":5,\"to\":\"BETA\"},{\"queued\":1,\
   \"queued_value\":90,\"to\":\"GAMA\"}],\"settling\":1,\"settling_value\":90,\"short\":0}]}
$ desk orders @ 2024-03-04
> number,sender,reference,receiver,amount,due,state,mark
> 1,ALFA,A-1,BETA,100,,settled,1
> 2,ALFA,A-2,GAMA,90,,queued,
> 5,ALFA,A-5,BETA,5,,queued,
$ desk orders @ 2024-03-05
> number,sender,reference,receiver,amount,due,state,mark
> 4,ALFA,A-4,BETA,20,2024-03-05,held,
$ desk marks @ 2024-03-04
> number,count,value
> 1,1,100
";

#[test]
fn what_waits_and_the_orders_of_a_date_are_shown(rt: HostRuntime) -> Result<(), Fail> {
    follows_both(&rt, "waiting", DAY, WAITING)
}

/// Each new word of a reading is judged by its form, and no participant is made up. Each line has the words of a run
/// and, after ` ! `, what it says.
const UNREAD: &str = "held @ ZETA ! refused 01 UnknownParticipant
waiting @ ZETA ! refused 01 UnknownParticipant
held @ alfa ! refused 30 BadCode
waiting @ -A ! refused 30 BadCode
orders @ 2024-02-30 ! refused 35 BadDate
marks @ -1 ! refused 35 BadDate";

#[test]
fn readings_of_nobody_and_of_no_date_are_refused(rt: HostRuntime) -> Result<(), Fail> {
    follows(&rt, "unread", BEGIN)?;
    follows_each(&rt, "unread", REFUSED, UNREAD)
}

/// A statement is its first line, a posting, and the four sums. Each posting more is a write more. A report is one
/// text.
const WRITTEN: &str = "
$ writes statement @ ALFA 2024-03-04
3 writes
$ writes report @ 2024-03-04
1 writes
$ desk post @ ALFA P-8 1
> posted 2
$ desk post @ ALFA P-9 1
> posted 3
$ writes statement @ ALFA 2024-03-04
5 writes
";

#[test]
fn a_statement_is_printed_row_by_row(rt: HostRuntime) -> Result<(), Fail> {
    follows_both(&rt, "by_row", DAY, WRITTEN)
}
