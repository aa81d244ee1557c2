//! Days on which a resolution follows each command that may let orders settle, on the command line.
use super::BEGIN;
use super::days::THREE_BANKS;
use super::helps::MISUSED;
use super::script::{follows, follows_both, follows_each};
use std::test::Fail;

/// A new book with three banks, on a Monday that is automatic.
const AUTOMATIC_DAY: &str = "
$ desk init @
> initialised
$ desk add @ ALFA 'Alfa Bank' 0000000000000000000000000000000a
> added
$ desk add @ BETA 'Beta Bank' 0000000000000000000000000000000b
> added
$ desk add @ GAMA 'Gama Bank' 0000000000000000000000000000000c
> added
$ desk open @ 2024-03-04 --automatic
> opened
";

/// The third order closes a ring, and the file with it tells its own answer. Sent again, it tells what became of it.
const RING: &str = "
$ orders @.csv A-1,BETA,100
$ desk import @ ALFA @.csv
> reference,result,number,detail
> A-1,queued,1,1
$ orders @.csv B-1,GAMA,100
$ desk import @ BETA @.csv
> reference,result,number,detail
> B-1,queued,2,1
$ orders @.csv G-1,ALFA,100
$ desk import @ GAMA @.csv
> reference,result,number,detail
> G-1,queued,3,1
$ desk import @ GAMA @.csv
> reference,result,number,detail
> G-1,repeated,3,settled
$ desk order @ ALFA A-1
> {\"amount\":100,\"date\":\"2024-03-04\",\"mark\":1,\"number\":1,\"reference\":\"A-1\",\
   \"state\":\"settled\",\"to\":\"BETA\"}
$ desk resolve @
> nothing
$ desk report @ 2024-03-04
> report 2024-03-04
> ALFA                               0.00                           1.00                           1.00
> BETA                               0.00                           1.00                           1.00
> GAMA                               0.00                           1.00                           1.00
> settled            3                           3.00
> queued             0                           0.00
> held               0                           0.00
> withdrawn          0                           0.00
> rejected           0                           0.00
> marks              1
$ desk cutoff @ 2024-03-04
> cut off
$ desk close @ 2024-03-04
> closed rejected 0
";

#[test]
fn an_order_closes_a_ring(rt: HostRuntime) -> Result<(), Fail> {
    follows_both(&rt, "automatic_ring", AUTOMATIC_DAY, RING)
}

/// The third order frees the first, and itself. What is left is a deadlock, and the orders after it free nothing.
const CASCADE: &str = "
$ desk post @ ALFA P-1 10
> posted 1
$ orders @.csv A-1,BETA,60 A-2,GAMA,10
$ desk import @ ALFA @.csv
> reference,result,number,detail
> A-1,queued,1,1
> A-2,queued,2,2
$ orders @.csv B-1,ALFA,50 B-2,GAMA,20
$ desk import @ BETA @.csv
> reference,result,number,detail
> B-1,queued,3,1
> B-2,queued,4,1
$ orders @.csv G-1,ALFA,5
$ desk import @ GAMA @.csv
> reference,result,number,detail
> G-1,queued,5,1
$ desk order @ BETA B-1
> {\"amount\":50,\"date\":\"2024-03-04\",\"mark\":1,\"number\":3,\"reference\":\"B-1\",\
   \"state\":\"settled\",\"to\":\"ALFA\"}
$ desk account @ ALFA
> {\"balance\":0,\"code\":\"ALFA\",\"credit\":0,\"date\":\"2024-03-04\",\"name\":\"Alfa Bank\",\
   \"phase\":\"OPEN\",\"queued\":1,\"queued_value\":10}
$ desk account @ BETA
> {\"balance\":10,\"code\":\"BETA\",\"credit\":0,\"date\":\"2024-03-04\",\"name\":\"Beta Bank\",\
   \"phase\":\"OPEN\",\"queued\":1,\"queued_value\":20}
$ desk account @ GAMA
> {\"balance\":0,\"code\":\"GAMA\",\"credit\":0,\"date\":\"2024-03-04\",\"name\":\"Gama Bank\",\
   \"phase\":\"OPEN\",\"queued\":1,\"queued_value\":5}
$ desk resolve @
> nothing
$ desk cutoff @ 2024-03-04
> cut off
$ desk close @ 2024-03-04
> closed rejected 3
";

#[test]
fn an_order_frees_another(rt: HostRuntime) -> Result<(), Fail> {
    follows_both(&rt, "automatic_cascade", AUTOMATIC_DAY, CASCADE)
}

/// BETA's order settles at once, and frees ALFA's under a mark of its own.
const TWO_MARKS: &str = "
$ desk post @ BETA P-1 30
> posted 1
$ orders @.csv A-1,GAMA,20
$ desk import @ ALFA @.csv
> reference,result,number,detail
> A-1,queued,1,1
$ orders @.csv B-1,ALFA,30
$ desk import @ BETA @.csv
> reference,result,number,detail
> B-1,settled,2,1
$ desk import @ BETA @.csv
> reference,result,number,detail
> B-1,repeated,2,settled
$ desk statement @ ALFA 2024-03-04
> statement ALFA 2024-03-04
> sent       000000001 A-1              GAMA                     0.20         2
> received   000000002 B-1              BETA                     0.30         1
> sum-posted                           0.00
> sum-sent                             0.20
> sum-recv                             0.30
> net                                  0.10
$ desk report @ 2024-03-04
> report 2024-03-04
> ALFA                               0.00                           0.20                           0.30
> BETA                               0.30                           0.30                           0.00
> GAMA                               0.00                           0.00                           0.20
> settled            2                           0.50
> queued             0                           0.00
> held               0                           0.00
> withdrawn          0                           0.00
> rejected           0                           0.00
> marks              2
";

#[test]
fn an_order_settles_and_frees_another(rt: HostRuntime) -> Result<(), Fail> {
    follows_both(&rt, "automatic_marks", AUTOMATIC_DAY, TWO_MARKS)
}

/// A posting, a credit limit and a withdrawal tell what they freed on a second line. Each again, a refusal, and one
/// that frees none tell nothing more. So it is after the cut-off.
const FREED: &str = "
$ orders @.csv A-1,BETA,100 A-2,BETA,50 A-3,GAMA,30 A-4,GAMA,1
$ desk import @ ALFA @.csv
> reference,result,number,detail
> A-1,queued,1,1
> A-2,queued,2,2
> A-3,queued,3,3
> A-4,queued,4,4
$ desk post @ ALFA P-1 99
> posted 1
$ desk post @ ALFA P-2 1
> posted 2
> auto mark 1 count 1 value 100
$ desk post @ ALFA P-2 1
> repeated
$ desk post @ ALFA P-2 2
! refused 04 ReferenceUsed
status 1
$ desk post @ BETA P-3 100 --debit
> posted 3
$ desk credit @ ALFA 30
> credit set
$ desk withdraw @ ALFA A-2
> withdrawn 2
> auto mark 2 count 1 value 30
$ desk withdraw @ ALFA A-2
> repeated
$ desk credit @ ALFA 29
! refused 06 NoCover
status 1
$ desk cutoff @ 2024-03-04
> cut off
$ desk credit @ ALFA 31
> credit set
> auto mark 3 count 1 value 1
$ desk credit @ ALFA 31
> credit set
$ desk post @ ALFA P-4 31
> posted 4
$ desk close @ 2024-03-04
> closed rejected 0
$ desk post @ ALFA P-5 7
> posted 5
";

#[test]
fn a_posting_a_limit_and_a_withdrawal_free_orders(rt: HostRuntime) -> Result<(), Fail> {
    follows_both(&rt, "automatic_freed", AUTOMATIC_DAY, FREED)
}

/// A beginning of the second line is printed where standard output takes thirteen bytes. What the line is about stands.
const UNHEARD: &str = "
$ orders @.csv A-1,BETA,100
$ desk import @ ALFA @.csv
> reference,result,number,detail
> A-1,queued,1,1
$ writes credit @ ALFA 99
1 writes
$ out 13 credit @ ALFA 100
> credit set
> au~
status 3 lost
$ desk order @ ALFA A-1
> {\"amount\":100,\"date\":\"2024-03-04\",\"mark\":1,\"number\":1,\"reference\":\"A-1\",\
   \"state\":\"settled\",\"to\":\"BETA\"}
$ orders @.csv A-2,BETA,1
$ desk import @ ALFA @.csv
> reference,result,number,detail
> A-2,queued,2,1
$ writes post @ ALFA P-1 1
1 writes
$ desk order @ ALFA A-2
> {\"amount\":1,\"date\":\"2024-03-04\",\"mark\":2,\"number\":2,\"reference\":\"A-2\",\
   \"state\":\"settled\",\"to\":\"BETA\"}
";

#[test]
fn both_lines_are_printed_in_one_piece(rt: HostRuntime) -> Result<(), Fail> {
    follows_both(&rt, "automatic_unheard", AUTOMATIC_DAY, UNHEARD)
}

/// Held orders enter their queues as an automatic day opens, and those that can settle do. The day after is as it is
/// opened: its orders wait.
const HELD: &str = "
$ file @.csv reference,to,amount,due\\nA-1,BETA,60,2024-03-05\\nA-2,BETA,60,2024-03-06\\n
$ desk import @ ALFA @.csv
> reference,result,number,detail
> A-1,held,1,2024-03-05
> A-2,held,2,2024-03-06
$ file @.csv reference,to,amount,due\\nB-1,ALFA,60,2024-03-05\\nB-2,ALFA,60,2024-03-06\\n
$ desk import @ BETA @.csv
> reference,result,number,detail
> B-1,held,3,2024-03-05
> B-2,held,4,2024-03-06
$ desk cutoff @ 2024-03-04
> cut off
$ desk open @ 2024-03-04 --automatic
! refused 14 WrongPhase
status 1
$ desk close @ 2024-03-04
> closed rejected 0
$ desk open @ 2024-03-09 --automatic
! refused 16 Weekend
status 1
$ desk open @ 2024-03-04 --automatic
! refused 15 WrongDate
status 1
$ desk open @ 2024-03-05 --automatic
> opened
> auto mark 1 count 2 value 120
$ desk open @ 2024-03-05 --automatic
> repeated
$ desk cutoff @ 2024-03-05
> cut off
$ desk close @ 2024-03-05
> closed rejected 0
$ desk open @ 2024-03-06
> opened
$ desk queue @ ALFA
> {\"orders\":[{\"amount\":60,\"number\":2,\"place\":1,\"reference\":\"A-2\",\"to\":\"BETA\"}]}
$ desk post @ ALFA P-1 60
> posted 1
$ desk resolve @
> resolved mark 2 count 2 value 120
";

#[test]
fn held_orders_settle_as_their_day_opens(rt: HostRuntime) -> Result<(), Fail> {
    follows_both(&rt, "automatic_held", AUTOMATIC_DAY, HELD)
}

/// The choice of a day that is open stands, and ends with the day.
const CHOICES: &str = "
$ desk open @ 2024-03-04
! refused 14 WrongPhase
status 1
$ desk open @ 2024-03-05 --automatic
! refused 14 WrongPhase
status 1
$ desk open @ 2024-03-04 --automatic
> repeated
$ desk cutoff @ 2024-03-04
> cut off
$ desk close @ 2024-03-04
> closed rejected 0
$ desk open @ 2024-03-05
> opened
$ desk open @ 2024-03-05 --automatic
! refused 14 WrongPhase
status 1
$ desk open @ 2024-03-05
> repeated
";

#[test]
fn an_open_day_keeps_its_choice(rt: HostRuntime) -> Result<(), Fail> {
    follows_both(&rt, "choices", AUTOMATIC_DAY, CHOICES)
}

/// The flag stands in each place behind `open`, before a malformed date too.
const PLACES: &str = "
$ desk open @ --automatic 2024-02-30
! refused 35 BadDate
status 1
$ desk open --automatic @ -024-03-04
! refused 35 BadDate
status 1
$ desk open @ --automatic 2024-03-04
> opened
$ desk open --automatic @ 2024-03-04
> repeated
$ desk open @ 2024-03-04 --automatic
> repeated
";

#[test]
fn the_flag_stands_in_each_place(rt: HostRuntime) -> Result<(), Fail> {
    follows_both(&rt, "places", BEGIN, PLACES)
}

/// It has no value, stands once, and is that of `open` alone.
const MISPLACED: &str = "\
--automatic open @ 2024-03-04
open @ --automatic
open @ 2024-03-04 --automatic yes
open @ 2024-03-04 --automatic=yes
open @ 2024-03-04 --automatic --automatic
open @ 2024-03-04 --Automatic
open @ 2024-03-04 --debit
cutoff @ 2024-03-04 --automatic
close @ 2024-03-04 --automatic
resolve @ --automatic
post @ ALFA P-1 1 --automatic
migrate @ --automatic";

const STILL_CLOSED: &str = "
$ desk resolve @
! refused 14 WrongPhase
status 1
";

#[test]
fn the_flag_is_taken_nowhere_else(rt: HostRuntime) -> Result<(), Fail> {
    follows(&rt, "misplaced", BEGIN)?;
    follows_each(&rt, "misplaced", MISUSED, MISPLACED)?;
    follows(&rt, "misplaced", STILL_CLOSED)
}

/// A day that is open, on which two orders wait for each other, and could settle together.
const GRIDLOCK: &str = "
$ desk open @ 2024-03-04
> opened
$ orders @.csv A-1,BETA,100
$ desk import @ ALFA @.csv
> reference,result,number,detail
> A-1,queued,1,1
$ orders @.csv B-1,ALFA,100
$ desk import @ BETA @.csv
> reference,result,number,detail
> B-1,queued,2,1
$ copy @ @.book
";

/// Each command and each reading is refused so on the book that a statement has changed, and changes no byte of it.
const RESTLESS: &str = "
$ copy @.book @
$ sql @ UPDATE resolution SET automatic = 1
$ copy @ @.kept
$ desk %1
! refused 94 Inconsistent 16
status 3
$ same @ @.kept
";

const ALL: &str = "\
add @ DELTA 'Delta Bank' 0000000000000000000000000000000d
credit @ ALFA 100
post @ ALFA P-9 1
open @ 2024-03-04 --automatic
import @ ALFA @.csv
withdraw @ ALFA A-1
resolve @
cutoff @ 2024-03-04
close @ 2024-03-04
account @ ALFA
queue @ ALFA
order @ ALFA A-1
statement @ ALFA 2024-03-04
report @ 2024-03-04
serve @ --port 8080 --count 1 --operator-key 0000000000000000000000000000000f";

/// Its tables are of the newest version all the same. On a day that is not automatic orders may wait so, and where one
/// of them is gone the other may.
const CALMED: &str = "
$ desk migrate @
> repeated
$ sql @ UPDATE resolution SET automatic = 0
$ desk queue @ ALFA
> {\"orders\":[{\"amount\":100,\"number\":1,\"place\":1,\"reference\":\"A-1\",\"to\":\"BETA\"}]}
$ desk withdraw @ BETA B-1
> withdrawn 2
$ sql @ UPDATE resolution SET automatic = 1
$ desk open @ 2024-03-04 --automatic
> repeated
$ desk credit @ ALFA 100
> credit set
> auto mark 1 count 1 value 100
";

#[test]
fn a_gridlock_on_an_automatic_day_is_not_opened(rt: HostRuntime) -> Result<(), Fail> {
    follows_both(&rt, "restless", THREE_BANKS, GRIDLOCK)?;
    follows_each(&rt, "restless", RESTLESS, ALL)?;
    follows(&rt, "restless", CALMED)
}

/// A desk that is closed says that its day is automatic. A migration tells it too.
const CLOSED: &str = "
$ sql @ UPDATE resolution SET automatic = 1
$ desk account @ ALFA
! refused 94 Inconsistent 15
status 3
$ desk migrate @
! refused 94 Inconsistent 15
status 3
$ sql @ UPDATE participant SET balance = 1
$ desk account @ ALFA
! refused 94 Inconsistent 14
status 3
$ desk migrate @
! refused 94 Inconsistent 14
status 3
$ sql @ UPDATE participant SET balance = 0
$ sql @ UPDATE resolution SET automatic = 0
$ desk open @ 2024-03-04
> opened
";

#[test]
fn a_closed_day_is_not_automatic(rt: HostRuntime) -> Result<(), Fail> {
    follows_both(&rt, "closed_choice", BEGIN, CLOSED)
}
