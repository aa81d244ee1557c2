//! Business days, from their opening to their close.
use super::script::follows_both;
use std::test::Fail;

/// A new book with three banks.
pub const THREE_BANKS: &str = "
$ desk init @
> initialised
$ desk add @ ALFA 'Alfa Bank' 0000000000000000000000000000000a
> added
$ desk add @ BETA 'Beta Bank' 0000000000000000000000000000000b
> added
$ desk add @ GAMA 'Gama Bank' 0000000000000000000000000000000c
> added
";

/// The same on a Monday that is open.
pub const OPEN_DAY: &str = "
$ desk init @
> initialised
$ desk add @ ALFA 'Alfa Bank' 0000000000000000000000000000000a
> added
$ desk add @ BETA 'Beta Bank' 0000000000000000000000000000000b
> added
$ desk add @ GAMA 'Gama Bank' 0000000000000000000000000000000c
> added
$ desk open @ 2024-03-04
> opened
";

const NO_DAY: &str = "
$ orders new.csv A-1,BETA,100
$ desk close @ 2024-03-04
! refused 14 WrongPhase
status 1
$ desk cutoff @ 2024-03-04
! refused 14 WrongPhase
status 1
$ desk resolve @
! refused 14 WrongPhase
status 1
$ desk import @ ALFA new.csv
> reference,result,number,detail
> A-1,refused,,5
";

#[test]
fn a_new_book_has_no_day(rt: HostRuntime) -> Result<(), Fail> {
    follows_both(&rt, "new", THREE_BANKS, NO_DAY)
}

const CREDIT: &str = "
$ orders credit.csv A-1,BETA,100 A-2,BETA,1
$ desk credit @ alfa x
! refused 30 BadCode
status 1
$ desk credit @ ALFA -1
! refused 32 BadAmount
status 1
$ desk credit @ ALFA 007
! refused 32 BadAmount
status 1
$ desk credit @ ALFA 100000000000001
! refused 32 BadAmount
status 1
$ desk credit @ ZETA 100
! refused 01 UnknownParticipant
status 1
$ desk credit @ ALFA 100
> credit set
$ desk import @ ALFA credit.csv
> reference,result,number,detail
> A-1,settled,1,1
> A-2,queued,2,1
$ desk credit @ ALFA 99
! refused 06 NoCover
status 1
$ desk credit @ ALFA 100
> credit set
$ desk statement @ ALFA 2024-03-04
> statement ALFA 2024-03-04
> sent       000000001 A-1              BETA                     1.00         1
> queued     000000002 A-2              BETA                     0.01         -
> sum-posted                           0.00
> sum-sent                             1.00
> sum-recv                             0.00
> net                                 -1.00
$ desk cutoff @ 2024-03-04
> cut off
$ desk close @ 2024-03-04
! refused 19 Overdrawn ALFA 1
status 1
";

#[test]
fn credit_is_set_and_used(rt: HostRuntime) -> Result<(), Fail> {
    follows_both(&rt, "credit", OPEN_DAY, CREDIT)
}

const GRIDLOCK: &str = "
$ orders gridlock_a.csv A-1,BETA,60 A-2,GAMA,10
$ orders gridlock_b.csv B-1,ALFA,50 B-2,GAMA,20
$ orders gridlock_g.csv G-1,ALFA,5
$ desk post @ ALFA P-1 10
> posted 1
$ desk import @ ALFA gridlock_a.csv
> reference,result,number,detail
> A-1,queued,1,1
> A-2,queued,2,2
$ desk import @ BETA gridlock_b.csv
> reference,result,number,detail
> B-1,queued,3,1
> B-2,queued,4,2
$ desk import @ GAMA gridlock_g.csv
> reference,result,number,detail
> G-1,queued,5,1
$ desk resolve @
> resolved mark 1 count 2 value 110
$ desk resolve @
> nothing
$ desk report @ 2024-03-04
> report 2024-03-04
> ALFA                               0.10                           0.60                           0.50
> BETA                               0.00                           0.50                           0.60
> GAMA                               0.00                           0.00                           0.00
> settled            2                           1.10
> queued             3                           0.35
> held               0                           0.00
> withdrawn          0                           0.00
> rejected           0                           0.00
> marks              1
$ desk close @ 2024-03-04
! refused 14 WrongPhase
status 1
$ desk cutoff @ 2024-03-05
! refused 15 WrongDate
status 1
$ desk cutoff @ 2024-03-04
> cut off
$ desk cutoff @ 2024-03-04
> repeated
$ desk close @ 2024-02-30
! refused 35 BadDate
status 1
$ desk close @ 2024-03-04
> closed rejected 3
$ desk close @ 2024-03-04
> repeated
$ desk resolve @
! refused 14 WrongPhase
status 1
$ desk import @ GAMA gridlock_g.csv
> reference,result,number,detail
> G-1,repeated,5,rejected
";

#[test]
fn a_gridlock_is_resolved_and_a_deadlock_rejected(rt: HostRuntime) -> Result<(), Fail> {
    follows_both(&rt, "gridlock", OPEN_DAY, GRIDLOCK)
}

const RING: &str = "
$ orders ring_a.csv A-1,BETA,100
$ orders ring_b.csv B-1,GAMA,100
$ orders ring_g.csv G-1,ALFA,100
$ desk import @ ALFA ring_a.csv
> reference,result,number,detail
> A-1,queued,1,1
$ desk import @ BETA ring_b.csv
> reference,result,number,detail
> B-1,queued,2,1
$ desk import @ GAMA ring_g.csv
> reference,result,number,detail
> G-1,queued,3,1
$ desk cutoff @ 2024-03-04
> cut off
$ desk close @ 2024-03-04
! refused 18 Resolvable
status 1
$ desk resolve @
> resolved mark 1 count 3 value 300
$ desk close @ 2024-03-04
> closed rejected 0
";

#[test]
fn a_ring_waits_for_its_resolution(rt: HostRuntime) -> Result<(), Fail> {
    follows_both(&rt, "ring", OPEN_DAY, RING)
}

const NO_ROWS: &str = "
$ desk statement @ BETA 2024-03-05
> statement BETA 2024-03-05
> sum-posted                           0.00
> sum-sent                             0.00
> sum-recv                             0.00
> net                                  0.00
$ desk statement @ ZETA 2024-03-05
! refused 01 UnknownParticipant
status 1
$ desk statement @ beta x
! refused 30 BadCode
status 1
$ desk statement @ BETA x
! refused 35 BadDate
status 1
$ desk report @ 2024-03-05
> report 2024-03-05
> ALFA                               0.00                           0.00                           0.00
> BETA                               0.00                           0.00                           0.00
> GAMA                               0.00                           0.00                           0.00
> settled            0                           0.00
> queued             0                           0.00
> held               0                           0.00
> withdrawn          0                           0.00
> rejected           0                           0.00
> marks              0
$ desk report @ x
! refused 35 BadDate
status 1
$ desk report none 2024-03-05
! refused 93 NotADeskFile
status 3
";

#[test]
fn a_date_without_rows_has_its_texts(rt: HostRuntime) -> Result<(), Fail> {
    follows_both(&rt, "bare", OPEN_DAY, NO_ROWS)
}

const EVENING: &str = "
$ desk cutoff @ 2024-03-04
> cut off
$ desk close @ 2024-03-04
> closed rejected 0
$ desk post @ ALFA P-1 250
> posted 1
$ desk post @ ALFA P-2 5 --debit
> posted 2
$ desk statement @ ALFA 2024-03-04
> statement ALFA 2024-03-04
> posting    000000001 P-1              -                        2.50         -
> posting    000000002 P-2              -                       -0.05         -
> sum-posted                           2.45
> sum-sent                             0.00
> sum-recv                             0.00
> net                                  2.45
";

#[test]
fn a_posting_after_the_close_counts_to_the_last_day(rt: HostRuntime) -> Result<(), Fail> {
    follows_both(&rt, "evening", OPEN_DAY, EVENING)
}
