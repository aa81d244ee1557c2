//! Books in tables of an earlier version, as an older program left them, and how they are brought to the newest.
use super::BEGIN;
use super::imports::DAY;
use super::script::{follows, follows_both, follows_case, follows_each};
use std::test::Fail;

/// Orders of the day that have settled, that wait and that are withdrawn.
const ORDERS: &str = "
$ orders @.csv A-1,BETA,100 A-2,GAMA,50 A-3,BETA,25 A-4,GAMA,25
$ desk import @ ALFA @.csv
> reference,result,number,detail
> A-1,settled,1,1
> A-2,settled,2,2
> A-3,queued,3,1
> A-4,queued,4,2
$ desk withdraw @ ALFA A-3
> withdrawn 3
$ copy @ @.book
";

/// What the desk says of that day.
const READINGS: &str = "
$ desk report @ 2024-03-04
> report 2024-03-04
> ALFA                               1.50                           1.50                           0.00
> BETA                               0.00                           0.00                           1.00
> GAMA                               0.00                           0.00                           0.50
> settled            2                           1.50
> queued             1                           0.25
> held               0                           0.00
> withdrawn          1                           0.25
> rejected           0                           0.00
> marks              2
$ desk statement @ ALFA 2024-03-04
> statement ALFA 2024-03-04
> posting    000000001 P-1              -                        1.50         -
> sent       000000001 A-1              BETA                     1.00         1
> sent       000000002 A-2              GAMA                     0.50         2
> withdrawn  000000003 A-3              BETA                     0.25         -
> queued     000000004 A-4              GAMA                     0.25         -
> sum-posted                           1.50
> sum-sent                             1.50
> sum-recv                             0.00
> net                                  0.00
$ desk account @ BETA
> {\"balance\":100,\"code\":\"BETA\",\"credit\":0,\"date\":\"2024-03-04\",\"name\":\"A Bank\",\
   \"phase\":\"OPEN\",\"queued\":0,\"queued_value\":0}
$ desk queue @ ALFA
> {\"orders\":[{\"amount\":25,\"number\":4,\"place\":1,\"reference\":\"A-4\",\"to\":\"GAMA\"}]}
$ desk order @ ALFA A-1
> {\"amount\":100,\"date\":\"2024-03-04\",\"mark\":1,\"number\":1,\"reference\":\"A-1\",\
   \"state\":\"settled\",\"to\":\"BETA\"}
";

/// What makes of the tables those of the first version.
const FIRST: &str = "DROP TABLE resolution; DROP TABLE forward; UPDATE desk SET version = 1";

/// What makes of the tables those of the second version.
const SECOND: &str = "DROP TABLE resolution; UPDATE desk SET version = 2";

/// The tables are made those of an older version.
const OLDER: &str = "
$ sql @ %1
$ desk init @
! refused 96 FileExists
status 3
";

/// Each other run refuses them, and changes no byte of the file.
const REFUSED: &str = "
$ copy @ @.kept
$ desk %1
! refused 93 NotADeskFile
status 3
$ same @ @.kept
";

const OTHERS: &str = "\
add @ DELTA 'Delta Bank' 0000000000000000000000000000000d
credit @ ALFA 100
post @ ALFA P-9 1
open @ 2024-03-05
open @ 2024-03-05 --automatic
import @ ALFA @.csv
withdraw @ ALFA A-4
resolve @
cutoff @ 2024-03-04
close @ 2024-03-04
account @ ALFA
queue @ ALFA
order @ ALFA A-1
statement @ ALFA 2024-03-04
report @ 2024-03-04
serve @ --port 8080 --count 1 --operator-key 0000000000000000000000000000000f";

/// They are brought to the newest version once. The file is then whole without its log: a copy of it alone has the
/// version, this many due dates, and one row that says that no day is automatic, or else what is inserted has no value,
/// which is refused.
const MIGRATED: &str = "
$ desk migrate @
> migrated
$ copy @ @.kept
$ copy @ @.copied
$ sql @.copied CREATE TABLE seen (is_so INTEGER NOT NULL)
$ sql @.copied INSERT INTO seen SELECT CASE WHEN sum(version) = 3 THEN 1 END FROM desk
$ sql @.copied INSERT INTO seen SELECT CASE WHEN count(*) = %1 THEN 1 END FROM forward
$ sql @.copied INSERT INTO seen SELECT CASE WHEN count(*) = 1 THEN 1 END FROM resolution
$ sql @.copied INSERT INTO seen SELECT CASE WHEN sum(id) = 1 THEN 1 END FROM resolution
$ sql @.copied INSERT INTO seen SELECT CASE WHEN sum(automatic) = 0 THEN 1 END FROM resolution
$ desk migrate @
> repeated
$ same @ @.kept
";

/// The desk goes on with its day.
const GOES_ON: &str = "
$ desk post @ ALFA P-2 25
> posted 2
$ desk resolve @
> resolved mark 3 count 1 value 25
";

/// A book with tables of an older version, with this many due dates, is brought to the newest, tells the same then, and
/// goes on.
fn is_brought_on(rt: &HostRuntime, book: &str, older: &str, dues: &str) -> Result<(), Fail> {
    follows(rt, book, READINGS)?;
    follows_case(rt, book, OLDER, older)?;
    follows_each(rt, book, REFUSED, OTHERS)?;
    follows_case(rt, book, MIGRATED, dues)?;
    follows_both(rt, book, READINGS, GOES_ON)
}

#[test]
fn tables_of_the_first_version_are_brought_to_the_newest(rt: HostRuntime) -> Result<(), Fail> {
    follows_both(&rt, "first", DAY, ORDERS)?;
    is_brought_on(&rt, "first", FIRST, "0")
}

/// Orders for later dates besides.
const HELD: &str = "
$ file @.due reference,to,amount,due\\nA-5,BETA,10,2024-03-05\\nA-6,GAMA,15,2024-03-06\\n
$ desk import @ ALFA @.due
> reference,result,number,detail
> A-5,held,5,2024-03-05
> A-6,held,6,2024-03-06
";

/// One of them enters its queue on an automatic day, and settles.
const GOES_ON_AUTOMATICALLY: &str = "
$ desk order @ ALFA A-6
> {\"amount\":15,\"date\":\"2024-03-06\",\"due\":\"2024-03-06\",\"number\":6,\"reference\":\"A-6\",\
   \"state\":\"held\",\"to\":\"GAMA\"}
$ desk cutoff @ 2024-03-04
> cut off
$ desk close @ 2024-03-04
> closed rejected 0
$ desk post @ ALFA P-3 10
> posted 3
$ desk open @ 2024-03-05 --automatic
> opened
> auto mark 4 count 1 value 10
";

#[test]
fn tables_of_the_second_version_are_brought_to_the_newest(rt: HostRuntime) -> Result<(), Fail> {
    follows_both(&rt, "second", DAY, ORDERS)?;
    follows(&rt, "second", HELD)?;
    is_brought_on(&rt, "second", SECOND, "2")?;
    follows(&rt, "second", GOES_ON_AUTOMATICALLY)
}

/// Tables of the newest version stay as they are, byte for byte.
const REPEATED: &str = "
$ copy @ @.kept
$ desk migrate @
> repeated
$ same @ @.kept
";

#[test]
fn tables_of_the_newest_version_stay(rt: HostRuntime) -> Result<(), Fail> {
    follows_both(&rt, "newest", BEGIN, REPEATED)
}

/// The older tables stand in the log alone.
const LOGGED: &str = "
$ log @ %1
$ desk migrate @
> migrated
$ desk post @ ALFA P-1 1
> posted 1
";

#[test]
fn older_tables_in_the_log_are_brought_on(rt: HostRuntime) -> Result<(), Fail> {
    follows(&rt, "first_log", BEGIN)?;
    follows_case(&rt, "first_log", LOGGED, FIRST)?;
    follows(&rt, "second_log", BEGIN)?;
    follows_case(&rt, "second_log", LOGGED, SECOND)
}

/// What was written stands, where standard output takes four bytes.
const UNHEARD: &str = "
$ sql @ DROP TABLE resolution; UPDATE desk SET version = 2
$ out 4 migrate @
> migr~
status 3 lost
$ desk migrate @
> repeated
";

#[test]
fn a_migration_stands_where_nobody_hears_it(rt: HostRuntime) -> Result<(), Fail> {
    follows_both(&rt, "unheard_migration", BEGIN, UNHEARD)
}

const MISSING: &str = "
$ desk migrate @
! refused 93 NotADeskFile
status 3
$ gone @
";

#[test]
fn a_migration_makes_no_file(rt: HostRuntime) -> Result<(), Fail> {
    follows(&rt, "unmade", MISSING)
}

/// A migration is refused so on the book that a step has changed, and changes no byte of it.
const UNMIGRATED: &str = "
$ copy @.book @
$ %2
$ copy @ @.kept
$ desk migrate @
! refused %1
status 3
$ same @ @.kept
";

/// What is no book, whose tables say no known version, lack a table of theirs, have one more or have other rows in it,
/// or hold what is not sound.
const UNSOUND: &str = "\
93 NotADeskFile ! file @ S
93 NotADeskFile ! sql @ UPDATE desk SET version = 4
93 NotADeskFile ! sql @ DROP TABLE resolution; DROP TABLE forward; UPDATE desk SET version = 0
93 NotADeskFile ! sql @ DROP TABLE resolution
93 NotADeskFile ! sql @ DROP TABLE forward
93 NotADeskFile ! sql @ DELETE FROM resolution
93 NotADeskFile ! sql @ INSERT INTO resolution VALUES (2, 0)
93 NotADeskFile ! sql @ UPDATE resolution SET automatic = 2
93 NotADeskFile ! sql @ INSERT INTO forward VALUES (5, '2024-03-05')
93 NotADeskFile ! sql @ UPDATE payment SET state = 4 WHERE number = 4
94 Inconsistent 11 ! sql @ INSERT INTO forward VALUES (1, '2024-03-05')
94 Inconsistent 14 ! sql @ UPDATE participant SET balance = balance + 1";

/// The same of tables of the second version.
const UNSOUND_SECOND: &str = "\
93 NotADeskFile ! sql @ UPDATE desk SET version = 2
93 NotADeskFile ! sql @ DROP TABLE resolution; UPDATE desk SET version = 2; DROP TABLE forward
93 NotADeskFile ! sql @ DROP TABLE resolution; UPDATE desk SET version = 2; CREATE TABLE resolution (id INTEGER)
93 NotADeskFile ! sql @ DROP TABLE resolution; UPDATE desk SET version = 2; CREATE VIEW resolution AS SELECT 1
93 NotADeskFile ! sql @ DROP TABLE resolution; UPDATE desk SET version = 2; CREATE INDEX resolution ON mark (date)
93 NotADeskFile ! sql @ DROP TABLE resolution; UPDATE desk SET version = 2; INSERT INTO forward VALUES (5, '2024-03-05')
93 NotADeskFile ! sql @ DROP TABLE resolution; UPDATE desk SET version = 2; \
    UPDATE payment SET state = 4 WHERE number = 4
94 Inconsistent 9 ! sql @ DROP TABLE resolution; UPDATE desk SET version = 2; UPDATE mark SET many = 2 WHERE number = 2
94 Inconsistent 11 ! sql @ DROP TABLE resolution; UPDATE desk SET version = 2; \
    INSERT INTO forward VALUES (1, '2024-03-05')
94 Inconsistent 14 ! sql @ DROP TABLE resolution; UPDATE desk SET version = 2; \
    UPDATE participant SET balance = balance + 1";

/// The same of tables of the first version.
const UNSOUND_FIRST: &str = "\
93 NotADeskFile ! sql @ UPDATE desk SET version = 1
93 NotADeskFile ! sql @ DROP TABLE resolution; UPDATE desk SET version = 1
93 NotADeskFile ! sql @ DROP TABLE forward; UPDATE desk SET version = 1
93 NotADeskFile ! sql @ DROP TABLE resolution; DROP TABLE forward; UPDATE desk SET version = 1; \
    CREATE VIEW forward AS SELECT 1
93 NotADeskFile ! sql @ DROP TABLE resolution; DROP TABLE forward; UPDATE desk SET version = 1; \
    CREATE INDEX forward ON mark (date)
93 NotADeskFile ! sql @ DROP TABLE resolution; DROP TABLE forward; UPDATE desk SET version = 1; DROP TABLE mark
93 NotADeskFile ! sql @ DROP TABLE resolution; DROP TABLE forward; UPDATE desk SET version = 1; \
    UPDATE payment SET state = 4 WHERE number = 4
93 NotADeskFile ! sql @ DROP TABLE resolution; DROP TABLE forward; UPDATE desk SET version = 1; \
    UPDATE payment SET state = 9 WHERE number = 3
94 Inconsistent 9 ! sql @ DROP TABLE resolution; DROP TABLE forward; UPDATE desk SET version = 1; \
    UPDATE mark SET many = 2 WHERE number = 2
94 Inconsistent 14 ! sql @ DROP TABLE resolution; DROP TABLE forward; UPDATE desk SET version = 1; \
    UPDATE participant SET balance = balance + 1";

#[test]
fn what_is_no_sound_book_is_left_as_it_was(rt: HostRuntime) -> Result<(), Fail> {
    follows_both(&rt, "unmigrated", DAY, ORDERS)?;
    follows_each(&rt, "unmigrated", UNMIGRATED, UNSOUND)?;
    follows_each(&rt, "unmigrated", UNMIGRATED, UNSOUND_SECOND)?;
    follows_each(&rt, "unmigrated", UNMIGRATED, UNSOUND_FIRST)
}
