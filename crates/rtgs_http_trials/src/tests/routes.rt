//! What each route asks for.
use super::faults::tells_faults;
use std::test::Fail;

const AN_ORDER: &str = r#"
ALFA POST /orders {"amount":100,"reference":"A-1","to":"BETA"}
-> order ALFA A-1 BETA 100
"#;

#[test]
fn an_order(rt: HostRuntime) -> Result<(), Fail> {
    tells_faults(rt.alloc(), AN_ORDER)
}

const TWO_KEYS: &str = r#"
ALFA POST /orders {"amount":"none","to":"BETA","amount":100,"reference":"A\u002d1"}
-> order ALFA A-1 BETA 100
"#;

#[test]
fn the_last_of_two_keys_stands(rt: HostRuntime) -> Result<(), Fail> {
    tells_faults(rt.alloc(), TWO_KEYS)
}

const A_WITHDRAWAL: &str = r#"
RAW POST /orders/A-1/withdraw HTTP/1.1\r\n
desk-key: 0000000000000000000000000000000a\r\n
Content-Length: 5\r\n
\r\n
\s{ }\s
-> withdraw ALFA A-1
"#;

#[test]
fn a_withdrawal(rt: HostRuntime) -> Result<(), Fail> {
    tells_faults(rt.alloc(), A_WITHDRAWAL)
}

const A_BATCH: &str = r#"
ALFA POST /batches
reference,to,amount
A-1,BETA,100
-> batch ALFA, A-1 BETA 100
"#;

#[test]
fn a_batch(rt: HostRuntime) -> Result<(), Fail> {
    tells_faults(rt.alloc(), A_BATCH)
}

const READINGS: &str = r#"
ALFA GET /account
-> read account ALFA

ALFA GET /queue
-> read queue ALFA

ALFA GET /held
-> read held ALFA

ALFA GET /waiting
-> read waiting ALFA

ALFA GET /orders/A-1
-> read order ALFA A-1

ALFA GET /statements/2024-03-09
-> read statement ALFA 2024-03-09
"#;

#[test]
fn what_a_bank_reads(rt: HostRuntime) -> Result<(), Fail> {
    tells_faults(rt.alloc(), READINGS)
}

const POSTINGS: &str = r#"
OPERATOR POST /desk/post {"code":"ALFA","reference":"P-1","cents":-5}
-> post ALFA P-1 -5

OPERATOR POST /desk/credit {"code":"ALFA","credit":0}
-> credit ALFA 0
"#;

#[test]
fn what_the_operator_posts(rt: HostRuntime) -> Result<(), Fail> {
    tells_faults(rt.alloc(), POSTINGS)
}

const THE_DAY: &str = r#"
OPERATOR POST /desk/open {"date":"2024-03-04"}
-> open 2024-03-04

OPERATOR POST /desk/cutoff {"date":"2024-03-04"}
-> cut off 2024-03-04

OPERATOR POST /desk/close {"date":"2024-03-04"}
-> close 2024-03-04

OPERATOR POST /desk/resolve {}
-> resolve

OPERATOR GET /desk/report/2024-03-04
-> read report 2024-03-04

OPERATOR GET /desk/accounts
-> read accounts
"#;

#[test]
fn the_operators_day(rt: HostRuntime) -> Result<(), Fail> {
    tells_faults(rt.alloc(), THE_DAY)
}

const THE_DESK: &str = r#"
OPERATOR GET /desk/status
-> read status

OPERATOR GET /desk/queues
-> read queues

OPERATOR GET /desk/orders/2024-03-04
-> read orders 2024-03-04

OPERATOR GET /desk/marks/2024-03-05
-> read marks 2024-03-05
"#;

#[test]
fn what_the_operator_reads_of_the_desk(rt: HostRuntime) -> Result<(), Fail> {
    tells_faults(rt.alloc(), THE_DESK)
}

// No bank has the code ZETA: whether there is one, the book tells.
const OF_A_BANK: &str = r#"
OPERATOR GET /desk/queue/ALFA
-> read queue ALFA

OPERATOR GET /desk/held/ZETA
-> read held ZETA

OPERATOR GET /desk/orders/BETA/A-1
-> read order BETA A-1

OPERATOR GET /desk/orders/BETA/2024-03-04
-> read order BETA 2024-03-04

OPERATOR GET /desk/statements/GAMA/2024-03-09
-> read statement GAMA 2024-03-09
"#;

#[test]
fn what_the_operator_reads_of_a_bank(rt: HostRuntime) -> Result<(), Fail> {
    tells_faults(rt.alloc(), OF_A_BANK)
}

const FOR_A_BANK: &str = r#"
OPERATOR POST /desk/orders/BETA/A-1/withdraw {}
-> withdraw BETA A-1

OPERATOR POST /desk/batches/BETA
reference,to,amount
A-1,ALFA,100
-> batch BETA, A-1 ALFA 100
"#;

#[test]
fn what_the_operator_does_for_a_bank(rt: HostRuntime) -> Result<(), Fail> {
    tells_faults(rt.alloc(), FOR_A_BANK)
}
