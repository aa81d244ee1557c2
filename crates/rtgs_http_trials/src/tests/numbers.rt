//! Numbers in bodies of JSON, and the fault that each is.
use super::faults::tells_faults;
use std::test::Fail;

const AMOUNTS: &str = r#"
ALFA POST /orders {"amount":100,"reference":"A-1","to":"BETA"}
-> order ALFA A-1 BETA 100

ALFA POST /orders {"amount":1000000000000,"reference":"A-1","to":"BETA"}
-> order ALFA A-1 BETA 1000000000000

ALFA POST /orders {"amount":0,"reference":"A-1","to":"BETA"}
-> 400 32 BadAmount

ALFA POST /orders {"amount":1000000000001,"reference":"A-1","to":"BETA"}
-> 400 32 BadAmount

ALFA POST /orders {"amount":18446744073709551615,"reference":"A-1","to":"BETA"}
-> 400 32 BadAmount

ALFA POST /orders {"amount":18446744073709551616,"reference":"A-1","to":"BETA"}
-> 400 66 WrongFields

ALFA POST /orders {"amount":-5,"reference":"A-1","to":"BETA"}
-> 400 66 WrongFields

ALFA POST /orders {"amount":-0,"reference":"A-1","to":"BETA"}
-> 400 66 WrongFields

ALFA POST /orders {"amount":100.0,"reference":"A-1","to":"BETA"}
-> 400 66 WrongFields

ALFA POST /orders {"amount":1e2,"reference":"A-1","to":"BETA"}
-> 400 66 WrongFields

ALFA POST /orders {"amount":"100","reference":"A-1","to":"BETA"}
-> 400 66 WrongFields

ALFA POST /orders {"amount":null,"reference":"A-1","to":"BETA"}
-> 400 66 WrongFields

ALFA POST /orders {"amount":007,"reference":"A-1","to":"BETA"}
-> 400 65 BadJson

ALFA POST /orders {"amount":+5,"reference":"A-1","to":"BETA"}
-> 400 65 BadJson

ALFA POST /orders {"amount":1.,"reference":"A-1","to":"BETA"}
-> 400 65 BadJson

ALFA POST /orders {"amount":,"reference":"A-1","to":"BETA"}
-> 400 65 BadJson
"#;

#[test]
fn amounts(rt: HostRuntime) -> Result<(), Fail> {
    tells_faults(rt.alloc(), AMOUNTS)
}

const CENTS: &str = r#"
OPERATOR POST /desk/post {"cents":-1000000000000000,"code":"ALFA","reference":"P-1"}
-> post ALFA P-1 -1000000000000000

OPERATOR POST /desk/post {"cents":1000000000000001,"code":"ALFA","reference":"P-1"}
-> 400 32 BadAmount

OPERATOR POST /desk/post {"cents":0,"code":"ALFA","reference":"P-1"}
-> 400 32 BadAmount

OPERATOR POST /desk/post {"cents":-9223372036854775808,"code":"ALFA","reference":"P-1"}
-> 400 32 BadAmount

OPERATOR POST /desk/post {"cents":9223372036854775808,"code":"ALFA","reference":"P-1"}
-> 400 32 BadAmount

OPERATOR POST /desk/post {"cents":-9223372036854775809,"code":"ALFA","reference":"P-1"}
-> 400 66 WrongFields

OPERATOR POST /desk/post {"cents":-0,"code":"ALFA","reference":"P-1"}
-> 400 66 WrongFields

OPERATOR POST /desk/post {"cents":1.5,"code":"ALFA","reference":"P-1"}
-> 400 66 WrongFields
"#;

#[test]
fn cents(rt: HostRuntime) -> Result<(), Fail> {
    tells_faults(rt.alloc(), CENTS)
}
