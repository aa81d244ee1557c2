//! Malformed values, in each body and each target.
use super::super::test_desk::{follows, follows_after};
use std::test::Fail;

const VALUES: &str = r#"
OPERATOR POST /desk/post {"cents":0,"code":"alfa","reference":"p"}
-> 400 Bad Request {"code":30,"name":"BadCode"}

OPERATOR POST /desk/post {"cents":0,"code":"ALFA","reference":"p"}
-> 400 Bad Request {"code":31,"name":"BadReference"}

OPERATOR POST /desk/post {"cents":0,"code":"ALFA","reference":"P-1"}
-> 400 Bad Request {"code":32,"name":"BadAmount"}

OPERATOR POST /desk/post {"cents":1000000000000001,"code":"ALFA","reference":"P-1"}
-> 400 Bad Request {"code":32,"name":"BadAmount"}

OPERATOR POST /desk/post {"cents":"10","code":"ALFA","reference":"P-1"}
-> 400 Bad Request {"code":66,"name":"WrongFields"}

OPERATOR POST /desk/credit {"code":"AL","credit":100000000000001}
-> 400 Bad Request {"code":30,"name":"BadCode"}

OPERATOR POST /desk/credit {"code":"ALFA","credit":100000000000001}
-> 400 Bad Request {"code":32,"name":"BadAmount"}

OPERATOR POST /desk/credit {"code":"ALFA","credit":-1}
-> 400 Bad Request {"code":66,"name":"WrongFields"}

OPERATOR POST /desk/open {"date":"2024-02-30"}
-> 400 Bad Request {"code":35,"name":"BadDate"}

OPERATOR POST /desk/cutoff {"date":"2024-3-4"}
-> 400 Bad Request {"code":35,"name":"BadDate"}

OPERATOR POST /desk/close {"date":"1999-12-31"}
-> 400 Bad Request {"code":35,"name":"BadDate"}

OPERATOR POST /desk/close {"date":20240304}
-> 400 Bad Request {"code":66,"name":"WrongFields"}

OPERATOR GET /desk/report/2024-02-30
-> 400 Bad Request {"code":35,"name":"BadDate"}

ALFA GET /statements/3000-01-01
-> 400 Bad Request {"code":35,"name":"BadDate"}

ALFA POST /orders {"amount":0,"reference":"a","to":"beta"}
-> 400 Bad Request {"code":31,"name":"BadReference"}

ALFA POST /orders {"amount":0,"reference":"A-1","to":"beta"}
-> 400 Bad Request {"code":30,"name":"BadCode"}

ALFA POST /orders {"amount":0,"reference":"A-1","to":"BETA"}
-> 400 Bad Request {"code":32,"name":"BadAmount"}

ALFA POST /orders [
-> 400 Bad Request {"code":65,"name":"BadJson"}

ALFA POST /orders/a-1/withdraw {}
-> 400 Bad Request {"code":31,"name":"BadReference"}

ALFA GET /orders/a-1
-> 400 Bad Request {"code":31,"name":"BadReference"}
"#;

// The third row of the last has two fields.
const FILES: &str = r#"
ALFA POST /batches
-> 400 Bad Request {"code":40,"name":"BadHeader"}

ALFA POST /batches
reference,to,amount
-> 400 Bad Request {"code":42,"name":"BadCount"}

ALFA POST /batches
reference,to,amount
A-1,BETA,100
A-2,GAMA,50
A-3,BETA
-> 400 Bad Request {"code":41,"name":"BadRow","row":3}
"#;

const NO_ORDER: &str = r#"
ALFA GET /orders/A-1
-> 404 Not Found {"code":9,"name":"UnknownOrder"}
"#;

#[test]
fn values_of_no_form(rt: HostRuntime) -> Result<(), Fail> {
    follows(rt.alloc(), VALUES)
}

#[test]
fn files_that_are_no_order_files(rt: HostRuntime) -> Result<(), Fail> {
    follows_after(rt.alloc(), FILES, NO_ORDER)
}
