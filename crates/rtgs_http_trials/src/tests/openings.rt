//! Bodies of openings, what each asks for, or the fault that it is.
use super::faults::tells_faults;
use std::test::Fail;

// The choice is a truth value, or it is not there. Kinds are judged before forms. Of two members with one key the last
// stands.
const OPENINGS: &str = r#"
OPERATOR POST /desk/open {"date":"2024-03-04"}
-> open 2024-03-04

OPERATOR POST /desk/open {"automatic":false,"date":"2024-03-04"}
-> open 2024-03-04

OPERATOR POST /desk/open {"automatic":true,"date":"2024-03-04"}
-> open 2024-03-04 automatic

OPERATOR POST /desk/open { "date" : "2024-03-04", "automatic" : true }
-> open 2024-03-04 automatic

OPERATOR POST /desk/open {"automatic":false,"date":"2024-03-04","automatic":true}
-> open 2024-03-04 automatic

OPERATOR POST /desk/open {"automatic":true,"automatic":false,"date":"2024-03-04"}
-> open 2024-03-04

OPERATOR POST /desk/open {"automatic":1,"automatic":true,"date":"2024-03-04"}
-> open 2024-03-04 automatic

OPERATOR POST /desk/open {"automatic":true,"automatic":1,"date":"2024-03-04"}
-> 400 66 WrongFields

OPERATOR POST /desk/open {"automatic":null,"date":"2024-03-04"}
-> 400 66 WrongFields

OPERATOR POST /desk/open {"automatic":"true","date":"2024-03-04"}
-> 400 66 WrongFields

OPERATOR POST /desk/open {"automatic":1,"date":"2024-03-04"}
-> 400 66 WrongFields

OPERATOR POST /desk/open {"automatic":0,"date":"2024-03-04"}
-> 400 66 WrongFields

OPERATOR POST /desk/open {"automatic":0.0,"date":"2024-03-04"}
-> 400 66 WrongFields

OPERATOR POST /desk/open {"automatic":[true],"date":"2024-03-04"}
-> 400 66 WrongFields

OPERATOR POST /desk/open {"automatic":{},"date":"2024-03-04"}
-> 400 66 WrongFields

OPERATOR POST /desk/open {"automatic":true}
-> 400 66 WrongFields

OPERATOR POST /desk/open {"Automatic":true,"date":"2024-03-04"}
-> 400 66 WrongFields

OPERATOR POST /desk/open {"automatic":true,"date":"2024-03-04","due":"2024-03-05"}
-> 400 66 WrongFields

OPERATOR POST /desk/open {"automatic":true,"date":20240304}
-> 400 66 WrongFields

OPERATOR POST /desk/open {}
-> 400 66 WrongFields

OPERATOR POST /desk/open {"automatic":1,"date":"2024-02-30"}
-> 400 66 WrongFields

OPERATOR POST /desk/open {"automatic":true,"date":""}
-> 400 35 BadDate

OPERATOR POST /desk/open {"automatic":true,"date":"2024-02-30"}
-> 400 35 BadDate

OPERATOR POST /desk/open {"automatic":True,"date":"2024-03-04"}
-> 400 65 BadJson

OPERATOR POST /desk/cutoff {"automatic":true,"date":"2024-03-04"}
-> 400 66 WrongFields

OPERATOR POST /desk/close {"automatic":false,"date":"2024-03-04"}
-> 400 66 WrongFields

OPERATOR POST /desk/resolve {"automatic":true}
-> 400 66 WrongFields

ALFA POST /orders {"amount":100,"automatic":true,"reference":"A-1","to":"BETA"}
-> 400 66 WrongFields
"#;

#[test]
fn openings(rt: HostRuntime) -> Result<(), Fail> {
    tells_faults(rt.alloc(), OPENINGS)
}
