//! Targets that name no route, and malformed parameters.
use super::faults::tells_faults;
use std::test::Fail;

const NO_ROUTE: &str = r#"
ALFA GET /
-> 404 67 NoSuchRoute

ALFA GET *
-> 404 67 NoSuchRoute

ALFA GET /account?x=1
-> 404 67 NoSuchRoute

ALFA GET /account?
-> 404 67 NoSuchRoute

ALFA GET http://desk/account
-> 404 67 NoSuchRoute

ALFA GET //account
-> 404 67 NoSuchRoute

ALFA GET /account/
-> 404 67 NoSuchRoute

ALFA GET /Account
-> 404 67 NoSuchRoute

ALFA GET /%61ccount
-> 404 67 NoSuchRoute

ALFA GET /orders
-> 404 67 NoSuchRoute

ALFA GET /orders/
-> 404 67 NoSuchRoute

ALFA GET /orders/A-1/B-1
-> 404 67 NoSuchRoute

ALFA GET /orders/A-1/withdraw
-> 404 67 NoSuchRoute

ALFA GET /desk/report
-> 404 67 NoSuchRoute

OPERATOR GET /desk/accounts/
-> 404 67 NoSuchRoute

OPERATOR GET /desk/accounts/ALFA
-> 404 67 NoSuchRoute

ALFA GET /statements/
-> 404 67 NoSuchRoute

ALFA GET /held/
-> 404 67 NoSuchRoute

ALFA GET /held/ALFA
-> 404 67 NoSuchRoute

ALFA GET /waiting/ALFA
-> 404 67 NoSuchRoute
"#;

const NONE_OF_THE_DESK: &str = r#"
OPERATOR GET /desk/queues/
-> 404 67 NoSuchRoute

OPERATOR GET /desk/queues/ALFA
-> 404 67 NoSuchRoute

OPERATOR GET /desk/status/ALFA
-> 404 67 NoSuchRoute

OPERATOR GET /desk/queue
-> 404 67 NoSuchRoute

OPERATOR GET /desk/queue/
-> 404 67 NoSuchRoute

OPERATOR GET /desk/held
-> 404 67 NoSuchRoute

OPERATOR GET /desk/waiting/ALFA
-> 404 67 NoSuchRoute

OPERATOR GET /desk/orders
-> 404 67 NoSuchRoute

OPERATOR GET /desk/orders/
-> 404 67 NoSuchRoute

OPERATOR GET /desk/orders/2024-03-04/
-> 404 67 NoSuchRoute

OPERATOR GET /desk/orders//A-1
-> 404 67 NoSuchRoute

OPERATOR GET /desk/orders/ALFA/A-1/
-> 404 67 NoSuchRoute

OPERATOR GET /desk/orders/ALFA/A-1/withdraw
-> 404 67 NoSuchRoute

OPERATOR GET /desk/marks
-> 404 67 NoSuchRoute

OPERATOR GET /desk/statements/ALFA
-> 404 67 NoSuchRoute

OPERATOR GET /desk/statements/ALFA/2024-03-04/2024-03-05
-> 404 67 NoSuchRoute
"#;

#[test]
fn targets_of_the_desk_without_a_route(rt: HostRuntime) -> Result<(), Fail> {
    tells_faults(rt.alloc(), NONE_OF_THE_DESK)
}

#[test]
fn targets_without_a_route(rt: HostRuntime) -> Result<(), Fail> {
    tells_faults(rt.alloc(), NO_ROUTE)
}

const NO_COMMAND: &str = r#"
ALFA POST /account {}
-> 404 67 NoSuchRoute

ALFA POST /orders//withdraw {}
-> 404 67 NoSuchRoute

ALFA POST /orders/A-1 {}
-> 404 67 NoSuchRoute

ALFA POST /desk {}
-> 404 67 NoSuchRoute

ALFA POST /batches/ {}
-> 404 67 NoSuchRoute

OPERATOR POST /desk/accounts {}
-> 404 67 NoSuchRoute

OPERATOR POST /desk/orders/ALFA {}
-> 404 67 NoSuchRoute

OPERATOR POST /desk/orders/ALFA/A-1 {}
-> 404 67 NoSuchRoute

OPERATOR POST /desk/orders/ALFA/withdraw {}
-> 404 67 NoSuchRoute

OPERATOR POST /desk/orders//A-1/withdraw {}
-> 404 67 NoSuchRoute

OPERATOR POST /desk/batches {}
-> 404 67 NoSuchRoute

OPERATOR POST /desk/batches/ {}
-> 404 67 NoSuchRoute

OPERATOR POST /desk/queue/ALFA {}
-> 404 67 NoSuchRoute
"#;

#[test]
fn commands_without_a_route(rt: HostRuntime) -> Result<(), Fail> {
    tells_faults(rt.alloc(), NO_COMMAND)
}

const OTHER_METHODS: &str = r#"
RAW DELETE /orders HTTP/1.1\r\n
\r\n
-> 404 67 NoSuchRoute

RAW HEAD /account HTTP/1.1\r\n
\r\n
-> 404 67 NoSuchRoute

RAW OPTIONS * HTTP/1.1\r\n
\r\n
-> 404 67 NoSuchRoute

RAW get /account HTTP/1.1\r\n
\r\n
-> 404 67 NoSuchRoute

RAW CONNECT desk:80 HTTP/1.1\r\n
\r\n
-> 404 67 NoSuchRoute
"#;

#[test]
fn other_methods(rt: HostRuntime) -> Result<(), Fail> {
    tells_faults(rt.alloc(), OTHER_METHODS)
}

const NO_FORM: &str = r#"
ALFA GET /orders/a-1
-> 400 31 BadReference

ALFA GET /orders/A%2D1
-> 400 31 BadReference

ALFA GET /orders/A-123456789012345
-> 400 31 BadReference

ALFA GET /statements/2024-02-30
-> 400 35 BadDate

ALFA GET /statements/20240304
-> 400 35 BadDate
"#;

#[test]
fn parameters_of_no_form(rt: HostRuntime) -> Result<(), Fail> {
    tells_faults(rt.alloc(), NO_FORM)
}

const NO_FORM_AT_THE_DESK: &str = r#"
OPERATOR GET /desk/queue/alfa
-> 400 30 BadCode

OPERATOR GET /desk/held/ALF%41
-> 400 30 BadCode

OPERATOR GET /desk/orders/2024-03-32
-> 400 35 BadDate

OPERATOR GET /desk/orders/ALFA
-> 400 35 BadDate

OPERATOR GET /desk/marks/20240304
-> 400 35 BadDate

OPERATOR GET /desk/orders/ALFA/a-1
-> 400 31 BadReference

OPERATOR GET /desk/orders/A-1/ALFA
-> 400 30 BadCode

OPERATOR GET /desk/statements/ALFA/2024-02-30
-> 400 35 BadDate

OPERATOR POST /desk/orders/ALFA/a-1/withdraw {}
-> 400 31 BadReference

OPERATOR POST /desk/batches/alfa
reference,to,amount
A-1,BETA,100
-> 400 30 BadCode
"#;

#[test]
fn parameters_of_no_form_at_the_desk(rt: HostRuntime) -> Result<(), Fail> {
    tells_faults(rt.alloc(), NO_FORM_AT_THE_DESK)
}

// The left parameter is judged before the right one, and both before the body.
const LEFT_FIRST: &str = r#"
OPERATOR GET /desk/orders/alfa/a-1
-> 400 30 BadCode

OPERATOR GET /desk/statements/alfa/2024-02-30
-> 400 30 BadCode

OPERATOR POST /desk/orders/alfa/a-1/withdraw [
-> 400 30 BadCode

OPERATOR POST /desk/orders/ALFA/a-1/withdraw [
-> 400 31 BadReference

OPERATOR POST /desk/batches/alfa [
-> 400 30 BadCode
"#;

#[test]
fn the_left_parameter_is_judged_first(rt: HostRuntime) -> Result<(), Fail> {
    tells_faults(rt.alloc(), LEFT_FIRST)
}
