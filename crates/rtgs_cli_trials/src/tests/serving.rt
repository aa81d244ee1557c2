//! The server, over loopback, as a process of its own.
use super::helps::MISUSED;
use super::imports::DAY;
use super::runs::ending;
use super::script::{REFUSED, follows, follows_case, follows_each};
use std::env;
use std::io::{ErrorKind, Read, Write};
use std::net::{Ipv4Addr, TcpListener, TcpStream};
use std::process::{Child, ChildStdout, Command, Stdio};
use std::test::Fail;
use std::time::Duration;

/// The port of the server. It is set where the test that serves was started by another one.
const PORT: &str = "DESK_PORT";

const OPERATOR: &str = "000000000000000000000000000000ff";

/// Requests and their replies: an order that comes twice settles once, the operator's resolution finds nothing, and one
/// that carries a bank's key is refused. Each line but the last of one ends as lines of HTTP do.
const EXCHANGES: &str = r#"POST /orders HTTP/1.1
desk-key: 0000000000000000000000000000000a
Content-Length: 44

{"amount":100,"reference":"A-1","to":"BETA"}
> HTTP/1.1 200 OK
Content-Type: application/json
Content-Length: 40
Connection: close

{"answer":"settled","mark":1,"number":1}
= POST /orders HTTP/1.1
desk-key: 0000000000000000000000000000000a
Content-Length: 44

{"amount":100,"reference":"A-1","to":"BETA"}
> HTTP/1.1 200 OK
Content-Type: application/json
Content-Length: 59
Connection: close

{"answer":"repeated","mark":1,"number":1,"state":"settled"}
= POST /desk/resolve HTTP/1.1
desk-key: 000000000000000000000000000000ff
Content-Length: 2

{}
> HTTP/1.1 200 OK
Content-Type: application/json
Content-Length: 20
Connection: close

{"answer":"nothing"}
= POST /desk/resolve HTTP/1.1
desk-key: 0000000000000000000000000000000a
Content-Length: 2

{}
> HTTP/1.1 403 Forbidden
Content-Type: application/json
Content-Length: 26
Connection: close

{"code":68,"name":"NoKey"}"#;

/// The book is served at this port, and the run ends well.
fn serves(rt: &HostRuntime, port: &str) -> Result<(), Fail> {
    let words = [
        "serve",
        "served",
        "--port",
        port,
        "--count",
        "6",
        "--operator-key",
        OPERATOR,
    ];
    let mut err = Vec::new(rt.alloc());
    let ended = ending(rt, &words, &mut rt.stdout(), &mut err);
    if ended.exit_status() == 0 && err.is_empty() {
        return Ok(());
    }
    Err(Fail::from("another status, or a fault was reported"))
}

#[test]
fn serve_six(rt: HostRuntime) -> Result<(), Fail> {
    match env::var(&rt, PORT) {
        Ok(port) => serves(&rt, port.as_str()),
        Err(_) => Ok(()),
    }
}

/// A port that nobody listens on now.
fn free_port(rt: &HostRuntime) -> Result<u16, Fail> {
    let listener = TcpListener::bind(rt, (Ipv4Addr::LOCALHOST, 0))?;
    Ok(listener.local_addr()?.port())
}

fn start(rt: &HostRuntime, port: u16) -> Result<Child, Fail> {
    let port = format!(in rt.alloc(); "{port}")?;
    let mut program = Command::new(rt.alloc(), env::current_exe(rt)?)?;
    program.arg("tests::serving::serve_six")?;
    program.env(PORT, port)?;
    program.stdout(Stdio::piped());
    Ok(program.spawn(rt)?)
}

/// Hears one more byte of what is said, if there is one.
fn hears_more(out: &mut ChildStdout, said: &mut Vec<u8>) -> Result<bool, Fail> {
    let mut byte = [0];
    if out.read(&mut byte)? == 0 {
        return Ok(false);
    }
    said.push(byte[0])?;
    Ok(true)
}

/// Waits until this is said, or no more.
fn hears(rt: &HostRuntime, out: &mut ChildStdout, text: &str) -> Result<(), Fail> {
    let mut said = Vec::new(rt.alloc());
    for _ in 0..4096 {
        if said.as_slice().ends_with(text.as_bytes()) || !hears_more(out, &mut said)? {
            break;
        }
    }
    Ok(())
}

/// Waits until the server says that it listens.
fn listens(rt: &HostRuntime, server: &mut Child, port: u16) -> Result<(), Fail> {
    let listening = format!(in rt.alloc(); "listening {port}\n")?;
    match server.stdout.as_mut() {
        Some(out) => hears(rt, out, listening.as_str()),
        None => Err(Fail::from("no output")),
    }
}

/// The server replies to a request with this reply, whole.
fn is_replied(rt: &HostRuntime, port: u16, request: &str, wanted: &str) -> Result<(), Fail> {
    let mut reply = String::new(rt.alloc());
    let mut stream = TcpStream::connect(rt, (Ipv4Addr::LOCALHOST, port))?;
    stream.write_all(request.as_bytes())?;
    stream.read_to_string(&mut reply)?;
    if reply.as_str() == wanted {
        return Ok(());
    }
    Err(Fail::from(reply))
}

/// The server replies as an exchange says: a request, and its reply after `> `.
fn is_exchanged(rt: &HostRuntime, port: u16, exchange: &str) -> Result<(), Fail> {
    let lines = exchange.replace(rt.alloc(), "\n", "\r\n")?;
    let (request, reply) = lines
        .as_str()
        .split_once("\r\n> ")
        .unwrap_or(("", "no reply"));
    is_replied(rt, port, request, reply)
}

/// The server replies as each exchange says, and to nothing with nothing.
fn are_exchanged(rt: &HostRuntime, port: u16) -> Result<(), Fail> {
    for exchange in EXCHANGES.split("\n= ") {
        is_exchanged(rt, port, exchange)?;
    }
    is_replied(rt, port, "", "")
}

/// Whether a wait for one more byte ran out of its time.
fn waits(stream: &mut TcpStream) -> bool {
    match stream.read(&mut [0]) {
        Ok(_) => false,
        Err(error) => matches!(error.kind(), ErrorKind::WouldBlock | ErrorKind::TimedOut),
    }
}

/// A peer that sends a byte a second is let go within nine seconds.
fn is_let_go(rt: &HostRuntime, port: u16) -> Result<(), Fail> {
    let mut stream = TcpStream::connect(rt, (Ipv4Addr::LOCALHOST, port))?;
    stream.set_read_timeout(Some(Duration::from_secs(1)))?;
    for _ in 0..9 {
        if stream.write_all(b"G").is_err() || !waits(&mut stream) {
            return Ok(());
        }
    }
    Err(Fail::from("a slow peer was not let go"))
}

/// No connection is taken at another address of this machine.
fn is_at_one_address(rt: &HostRuntime, port: u16) -> Result<(), Fail> {
    match TcpStream::connect(rt, (Ipv4Addr::new(127, 0, 0, 2), port)) {
        Ok(_) => Err(Fail::from("connected at another address")),
        Err(error) if error.kind() == ErrorKind::ConnectionRefused => Ok(()),
        Err(error) => Err(Fail::from(error)),
    }
}

/// The server says how many it served, and ends well.
fn has_served(rt: &HostRuntime, server: &mut Child) -> Result<(), Fail> {
    let mut said = String::new(rt.alloc());
    if let Some(out) = server.stdout.as_mut() {
        out.read_to_string(&mut said)?;
    }
    let is_ended_well = server.wait()?.success();
    if is_ended_well && said.as_str().contains("served 6\n") {
        return Ok(());
    }
    Err(Fail::from(said))
}

/// The server listens, replies to six peers, of which the last is slow, and ends well.
fn serves_all(rt: &HostRuntime, server: &mut Child, port: u16) -> Result<(), Fail> {
    listens(rt, server, port)?;
    is_at_one_address(rt, port)?;
    are_exchanged(rt, port)?;
    is_let_go(rt, port)?;
    has_served(rt, server)
}

const WITHDRAWN: &str = "withdraw @ ALFA A-1 ! refused 17 NotQueued";

#[test]
fn requests_are_replied_to_and_slow_peers_are_let_go(rt: HostRuntime) -> Result<(), Fail> {
    follows(&rt, "served", DAY)?;
    let port = free_port(&rt)?;
    let mut server = start(&rt, port)?;
    serves_all(&rt, &mut server, port)?;
    follows_each(&rt, "served", REFUSED, WITHDRAWN)
}

/// Two runs that serve at a port which is taken, of which the second has no book.
const TAKEN: &str = "
$ desk serve @ --port %1 --count 1 --operator-key 000000000000000000000000000000ff
! refused 97 NoListen
status 3
$ desk serve missing --port %1 --count 1 --operator-key 000000000000000000000000000000ff
! refused 93 NotADeskFile
status 3
";

#[test]
fn a_port_that_is_taken_is_refused(rt: HostRuntime) -> Result<(), Fail> {
    follows(&rt, "taken", DAY)?;
    let listener = TcpListener::bind(&rt, (Ipv4Addr::LOCALHOST, 0))?;
    let port = format!(in rt.alloc(); "{}", listener.local_addr()?.port())?;
    follows_case(&rt, "taken", TAKEN, port.as_str())
}

const OUT_OF_RANGE: &str = "\
serve nowhere --port 0 --count 1 --operator-key 000000000000000000000000000000ff
serve nowhere --port 65536 --count 1 --operator-key 000000000000000000000000000000ff
serve nowhere --port 8080 --count 0 --operator-key 000000000000000000000000000000ff
serve nowhere --port 8080 --count 1000001 --operator-key 000000000000000000000000000000ff";

const BAD_KEY: &str = "serve nowhere --port 8080 --count 1 --operator-key key ! refused 34 BadKey";

#[test]
fn ports_and_counts_have_their_ranges(rt: HostRuntime) -> Result<(), Fail> {
    follows_each(&rt, "nowhere", MISUSED, OUT_OF_RANGE)?;
    follows_each(&rt, "nowhere", REFUSED, BAD_KEY)
}
