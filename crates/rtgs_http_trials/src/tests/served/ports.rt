//! Connections on a port of this machine, whose peers have sent all that they send before the first one is taken.
use super::super::test_desk::{TestDesk, whole};
use super::super::{GOOD, is_same};
use rtgs_http_server::{Connections, Port, serve_connections};
use rtgs_tests_desks::{Trouble, ensure};
use std::alloc::Global;
use std::io::{Read, Write};
use std::net::{Ipv4Addr, Shutdown, TcpListener, TcpStream};
use std::test::Fail;
use std::time::Instant;

const QUEUED: &str = "{\"answer\":\"queued\",\"number\":1,\"place\":1}";

const NO_ROUTE: &str = r#"{"code":67,"name":"NoSuchRoute"}"#;

const REPEATED: &str = "{\"answer\":\"repeated\",\"number\":1,\"state\":\"queued\"}";

// A port that nobody listens on now.
fn free_port(rt: &HostRuntime) -> Result<u16, Fail> {
    let listener = TcpListener::bind(rt, (Ipv4Addr::LOCALHOST, 0))?;
    Ok(listener.local_addr()?.port())
}

// A peer that has sent a good order, and then this many bytes more.
fn peer(rt: &HostRuntime, port: u16, more: usize) -> Result<TcpStream, Fail> {
    let mut stream = TcpStream::connect(rt, (Ipv4Addr::LOCALHOST, port))?;
    stream.write_all(GOOD.as_bytes())?;
    stream.write_all("x".repeat(rt.alloc(), more)?.as_bytes())?;
    stream.shutdown(Shutdown::Write)?;
    Ok(stream)
}

// All that a peer gets, to its end, is the reply with this status and this body.
fn gets_this(alloc: Global, peer: &mut TcpStream, status: &str, body: &str) -> Result<(), Fail> {
    let mut reply = String::new(alloc);
    peer.read_to_string(&mut reply)?;
    let wanted = whole(alloc, status, "application/json", body)?;
    is_same(reply.as_str(), wanted.as_str())
}

// The same of a reply to what is done.
fn gets(alloc: Global, peer: &mut TcpStream, body: &str) -> Result<(), Fail> {
    gets_this(alloc, peer, "200 OK", body)
}

// Serves the connections of a port at a new desk. The port is left then.
fn serve(alloc: Global, port: Port) -> Result<(), Fail> {
    let mut port = port;
    let mut desk = TestDesk::open(alloc)?;
    serve_connections(alloc, &mut port, &mut desk.desk, &desk.operator);
    drop(port);
    Ok(())
}

// Three peers of one port that are served, of which the first and the third have sent more than their order.
fn served_peers(rt: &HostRuntime) -> Result<[TcpStream; 3], Fail> {
    let number = free_port(rt)?;
    let port = Port::listen(rt, number, 3)?;
    let first = peer(rt, number, 20000)?;
    let second = peer(rt, number, 0)?;
    let third = peer(rt, number, 20000)?;
    serve(rt.alloc(), port)?;
    Ok([first, second, third])
}

#[test]
fn each_peer_gets_its_reply_whatever_more_it_sent(rt: HostRuntime) -> Result<(), Fail> {
    let [mut first, mut second, mut third] = served_peers(&rt)?;
    gets(rt.alloc(), &mut first, QUEUED)?;
    gets(rt.alloc(), &mut second, REPEATED)?;
    gets(rt.alloc(), &mut third, REPEATED)
}

// The first peers of a port at which a million are to come have their replies. The store fails at the second one, and
// no other is waited for.
#[test]
fn the_first_peers_of_a_million_are_served(rt: HostRuntime) -> Result<(), Fail> {
    let number = free_port(&rt)?;
    let mut port = Port::listen(&rt, number, 1_000_000)?;
    let mut first = peer(&rt, number, 0)?;
    let mut second = peer(&rt, number, 0)?;
    // an order is looked up and kept, and the next one is looked up
    let mut desk = TestDesk::troubled(rt.alloc(), 2, Trouble::Lost)?;
    serve_connections(rt.alloc(), &mut port, &mut desk.desk, &desk.operator);
    ensure(port.left() == 999_998)?;
    drop(port);
    gets(rt.alloc(), &mut first, QUEUED)?;
    gets_this(
        rt.alloc(),
        &mut second,
        "503 Service Unavailable",
        r#"{"code":91,"name":"StoreFault"}"#,
    )
}

// A peer that has sent a request of no route and 100 KB behind it, and may send more.
fn refused_peer(rt: &HostRuntime, port: u16) -> Result<TcpStream, Fail> {
    let mut stream = TcpStream::connect(rt, (Ipv4Addr::LOCALHOST, port))?;
    stream.write_all(b"POST /nothing HTTP/1.1\r\nContent-Length: 100000\r\n\r\n")?;
    stream.write_all("x".repeat(rt.alloc(), 100_000)?.as_bytes())?;
    Ok(stream)
}

// Two refused peers are waited for a second each, and a good one after them is served.
#[test]
fn refused_peers_get_their_replies_and_the_next_is_served(rt: HostRuntime) -> Result<(), Fail> {
    let number = free_port(&rt)?;
    let port = Port::listen(&rt, number, 3)?;
    let mut first = refused_peer(&rt, number)?;
    let mut second = refused_peer(&rt, number)?;
    let mut third = peer(&rt, number, 0)?;
    let begun = Instant::now(&rt)?;
    serve(rt.alloc(), port)?;
    ensure(begun.elapsed(&rt)?.as_secs() < 20)?;
    gets_this(rt.alloc(), &mut first, "404 Not Found", NO_ROUTE)?;
    gets_this(rt.alloc(), &mut second, "404 Not Found", NO_ROUTE)?;
    gets(rt.alloc(), &mut third, QUEUED)
}

// Only the machine's own address is listened on: at another one the same number stays with whoever has it.
#[test]
fn a_port_is_taken_at_one_address_alone(rt: HostRuntime) -> Result<(), Fail> {
    let elsewhere = TcpListener::bind(&rt, (Ipv4Addr::new(127, 0, 0, 2), 0))?;
    let number = elsewhere.local_addr()?.port();
    let port = Port::listen(&rt, number, 1)?;
    drop(port);
    drop(elsewhere);
    Ok(())
}
