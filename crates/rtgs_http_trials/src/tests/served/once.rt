//! No read follows the one that decides a reply, and a read or a write that failed is not tried again.
use super::super::GOOD;
use super::super::requests::{WrittenRequest, spelled};
use super::super::test_desk::TestDesk;
use super::counted_reader::CountedReader;
use rtgs_http_server::Served;
use rtgs_tests_desks::ensure;
use std::alloc::Global;
use std::io;
use std::io::{ErrorKind, Read, Write};
use std::test::Fail;

// Inputs of which the last byte decides the reply.
const INPUTS: &str = r#"
GET /account HTTP/1.1\r\n
desk-key: 0000000000000000000000000000000a\r\n
\r\n

GET /orders/a-1 HTTP/1.1\r\n
desk-key: 0000000000000000000000000000000a\r\n
\r\n

GET /account HTTP/1.0\r\n
\r\n

GET /nothing HTTP/1.1\r\n
\r\n

GET /account HTTP/1.1\r\n
\r\n

POST /orders HTTP/1.1\r\n
desk-key: 0000000000000000000000000000000a\r\n
\r\n

POST /orders HTTP/1.1\r\n
desk-key: 0000000000000000000000000000000a\r\n
Content-Length: 65537\r\n
\r\n

GET /account HTTP/1.1\r\n
desk-key: 0000000000000000000000000000000e\r\n
\r\n

POST /orders HTTP/1.1\r\n
desk-key: 0000000000000000000000000000000a\r\n
Content-Length: 1\r\n
\r\n
[

POST /batches HTTP/1.1\r\n
desk-key: 0000000000000000000000000000000a\r\n
Content-Length: 1\r\n
\r\n
x
"#;

// The input has a reply, and is read once.
fn is_read_once(alloc: Global, desk: &mut TestDesk, text: &str) -> Result<(), Fail> {
    let input = spelled(alloc, text)?;
    let mut reader = CountedReader::new(input.as_bytes(), usize::MAX, usize::MAX);
    let mut written = Vec::new(alloc);
    let served = desk.serve(&mut reader, &mut written);
    let made = reader.made;
    if matches!(served, Served::Answered(_)) && made == 1 {
        return Ok(());
    }
    let said = format!(in alloc; "{made} reads of {text}: {served:?}, {written:?}")?;
    Err(Fail::from(said))
}

#[test]
fn no_read_follows_what_decides_the_reply(rt: HostRuntime) -> Result<(), Fail> {
    let mut desk = TestDesk::open(rt.alloc())?;
    let mut count = 0usize;
    for text in INPUTS.trim().split("\n\n") {
        is_read_once(rt.alloc(), &mut desk, text)?;
        count = count.saturating_add(1);
    }
    ensure(count == 10)
}

// A good request of each route, in an order in which each has a reply of its own.
const EACH_ROUTE: &str = r#"
ALFA POST /orders {"amount":100,"reference":"A-1","to":"BETA"}
-> 200 OK {"answer":"queued","number":1,"place":1}

ALFA POST /batches
reference,to,amount
A-2,BETA,50
-> 200 OK text/csv
reference,result,number,detail
A-2,queued,2,2

ALFA GET /orders/A-1
-> 200 OK {"amount":100,"date":"2024-03-04","number":1,"reference":"A-1","state":"queued","to":"BETA"}

ALFA POST /orders/A-1/withdraw {}
-> 200 OK {"answer":"withdrawn","number":1}

ALFA GET /account
-> 200 OK {"balance":0,"code":"ALFA","credit":0,"date":"2024-03-04","name":"Alfa Bank","phase":"OPEN","queued":1,
"queued_value":50}

ALFA GET /queue
-> 200 OK {"orders":[{"amount":50,"number":2,"place":1,"reference":"A-2","to":"BETA"}]}

ALFA GET /statements/2024-03-04
-> 200 OK text/plain
statement ALFA 2024-03-04
withdrawn  000000001 A-1              BETA                     1.00         -
queued     000000002 A-2              BETA                     0.50         -
sum-posted                           0.00
sum-sent                             0.00
sum-recv                             0.00
net                                  0.00

OPERATOR POST /desk/post {"cents":50,"code":"ALFA","reference":"P-1"}
-> 200 OK {"answer":"posted","number":1}

OPERATOR POST /desk/credit {"code":"ALFA","credit":20}
-> 200 OK {"answer":"credit set"}

OPERATOR POST /desk/resolve {}
-> 200 OK {"answer":"resolved","count":1,"mark":1,"value":50}

OPERATOR POST /desk/cutoff {"date":"2024-03-04"}
-> 200 OK {"answer":"cut off"}

OPERATOR POST /desk/close {"date":"2024-03-04"}
-> 200 OK {"answer":"closed","rejected":0}

OPERATOR POST /desk/open {"date":"2024-03-05"}
-> 200 OK {"answer":"opened"}

OPERATOR GET /desk/report/2024-03-04
-> 200 OK text/plain
report 2024-03-04
ALFA                               0.50                           0.50                           0.00
BETA                               0.00                           0.00                           0.50
GAMA                               0.00                           0.00                           0.00
settled            1                           0.50
queued             0                           0.00
held               0                           0.00
withdrawn          1                           1.00
rejected           0                           0.00
marks              1

OPERATOR GET /desk/accounts
-> 200 OK {"accounts":[{"balance":0,"code":"ALFA","credit":20,"lacking":0,"name":"Alfa Bank","queued":0,
"queued_value":0},{"balance":50,"code":"BETA","credit":0,"lacking":0,"name":"Beta Bank","queued":0,"queued_value":0},
{"balance":0,"code":"GAMA","credit":0,"lacking":0,"name":"Gama Bank","queued":0,"queued_value":0}],
"date":"2024-03-05","phase":"OPEN"}
"#;

// The request of a step has its reply from a reader that gives this many bytes a read at most, and fails if it is asked
// once more than the request needs.
fn is_answered_unasked(
    alloc: Global,
    desk: &mut TestDesk,
    step: &str,
    most: usize,
) -> Result<(), Fail> {
    let (asked, expected) = step.split_once("\n-> ").ok_or("a step without a reply")?;
    let input = WrittenRequest::read(asked)?.short_input(alloc)?;
    let reads = input.len().div_ceil(most.max(1));
    let mut reader = CountedReader::new(input.as_bytes(), most, reads);
    desk.tells_from(&mut reader, input.as_str(), expected)?;
    ensure(reader.made == reads)
}

// The same of each route in turn. Answers of how many requests this is shown.
fn each_is_answered_unasked(alloc: Global, most: usize) -> Result<usize, Fail> {
    let mut desk = TestDesk::open(alloc)?;
    let mut count = 0usize;
    for step in EACH_ROUTE.trim().split("\n\n") {
        is_answered_unasked(alloc, &mut desk, step, most)?;
        count = count.saturating_add(1);
    }
    Ok(count)
}

// In one piece, in pieces of which the last may have the end of a head or a part of a body, and byte by byte.
#[test]
fn nothing_is_read_behind_a_good_request_of_each_route(rt: HostRuntime) -> Result<(), Fail> {
    ensure(each_is_answered_unasked(rt.alloc(), 4096)? == 15)?;
    ensure(each_is_answered_unasked(rt.alloc(), 50)? == 15)?;
    ensure(each_is_answered_unasked(rt.alloc(), 1)? == 15)
}

// Fails once, after a number of reads of one byte, and goes on.
#[derive(Drop)]
struct Stumbling<'a> {
    left: &'a [u8],
    reads: usize,
}

impl Read for Stumbling<'_> {
    fn read(&mut self, room: &mut [u8]) -> io::Result<usize> {
        if self.reads == 0 {
            self.reads = usize::MAX;
            return Err(io::Error::from(ErrorKind::Interrupted));
        }
        self.reads -= 1;
        let count = room.len().min(1);
        self.left.read(&mut room[..count])
    }
}

// A reader that fails after this many reads has no reply.
fn is_not_read_again(alloc: Global, desk: &mut TestDesk, reads: usize) -> Result<(), Fail> {
    let mut reader = Stumbling {
        left: GOOD.as_bytes(),
        reads,
    };
    let mut written = Vec::new(alloc);
    let served = desk.serve(&mut reader, &mut written);
    if matches!(served, Served::ReadFault(_)) && written.is_empty() {
        return Ok(());
    }
    let said = format!(in alloc; "after {reads} reads {served:?}, {written:?}")?;
    Err(Fail::from(said))
}

#[test]
fn a_read_that_failed_is_not_tried_again(rt: HostRuntime) -> Result<(), Fail> {
    let mut desk = TestDesk::open(rt.alloc())?;
    is_not_read_again(rt.alloc(), &mut desk, 0)?;
    is_not_read_again(rt.alloc(), &mut desk, 1)?;
    is_not_read_again(rt.alloc(), &mut desk, 60)?;
    is_not_read_again(rt.alloc(), &mut desk, GOOD.len().saturating_sub(1))
}

// Takes sixteen bytes a write. After a number of writes it fails once, or takes no byte once, and goes on.
#[derive(Drop)]
struct Halting {
    taken: Vec<u8>,
    writes: usize,
    fails: bool,
}

impl Write for Halting {
    fn write(&mut self, bytes: &[u8]) -> io::Result<usize> {
        if self.writes == 0 {
            self.writes = usize::MAX;
            if self.fails {
                return Err(io::Error::from(ErrorKind::Interrupted));
            }
            return Ok(0);
        }
        self.writes -= 1;
        let count = bytes.len().min(16);
        self.taken.extend_from_slice(&bytes[..count])?;
        Ok(count)
    }

    fn flush(&mut self) -> io::Result<()> {
        Ok(())
    }
}

// The reply to the good request.
const QUEUED: &str =
    "HTTP/1.1 200 OK\r\nContent-Type: application/json\r\nContent-Length: 40\r\nConnection: close\r\n\r\n\
     {\"answer\":\"queued\",\"number\":1,\"place\":1}";

// The status of a reply of which a beginning was written.
fn cut_off(served: &Served) -> Option<u16> {
    match served {
        Served::WriteFault(status, _) => Some(status.as_u16()),
        _ => None,
    }
}

// A writer that fails after this many writes, or takes no byte, has sixteen bytes of each of them and no more.
fn is_not_written_again(alloc: Global, writes: usize, fails: bool) -> Result<(), Fail> {
    let mut desk = TestDesk::open(alloc)?;
    let mut reader = GOOD.as_bytes();
    let mut writer = Halting {
        taken: Vec::new(alloc),
        writes,
        fails,
    };
    let served = desk.serve(&mut reader, &mut writer);
    let taken = writer.taken.as_slice();
    let wanted = QUEUED.as_bytes().get(..writes.saturating_mul(16));
    if cut_off(&served) == Some(200) && wanted == Some(taken) {
        return Ok(());
    }
    let said = format!(in alloc; "after {writes} writes {served:?}, {taken:?}")?;
    Err(Fail::from(said))
}

#[test]
fn a_write_that_failed_is_not_tried_again(rt: HostRuntime) -> Result<(), Fail> {
    for writes in 0..3 {
        is_not_written_again(rt.alloc(), writes, true)?;
    }
    Ok(())
}

#[test]
fn a_write_of_no_byte_is_not_tried_again(rt: HostRuntime) -> Result<(), Fail> {
    for writes in 0..3 {
        is_not_written_again(rt.alloc(), writes, false)?;
    }
    Ok(())
}
