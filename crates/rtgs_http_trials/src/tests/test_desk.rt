//! A desk in memory that scripts ask.
use super::requests::{BETA, GAMA, WrittenRequest, spelled};
use super::words::in_words;
use super::{ALFA, OPERATOR, digest};
use rtgs_book::{Command, NewDay};
use rtgs_desk::Desk;
use rtgs_http_server::{Served, Unread, read_request, serve_one};
use rtgs_keeper::Keeper;
use rtgs_money::{BusinessDate, Code, KeyDigest, Name};
use rtgs_tests_desks::{FailingKeeper, MemoryKeeper, Trouble, desk_over};
use std::alloc::{AllocError, Global};
use std::io::{Read, Write};
use std::test::Fail;

/// How many calls of its keeper a desk makes, until it is open and has three banks and a day.
pub const OPENING: usize = 5;

/// A desk whose keeper may meet trouble, and its operator.
#[derive(Drop)]
pub struct TestDesk {
    alloc: Global,
    pub desk: Desk<FailingKeeper<MemoryKeeper>>,
    pub operator: KeyDigest,
}

fn add<K: Keeper>(desk: &mut Desk<K>, code: &str, name: &str, key: &str) -> Result<(), Fail> {
    desk.submit(Command::Add {
        code: Code::read(code.as_bytes())?,
        name: Name::read(name.as_bytes())?,
        key: digest(key.as_bytes())?,
    })?;
    Ok(())
}

/// Adds ALFA, BETA and GAMA.
pub fn add_banks<K: Keeper>(desk: &mut Desk<K>) -> Result<(), Fail> {
    add(desk, "ALFA", "Alfa Bank", ALFA)?;
    add(desk, "BETA", "Beta Bank", BETA)?;
    add(desk, "GAMA", "Gama Bank", GAMA)
}

/// Adds three banks and opens a Monday, which is automatic where this says so.
pub fn begin_day<K: Keeper>(desk: &mut Desk<K>, automatic: bool) -> Result<(), Fail> {
    add_banks(desk)?;
    let date = BusinessDate::read(b"2024-03-04")?;
    desk.submit(Command::OpenDay(NewDay { date, automatic }))?;
    Ok(())
}

/// A whole reply: the status with its reason, the type of the body, and the body.
pub fn whole(alloc: Global, status: &str, content: &str, body: &str) -> Result<String, AllocError> {
    let length = body.len();
    format!(in alloc;
        "HTTP/1.1 {status}\r\nContent-Type: {content}\r\nContent-Length: {length}\r\nConnection: close\r\n\r\n{body}"
    )
}

// The reply that a script tells: the status with its reason, and then a body of JSON, of which lines are joined, or a
// type and behind it the lines of a body, each of which ends. One whose status is RAW is spelled.
fn reply_of(alloc: Global, expected: &str) -> Result<String, Fail> {
    if let Some(text) = expected.strip_prefix("RAW ") {
        return Ok(spelled(alloc, text)?);
    }
    match expected.split_once(" {") {
        Some((status, json)) => Ok(json_reply(alloc, status, json)?),
        None => text_reply(alloc, expected),
    }
}

// The reply with this status, whose body is the lines behind the brace, joined.
fn json_reply(alloc: Global, status: &str, json: &str) -> Result<String, AllocError> {
    let json = json.replace(alloc, "\n", "")?;
    let body = format!(in alloc; "{{{json}")?;
    whole(alloc, status, "application/json", body.as_str())
}

// The reply whose status and type stand on the first line, and whose body is the lines after it.
fn text_reply(alloc: Global, expected: &str) -> Result<String, Fail> {
    let (line, lines) = expected.split_once("\n").ok_or("a reply without a body")?;
    let (status, content) = line.rsplit_once(" ").ok_or("a reply without a type")?;
    let body = format!(in alloc; "{lines}\n")?;
    Ok(whole(alloc, status, content, body.as_str())?)
}

// The status of the reply, or 0.
fn status_of(served: &Served) -> u16 {
    match served {
        Served::Answered(status) => status.as_u16(),
        _ => 0,
    }
}

// Whether these bytes are the reply, and the status of the reply is theirs.
fn is_reply(
    alloc: Global,
    served: &Served,
    written: &[u8],
    reply: &str,
) -> Result<bool, AllocError> {
    let status = status_of(served);
    let head = format!(in alloc; "HTTP/1.1 {status} ")?;
    Ok(written == reply.as_bytes() && reply.starts_with(head.as_str()))
}

// Why these bytes are not the reply to the input.
fn other_reply(
    alloc: Global,
    input: &str,
    served: &Served,
    written: &[u8],
    reply: &str,
) -> Result<String, AllocError> {
    let found = std::str::from_utf8(written).unwrap_or("no text");
    format!(in alloc; "{input:?}: {served:?} and {found:?}, not {reply:?}")
}

// The bytes that a script asks, which are spelled where the caller is RAW.
fn input_of(alloc: Global, asked: &str) -> Result<String, Fail> {
    if let Some(text) = asked.strip_prefix("RAW ") {
        return Ok(spelled(alloc, text)?);
    }
    WrittenRequest::read(asked)?.input(alloc)
}

impl TestDesk {
    fn over(alloc: Global, keeper: FailingKeeper<MemoryKeeper>) -> Result<TestDesk, Fail> {
        let operator = digest(OPERATOR.as_bytes())?;
        let desk = desk_over(alloc, keeper)?;
        Ok(TestDesk {
            alloc,
            desk,
            operator,
        })
    }

    /// With no bank and no day. After this many calls of its keeper one meets this trouble.
    pub fn new(alloc: Global, calls: usize, trouble: Trouble) -> Result<TestDesk, Fail> {
        TestDesk::over(
            alloc,
            FailingKeeper::new(MemoryKeeper::new(alloc), calls, trouble),
        )
    }

    /// With three banks, on a Monday that is open. After this many calls more one meets this trouble.
    pub fn troubled(alloc: Global, calls: usize, trouble: Trouble) -> Result<TestDesk, Fail> {
        let mut desk = TestDesk::new(alloc, OPENING.saturating_add(calls), trouble)?;
        begin_day(&mut desk.desk, false)?;
        Ok(desk)
    }

    /// With three banks, on a Monday that is open. No call meets trouble.
    pub fn open(alloc: Global) -> Result<TestDesk, Fail> {
        TestDesk::troubled(alloc, usize::MAX, Trouble::Lost)
    }

    /// As a restart finds it. After this many calls of its keeper one meets this trouble.
    pub fn troubled_again(self, calls: usize, trouble: Trouble) -> Result<TestDesk, Fail> {
        let TestDesk {
            alloc,
            desk,
            operator: _,
        } = self;
        let kept = desk.into_keeper().kept;
        TestDesk::over(alloc, FailingKeeper::new(kept, calls, trouble))
    }

    /// As a restart finds it. No call meets trouble.
    pub fn restarted(self) -> Result<TestDesk, Fail> {
        self.troubled_again(usize::MAX, Trouble::Lost)
    }

    pub fn add(&mut self, code: &str, name: &str, key: &str) -> Result<(), Fail> {
        add(&mut self.desk, code, name, key)
    }

    pub fn serve<R: Read, W: Write>(&mut self, reader: &mut R, writer: &mut W) -> Served {
        serve_one(self.alloc, reader, writer, &mut self.desk, &self.operator)
    }

    /// The input is answered by the bytes of the reply that is spelled here, and the status of the reply is theirs.
    pub fn tells(&mut self, input: &str, expected: &str) -> Result<(), Fail> {
        let mut reader = input.as_bytes();
        self.tells_from(&mut reader, input, expected)
    }

    /// The same of an input that comes from this reader.
    pub fn tells_from<R: Read>(
        &mut self,
        reader: &mut R,
        input: &str,
        expected: &str,
    ) -> Result<(), Fail> {
        let alloc = self.alloc;
        let reply = reply_of(alloc, expected)?;
        let mut written = Vec::new(alloc);
        let served = self.serve(reader, &mut written);
        let (bytes, reply) = (written.as_slice(), reply.as_str());
        if is_reply(alloc, &served, bytes, reply)? {
            return Ok(());
        }
        Err(Fail::from(other_reply(alloc, input, &served, bytes, reply)?))
    }

    /// What is asked has this answer.
    pub fn is_answered(&mut self, asked: &str, expected: &str) -> Result<(), Fail> {
        let input = input_of(self.alloc, asked)?;
        self.tells(input.as_str(), expected)
    }

    /// What is asked before the arrow of a step has the answer behind it.
    pub fn step(&mut self, step: &str) -> Result<(), Fail> {
        match step.split_once("\n-> ") {
            Some((asked, expected)) => self.is_answered(asked, expected),
            None => Err(Fail::from("a step without a reply")),
        }
    }

    /// Follows each step of a script in turn. Between two steps is a line without text.
    pub fn follow(&mut self, script: &str) -> Result<(), Fail> {
        for step in script.trim().split("\n\n") {
            self.step(step)?;
        }
        Ok(())
    }

    /// Each of these requests, between two of which is a line without text, has this answer.
    pub fn each_is_answered(&mut self, requests: &str, expected: &str) -> Result<(), Fail> {
        for asked in requests.trim().split("\n\n") {
            self.is_answered(asked, expected)?;
        }
        Ok(())
    }

    /// What the bytes of a reader ask for, in words, or the status, the number and the name of their fault.
    pub fn asks<R: Read>(&self, reader: &mut R) -> Result<String, Fail> {
        let alloc = self.alloc;
        match read_request(alloc, reader, &self.operator, &self.desk) {
            Ok(asked) => Ok(in_words(alloc, &asked)?),
            Err(Unread::Faulty(fault)) => {
                let kind = fault.kind();
                let (number, name) = (kind.number(), kind.name());
                let status = kind.http_status().ok_or("a fault without a status")?;
                Ok(format!(in alloc; "{status} {number} {name}")?)
            }
            Err(_) => Err(Fail::from("nothing was read")),
        }
    }
}

/// A desk of three banks, without a day as yet, follows this script.
pub fn follows_before_a_day(alloc: Global, script: &str) -> Result<(), Fail> {
    let mut desk = TestDesk::new(alloc, usize::MAX, Trouble::Lost)?;
    add_banks(&mut desk.desk)?;
    desk.follow(script)
}

/// A desk of three banks on a Monday follows this script.
pub fn follows(alloc: Global, script: &str) -> Result<(), Fail> {
    let mut desk = TestDesk::open(alloc)?;
    desk.follow(script)
}

/// A desk of three banks on a Monday follows this script, and then this one.
pub fn follows_after(alloc: Global, first: &str, script: &str) -> Result<(), Fail> {
    let mut desk = TestDesk::open(alloc)?;
    desk.follow(first)?;
    desk.follow(script)
}
