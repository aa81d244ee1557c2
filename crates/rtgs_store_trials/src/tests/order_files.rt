//! Order files, as banks write them and as they go wrong.
use super::scripts::records::add_part;
use super::scripts::{Answers, follows};
use super::setting::is_same;
use rtgs_book::NewOrder;
use rtgs_order_files::{BatchFault, read_orders};
use rtgs_tests_desks::ensure;
use std::alloc::{AllocError, Global};
use std::test::Fail;

// Reads the order file that a line of a script gives.
#[derive(Clone, Copy)]
struct Reading;

impl Answers for Reading {
    fn answer(&mut self, alloc: Global, asked: &str) -> Result<String, Fail> {
        let file = bytes_of(alloc, asked)?;
        match read_orders(alloc, file.as_slice()) {
            Ok(rows) => rows_text(alloc, rows.as_slice()),
            Err(fault) => fault_text(alloc, fault),
        }
    }
}

// Why a file is refused.
fn fault_text(alloc: Global, fault: BatchFault) -> Result<String, Fail> {
    Ok(format!(in alloc; "{fault:?}")?)
}

// The bytes of a file that a script gives.
fn bytes_of(alloc: Global, text: &str) -> Result<Vec<u8>, Fail> {
    let mut bytes = Vec::new(alloc);
    let mut escapes = false;
    for byte in text.bytes() {
        if escapes {
            bytes.extend_from_slice(meant_by(byte).ok_or("no such escape")?)?;
            escapes = false;
        } else if byte == b'\\' {
            escapes = true;
        } else {
            bytes.push(byte)?;
        }
    }
    if escapes {
        return Err(Fail::from("half an escape"));
    }
    Ok(bytes)
}

// What is meant by a letter after a backslash: a line feed, a carriage return, a mark of the byte order, or a byte
// that no text has.
fn meant_by(letter: u8) -> Option<&'static [u8]> {
    match letter {
        b'n' => Some(b"\n"),
        b'r' => Some(b"\r"),
        b'b' => Some(b"\xef\xbb\xbf"),
        b'x' => Some(b"\xff"),
        _ => None,
    }
}

// A row: its reference, its receiver and its cents, and its due date if it has one.
fn row_text(alloc: Global, row: &NewOrder) -> Result<String, AllocError> {
    let NewOrder {
        reference,
        receiver,
        amount,
        due,
    } = row;
    match due {
        Some(due) => format!(in alloc; "{reference} {receiver} {amount} due {due}"),
        None => format!(in alloc; "{reference} {receiver} {amount}"),
    }
}

// Rows, with a comma between them.
fn rows_text(alloc: Global, rows: &[NewOrder]) -> Result<String, Fail> {
    let mut text = String::new(alloc);
    for row in rows {
        let row = row_text(alloc, row)?;
        add_part(&mut text, row.as_str())?;
    }
    Ok(text)
}

// Fails unless each order file is read as the script tells.
fn files_follow(rt: &HostRuntime, script: &str) -> Result<(), Fail> {
    follows(rt.alloc(), &mut Reading, script)
}

const ROWS_IN_ORDER: &str = r"
reference,to,amount\nA-1,BETA,100\nA-2,GAMA,50\nA-3,BETA,25\n => A-1 BETA 100, A-2 GAMA 50, A-3 BETA 25
";

#[test]
fn rows_are_read_in_order(rt: HostRuntime) -> Result<(), Fail> {
    files_follow(&rt, ROWS_IN_ORDER)
}

const A_BAD_ROW: &str = r"
reference,to,amount\nA-1,BETA,100\nA-2,GAMA,50\nA-3,BETA\n => BadRow { row: 3 }
";

#[test]
fn a_bad_row_refuses_the_file(rt: HostRuntime) -> Result<(), Fail> {
    files_follow(&rt, A_BAD_ROW)
}

// Spellings of a file of one order.
const SPELLINGS: &str = r#"
reference,to,amount\nA-1,BETA,100\n => A-1 BETA 100
reference,to,amount\nA-1,BETA,100 => A-1 BETA 100
reference,to,amount\r\nA-1,BETA,100\r\n => A-1 BETA 100
reference,to,amount\rA-1,BETA,100\r => A-1 BETA 100
\breference,to,amount\nA-1,BETA,100\n => A-1 BETA 100
\n\r\n\nreference,to,amount\n\n\r\nA-1,BETA,100\n\n\n => A-1 BETA 100
reference,to,amount\n"A-1",BETA,"100"\n => A-1 BETA 100
"reference","to",amount\nA-1,"BETA","100 => A-1 BETA 100
"#;

#[test]
fn quotes_line_ends_and_empty_lines_make_no_difference(rt: HostRuntime) -> Result<(), Fail> {
    files_follow(&rt, SPELLINGS)
}

const OTHER_HEADERS: &str = r#"
 => BadHeader
\n\r\n => BadHeader
\b => BadHeader
A-1,BETA,100\n => BadHeader
Reference,to,amount\nA-1,BETA,100\n => BadHeader
reference,to\nA-1,BETA,100\n => BadHeader
reference,to,amount,\nA-1,BETA,100\n => BadHeader
reference,amount,to\nA-1,BETA,100\n => BadHeader
 reference,to,amount\nA-1,BETA,100\n => BadHeader
reference,to,amount \nA-1,BETA\n => BadHeader
\b\breference,to,amount\nA-1,BETA,100\n => BadHeader
reference,to,"amount\nA-1,BETA,100\n => BadHeader
"#;

#[test]
fn another_header_is_named_first(rt: HostRuntime) -> Result<(), Fail> {
    files_follow(&rt, OTHER_HEADERS)
}

const HEADERS_ALONE: &str = r"
reference,to,amount => BadCount
reference,to,amount\r\n => BadCount
reference,to,amount\n\n\r\n => BadCount
";

#[test]
fn a_header_alone_has_no_row(rt: HostRuntime) -> Result<(), Fail> {
    files_follow(&rt, HEADERS_ALONE)
}

// Each of these files has a good row, and then a bad one.
const BAD_ROWS: &str = r#"
reference,to,amount\nA,BETA,1\nA-1,BETA,100,\n => BadRow { row: 2 }
reference,to,amount\nA,BETA,1\nA-1\n => BadRow { row: 2 }
reference,to,amount\nA,BETA,1\n,,\n => BadRow { row: 2 }
reference,to,amount\nA,BETA,1\n \nA-1,BETA,100\n => BadRow { row: 2 }
reference,to,amount\nA,BETA,1\nA-1, BETA,100\n => BadRow { row: 2 }
reference,to,amount\nA,BETA,1\nA-1,BETA,100 \n => BadRow { row: 2 }
reference,to,amount\nA,BETA,1\na-1,BETA,100\n => BadRow { row: 2 }
reference,to,amount\nA,BETA,1\nA-1,beta,100\n => BadRow { row: 2 }
reference,to,amount\nA,BETA,1\nA-1,BETA,0\n => BadRow { row: 2 }
reference,to,amount\nA,BETA,1\nA-1,BETA,007\n => BadRow { row: 2 }
reference,to,amount\nA,BETA,1\nA-1,BETA,1000000000001\n => BadRow { row: 2 }
reference,to,amount\nA,BETA,1\nA-1,B\xTA,100\n => BadRow { row: 2 }
reference,to,amount\nA,BETA,1\nÄ-1,BETA,100\n => BadRow { row: 2 }
reference,to,amount\nA,BETA,1\n"A-1,BETA,100\nA-2,BETA,100\n => BadRow { row: 2 }
reference,to,amount\nA,BETA,1\n"A""1",BETA,100\nA-2\n => BadRow { row: 2 }
"#;

#[test]
fn a_row_is_three_fields_in_their_forms(rt: HostRuntime) -> Result<(), Fail> {
    files_follow(&rt, BAD_ROWS)
}

// Files with a column for due dates, which may be empty. A due date on a Saturday is judged by the desk.
const WITH_DUE_DATES: &str = r#"
reference,to,amount,due\nA-1,BETA,100,2024-03-05\nA-2,GAMA,50,\n => A-1 BETA 100 due 2024-03-05, A-2 GAMA 50
reference,to,amount,due\nA-1,BETA,100,\n => A-1 BETA 100
reference,to,amount,due\nA-1,BETA,100,"2024-03-09" => A-1 BETA 100 due 2024-03-09
\breference,to,amount,"due"\r\nA-1,BETA,100,2999-12-31\r\n => A-1 BETA 100 due 2999-12-31
reference,to,amount,due\n => BadCount
reference,to,amount,Due\nA-1,BETA,100,\n => BadHeader
reference,to,due,amount\nA-1,BETA,,100\n => BadHeader
reference,to,amount,due,\nA-1,BETA,100,,\n => BadHeader
reference,to,amount,due\nA,BETA,1,\nA-1,BETA,100\n => BadRow { row: 2 }
reference,to,amount,due\nA,BETA,1,\nA-1,BETA,100,,\n => BadRow { row: 2 }
reference,to,amount,due\nA,BETA,1,\nA-1,BETA,100,2024-02-30\n => BadRow { row: 2 }
reference,to,amount,due\nA,BETA,1,\nA-1,BETA,100,2024-3-5\n => BadRow { row: 2 }
reference,to,amount,due\nA,BETA,1,\nA-1,BETA,100, 2024-03-05\n => BadRow { row: 2 }
reference,to,amount,due\nA,BETA,1,\nA-1,BETA,100,1999-12-31\n => BadRow { row: 2 }
reference,to,amount,due\nA,BETA,1,\nA-1,BETA,100,3000-01-01\n => BadRow { row: 2 }
reference,to,amount,due\nA,BETA,1,\nA-1,BETA,0,2024-03-05\n => BadRow { row: 2 }
reference,to,amount\nA,BETA,1\nA-1,BETA,100,2024-03-05\n => BadRow { row: 2 }
"#;

#[test]
fn rows_may_have_a_due_date(rt: HostRuntime) -> Result<(), Fail> {
    files_follow(&rt, WITH_DUE_DATES)
}

// A file of one row, whose receiver is this many letters.
fn long_field(alloc: Global, length: usize) -> Result<String, Fail> {
    let letters = "B".repeat(alloc, length)?;
    let letters = letters.as_str();
    Ok(format!(in alloc; "reference,to,amount\nA-1,{letters},100\n")?)
}

#[test]
fn a_long_field_is_a_bad_row(rt: HostRuntime) -> Result<(), Fail> {
    let file = long_field(rt.alloc(), 70_000)?;
    let fault = read_orders(rt.alloc(), file.as_bytes()).err();
    ensure(fault == Some(BatchFault::BadRow { row: 1 }))
}

// Reads a file of N rows, of which one is bad.
#[derive(Clone, Copy)]
struct Counting;

impl Answers for Counting {
    fn answer(&mut self, alloc: Global, asked: &str) -> Result<String, Fail> {
        let file = file_asked(alloc, asked)?;
        match read_orders(alloc, file.as_slice()) {
            Ok(rows) => count_text(alloc, rows.len()),
            Err(fault) => fault_text(alloc, fault),
        }
    }
}

// How many rows there are.
fn count_text(alloc: Global, count: usize) -> Result<String, Fail> {
    Ok(format!(in alloc; "{count} rows")?)
}

// The file of as many rows as these words say, of which one is bad.
fn file_asked(alloc: Global, asked: &str) -> Result<Vec<u8>, Fail> {
    let (rows, bad) = asked.split_once(" rows, bad ").ok_or("not understood")?;
    let (rows, bad) = (rows.parse::<u64>()?, bad.parse::<u64>()?);
    file(alloc, rows, bad)
}

// A file of this many rows, of which this one is bad.
fn file(alloc: Global, rows: u64, bad: u64) -> Result<Vec<u8>, Fail> {
    let mut text = Vec::new(alloc);
    text.extend_from_slice(b"reference,to,amount\n")?;
    for row in 0..rows {
        let line = if row + 1 == bad {
            "A-1,BETA\n"
        } else {
            "A-1,BETA,100\n"
        };
        text.extend_from_slice(line.as_bytes())?;
    }
    Ok(text)
}

const COUNTS: &str = "
500 rows, bad 0 => 500 rows
501 rows, bad 0 => BadCount
501 rows, bad 501 => BadCount
501 rows, bad 3 => BadRow { row: 3 }
501 rows, bad 500 => BadRow { row: 500 }
";

#[test]
fn five_hundred_rows_are_read_and_no_more(rt: HostRuntime) -> Result<(), Fail> {
    follows(rt.alloc(), &mut Counting, COUNTS)
}

// A fault's number, name and two statuses.
fn kind_text(alloc: Global, fault: BatchFault) -> Result<String, Fail> {
    let kind = fault.kind();
    let (number, name) = (kind.number(), kind.name());
    let (http, exit) = (kind.http_status(), kind.exit_status());
    Ok(format!(in alloc; "{number} {name} {http:?} {exit:?}")?)
}

// Fails unless the fault has this number, this name and these statuses.
fn is_known_as(alloc: Global, fault: BatchFault, known: &str) -> Result<(), Fail> {
    let text = kind_text(alloc, fault)?;
    is_same(text.as_str(), known)
}

#[test]
fn faults_have_numbers_names_and_statuses(rt: HostRuntime) -> Result<(), Fail> {
    let alloc = rt.alloc();
    let row = BatchFault::BadRow { row: 3 };
    is_known_as(
        alloc,
        BatchFault::BadHeader,
        "40 BadHeader Some(400) Some(1)",
    )?;
    is_known_as(alloc, row, "41 BadRow Some(400) Some(1)")?;
    is_known_as(alloc, BatchFault::BadCount, "42 BadCount Some(400) Some(1)")?;
    is_known_as(
        alloc,
        BatchFault::OutOfMemory,
        "90 OutOfMemory Some(503) Some(3)",
    )
}
