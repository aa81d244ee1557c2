//! Order files, and batches of orders.
use super::super::scarce::setting::code;
use super::super::scarce::{Call, InMemory, ORDERS, Outcome, Sends, for_each_refusal};
use rtgs_book::NewOrder;
use rtgs_order_files::{BatchFault, read_orders};
use std::alloc::Global;
use std::test::Fail;

/// The file, read.
#[derive(Clone, Copy)]
struct Reads;

impl Call for Reads {
    type State = Vec<u8>;

    type Answer = Result<Vec<NewOrder>, BatchFault>;

    fn begin(&self, alloc: Global) -> Result<Vec<u8>, Fail> {
        Ok(Vec::from_slice(alloc, ORDERS.as_bytes())?)
    }

    fn call(&self, alloc: Global, file: &mut Vec<u8>) -> Result<Vec<NewOrder>, BatchFault> {
        read_orders(alloc, file.as_slice())
    }

    fn outcome(&self, answer: &Result<Vec<NewOrder>, BatchFault>) -> Outcome {
        match answer {
            Err(BatchFault::OutOfMemory) => Outcome::Refused,
            _ => Outcome::Other,
        }
    }

    fn reopened(&self, _alloc: Global, file: Vec<u8>) -> Result<Vec<u8>, Fail> {
        Ok(file)
    }

    fn seen(&self, alloc: Global, file: &mut Vec<u8>) -> Result<String, Fail> {
        Ok(String::from_str(alloc, std::str::from_utf8(file.as_slice())?)?)
    }
}

#[test]
fn a_file_is_read(rt: HostRuntime) -> Result<(), Fail> {
    for_each_refusal(&rt, "tests::in_memory::batches::a_file_is_read", &Reads, 1)
}

#[test]
fn a_batch(rt: HostRuntime) -> Result<(), Fail> {
    let rows = read_orders(rt.alloc(), ORDERS.as_bytes())?;
    let sends = Sends {
        store: InMemory,
        sender: code("ALFA")?,
        rows: rows.as_slice(),
    };
    for_each_refusal(&rt, "tests::in_memory::batches::a_batch", &sends, 1)
}
