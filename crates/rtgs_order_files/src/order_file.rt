//! Reading order files.
ghost use Rattle.std.specs.Prelude.{◌≡◌, ◌≢◌, ◌⊎◌, ◌∷◌, List, Err, IfOk, IfErr, OnOk};
ghost use Rattle.rtgs_order_files.specs.declared.columns.Columns.{Columns};
ghost use Rattle.rtgs_order_files.specs.declared.batch_fault.BatchFault.{BatchFault};
ghost use Rattle.rtgs_book.specs.declared.new_order.NewOrder.{NewOrder};
ghost use Rattle.rtgs_order_files.specs.OrderFile.{CsvFields, header, records_of, AreRows, IsFaultOf, IsFaultOfRows};
ghost use Rattle.rtgs_order_files.specs.OrderFile.{IsOrderFile};
ghost use Rattle.rtgs_order_files.specs.Reading.{IsReading, left_of};

use crate::batch_fault::BatchFault;
use crate::columns::Columns;
use crate::limits::MOST_ROWS;
use crate::order_row::read_row;
use csv::{ByteRecordsIntoIter, ReaderBuilder};
use rtgs_book::NewOrder;
use rtgs_money::BusinessDate;
use rtgs_money::laws::dates_have_distinct_texts;
use std::alloc::Global;

/// The rows of an order file: CSV (RFC 4180) whose first record is `reference,to,amount` or `reference,to,amount,due`,
/// and then 1 to `MOST_ROWS` records of a reference, a code and an amount in cents. Under the second header a record
/// has a fourth field: the due date, weekends too, or nothing where the order has none. A byte order mark at the start
/// and empty lines are passed over. The faults come in this order: `BadHeader`, `BadCount` where there is no row,
/// `BadRow` with the first bad row of the first `MOST_ROWS`, counted from 1, and `BadCount` where there are more.
/// `OutOfMemory` stands for every error of the reader of the bytes.
pub fn read_orders(alloc: Global, bytes: &[u8]) -> Result<Vec<NewOrder>, BatchFault>
    ensures rows { IfOk result (λ rows. IsOrderFile bytes.now rows.items) }
    ensures fault { IfErr result (λ fault. IsFaultOf bytes.now fault) }

    // An order file gives its rows, and what is wrong with another file is named, except where memory ran out.
    ensures taken { (rows : List NewOrder) → IsOrderFile bytes.now rows
        → IfOk result (λ taken. taken.items ≡ rows) × IfErr result (λ fault. fault ≡ BatchFault.OutOfMemory) }
    ensures refused { (fault : BatchFault) → IsFaultOf bytes.now fault → fault ≢ BatchFault.OutOfMemory
        → (result ≡ Err fault) ⊎ (result ≡ Err BatchFault.OutOfMemory) }
{
    dates_have_distinct_texts();
    let mut records = records_of(alloc, bytes);
    let columns = take_header(&mut records)?;
    read_rows(alloc, columns, records)
}

fn records_of(alloc: Global, bytes: &[u8]) -> ByteRecordsIntoIter<&[u8]>
    ensures reading { IsReading result }
    ensures left { left_of result ≡ records_of bytes.now }
{
    ReaderBuilder::new()
        .has_headers(false)
        .flexible(true)
        .from_reader(alloc, bytes)
        .into_byte_records()
}

// Takes the header from the records, and gives the columns that it names.
fn take_header(records: &mut ByteRecordsIntoIter<&[u8]>) -> Result<Columns, BatchFault>
    requires { IsReading records.old }
    ensures reading { OnOk result (IsReading records.new) }
    ensures taken { IfOk result (λ columns. left_of records.old ≡ header columns ∷ left_of records.new) }
    ensures fault { IfErr result (λ fault. (fault ≡ BatchFault.OutOfMemory)
        ⊎ ((fault ≡ BatchFault.BadHeader)
        × ((columns : Columns) (under : List CsvFields) → left_of records.old ≢ header columns ∷ under))) }
{
    let first = match records.next() {
        Some(Ok(first)) => first,
        Some(Err(error)) => return Err(BatchFault::of_reader(&error)),
        None => return Err(BatchFault::BadHeader),
    };
    let Some(columns) = Columns::named(&first) else {
        return Err(BatchFault::BadHeader);
    };
    Ok(columns)
}

// The rows that the records under a header of these columns spell.
fn read_rows(
    alloc: Global,
    columns: Columns,
    records: ByteRecordsIntoIter<&[u8]>,
) -> Result<Vec<NewOrder>, BatchFault>
    requires { IsReading records }
    ensures rows { IfOk result (λ rows. AreRows columns rows.items (left_of records.entry)) }
    ensures fault { IfErr result (λ fault. IsFaultOfRows columns fault (left_of records.entry)) }
{
    // Names the type of due dates for the borrow checker, which finds it nowhere else in this function.
    let _no_date: Option<BusinessDate> = None;
    let mut rows = Vec::new(alloc);
    for record in records {
        let record = match record {
            Ok(record) => record,
            Err(error) => return Err(BatchFault::of_reader(&error)),
        };
        if rows.len() == MOST_ROWS {
            return Err(BatchFault::BadCount);
        }
        let Some(row) = read_row(columns, &record) else {
            let row = rows.len() as u64 + 1;
            return Err(BatchFault::BadRow { row });
        };
        rows.push(row)?;
    }
    if rows.is_empty() {
        return Err(BatchFault::BadCount);
    }
    Ok(rows)
}
