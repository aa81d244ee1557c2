//! Rows of order files. Each says what one order says.
ghost use Rattle.std.specs.Prelude.{◌≡◌, Some, IfSome};
ghost use Rattle.csv.specs.Records.{fields_of};
ghost use Rattle.rtgs_book.specs.declared.new_order.NewOrder.{NewOrder};
ghost use Rattle.rtgs_order_files.specs.OrderFile.{IsRow, fields_of_row};

use crate::columns::{Columns, split};
use csv::ByteRecord;
use rtgs_book::NewOrder;
use rtgs_money::{Amount, Code, Reference};

/// The row that these fields are under these columns: a reference, a code, an amount and perhaps a due date.
pub(crate) fn read_row(columns: Columns, fields: &ByteRecord) -> Option<NewOrder>
    ensures value { IfSome result (λ row. IsRow columns row × (fields_of fields.now ≡ fields_of_row columns row)) }
    ensures found { (row : NewOrder) → IsRow columns row → fields_of fields.now ≡ fields_of_row columns row
        → result ≡ Some row }
{
    let (reference, receiver, amount, due) = split(fields)?;
    Some(NewOrder {
        reference: Reference::read(reference).ok()?,
        receiver: Code::read(receiver).ok()?,
        amount: Amount::read(amount).ok()?,
        due: columns.due(due)?,
    })
}
