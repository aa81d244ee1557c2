//! Laws of the definitions. Each function does nothing: its contract is the law.
ghost use Rattle.std.specs.Prelude.{◌≡◌, ◌≢◌, ◌↔◌, ◌<◌, ◌^◌, ℕ, List, decimal};
ghost use Rattle.csv.specs.Reading.{AreRecords, default_config, strip_bom};
ghost use Rattle.csv.specs.declared.parser.State.TheVariants as st;
ghost use Rattle.rtgs_money.specs.Date.{date_text};
ghost use Rattle.rtgs_money.specs.Forms.{IsReference};
ghost use Rattle.rtgs_order_files.specs.declared.batch_fault.BatchFault.{BatchFault};
ghost use Rattle.rtgs_book.specs.declared.new_order.NewOrder.{NewOrder};
ghost use Rattle.rtgs_order_files.specs.OrderFile.{CsvFields, records_of, IsFaultOf, IsOrderFile};
ghost use Rattle.rtgs_order_files.specs.Plain.{IsPlain, joined};
ghost use Rattle.rtgs_order_files.specs.Results.{line};

use rtgs_money::laws::dates_have_distinct_texts;

/// The records of a text are those that a reader takes from it one by one, to its end, with the usual commas and
/// quotes.
pub fn records_are_those_read()
    ensures { (bytes : List ℕ) (rows : List CsvFields) → (records_of bytes ≡ rows)
        ↔ AreRecords default_config st.StartRecord (strip_bom bytes) rows }
{}

/// A text is an order file of one list of rows at most.
pub fn rows_are_determined()
    ensures { (bytes : List ℕ) (one other : List NewOrder) → IsOrderFile bytes one → IsOrderFile bytes other
        → one ≡ other }
{
    dates_have_distinct_texts();
}

/// An order file has no fault, but that memory may be wanting.
pub fn order_files_have_no_fault()
    ensures { (bytes : List ℕ) (rows : List NewOrder) (fault : BatchFault) → IsOrderFile bytes rows
        → IsFaultOf bytes fault → fault ≡ BatchFault.OutOfMemory }
{}

/// Another text has one fault at most, but that memory may be wanting.
pub fn faults_are_determined()
    ensures { (bytes : List ℕ) (one other : BatchFault) → IsFaultOf bytes one → IsFaultOf bytes other
        → one ≢ BatchFault.OutOfMemory → other ≢ BatchFault.OutOfMemory → one ≡ other }
{}

/// A line of plain fields has no quotes: it is its fields with commas between them, and a line feed.
pub fn plain_fields_are_joined()
    ensures { (reference result number detail : List ℕ) → IsPlain reference → IsPlain result → IsPlain number
        → IsPlain detail
        → line reference result number detail ≡ joined reference result number detail }
{}

/// Each reference is plain, and so is each number that is written.
pub fn references_and_numbers_are_plain()
    ensures reference { (reference : List ℕ) → IsReference reference → IsPlain reference }
    ensures number { (number : ℕ) → number < 2 ^ 64 → IsPlain (decimal number) }
{}

/// Each date that is written is plain.
pub fn dates_are_plain()
    ensures { (date : ℕ) → IsPlain (date_text date) }
{}
