//! Laws of the sums and of the lines. Each function does nothing: its contract is the law.
ghost use Rattle.std.specs.Prelude.{◌≡◌, ◌≤◌, ◌<◌, ◌^◌, ◌+ℤ◌, ℕ, ℤ, unsigned_abs, List, length, IfSome};
ghost use Rattle.rtgs_book.specs.declared.limits.TheConstants.{LARGEST_NUMBER};
ghost use Rattle.rtgs_money.specs.Amounts.{IsAmount, IsPostingAmount};
ghost use Rattle.rtgs_money.specs.Forms.{IsCode, IsReference};
ghost use Rattle.rtgs_book.specs.declared.book.Book.{Book};
ghost use Rattle.rtgs_book.specs.declared.order.Order.{Order};
ghost use Rattle.rtgs_book.specs.declared.posting.Posting.{Posting};
ghost use Rattle.rtgs_book.specs.Balance.{balance};
ghost use Rattle.rtgs_book.specs.IntSum.{int_sum_by};
ghost use Rattle.rtgs_book.specs.Lookup.{codes_of};
ghost use Rattle.rtgs_book.specs.Soundness.{CodesRise, PartiesAreKnown};
ghost use Rattle.rtgs_statements.specs.declared.line.Line.{Line};
ghost use Rattle.rtgs_statements.specs.declared.total.Total.{Total};
ghost use Rattle.rtgs_statements.specs.Closing.{closing, moved_since};
ghost use Rattle.rtgs_statements.specs.Lines.{mark_of, row_of_posting, row_of_order, row_text};
ghost use Rattle.rtgs_statements.specs.Records.{postings_on_statement, orders_on_statement, postings_on, orders_on};
ghost use Rattle.rtgs_statements.specs.Sums.{cents_of, sent, received, sums_of, net};
ghost use Rattle.rtgs_statements.specs.Texts.{line_text, statement, report};

/// The sums of a participant's statement are those of its line in the day's report.
pub fn statement_and_report_agree()
    ensures { (code : List ℕ) (date : ℕ) (postings : List Posting) (orders : List Order)
        → sums_of code (postings_on_statement code date postings) (orders_on_statement code date orders)
        ≡ sums_of code (postings_on date postings) (orders_on date orders) }
{}

/// Where all parties are participants, what they sent on a date is together what they received on it.
pub fn sent_is_received()
    ensures { (book : Book) (date : ℕ) → CodesRise book → PartiesAreKnown book
        → int_sum_by (λ code. sent code (orders_on date book.orders)) (codes_of book)
        ≡ int_sum_by (λ code. received code (orders_on date book.orders)) (codes_of book) }
{}

/// And what the records of a date leave to them is together what was posted on it.
pub fn net_is_posted()
    ensures { (book : Book) (date : ℕ) → CodesRise book → PartiesAreKnown book
        → int_sum_by (λ code. net (sums_of code (postings_on date book.postings) (orders_on date book.orders)))
        (codes_of book) ≡ int_sum_by cents_of (postings_on date book.postings) }
{}

/// Each row of a statement has 77 characters and a line feed, where numbers are at most `LARGEST_NUMBER`.
pub fn rows_have_77_characters()
    ensures postings { (posting : Posting) → posting.number ≤ LARGEST_NUMBER → IsReference posting.reference
        → IsPostingAmount posting.cents → length (row_text (row_of_posting posting)) ≡ 78 }
    ensures orders { (code : List ℕ) (order : Order) → order.number ≤ LARGEST_NUMBER → IsReference order.reference
        → IsCode order.sender → IsCode order.receiver → IsAmount order.amount
        → IfSome (mark_of order.state) (λ mark. mark ≤ LARGEST_NUMBER)
        → length (row_text (row_of_order code order)) ≡ 78 }
{}

/// Each sum of a statement has 41 characters and a line feed, where it is below 10^28 cents.
pub fn sums_have_41_characters()
    ensures { (total : Total) (cents : ℤ) → unsigned_abs cents < 10 ^ 28
        → length (line_text (Line.Sum total cents)) ≡ 42 }
{}

/// Each statement and each report has bytes.
pub fn texts_have_bytes()
    ensures statement { (book : Book) (code : List ℕ) (date : ℕ) → 0 < length (statement book code date) }
    ensures report { (book : Book) (date : ℕ) → 0 < length (report book date) }
{}

/// What an account held at the end of a date, with what the days since moved, is its balance. So an earlier balance is
/// worked back from the present one by the records since.
pub fn balance_is_worked_back()
    ensures { (book : Book) (code : List ℕ) (date : ℕ)
        → (closing book code date +ℤ moved_since book code date) ≡ balance book code }
{}
