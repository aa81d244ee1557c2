//! Postings.
use rtgs_money::{BusinessDate, Code, PostingAmount, Reference};

/// An entry that the desk itself makes to an account. Postings are numbered from 1.
#[derive(Clone, Copy, Debug, PartialEq, Eq)]
pub struct Posting {
    pub number: u64,
    pub code: Code,
    /// Names the posting for good.
    pub reference: Reference,
    pub cents: PostingAmount,
    /// The last business date when it was made, if there had been one.
    pub date: Option<BusinessDate>,
}
