//! The sums at the end of a statement.
ghost use Rattle.std.specs.Prelude.{◌≡◌};
ghost use Rattle.std.specs.Str.{IsAscii};
ghost use Rattle.rtgs_statements.specs.Texts.{total_text};

/// Which sum a line at the end of a statement has.
#[derive(Clone, Copy, Debug, PartialEq, Eq)]
pub enum Total {
    Posted,
    Sent,
    Received,
    Net,
}

impl Total {
    /// The word that stands before the sum.
    pub fn text(self) -> &'static str
        ensures value { result.now ≡ total_text self }
        ensures ascii { IsAscii result.now }
    {
        match self {
            Total::Posted => "sum-posted",
            Total::Sent => "sum-sent",
            Total::Received => "sum-recv",
            Total::Net => "net",
        }
    }
}
