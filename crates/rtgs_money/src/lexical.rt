//! Why bytes are not a value.
ghost use Rattle.std.specs.Prelude.{◌≡◌, Some};
ghost use Rattle.rtgs_refusals.specs.Table.{entry_of};
ghost use Rattle.rtgs_money.specs.Lexical.{lexical_kind_of};

use rtgs_refusals::RefusalKind;
use std::error::Error;
use std::fmt;

/// Bytes that are not of the form that was asked for.
#[derive(Clone, Copy, Debug, PartialEq, Eq)]
pub enum Lexical {
    BadCode,
    BadReference,
    BadAmount,
    BadName,
    BadKey,
    BadDate,
}

impl Lexical {
    /// What this refusal is known by: its number, its name and its statuses.
    pub fn kind(self) -> RefusalKind
        ensures { result ≡ lexical_kind_of self }
    {
        match self {
            Lexical::BadCode => RefusalKind::BadCode,
            Lexical::BadReference => RefusalKind::BadReference,
            Lexical::BadAmount => RefusalKind::BadAmount,
            Lexical::BadName => RefusalKind::BadName,
            Lexical::BadKey => RefusalKind::BadKey,
            Lexical::BadDate => RefusalKind::BadDate,
        }
    }
}

impl fmt::Display for Lexical {
    ghost output = { λ refusal. Some (entry_of (lexical_kind_of refusal)).name };

    fn fmt<W: fmt::Write>(&self, f: &mut fmt::Formatter<W>) -> fmt::Result {
        f.write_str(self.kind().name())
    }
}

impl Error for Lexical {}
