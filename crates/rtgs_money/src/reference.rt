//! Names of orders and postings.
ghost use Rattle.std.specs.Prelude.{◌≡◌, ℕ, List, Some, IfOk, IfErr};
ghost use Rattle.std.specs.Fmt.{styled_text};
ghost use Rattle.std.specs.List.{list_all};
ghost use Rattle.std.specs.Str.{IsAscii};
ghost use Rattle.rtgs_money.specs.Forms.{IsReference, is_reference, is_reference_byte};

use crate::lexical::Lexical;
use crate::text::Text;
use std::fmt;
use std::marker::Model;

/// The name that a sender gives an order, or the operator a posting: 1 to `LONGEST` letters A-Z, digits and dashes.
/// Contracts see the bytes.
#[derive(Clone, Copy, Debug, PartialEq, Eq, PartialOrd, Ord)]
pub struct Reference {
    text: Text<{ Reference::LONGEST }>,
}

impl Model for Reference {
    ghost Value = { List ℕ };

    ghost view = { λ reference. reference.text };

    ghost invariant = { λ reference. IsReference reference.text };

    ghost inverse = { λ bytes. record { text = bytes } };
}

impl Reference {
    /// The greatest number of characters of a reference.
    pub const LONGEST: usize = 16;

    /// The reference that these bytes are: 1 to `LONGEST` letters A-Z, digits and dashes. Anything else is
    /// `BadReference`.
    #[tactic(auto, unfolding(crate::specs::Forms::is_reference))]
    pub fn read(bytes: &[u8]) -> Result<Reference, Lexical>
        ensures value { IfOk result (λ reference. IsReference bytes.now × (reference ≡ bytes.now)) }
        ensures found { IsReference bytes.now → result ≡ Ok bytes.now }
        ensures refused { IfErr result (λ refusal. refusal ≡ Lexical.BadReference) }
    {
        if !is_reference(bytes) {
            return Err(Lexical::BadReference);
        }
        Ok(Reference {
            text: Text::new().with(bytes),
        })
    }

    /// The bytes of the reference, in the form in which it was read.
    pub fn as_bytes(&self) -> &[u8]
        ensures value { result.now ≡ self.now }
        ensures form { IsReference self.now }
        ensures ascii { IsAscii self.now }
    {
        self.text.as_bytes()
    }

    /// The reference as text, in the form in which it was read.
    pub fn as_str(&self) -> &str
        ensures value { result.now ≡ self.now }
        ensures form { IsReference self.now }
        ensures ascii { IsAscii self.now }
    {
        self.text.as_str()
    }
}

// Whether this byte may stand in a reference: a letter A-Z, a digit or a dash.
fn is_reference_byte(byte: u8) -> bool
    ensures { result ≡ is_reference_byte byte }
{
    byte.is_ascii_uppercase() || byte.is_ascii_digit() || byte == b'-'
}

// Whether each of these bytes may stand in a reference.
fn has_reference_bytes(bytes: &[u8]) -> bool
    ensures { result ≡ list_all is_reference_byte bytes.now }
{
    bytes.iter().all(|byte| is_reference_byte(*byte))
}

// Whether these bytes are a reference.
#[tactic(auto, unfolding(crate::specs::Forms::is_reference))]
fn is_reference(bytes: &[u8]) -> bool
    ensures { result ≡ is_reference bytes.now }
{
    (1..=Reference::LONGEST).contains(&bytes.len()) && has_reference_bytes(bytes)
}

impl fmt::Display for Reference {
    ghost output = { λ reference. Some reference };

    ghost styled_output = { λ reference style. Some (styled_text style reference) };

    fn fmt<W: fmt::Write>(&self, f: &mut fmt::Formatter<W>) -> fmt::Result {
        f.pad(self.as_str())
    }
}
