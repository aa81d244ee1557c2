//! Full names of participants.
ghost use Rattle.std.specs.Prelude.{◌≡◌, ℕ, List, Some, IfOk, IfErr};
ghost use Rattle.std.specs.Fmt.{styled_text};
ghost use Rattle.std.specs.List.{list_all};
ghost use Rattle.std.specs.Str.{IsAscii};
ghost use Rattle.rtgs_money.specs.Forms.{IsName, is_name, is_name_byte};

use crate::lexical::Lexical;
use crate::text::Text;
use std::fmt;
use std::marker::Model;

/// The full name of a participant: 1 to `LONGEST` printable ASCII characters, with no space at either end. Contracts
/// see the bytes.
#[derive(Clone, Copy, Debug, PartialEq, Eq, PartialOrd, Ord)]
pub struct Name {
    text: Text<{ Name::LONGEST }>,
}

impl Model for Name {
    ghost Value = { List ℕ };

    ghost view = { λ name. name.text };

    ghost invariant = { λ name. IsName name.text };

    ghost inverse = { λ bytes. record { text = bytes } };
}

impl Name {
    /// The greatest number of characters of a name.
    pub const LONGEST: usize = 40;

    /// The name that these bytes are: 1 to `LONGEST` printable ASCII characters, with no space at either end. Anything
    /// else is `BadName`.
    #[tactic(auto, unfolding(crate::specs::Forms::is_name))]
    pub fn read(bytes: &[u8]) -> Result<Name, Lexical>
        ensures value { IfOk result (λ name. IsName bytes.now × (name ≡ bytes.now)) }
        ensures found { IsName bytes.now → result ≡ Ok bytes.now }
        ensures refused { IfErr result (λ refusal. refusal ≡ Lexical.BadName) }
    {
        if !is_name(bytes) {
            return Err(Lexical::BadName);
        }
        Ok(Name {
            text: Text::new().with(bytes),
        })
    }

    /// The bytes of the name, in the form in which it was read.
    pub fn as_bytes(&self) -> &[u8]
        ensures value { result.now ≡ self.now }
        ensures form { IsName self.now }
        ensures ascii { IsAscii self.now }
    {
        self.text.as_bytes()
    }

    /// The name as text, in the form in which it was read.
    pub fn as_str(&self) -> &str
        ensures value { result.now ≡ self.now }
        ensures form { IsName self.now }
        ensures ascii { IsAscii self.now }
    {
        self.text.as_str()
    }
}

// Whether this byte may stand in a name: a printable character.
fn is_name_byte(byte: u8) -> bool
    ensures { result ≡ is_name_byte byte }
{
    (b' '..=b'~').contains(&byte)
}

// Whether each of these bytes may stand in a name.
fn has_name_bytes(bytes: &[u8]) -> bool
    ensures { result ≡ list_all is_name_byte bytes.now }
{
    bytes.iter().all(|byte| is_name_byte(*byte))
}

// Whether these bytes are a name.
#[tactic(auto, unfolding(crate::specs::Forms::is_name))]
fn is_name(bytes: &[u8]) -> bool
    ensures { result ≡ is_name bytes.now }
{
    (1..=Name::LONGEST).contains(&bytes.len())
        && has_name_bytes(bytes)
        && bytes[0] != b' '
        && bytes[bytes.len() - 1] != b' '
}

impl fmt::Display for Name {
    ghost output = { λ name. Some name };

    ghost styled_output = { λ name style. Some (styled_text style name) };

    fn fmt<W: fmt::Write>(&self, f: &mut fmt::Formatter<W>) -> fmt::Result {
        f.pad(self.as_str())
    }
}
