//! Short names of participants.
ghost use Rattle.std.specs.Prelude.{◌≡◌, ℕ, List, Some, IfOk, IfErr};
ghost use Rattle.std.specs.Fmt.{styled_text};
ghost use Rattle.std.specs.List.{list_all};
ghost use Rattle.std.specs.Str.{IsAscii};
ghost use Rattle.rtgs_money.specs.Forms.{IsCode, is_code, is_code_byte};

use crate::lexical::Lexical;
use crate::text::Text;
use std::fmt;
use std::marker::Model;

/// The short name of a participant: a letter A-Z, then letters and digits, `SHORTEST` to `LONGEST` in all. Contracts
/// see the bytes.
#[derive(Clone, Copy, Debug, PartialEq, Eq, PartialOrd, Ord)]
pub struct Code {
    text: Text<{ Code::LONGEST }>,
}

impl Model for Code {
    ghost Value = { List ℕ };

    ghost view = { λ code. code.text };

    ghost invariant = { λ code. IsCode code.text };

    ghost inverse = { λ bytes. record { text = bytes } };
}

impl Code {
    /// The least number of characters of a code.
    pub const SHORTEST: usize = 3;

    /// The greatest number of characters of a code.
    pub const LONGEST: usize = 8;

    /// The code that these bytes are: a letter A-Z, then letters A-Z and digits, `SHORTEST` to `LONGEST` in all.
    /// Anything else is `BadCode`.
    #[tactic(auto, unfolding(crate::specs::Forms::is_code))]
    pub fn read(bytes: &[u8]) -> Result<Code, Lexical>
        ensures value { IfOk result (λ code. IsCode bytes.now × (code ≡ bytes.now)) }
        ensures found { IsCode bytes.now → result ≡ Ok bytes.now }
        ensures refused { IfErr result (λ refusal. refusal ≡ Lexical.BadCode) }
    {
        if !is_code(bytes) {
            return Err(Lexical::BadCode);
        }
        Ok(Code {
            text: Text::new().with(bytes),
        })
    }

    /// The bytes of the code, in the form in which it was read.
    pub fn as_bytes(&self) -> &[u8]
        ensures value { result.now ≡ self.now }
        ensures form { IsCode self.now }
        ensures ascii { IsAscii self.now }
    {
        self.text.as_bytes()
    }

    /// The code as text, in the form in which it was read.
    pub fn as_str(&self) -> &str
        ensures value { result.now ≡ self.now }
        ensures form { IsCode self.now }
        ensures ascii { IsAscii self.now }
    {
        self.text.as_str()
    }
}

// Whether this byte may stand in a code: a letter A-Z or a digit.
fn is_code_byte(byte: u8) -> bool
    ensures { result ≡ is_code_byte byte }
{
    byte.is_ascii_uppercase() || byte.is_ascii_digit()
}

// Whether each of these bytes may stand in a code.
fn has_code_bytes(bytes: &[u8]) -> bool
    ensures { result ≡ list_all is_code_byte bytes.now }
{
    bytes.iter().all(|byte| is_code_byte(*byte))
}

// Whether these bytes are a code.
#[tactic(auto, unfolding(crate::specs::Forms::is_code))]
fn is_code(bytes: &[u8]) -> bool
    ensures { result ≡ is_code bytes.now }
{
    (Code::SHORTEST..=Code::LONGEST).contains(&bytes.len())
        && bytes[0].is_ascii_uppercase()
        && has_code_bytes(bytes)
}

impl fmt::Display for Code {
    ghost output = { λ code. Some code };

    ghost styled_output = { λ code style. Some (styled_text style code) };

    fn fmt<W: fmt::Write>(&self, f: &mut fmt::Formatter<W>) -> fmt::Result {
        f.pad(self.as_str())
    }
}
