//! Keys of callers.
ghost use Rattle.std.specs.Prelude.{◌≡◌, ℕ, List, Some, IfOk, IfErr};
ghost use Rattle.std.specs.Fmt.{styled_text};
ghost use Rattle.sha2.specs.Sha256.{sha256};
ghost use Rattle.std.specs.List.{list_all};
ghost use Rattle.std.specs.Str.{IsAscii};
ghost use Rattle.rtgs_money.specs.Forms.{IsKey, is_key, is_key_byte};

use crate::key_digest::KeyDigest;
use crate::lexical::Lexical;
use crate::text::Text;
use sha2::{Digest, Sha256};
use std::fmt;
use std::marker::Model;

/// The secret by which a caller is known: `LENGTH` characters 0-9 and a-f. Contracts see the bytes.
#[derive(Clone, Copy, PartialEq, Eq)]
pub struct Key {
    text: Text<{ Key::LENGTH }>,
}

impl Model for Key {
    ghost Value = { List ℕ };

    ghost view = { λ key. key.text };

    ghost invariant = { λ key. IsKey key.text };

    ghost inverse = { λ bytes. record { text = bytes } };
}

impl Key {
    /// How many characters a key has.
    pub const LENGTH: usize = 32;

    /// The key that these bytes are: `LENGTH` characters 0-9 and a-f. Anything else is `BadKey`.
    #[tactic(auto, unfolding(crate::specs::Forms::is_key))]
    pub fn read(bytes: &[u8]) -> Result<Key, Lexical>
        ensures value { IfOk result (λ key. IsKey bytes.now × (key ≡ bytes.now)) }
        ensures found { IsKey bytes.now → result ≡ Ok bytes.now }
        ensures refused { IfErr result (λ refusal. refusal ≡ Lexical.BadKey) }
    {
        if !is_key(bytes) {
            return Err(Lexical::BadKey);
        }
        Ok(Key {
            text: Text::new().with(bytes),
        })
    }

    /// The bytes of the key, in the form in which it was read.
    pub fn as_bytes(&self) -> &[u8]
        ensures value { result.now ≡ self.now }
        ensures form { IsKey self.now }
        ensures ascii { IsAscii self.now }
    {
        self.text.as_bytes()
    }

    /// The key as text, in the form in which it was read.
    pub fn as_str(&self) -> &str
        ensures value { result.now ≡ self.now }
        ensures form { IsKey self.now }
        ensures ascii { IsAscii self.now }
    {
        self.text.as_str()
    }

    /// The SHA-256 digest (FIPS 180-4) of the key's characters.
    pub fn digest(&self) -> KeyDigest
        ensures { result ≡ sha256 self.now }
    {
        KeyDigest::from_bytes(Sha256::digest(self.as_bytes()))
    }
}

// Whether this byte may stand in a key: a digit 0-9 or a-f.
fn is_key_byte(byte: u8) -> bool
    ensures { result ≡ is_key_byte byte }
{
    byte.is_ascii_digit() || (b'a'..=b'f').contains(&byte)
}

// Whether each of these bytes may stand in a key.
fn has_key_bytes(bytes: &[u8]) -> bool
    ensures { result ≡ list_all is_key_byte bytes.now }
{
    bytes.iter().all(|byte| is_key_byte(*byte))
}

// Whether these bytes are a key.
#[tactic(auto, unfolding(crate::specs::Forms::is_key))]
fn is_key(bytes: &[u8]) -> bool
    ensures { result ≡ is_key bytes.now }
{
    bytes.len() == Key::LENGTH && has_key_bytes(bytes)
}

impl fmt::Display for Key {
    ghost output = { λ key. Some key };

    ghost styled_output = { λ key style. Some (styled_text style key) };

    fn fmt<W: fmt::Write>(&self, f: &mut fmt::Formatter<W>) -> fmt::Result {
        f.pad(self.as_str())
    }
}
