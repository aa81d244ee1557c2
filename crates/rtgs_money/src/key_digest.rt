//! Digests of keys.
ghost use Rattle.std.specs.Prelude.{◌≡◌, ℕ, List, ◌↔◌, length, IsSome, IfSome};

use std::marker::Model;

/// The SHA-256 digest of a key, `LENGTH` bytes. Contracts see the bytes.
#[derive(Clone, Copy, Debug, PartialEq, Eq, PartialOrd, Ord)]
pub struct KeyDigest {
    bytes: [u8; KeyDigest::LENGTH],
}

impl Model for KeyDigest {
    ghost Value = { List ℕ };

    ghost view = { λ k. k.bytes };

    ghost inverse = { λ bytes. record { bytes = bytes } };
}

impl KeyDigest {
    /// How many bytes a digest has.
    pub const LENGTH: usize = 32;

    /// The digest that has these bytes, as they are found in a table.
    pub fn from_bytes(bytes: [u8; KeyDigest::LENGTH]) -> KeyDigest
        ensures { result ≡ bytes }
    {
        KeyDigest { bytes }
    }

    /// The digest of these bytes, if they are `LENGTH`.
    pub fn from_slice(bytes: &[u8]) -> Option<KeyDigest>
        ensures valid { IsSome result ↔ (length bytes.now ≡ KeyDigest.LENGTH) }
        ensures value { IfSome result (λ digest. digest ≡ bytes.now) }
    {
        bytes.try_into().ok().map(KeyDigest::from_bytes)
    }

    /// The bytes of the digest, as they stand in a table.
    pub fn as_bytes(&self) -> &[u8]
        ensures value { result.now ≡ self.now }
        ensures len { length self.now ≡ KeyDigest.LENGTH }
    {
        &self.bytes
    }
}
