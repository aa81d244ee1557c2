//! Keys and their digests, by `sha256sum` of the GNU core utilities.
use super::super::script::{lines_of, sides};
use super::forms::{Form, reads};
use rtgs_money::{Key, KeyDigest};
use rtgs_tests_desks::{ensure, is};
use sha2::{Digest, Sha256};
use std::alloc::Global;
use std::fmt::Write;
use std::test::Fail;

/// Bytes, and the bytes of the key.
const KEYS: &str = "
'0000000000000000000000000000000a' = '0000000000000000000000000000000a'
'0123456789abcdef0123456789abcdef' = '0123456789abcdef0123456789abcdef'
'ffffffffffffffffffffffffffffffff' = 'ffffffffffffffffffffffffffffffff'
'' = BadKey
'0000000000000000000000000000000' = BadKey
'000000000000000000000000000000000' = BadKey
'0000000000000000000000000000000A' = BadKey
'0000000000000000000000000000000g' = BadKey
'0000000000000000000000000000000/' = BadKey
'0000000000000000000000000000000:' = BadKey
'000000000000000000000000000000%c3%a9' = BadKey
";

#[test]
fn a_key_is_thirty_two_digits(rt: HostRuntime) -> Result<(), Fail> {
    reads(rt.alloc(), Form::Key, KEYS)
}

/// Keys and their digests.
const DIGESTS: &str = "
0000000000000000000000000000000a = a2bc4d47e9524a8b9a0a04bfdbb6202b94cd48dfda99756a35ef6fe0f1eb32c5
0123456789abcdef0123456789abcdef = 3eb1bd439947eb762998e566ccc2e099c791118b2f40579cc4f7da2b5061b7f9
";

// Adds the two digits of a byte.
fn push_digits(text: &mut String, byte: u8) -> Result<(), Fail> {
    Ok(write!(text, "{byte:02x}")?)
}

// The bytes by two digits each.
fn hex_of(alloc: Global, bytes: &[u8]) -> Result<String, Fail> {
    let mut text = String::new(alloc);
    for byte in bytes {
        push_digits(&mut text, *byte)?;
    }
    Ok(text)
}

// A digest is written so, and is found again by its bytes.
fn is_digest(alloc: Global, digest: KeyDigest, hex: &str) -> Result<(), Fail> {
    is(hex_of(alloc, digest.as_bytes())?.as_str(), hex)?;
    ensure(KeyDigest::from_slice(digest.as_bytes()) == Some(digest))
}

// The key of a line has its digest.
fn has_digest(alloc: Global, line: &str) -> Result<(), Fail> {
    let (text, hex) = sides(line, " = ")?;
    let key = Key::read(text.as_bytes())?;
    is_digest(alloc, key.digest(), hex)
}

#[test]
fn a_digest_is_that_of_the_characters(rt: HostRuntime) -> Result<(), Fail> {
    for line in lines_of(DIGESTS)? {
        has_digest(rt.alloc(), line)?;
    }
    ensure(KeyDigest::from_slice(&[0; 31]).is_none())?;
    ensure(KeyDigest::from_slice(&[0; 33]).is_none())
}

// The digest of a text is written so.
fn hashes(alloc: Global, text: &str, hex: &str) -> Result<(), Fail> {
    let digest = Sha256::digest(text.as_bytes());
    is(hex_of(alloc, &digest)?.as_str(), hex)
}

// The one-block and the two-block example that NIST gives for FIPS 180-4.
#[test]
fn the_digest_is_that_of_the_standard(rt: HostRuntime) -> Result<(), Fail> {
    let hex = "ba7816bf8f01cfea414140de5dae2223b00361a396177a9cb410ff61f20015ad";
    hashes(rt.alloc(), "abc", hex)?;
    let text = "abcdbcdecdefdefgefghfghighijhijkijkljklmklmnlmnomnopnopq";
    let hex = "248d6a61d20638b8e5c026930c3e6039a33ce45964ff2167f6ecedd419db06c1";
    hashes(rt.alloc(), text, hex)
}
