//! Keys, salts and digests, as texts of hex digits.
ghost use Rattle.std.specs.Prelude.{◌≡◌, ◌||◌, ◌++◌, codes, length};
ghost use Rattle.std.specs.List.{list_all};
ghost use Rattle.std.specs.Str.{bytes_eq};
ghost use Rattle.sha2.specs.Sha256.{sha256};
ghost use Rattle.hex.specs.Hex.{encode_lower};
ghost use Rattle.nesl_keys.specs.Secrets.{digest_text, is_hex_digit, is_hex_text};

use sha2::{Digest, Sha256};

/// The number of bytes of a key, and of a salt.
pub const SECRET_BYTES: usize = 16;

/// The number of digits of a key, and of a salt.
pub const SECRET_DIGITS: usize = 32;

/// The number of digits of a digest.
pub const DIGEST_DIGITS: usize = 64;

/// Whether this is a text of so many hex digits, none of them upper case.
pub fn is_hex_text(text: &[u8], digits: usize) -> bool
    ensures { result ≡ is_hex_text digits text.now }
{
    text.len() == digits && are_hex_digits(text)
}

fn are_hex_digits(text: &[u8]) -> bool
    ensures { result ≡ list_all is_hex_digit text.now }
{
    text.iter().all(|b| is_hex_digit(*b))
}

fn is_hex_digit(b: u8) -> bool
    ensures { result ≡ is_hex_digit b }
{
    b'0' <= b && b <= b'9' || b'a' <= b && b <= b'f'
}

/// Returns the digest of a salt and a key, both as they are written, in hex digits.
pub fn digest_text(salt: &[u8], key: &[u8]) -> [u8; DIGEST_DIGITS]
    ensures { result ≡ digest_text salt.now key.now }
{
    let digest = digest_of(salt, key);
    let mut text = [0u8; DIGEST_DIGITS];
    if hex::encode_to_slice(&digest, &mut text).is_err() {
        unreachable!();
    }
    text
}

fn digest_of(salt: &[u8], key: &[u8]) -> [u8; 32]
    ensures { result ≡ sha256 (salt.now ++ key.now) }
{
    let mut hasher = Sha256::new();
    hasher.update(salt);
    hasher.update(key);
    hasher.finalize()
}

/// Whether two texts are the same. For texts of one length it takes the same time wherever they differ.
pub fn is_same_text(one: &[u8], other: &[u8]) -> bool
    ensures { result ≡ bytes_eq one.now other.now }
{
    one.len() == other.len() && difference_of(one, other) == 0
}

// Returns 0 only if two texts of one length are the same. It reads both to their ends.
fn difference_of(one: &[u8], other: &[u8]) -> u8
    requires { length one.now ≡ length other.now }
    ensures { (result ≡ 0 → one.now ≡ other.now) × (one.now ≡ other.now → result ≡ 0) }
{
    let mut difference = 0;
    for place in 0..one.len() {
        difference |= one[place] ^ other[place];
    }
    difference
}
