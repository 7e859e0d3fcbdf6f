//! A file of two users, and rows.
use nesl_keys::keys::{Keys, KeysFault};
use std::alloc::Global;

/// Two users. Ann's key is 0123456789abcdef0123456789abcdef, and Bob's is fedcba9876543210fedcba9876543210. The digests
/// are those of `printf %s SALTKEY | sha256sum`.
pub const FILE: &str = "pazkindu keys 1
# Two users.

ann 00112233445566778899aabbccddeeff 1bfdb43545f0dcd7514ca7733399e3235fd99e99b50c08404b05f47d5600e983
bob ffeeddccbbaa99887766554433221100 1ffed0e3c9e4addd5864b86f173e3b4abef9749dfeb02a8f9c70e853bf6e8630
";

/// Reads the file of two users.
pub fn two_users(alloc: Global) -> Result<Keys, KeysFault> {
    Keys::read(alloc, FILE.as_bytes())
}
