//! The digest by which passwords are kept.

ghost use Rattle.std.specs.Prelude.{◌≡◌};
ghost use Rattle.sha2.specs.Sha256.{sha256};

use sha2::{Digest, Sha256};

/// The SHA-256 digest of the bytes (FIPS 180-4), by which a password is kept.
pub fn digest(bytes: &[u8]) -> [u8; 32]
    ensures { result ≡ sha256 bytes.now }
{
    Sha256::digest(bytes)
}
