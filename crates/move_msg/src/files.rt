//! Files of tables.

ghost use Rattle.std.specs.Prelude.{◌≡◌, ◌<◌, ℕ, length, slice_index};
ghost use Rattle.sha2.specs.Sha256.{sha256};

use arrayvec::ArrayString;
use sha2::{Digest, Sha256};

/// A file of a table: its name, as `KQvK.rtbw`, and its bytes.
#[derive(Debug, Drop)]
pub struct NamedFile {
    /// The name, without its folder.
    pub name: ArrayString<16>,
    /// All of its bytes.
    pub bytes: Vec<u8>,
}

/// The SHA-256 digest (FIPS 180-4) of a file's bytes.
pub fn file_digest(bytes: &[u8]) -> [u8; 32]
    ensures is { result ≡ sha256 bytes.now }
    ensures long { length result ≡ 32 }
    ensures each { (i : ℕ) → slice_index result i < 256 }
{
    Sha256::digest(bytes)
}
