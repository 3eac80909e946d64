//! HMAC over SHA-256 (RFC 2104).

ghost use Rattle.std.specs.Prelude.{◌≡◌, ◌++◌, map, bit_xor};
ghost use Rattle.sha2.specs.Hashers.{Holds256};
ghost use Rattle.sealed_port.specs.Hmac.{hmac, key_block, masked};

use sha2::{Digest, Sha256};
use std::marker::Model;

/// A key in a block of the digest, with zeros behind it.
fn key_block(key: &[u8; 32]) -> [u8; 64]
    ensures { result ≡ key_block key.now }
{
    let mut block = [0u8; 64];
    block[..32].copy_from_slice(key);
    block
}

/// A block, of each of whose bytes the bits of this one are turned.
fn masked(byte: u8, block: &[u8; 64]) -> [u8; 64]
    ensures { result ≡ map (bit_xor byte) block.now }
{
    let mut out = [0u8; 64];
    'bytes: for i in 0..64 {
        out[i] = byte ^ block[i];
    }
    out
}

/// A digest that begins with the key, of each of whose bytes the bits of this one are turned.
fn begun(byte: u8, key: &[u8; 32]) -> Sha256
    ensures { Holds256 result (masked byte key.now) }
{
    let mut hasher = Sha256::new();
    hasher.update(masked(byte, &key_block(key)).as_slice());
    hasher
}

/// A key of 32 bytes for HMAC over SHA-256 (RFC 2104). Contracts see its bytes.
///
/// The inner and the outer digest are kept as they stand behind the key's block, so that a text costs no block of the key.
#[derive(Drop)]
pub struct MacKey {
    key: [u8; 32],
    inner: Sha256,
    outer: Sha256,
}

impl Model for MacKey {
    ghost use Rattle.std.specs.Prelude.{ℕ, List};
    ghost use Rattle.sha2.specs.Hashers.{Holds256};
    ghost use Rattle.sealed_port.specs.Hmac.{masked};

    ghost Value = { List ℕ };

    ghost view = { λ k. k.key };

    ghost invariant = { λ k. Holds256 k.inner (masked 0x36 k.key) × Holds256 k.outer (masked 0x5c k.key) };
}

impl MacKey {
    /// The key with these bytes.
    pub fn of(key: &[u8; 32]) -> MacKey
        ensures { result ≡ key.now }
    {
        MacKey {
            key: *key,
            inner: begun(0x36, key),
            outer: begun(0x5c, key),
        }
    }

    /// The HMAC of a text under this key.
    pub fn hmac(&self, text: &[u8]) -> [u8; 32]
        ensures { result ≡ hmac self.now text.now }
    {
        let mut inner = self.inner.clone().unwrap();
        inner.update(text);
        let digest = inner.finalize();
        let mut outer = self.outer.clone().unwrap();
        outer.update(digest.as_slice());
        outer.finalize()
    }
}
