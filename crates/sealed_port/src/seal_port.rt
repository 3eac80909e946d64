//! Keys, and the tags that datagrams carry by them.

ghost use Rattle.std.specs.Prelude.{◌≡◌, ◌≤◌, ◌↔◌, length, take, IsTrue};
ghost use Rattle.sealed_port.specs.Sealing.{is_sealed, is_sealed_by, opened, sealed, tag_of};

use crate::mac::MacKey;
use arrayvec::ArrayVec;
use std::marker::Model;
use system_io::NO_TAG;

/// The most bytes of a datagram before its tag.
pub const MOST_BYTES: usize = 48;

/// The keys of a port: it seals by the first, and opens by either. Where there is one key, both are that key.
#[derive(Clone, Copy)]
pub struct Keys {
    /// The key by which datagrams are sealed.
    pub first: [u8; 32],
    /// The other key by which they are opened.
    pub second: [u8; 32],
}

/// Keys of which each is ready to make tags. Contracts see `Keys`.
#[derive(Drop)]
pub(crate) struct MacKeys {
    first: MacKey,
    second: MacKey,
}

impl Model for MacKeys {
    ghost use Rattle.sealed_port.specs.declared.seal_port.Keys.{Keys};

    ghost Value = { Keys };

    ghost view = { λ k. record { first = k.first; second = k.second } };
}

/// The tag of bytes under a key.
fn tag_of(key: &MacKey, bytes: &[u8]) -> [u8; 16]
    ensures { result ≡ tag_of key.now bytes.now }
{
    let mut tag = [0u8; 16];
    tag.copy_from_slice(&key.hmac(bytes)[..16]);
    tag
}

/// Whether two tags are one. All bytes are looked at, whichever differ.
fn is_same(a: &[u8; 16], b: &[u8]) -> bool
    requires { length b.now ≡ 16 }
    ensures { IsTrue result ↔ (a.now ≡ b.now) }
{
    let mut other = 0u8;
    for i in 0..16 {
        other |= a[i] ^ b[i];
    }
    other == 0
}

/// Whether a datagram ends with the tag of what stands before it.
fn is_sealed(key: &MacKey, datagram: &[u8]) -> bool
    ensures is { result ≡ is_sealed key.now datagram.now }
    ensures long { IsTrue result → 16 ≤ length datagram.now }
{
    if datagram.len() < 16 {
        return false;
    }
    let (bytes, tag) = datagram.split_at(datagram.len() - 16);
    is_same(&tag_of(key, bytes), tag)
}

/// Bytes with their tag behind them.
fn with_tag(key: &MacKey, bytes: &[u8]) -> ArrayVec<u8, 64>
    requires { length bytes.now ≤ 48 }
    ensures { result.items ≡ sealed key.now bytes.now }
{
    let mut datagram = ArrayVec::new();
    let _fits = datagram.try_extend_from_slice(bytes);
    let _tag_fits = datagram.try_extend_from_slice(&tag_of(key, bytes));
    datagram
}

impl MacKeys {
    /// These keys.
    pub(crate) fn of(keys: &Keys) -> MacKeys
        ensures { result ≡ keys.now }
    {
        MacKeys {
            first: MacKey::of(&keys.first),
            second: MacKey::of(&keys.second),
        }
    }

    /// Bytes with their tag under the first key behind them.
    pub(crate) fn seal(&self, bytes: &[u8]) -> ArrayVec<u8, 64>
        requires { length bytes.now ≤ 48 }
        ensures { result.items ≡ sealed self.now.first bytes.now }
    {
        with_tag(&self.first, bytes)
    }

    /// Whether a datagram ends with a right tag, under one of the keys.
    fn is_right(&self, datagram: &[u8]) -> bool
        ensures is { result ≡ is_sealed_by self.now datagram.now }
        ensures long { IsTrue result → 16 ≤ length datagram.now }
    {
        is_sealed(&self.first, datagram) || is_sealed(&self.second, datagram)
    }

    /// Opens the datagram that has the first so many bytes of a buffer: what is passed on stands at its front then. Returns how
    /// many bytes that are.
    pub(crate) fn open(&self, buffer: &mut [u8; 64], length: usize) -> usize
        requires { length ≤ 64 }
        ensures fits { result ≤ 64 }
        ensures is { take result buffer.new ≡ opened (is_sealed_by self.now (take length buffer.old)) (take length buffer.old) }
    {
        if self.is_right(&buffer[..length]) {
            length - 16
        } else {
            *buffer = NO_TAG;
            buffer.len()
        }
    }
}
