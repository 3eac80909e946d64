//! Bits of a block.

ghost use Rattle.std.specs.Prelude.{◌≡◌, ◌+◌, ◌-◌, ◌*◌, ◌/◌, ◌%◌, ◌^◌, ◌<◌, ◌≤◌, ◌↔◌, ℕ, IsTrue, length, drop};
ghost use Rattle.pair_dict.specs.Codes.{bits, number_of};
ghost use Rattle.pair_dict.specs.Inside.Windows.{IsWord, IsWindow, Shows};

use byteorder::{BigEndian, ByteOrder};

/// The bytes as a word, its highest byte first, with zeros after them.
fn short_word(bytes: &[u8]) -> u64
    requires { length bytes.now < 8 }
    ensures { result ≡ number_of bytes.now * 2 ^ (64 - 8 * length bytes.now) }
{
    let mut word: u64 = 0;
    for byte in bytes {
        word = word * 256 + *byte as u64;
    }
    if bytes.is_empty() {
        return 0;
    }
    word << (64 - 8 * bytes.len() as u32)
}

/// The eight bytes from a place on.
#[inline]
fn word_at(block: &[u8], place: usize) -> u64
    requires { place + 8 ≤ length block.now }
    ensures { IsWord (drop place block.now) result }
{
    BigEndian::read_u64(&block[place..])
}

/// The bytes from a place on, fewer than eight, with zeros after the end.
#[inline(never)]
fn last_word_at(block: &[u8], place: usize) -> u64
    requires place { place ≤ length block.now }
    requires few { length block.now < place + 8 }
    ensures { IsWord (drop place block.now) result }
{
    short_word(&block[place..])
}

/// Whether eight bytes of the block are left from a bit on.
#[inline]
pub(crate) fn has_word(block: &[u8], at: usize) -> bool
    ensures { IsTrue result ↔ (at / 8 + 8 ≤ length block.now) }
{
    at / 8 < block.len().saturating_sub(7)
}

/// The bits before this one are before `until`, and eight bytes of the block are left from each of them on.
#[inline]
pub(crate) fn words_end(block: &[u8], until: usize) -> usize
    ensures { (at : ℕ) → at < result → at / 8 + 8 ≤ length block.now }
{
    block.len().saturating_sub(7).saturating_mul(8).min(until)
}

/// The bits from a bit on at the top of a word, where eight bytes are left from there.
#[inline]
fn whole_window(block: &[u8], at: usize) -> u64
    requires { at / 8 + 8 ≤ length block.now }
    ensures { IsWindow block.now at result }
{
    word_at(block, at / 8) << (at % 8) as u32
}

/// The bits from a bit on at the top of a word, at least 57 of them, with zeros after the end.
#[inline]
pub(crate) fn window(block: &[u8], at: usize) -> u64
    requires { at ≤ 8 * length block.now }
    ensures { IsWindow block.now at result }
{
    if has_word(block, at) {
        return whole_window(block, at);
    }
    last_word_at(block, at / 8) << (at % 8) as u32
}

/// How many bits the block has from a bit on, up to 57.
#[inline]
pub(crate) fn room_at(block: &[u8], at: usize) -> usize
    requires { at ≤ 8 * length block.now }
    ensures fits { (n : ℕ) → n ≤ result → at + n ≤ 8 * length block.now }
    ensures past { (n : ℕ) → n ≤ 57 → result < n → 8 * length block.now < at + n }
{
    if has_word(block, at) {
        return 57;
    }
    8 * (block.len() - at / 8) - at % 8
}

/// The bits of a block from some bit on, at the top of a word, and how many of them it holds, up to 64.
#[derive(Clone, Copy)]
pub(crate) struct BitBuffer {
    bits: u64,
    held: u32,
}

impl BitBuffer {
    /// The bits from a bit on: 57, where eight bytes are left from there.
    #[inline]
    pub(crate) fn at(block: &[u8], at: usize) -> BitBuffer
        requires at { at ≤ 8 * length block.now }
        requires fits { at < 2 ^ 60 }
        ensures shows { Shows block.now at result }
        ensures held { at / 8 + 8 ≤ length block.now → result.held ≡ 57 }
    {
        if !has_word(block, at) {
            return BitBuffer::last(block, at);
        }
        BitBuffer::whole(block, at)
    }

    /// The 57 bits from a bit on, where eight bytes are left from there.
    #[inline]
    pub(crate) fn whole(block: &[u8], at: usize) -> BitBuffer
        requires { at / 8 + 8 ≤ length block.now }
        ensures shows { Shows block.now at result }
        ensures held { result.held ≡ 57 }
    {
        BitBuffer {
            bits: whole_window(block, at),
            held: 57,
        }
    }

    /// The bits from a bit on to the end of the block, where fewer than eight bytes are left from there; none in a block of
    /// fewer than eight bytes.
    #[inline(never)]
    fn last(block: &[u8], at: usize) -> BitBuffer
        requires at { at ≤ 8 * length block.now }
        requires few { length block.now < at / 8 + 8 }
        requires fits { at < 2 ^ 60 }
        ensures { Shows block.now at result }
    {
        let none = BitBuffer { bits: 0, held: 0 };
        if block.len() < 8 {
            return none;
        }
        let start = block.len() - 8;
        let before = at - 8 * start;
        if before >= 64 {
            return none;
        }
        let word = BitBuffer {
            bits: word_at(block, start),
            held: 64,
        };
        word.without(before as u32)
    }

    /// The bits after the first so many.
    #[inline]
    pub(crate) fn without(self, taken: u32) -> BitBuffer
        requires some { taken ≤ self.held }
        requires few { taken < 64 }
        ensures bits { result.bits ≡ self.bits * 2 ^ taken % 2 ^ 64 }
        ensures held { result.held ≡ self.held - taken }
    {
        BitBuffer {
            bits: self.bits << taken,
            held: self.held - taken,
        }
    }

    /// The first so many bits, as a number.
    #[inline]
    pub(crate) fn front(self, width: u32) -> usize
        requires some { 1 ≤ width }
        requires few { width ≤ 13 }
        ensures is { result ≡ self.bits / 2 ^ (64 - width) }
        ensures below { result < 2 ^ width }
    {
        (self.bits >> (64 - width)) as usize
    }

    /// The first 32 bits, as a number.
    #[inline]
    pub(crate) fn front_32(self) -> u64
        ensures is { result ≡ self.bits / 2 ^ 32 }
        ensures below { result < 2 ^ 32 }
    {
        self.bits >> 32
    }

    /// These bits, which stand at a bit of a block, or more from there on where fewer than 32 are held.
    #[inline]
    pub(crate) fn filled(self, block: &[u8], at: usize) -> BitBuffer
        requires at { at ≤ 8 * length block.now }
        requires fits { at < 2 ^ 60 }
        requires shows { Shows block.now at self }
        ensures { Shows block.now at result }
    {
        if self.held < 32 {
            return BitBuffer::at(block, at);
        }
        self
    }

    /// How many bits are held, up to 64.
    #[inline]
    pub(crate) fn held(self) -> u32
        ensures { result ≡ self.held }
    {
        self.held
    }
}
