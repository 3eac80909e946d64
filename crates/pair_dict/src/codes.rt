//! Codes of symbols.

ghost use Rattle.std.specs.Prelude.{◌≡◌, ◌+◌, ◌*◌, ◌/◌, ◌%◌, ◌^◌, ◌<◌, ◌≤◌, List, ℕ, length, slice_index, true, nat_lt, IfOk, IfSome, if◌then◌else◌};
ghost use Rattle.pair_dict.specs.Codes.{below};
ghost use Rattle.pair_dict.specs.Reading.{falls, words};
ghost use Rattle.pair_dict.specs.Inside.Windows.{AreFirsts, IsLeastWithPrefix, IsSoundCode, IsKnownCode, IsFront, Shows, firsts_in, lowest_in};
ghost use Rattle.pair_dict.specs.Inside.Words.{AreCodes, codes_in, code_kept};
ghost use Rattle.pair_dict.specs.Inside.Hints.{EndsAtZero, IsHint, IsFirstReached};

use crate::two_bytes::word_of;
use crate::window::{BitBuffer, room_at, window};
use std::alloc::{AllocError, Global};

/// The base of a length at the top of 32 bits, or 2^32 where no code has that length.
#[inline]
fn first_of(length: u32, base: u64) -> u64
    requires { length ≤ 32 }
    ensures { IsLeastWithPrefix length base result }
{
    if base < 1 << length {
        base << (32 - length)
    } else {
        1 << 32
    }
}

/// The base of each length at the top of 32 bits, found from the greatest length down (Syzygy table format, the codes of
/// a size record).
pub(crate) fn firsts_of(alloc: Global, least: u32, lowest: &[u8]) -> Result<Vec<u64>, AllocError>
    requires least { 1 ≤ least }
    requires greatest { least + length (words lowest.now) ≤ 33 }
    requires falling { falls (words lowest.now) ≡ true }
    ensures { IfOk result (λ firsts. AreFirsts least (words lowest.now) firsts.items) }
{
    let mut firsts = vec![in alloc; 0u64; lowest.len() / 2]?;
    let mut base: u64 = 0;
    let mut i = firsts.len();
    'down: while i > 1 {
        i -= 1;
        let rise = word_of(lowest, i - 1) - word_of(lowest, i);
        base = (base + rise as u64) / 2;
        firsts[i - 1] = first_of(least + i as u32 - 1, base);
    }
    Ok(firsts)
}

/// A length of codes: its base at the top of 32 bits, or 2^32 where no code has that length, and its lowest symbol.
#[derive(Clone, Copy)]
pub(crate) struct CodeLength {
    // The first number times 65536 plus the lowest symbol, so that one read gives both.
    pub(crate) packed: u64,
}

impl CodeLength {
    /// The codes from this first number and this lowest symbol on.
    fn of(first: u64, lowest: u16) -> CodeLength
        requires { first ≤ 2 ^ 32 }
        ensures first { result.packed / 65536 ≡ first }
        ensures lowest { result.packed % 65536 ≡ lowest }
    {
        CodeLength {
            packed: first * 65536 + lowest as u64,
        }
    }

    /// The first number.
    #[inline]
    fn first(self) -> u64
        ensures { result ≡ self.packed / 65536 }
    {
        self.packed / 65536
    }

    /// The lowest symbol.
    #[inline]
    fn lowest(self) -> u16
        ensures { result ≡ self.packed % 65536 }
    {
        (self.packed % 65536) as u16
    }
}

/// Each first number with the lowest symbol of its length.
pub(crate) fn code_lengths(
    alloc: Global,
    firsts: &[u64],
    lowest: &[u8],
) -> Result<Vec<CodeLength>, AllocError>
    requires lengths { length firsts.now ≡ length (words lowest.now) }
    requires few { (i : ℕ) → i < length firsts.now → slice_index firsts.now i ≤ 2 ^ 32 }
    ensures firsts { IfOk result (λ codes. firsts_in codes.items ≡ firsts.now) }
    ensures lowest { IfOk result (λ codes. lowest_in codes.items ≡ words lowest.now) }
{
    let mut codes = Vec::with_capacity(alloc, firsts.len())?;
    for i in 0..firsts.len() {
        codes.push(CodeLength::of(firsts[i], word_of(lowest, i)))?;
    }
    Ok(codes)
}

/// How the codes of a dictionary are looked up.
#[derive(Clone, Copy)]
pub(crate) struct CodeSearch {
    /// How many symbols there are.
    pub(crate) symbols: u16,
    /// How many lengths of codes there are.
    pub(crate) lengths: u8,
    /// The least length of a code.
    pub(crate) least: u8,
    /// By how many bits runs are looked up; they hold no longer code.
    pub(crate) run_width: u8,
}

/// The place of the least code length that bits with these first six may have.
pub(crate) fn hint(firsts: &[u64], prefix: u64) -> usize
    requires some { 1 ≤ length firsts.now }
    requires last { EndsAtZero firsts.now }
    requires prefix { prefix < 64 }
    ensures { IsHint firsts.now prefix result }
{
    let end = (prefix + 1) * 67108864;
    let mut i: usize = 0;
    'up: while firsts[i] >= end {
        i += 1;
    }
    i
}

/// The code length of that place. The search serves the clauses alone.
#[inline]
fn code_length(words: &[u32], search: CodeSearch, i: usize) -> CodeLength
    requires all { 2 * search.lengths ≤ length words.now }
    requires known { i < search.lengths }
    ensures first { result.packed / 65536 ≡ slice_index (firsts_in (codes_in search.lengths words.now)) i }
    ensures lowest { result.packed % 65536 ≡ slice_index (lowest_in (codes_in search.lengths words.now)) i }
{
    let _ = search;
    CodeLength {
        packed: words[2 * i] as u64 + 4294967296 * words[2 * i + 1] as u64,
    }
}

/// The place of the code length that bits have, and that code length. The bits stand at the top of 32 bits.
#[inline]
fn length_of(words: &[u32], hints: &[u8], search: CodeSearch, front: u64) -> (usize, CodeLength)
    requires codes { AreCodes search words.now hints.now }
    requires front { front < 2 ^ 32 }
    ensures place { IsFirstReached (firsts_in (codes_in search.lengths words.now)) front result.0 }
    ensures few { result.0 < search.lengths }
    ensures first { result.1.packed / 65536 ≡ slice_index (firsts_in (codes_in search.lengths words.now)) result.0 }
    ensures lowest { result.1.packed % 65536 ≡ slice_index (lowest_in (codes_in search.lengths words.now)) result.0 }
{
    let mut i = hints[(front / 67108864) as usize] as usize;
    let mut code = code_length(words, search, i);
    'up: while code.first() > front {
        i += 1;
        code = code_length(words, search, i);
    }
    (i, code)
}

/// The number of the symbol whose code these bits begin with, if there is that symbol, and the length of the code. The bits
/// stand at the top of 32 bits.
#[inline]
fn code_of(words: &[u32], hints: &[u8], search: CodeSearch, front: u64) -> (usize, u32)
    requires codes { AreCodes search words.now hints.now }
    requires front { front < 2 ^ 32 }
    ensures is { (block : List ℕ) (p : ℕ) → IsFront block p front → p + result.1 ≤ 8 * length block
        → code_kept search words.now block p ≡ below search.symbols result.0 result.1 }
    ensures past { (block : List ℕ) (p : ℕ) → IsFront block p front → 8 * length block < p + result.1
        → code_kept search words.now block p ≡ None }
    ensures some { 1 ≤ result.1 }
    ensures short { result.1 ≤ 32 }
{
    let (i, code) = length_of(words, hints, search, front);
    let length = search.least as u32 + i as u32;
    let above = ((front - code.first()) >> (32 - length)) as usize;
    (code.lowest() as usize + above, length)
}

/// The symbol and the length of the code at a bit of a block, by the first number of each length.
pub(crate) fn code_in(
    block: &[u8],
    at: usize,
    words: &[u32],
    hints: &[u8],
    search: CodeSearch,
) -> Option<(usize, u32)>
    requires at { at ≤ 8 * length block.now }
    requires codes { AreCodes search words.now hints.now }
    ensures is { result ≡ code_kept search words.now block.now at }
    ensures sound { IfSome result (λ code. IsSoundCode search.symbols block.now at code) }
{
    let (symbol, length) = code_of(words, hints, search, window(block, at) >> 32);
    if length as usize > room_at(block, at) {
        return None;
    }
    if symbol < search.symbols as usize {
        Some((symbol, length))
    } else {
        None
    }
}

/// The symbol and the length of the code at the front of 32 bits or more.
#[inline]
pub(crate) fn code_held(
    buffer: BitBuffer,
    words: &[u32],
    hints: &[u8],
    search: CodeSearch,
) -> Option<(usize, u32)>
    requires held { 32 ≤ buffer.held }
    requires codes { AreCodes search words.now hints.now }
    ensures is { (block : List ℕ) (p : ℕ) → Shows block p buffer → result ≡ code_kept search words.now block p }
    ensures sound { IfSome result (λ code. IsKnownCode search.symbols code) }
{
    let (symbol, length) = code_of(words, hints, search, buffer.front_32());
    if symbol < search.symbols as usize {
        Some((symbol, length))
    } else {
        None
    }
}
