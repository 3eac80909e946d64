//! The check of the sparse entries.

ghost use Rattle.std.specs.Prelude.{◌≡◌, ◌≤◌, ◌<◌, ◌+◌, ◌*◌, ◌/◌, ◌^◌, ℕ, length, slice_index, IfOk};
ghost use Rattle.place_index.specs.Shape.{greatest_size};
ghost use Rattle.table_file.specs.Files.{section_size};
ghost use Rattle.table_file.specs.declared.parts.Section.TheVariants.{Entries, Lengths};
ghost use Rattle.table_file.specs.Sparse.{sizes_of, values_before, entry_block, entry_offset, is_entry, are_entries, fits_in};

use crate::reading::{number_at, word_at};
use crate::size_record::Coding;
use std::alloc::{AllocError, Global};

/// How many values stand before each block, the one past the last included.
#[inline(never)]
fn sums_of(alloc: Global, lengths: &[u8]) -> Result<Vec<u64>, AllocError>
    requires { length lengths.now ≤ 2 ^ 35 }
    ensures length { IfOk result (λ v. length v.items ≡ length lengths.now / 2 + 1) }
    ensures each { IfOk result (λ v. (b : ℕ) → b ≤ length lengths.now / 2 → (slice_index v.items b ≡ values_before (sizes_of lengths.now) b) × (slice_index v.items b ≤ 2 ^ 51)) }
{
    let blocks = lengths.len() / 2;
    let mut sums = Vec::with_capacity(alloc, blocks + 1)?;
    let mut sum: u64 = 0;
    sums.push_reserved(0);
    for i in 0..blocks {
        sum += word_at(lengths, 2 * i) as u64 + 1;
        sums.push_reserved(sum);
    }
    Ok(sums)
}

/// The block and the offset of a sparse entry: four bytes, and two.
pub(crate) fn entry(entries: &[u8], k: usize) -> (usize, usize)
    requires { k < length entries.now / 6 }
    ensures block { result.0 ≡ entry_block entries.now k }
    ensures offset { result.1 ≡ entry_offset entries.now k }
    ensures short { result.1 < 65536 }
{
    let block = number_at(entries, 6 * k) as usize;
    (block, word_at(entries, 6 * k + 4) as usize)
}

/// Whether an entry names the value in the middle of its span.
fn is_entry(entries: &[u8], sums: &[u64], span: u64, k: usize, lengths: &[u8]) -> bool
    requires entry { k < length entries.now / 6 }
    requires few { k < 2 ^ 32 }
    requires span { span ≤ 2 ^ 31 }
    requires length { length sums.now ≡ length lengths.now / 2 + 1 }
    requires each { (b : ℕ) → b ≤ length lengths.now / 2 → (slice_index sums.now b ≡ values_before (sizes_of lengths.now) b) × (slice_index sums.now b ≤ 2 ^ 51) }
    ensures { result ≡ is_entry (sizes_of lengths.now) span entries.now k }
{
    let (block, offset) = entry(entries, k);
    if sums.len() <= block {
        return false;
    }
    let before = sums[block];
    before + offset as u64 == k as u64 * span + span / 2
}

/// Whether each of the first n entries names the value in the middle of its span. The time is linear in the number of
/// entries and of lengths, whatever blocks the entries name.
#[inline(never)]
fn are_entries(
    alloc: Global,
    span: u64,
    n: usize,
    entries: &[u8],
    lengths: &[u8],
) -> Result<bool, AllocError>
    requires entries { n ≤ length entries.now / 6 }
    requires few { n ≤ 2 ^ 32 }
    requires span { span ≤ 2 ^ 31 }
    requires small { length lengths.now ≤ 2 ^ 35 }
    ensures { IfOk result (λ b. b ≡ are_entries (sizes_of lengths.now) span entries.now n) }
{
    let sums = sums_of(alloc, lengths)?;
    for k in 0..n {
        if !is_entry(entries, &sums, span, k, lengths) {
            return Ok(false);
        }
    }
    Ok(true)
}

/// Whether all entries of a part name the values in the middle of their spans.
pub(crate) fn fits_in(
    alloc: Global,
    size: u64,
    coding: &Coding<'_>,
    entries: &[u8],
    lengths: &[u8],
) -> Result<bool, AllocError>
    requires size { size ≤ greatest_size }
    requires entries { length entries.now ≡ section_size Entries size coding.now }
    requires lengths { length lengths.now ≡ section_size Lengths size coding.now }
    ensures { IfOk result (λ b. b ≡ fits_in size coding.now entries.now lengths.now) }
{
    match coding {
        Coding::Single(_) => Ok(true),
        Coding::Pairs(codes) => {
            let n = codes.points(size);
            let _ = codes.lengths();
            are_entries(alloc, codes.span(), n, entries, lengths)
        }
    }
}
