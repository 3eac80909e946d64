//! Hints where the search for a code begins, and the counts of symbols, a byte each.

ghost use Rattle.std.specs.Prelude.{◌≡◌, ℕ, ◌<◌, ◌≤◌, ◌++◌, length, slice_index, vec_len, IfOk, OnOk};
ghost use Rattle.pair_dict.specs.Inside.Hints.{EndsAtZero, AreHints, less_one};
ghost use Rattle.pair_dict.specs.Inside.Nodes.{counts_in};

use crate::codes::hint;
use std::alloc::{AllocError, Global};

/// How many hints there are: one for each number of six bits.
pub(crate) const HINTS: usize = 64;

/// The hints for these first numbers, with room for so many bytes more.
fn hints_of(alloc: Global, firsts: &[u64], more: usize) -> Result<Vec<u8>, AllocError>
    requires some { 1 ≤ length firsts.now }
    requires few { length firsts.now ≤ 32 }
    requires last { EndsAtZero firsts.now }
    requires room { more ≤ 4095 }
    ensures hints { IfOk result (λ bytes. AreHints firsts.now bytes.items) }
    ensures all { IfOk result (λ bytes. length bytes.items ≡ 64) }
{
    let mut bytes = Vec::with_capacity(alloc, HINTS + more)?;
    for prefix in 0..HINTS {
        bytes.push(hint(firsts, prefix as u64) as u8)?;
    }
    Ok(bytes)
}

/// Appends the counts less one.
fn add_counts(bytes: &mut Vec<u8>, counts: &[u16]) -> Result<(), AllocError>
    requires some { (s : ℕ) → s < length counts.now → 1 ≤ slice_index counts.now s }
    requires few { (s : ℕ) → s < length counts.now → slice_index counts.now s ≤ 256 }
    ensures { OnOk result (bytes.new.items ≡ bytes.old.items ++ less_one counts.now) }
{
    for i in 0..counts.len() {
        bytes.push((counts[i] - 1) as u8)?;
    }
    Ok(())
}

/// The hints for these first numbers, and after them the counts less one.
pub(crate) fn bytes_of(alloc: Global, firsts: &[u64], counts: &[u16]) -> Result<Vec<u8>, AllocError>
    requires some_firsts { 1 ≤ length firsts.now }
    requires few_firsts { length firsts.now ≤ 32 }
    requires last { EndsAtZero firsts.now }
    requires room { length counts.now ≤ 4095 }
    requires some { (s : ℕ) → s < length counts.now → 1 ≤ slice_index counts.now s }
    requires few { (s : ℕ) → s < length counts.now → slice_index counts.now s ≤ 256 }
    ensures hints { IfOk result (λ bytes. AreHints firsts.now bytes.items) }
    ensures counts { IfOk result (λ bytes. counts_in bytes.items ≡ counts.now) }
{
    let mut bytes = hints_of(alloc, firsts, counts.len())?;
    add_counts(&mut bytes, counts)?;
    Ok(bytes)
}
