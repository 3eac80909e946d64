//! Blocks, their lengths, and sparse entries.

ghost use Rattle.std.specs.Prelude.{◌≡◌, ◌≤◌, ◌<◌, ◌+◌, ◌++◌, ◌-◌, ◌*◌, ◌/◌, ◌^◌, ◌↔◌, length, map, IfOk, OnOk, IfSome, IfNone, IsTrue, replicate};
ghost use Rattle.std.specs.List.{All};
ghost use Rattle.pair_dict.specs.Symbols.{symbol_count};
ghost use Rattle.pair_dict.specs.Codes.{number_of};
ghost use Rattle.table_file.specs.Plan.{symbol_bytes, value_count, code_of, last_point, FitsBlock, AreGoodFigures, AreGoodCodes, AreGoodBlocks};
ghost use Rattle.table_file.specs.Inside.Writing.{AreCountsOf, sum_of, IsBlockReached, IsHeld};
ghost use Rattle.table_file.specs.PlannedFile.{padding_for, cut_lengths, spot_among, entry_bytes, entries_bytes, big_endian_bytes, block_bytes, blocks_bytes};

use super::codes::{Code, code_of};
use crate::plan::PairsPlan;
use std::alloc::{AllocError, Global};

/// How many values a padding entry stands for, and the most that a block can hold.
const MOST_VALUES: u64 = 65536;

/// Whether a block's symbols are known, below a count, and their codes fit a block of so many bytes.
fn fits_block(plan: &PairsPlan, count: u16, size: usize, block: &[u16]) -> bool
    requires figures { AreGoodFigures plan.now }
    requires count { count ≡ symbol_count (symbol_bytes plan.now) }
    requires codes { AreGoodCodes plan.now }
    requires size { size ≡ 2 ^ plan.now.block_exponent }
    ensures { IsTrue result ↔ FitsBlock plan.now block.now }
{
    let mut left = 8 * size;
    for symbol in block {
        if count <= *symbol {
            return false;
        }
        let length = code_of(plan, *symbol).length as usize;
        if left < length {
            return false;
        }
        left -= length;
    }
    true
}

/// Whether the symbols of all blocks are known, below a count, and their codes fit.
pub(super) fn fit_blocks(plan: &PairsPlan, count: u16) -> bool
    requires figures { AreGoodFigures plan.now }
    requires count { count ≡ symbol_count (symbol_bytes plan.now) }
    requires codes { AreGoodCodes plan.now }
    ensures { IsTrue result ↔ All (λ block. FitsBlock plan.now block.items) plan.now.blocks.items }
{
    let size = 1usize << plan.block_exponent;
    for block in &plan.blocks {
        if !fits_block(plan, count, size, block) {
            return false;
        }
    }
    true
}

/// How many values a block of known symbols stands for, if it has any and no more than 65536.
fn count_of(counts: &[u16], block: &[u16]) -> Option<u64>
    requires known { All (λ s. s < length counts.now) block.now }
    ensures found { IfSome result (λ n. (n ≡ sum_of counts.now block.now) × (1 ≤ n) × (n ≤ 65536)) }
    ensures none { IfNone result ((1 ≤ sum_of counts.now block.now) → sum_of counts.now block.now ≤ 65536 → ⊥) }
{
    let mut count: u64 = 0;
    for symbol in block {
        count += counts[*symbol as usize] as u64;
        if MOST_VALUES < count {
            return None;
        }
    }
    if count == 0 { None } else { Some(count) }
}

/// The lengths of all blocks, each one less than its values, the last block's cut at the size. There are none where a block
/// has no value or more than 65536, or begins at or past the size, or where the values don't reach it.
#[tactic(auto, unfolding(crate::specs::Plan::first_values))]
pub(super) fn lengths_of(
    alloc: Global,
    plan: &PairsPlan,
    counts: &[u16],
    size: u64,
) -> Result<Option<Vec<u16>>, AllocError>
    requires counts { AreCountsOf (symbol_bytes plan.now) counts.now }
    requires fit { All (λ block. FitsBlock plan.now block.items) plan.now.blocks.items }
    ensures found { IfOk result (λ o. IfSome o (λ v. v.items ≡ cut_lengths (map (λ block. value_count (symbol_bytes plan.now) block.items) plan.now.blocks.items) size)) }
    ensures good { IfOk result (λ o. IfSome o (λ _. AreGoodBlocks plan.now size)) }
    ensures bad { IfOk result (λ o. IfNone o (AreGoodBlocks plan.now size → ⊥)) }
{
    let mut lengths = Vec::new(alloc);
    let mut left = size;
    for block in &plan.blocks {
        let Some(count) = count_of(counts, block) else {
            return Ok(None);
        };
        if left == 0 {
            return Ok(None);
        }
        let held = count.min(left);
        lengths.push((held - 1) as u16)?;
        left -= held;
    }
    if 0 < left {
        return Ok(None);
    }
    Ok(Some(lengths))
}

/// The lengths of blocks with padding entries behind them.
pub(super) fn padded(lengths: Vec<u16>, padding: u8) -> Result<Vec<u16>, AllocError>
    ensures { IfOk result (λ v. v.items ≡ lengths.items ++ replicate padding 65535) }
{
    let mut lengths = lengths;
    for _ in 0..padding {
        lengths.push(65535)?;
    }
    Ok(lengths)
}

/// The index of the last sparse entry's value, where there is an entry for each span that is begun.
fn last_point(span: u64, size: u64) -> u64
    requires some { 1 ≤ span }
    requires few { span ≤ 2 ^ 31 }
    requires fits { size ≤ 2 ^ 32 }
    ensures { result ≡ last_point span size }
{
    (size.saturating_sub(1) / span)
        .saturating_mul(span)
        .saturating_add(span / 2)
}

/// How many padding entries there are: as few as put the last sparse entry's value before their end. There is none where
/// they are more than 255.
pub(super) fn padding_of(span: u64, size: u64) -> Option<u8>
    requires some { 1 ≤ span }
    requires few { span ≤ 2 ^ 31 }
    requires fits { size ≤ 2 ^ 32 }
    ensures found { IfSome result (λ n. n ≡ padding_for span size) }
    ensures good { IfSome result (λ _. last_point span size < size + 65536 * 255) }
    ensures bad { IfNone result (last_point span size < size + 65536 * 255 → ⊥) }
{
    let past = (last_point(span, size) + 1).saturating_sub(size);
    let padding = (past + (MOST_VALUES - 1)) / MOST_VALUES;
    if padding <= 255 {
        Some(padding as u8)
    } else {
        None
    }
}

/// A block, and how many values stand before it.
#[derive(Clone, Copy)]
struct Place {
    block: usize,
    before: u64,
}

/// The block that holds the value of an index, from a block at or before it on.
fn block_with(lengths: &[u16], from: Place, index: u64) -> Place
    requires reached { IsBlockReached lengths.now from.block from.before }
    requires before { from.before ≤ index }
    requires small { index < 2 ^ 63 }
    ensures reached { IsBlockReached lengths.now result.block result.before }
    ensures before { result.before ≤ index }
    ensures spot { spot_among lengths.now index ≡ (result.block, index - result.before) }
{
    let mut place = from;
    while place.block < lengths.len() {
        let size = lengths[place.block] as u64 + 1;
        if index < place.before + size {
            return place;
        }
        place = Place {
            block: place.block + 1,
            before: place.before + size,
        };
    }
    place
}

/// Appends a sparse entry: a block, and an offset in it.
fn push_entry(block: usize, offset: u64, entries: &mut Vec<u8>) -> Result<(), AllocError>
    ensures { OnOk result (entries.new.items ≡ entries.old.items ++ entry_bytes (block, offset)) }
{
    let block = block as u64;
    entries.extend_from_slice(&block.to_le_bytes()[..4])?;
    entries.extend_from_slice(&offset.to_le_bytes()[..2])
}

/// The bytes of so many sparse entries, each for the value in the middle of its span.
#[tactic(auto, unfolding(crate::specs::PlannedFile::entries_bytes))]
pub(super) fn entries_of(
    alloc: Global,
    lengths: &[u16],
    span: u64,
    points: u64,
) -> Result<Vec<u8>, AllocError>
    requires span { span ≤ 2 ^ 31 }
    requires points { points ≤ 2 ^ 31 }
    ensures { IfOk result (λ v. v.items ≡ entries_bytes lengths.now span points) }
{
    let mut entries = Vec::new(alloc);
    let mut place = Place {
        block: 0,
        before: 0,
    };
    for k in 0..points {
        let index = k * span + span / 2;
        place = block_with(lengths, place, index);
        push_entry(place.block, index - place.before, &mut entries)?;
    }
    Ok(entries)
}

/// The bits behind the last whole byte, fewer than eight: low bits of a number.
#[derive(Clone, Copy)]
struct Held {
    bits: u64,
    count: u32,
}

/// Appends the bits of a code behind those that are held, high bits first, and keeps what fills no byte.
fn put_code(code: Code, held: Held, bytes: &mut Vec<u8>) -> Result<Held, AllocError>
    requires held { IsHeld held }
    requires short { code.length ≤ 32 }
    requires bits { code.bits < 2 ^ code.length }
    ensures held { IfOk result IsHeld }
    ensures size { IfOk result (λ h. 8 * length bytes.new.items + h.count ≡ 8 * length bytes.old.items + held.count + code.length) }
    ensures number { IfOk result (λ h. number_of bytes.new.items * 2 ^ h.count + h.bits ≡ (number_of bytes.old.items * 2 ^ held.count + held.bits) * 2 ^ code.length + code.bits) }
{
    let mut count = held.count + code.length;
    let mut bits = (held.bits << code.length) + code.bits;
    while 8 <= count {
        count -= 8;
        bytes.push((bits >> count) as u8)?;
        bits %= 1 << count;
    }
    Ok(Held { bits, count })
}

/// Appends the bits that are held, and zeros up to a size.
fn close(held: Held, size: usize, bytes: &mut Vec<u8>) -> Result<(), AllocError>
    requires held { IsHeld held }
    requires fits { 8 * length bytes.old.items + held.count ≤ 8 * size }
    ensures size { OnOk result (length bytes.new.items ≡ size) }
    ensures number { OnOk result (number_of bytes.new.items ≡ (number_of bytes.old.items * 2 ^ held.count + held.bits) * 2 ^ (8 * size - (8 * length bytes.old.items + held.count))) }
{
    let zeros = Code {
        length: (8 - held.count) % 8,
        bits: 0,
    };
    put_code(zeros, held, bytes)?;
    while bytes.len() < size {
        bytes.push(0)?;
    }
    Ok(())
}

/// Bytes are those of their number.
fn are_of_their_number(bytes: &[u8])
    ensures { big_endian_bytes (length bytes.now) (number_of bytes.now) ≡ bytes.now }
{
    let _ = bytes.len();
}

/// The bytes of a block: the codes of its symbols one after the other, and zeros.
#[tactic(auto, unfolding(crate::specs::PlannedFile::block_bytes))]
fn block_bytes(
    alloc: Global,
    plan: &PairsPlan,
    size: usize,
    block: &[u16],
) -> Result<Vec<u8>, AllocError>
    requires figures { AreGoodFigures plan.now }
    requires codes { AreGoodCodes plan.now }
    requires fits { FitsBlock plan.now block.now }
    requires size { size ≡ 2 ^ plan.now.block_exponent }
    ensures { IfOk result (λ v. v.items ≡ block_bytes (code_of plan.now) size block.now) }
{
    let mut bytes = Vec::new(alloc);
    let mut held = Held { bits: 0, count: 0 };
    for symbol in block {
        held = put_code(code_of(plan, *symbol), held, &mut bytes)?;
    }
    close(held, size, &mut bytes)?;
    are_of_their_number(&bytes);
    Ok(bytes)
}

/// The bytes of all blocks of a plan, one block after the other.
#[tactic(auto, unfolding(crate::specs::PlannedFile::blocks_bytes))]
pub(super) fn blocks_bytes(alloc: Global, plan: &PairsPlan) -> Result<Vec<u8>, AllocError>
    requires figures { AreGoodFigures plan.now }
    requires codes { AreGoodCodes plan.now }
    requires fit { All (λ block. FitsBlock plan.now block.items) plan.now.blocks.items }
    ensures { IfOk result (λ v. v.items ≡ blocks_bytes plan.now) }
{
    let size = 1usize << plan.block_exponent;
    let mut bytes = Vec::new(alloc);
    for block in &plan.blocks {
        let of_block = block_bytes(alloc, plan, size, block)?;
        bytes.extend_from_slice(&of_block)?;
    }
    Ok(bytes)
}
