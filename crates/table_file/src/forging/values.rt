//! The values that a plan lists.

ghost use Rattle.std.specs.Prelude.{ℕ, List, ◌≡◌, ◌++◌, ◌≤◌, ◌<◌, ◌*◌, length, true, false, IfOk, OnOk};
ghost use Rattle.std.specs.List.{flat_map, All};
ghost use Rattle.pair_dict.specs.Symbols.{symbol_count, values_of, left, right, HasSymbolValues, AllHaveValues};
ghost use Rattle.table_file.specs.Inside.Writing.{AreCountsOf};
ghost use Rattle.table_file.specs.Plan.{symbol_bytes, symbols_values, plan_values, map_bytes, IsGoodMap, FitsBlock};

use crate::plan::PairsPlan;
use pair_dict::values_are_computed;
use std::alloc::{AllocError, Global};

/// How many values a symbol has at most.
const MOST_VALUES: usize = 256;

/// The bytes of the symbols, three each.
pub(super) fn symbol_bytes(alloc: Global, symbols: &[[u8; 3]]) -> Result<Vec<u8>, AllocError>
    ensures is { IfOk result (λ v. v.items ≡ flat_map (λ s. s) symbols.now) }
    ensures long { IfOk result (λ v. length v.items ≡ 3 * length symbols.now) }
{
    let mut bytes = Vec::new(alloc);
    for symbol in symbols {
        bytes.extend_from_slice(symbol)?;
    }
    Ok(bytes)
}

/// The first symbol of a pair, or the value of a leaf.
fn left(symbols: &[u8], symbol: usize) -> u16
    requires { symbol < symbol_count symbols.now }
    ensures { result ≡ left symbols.now symbol }
{
    symbols[3 * symbol] as u16 + 256 * (symbols[3 * symbol + 1] as u16 % 16)
}

/// The second symbol of a pair, or 4095 for a leaf.
fn right(symbols: &[u8], symbol: usize) -> u16
    requires { symbol < symbol_count symbols.now }
    ensures { result ≡ right symbols.now symbol }
{
    symbols[3 * symbol + 1] as u16 / 16 + 16 * symbols[3 * symbol + 2] as u16
}

/// How many values a symbol has that has at most so many.
fn count_in(symbols: &[u8], most: usize, symbol: usize) -> u16
    requires few { most ≤ 256 }
    requires values { (vs : List ℕ) × HasSymbolValues symbols.now symbol vs × (length vs ≤ most) }
    ensures is { (vs : List ℕ) → HasSymbolValues symbols.now symbol vs → result ≡ length vs }
    ensures few { result ≤ most }
{
    let first = left(symbols, symbol);
    let second = right(symbols, symbol);
    if second == 4095 {
        return 1;
    }
    count_in(symbols, most - 1, first as usize) + count_in(symbols, most - 1, second as usize)
}

/// How many values a symbol of a dictionary has, 1 to 256.
fn count_of(symbols: &[u8], symbol: usize) -> u16
    requires values { AllHaveValues symbols.now }
    requires known { symbol < symbol_count symbols.now }
    ensures is { result ≡ length (values_of symbols.now symbol) }
    ensures some { 1 ≤ result }
    ensures few { result ≤ 256 }
{
    values_are_computed();
    count_in(symbols, MOST_VALUES, symbol)
}

/// How many values each symbol of a dictionary has, 1 to 256.
pub(super) fn counts_of(alloc: Global, symbols: &[u8]) -> Result<Vec<u16>, AllocError>
    requires values { AllHaveValues symbols.now }
    ensures { IfOk result (λ counts. AreCountsOf symbols.now counts.items) }
{
    let mut counts = Vec::new(alloc);
    for symbol in 0..symbols.len() / 3 {
        counts.push(count_of(symbols, symbol))?;
    }
    Ok(counts)
}

/// Appends the values of a symbol that has at most so many.
fn push_symbol(
    symbols: &[u8],
    most: usize,
    symbol: usize,
    values: &mut Vec<u16>,
) -> Result<(), AllocError>
    requires few { most ≤ 256 }
    requires values { (vs : List ℕ) × HasSymbolValues symbols.now symbol vs × (length vs ≤ most) }
    ensures { OnOk result ((vs : List ℕ) → HasSymbolValues symbols.now symbol vs → values.new.items ≡ values.old.items ++ vs) }
{
    let first = left(symbols, symbol);
    let second = right(symbols, symbol);
    if second == 4095 {
        values.push(first)?;
        return Ok(());
    }
    push_symbol(symbols, most - 1, first as usize, values)?;
    push_symbol(symbols, most - 1, second as usize, values)
}

/// Appends the values of a symbol of a dictionary.
fn push_values(symbols: &[u8], symbol: usize, values: &mut Vec<u16>) -> Result<(), AllocError>
    requires values { AllHaveValues symbols.now }
    requires known { symbol < symbol_count symbols.now }
    ensures { OnOk result (values.new.items ≡ values.old.items ++ values_of symbols.now symbol) }
{
    values_are_computed();
    push_symbol(symbols, MOST_VALUES, symbol, values)
}

/// Appends the values of a block's symbols.
#[tactic(auto, unfolding(crate::specs::Plan::symbols_values))]
fn push_block(symbols: &[u8], block: &[u16], values: &mut Vec<u16>) -> Result<(), AllocError>
    requires values { AllHaveValues symbols.now }
    requires known { All (λ s. s < symbol_count symbols.now) block.now }
    ensures { OnOk result (values.new.items ≡ values.old.items ++ symbols_values symbols.now block.now) }
{
    for symbol in block {
        push_values(symbols, *symbol as usize, values)?;
    }
    Ok(())
}

/// The values of so many indices that a good plan lists: those of its blocks, one after the other, the last ones cut.
#[tactic(auto, unfolding(crate::specs::Plan::plan_values))]
pub(super) fn plan_values(
    alloc: Global,
    plan: &PairsPlan,
    size: usize,
) -> Result<Vec<u16>, AllocError>
    requires values { AllHaveValues (symbol_bytes plan.now) }
    requires known { All (λ block. FitsBlock plan.now block.items) plan.now.blocks.items }
    ensures is { IfOk result (λ v. v.items ≡ plan_values plan.now size) }
{
    let symbols = symbol_bytes(alloc, &plan.symbols)?;
    let mut values = Vec::new(alloc);
    for block in &plan.blocks {
        push_block(&symbols, block, &mut values)?;
    }
    values.truncate(size);
    Ok(values)
}

/// Appends the bytes of a value map's entries.
pub(super) fn put_map_bytes(
    wide: bool,
    entries: &[u16],
    bytes: &mut Vec<u8>,
) -> Result<(), AllocError>
    requires { IsGoodMap wide entries.now }
    ensures { OnOk result (bytes.new.items ≡ bytes.old.items ++ map_bytes wide entries.now) }
{
    if wide {
        put_wide(entries, bytes)
    } else {
        put_narrow(entries, bytes)
    }
}

/// Appends two bytes for each entry, the low one first.
fn put_wide(entries: &[u16], bytes: &mut Vec<u8>) -> Result<(), AllocError>
    ensures { OnOk result (bytes.new.items ≡ bytes.old.items ++ map_bytes true entries.now) }
{
    for entry in entries {
        bytes.push((*entry % 256) as u8)?;
        bytes.push((*entry / 256) as u8)?;
    }
    Ok(())
}

/// Appends a byte for each entry.
fn put_narrow(entries: &[u16], bytes: &mut Vec<u8>) -> Result<(), AllocError>
    requires { All (λ e. e < 256) entries.now }
    ensures { OnOk result (bytes.new.items ≡ bytes.old.items ++ map_bytes false entries.now) }
{
    for entry in entries {
        bytes.push(*entry as u8)?;
    }
    Ok(())
}

/// The bytes of a value map's entries.
pub(super) fn map_bytes(alloc: Global, wide: bool, entries: &[u16]) -> Result<Vec<u8>, AllocError>
    requires { IsGoodMap wide entries.now }
    ensures is { IfOk result (λ v. v.items ≡ map_bytes wide entries.now) }
{
    let mut bytes = Vec::new(alloc);
    put_map_bytes(wide, entries, &mut bytes)?;
    Ok(bytes)
}
