//! How many values each symbol stands for.

ghost use Rattle.std.specs.Prelude.{◌≡◌, ◌≢◌, ◌<◌, ◌≤◌, ◌⊎◌, List, ℕ, length, slice_index, true, false, IfOk, IfErr, OnOk, OnErr};
ghost use Rattle.pair_dict.specs.Symbols.{symbol_count, HasSymbolValues, have_values};
ghost use Rattle.pair_dict.specs.Inside.Counts.{AreCounts, AreSettled, KeepsKnown};
ghost use Rattle.pair_dict.specs.Inside.Nodes.{AreNodes, AreKnownNodes, Joins};
ghost use Rattle.pair_dict.specs.declared.fault.DictFault.TheVariants.{BadSymbol, OutOfMemory};

use crate::fault::DictFault;
use crate::nodes::Node;
use crate::symbols::{MOST_VALUES, Symbol, symbol_at};
use std::alloc::Global;

/// The node of the pair of two symbols whose nodes are known, the left one with so many values.
#[inline(always)]
fn joined(nodes: &[Node], left: u16, right: u16, skipped: u16) -> Node
    requires left { left < length nodes.now }
    requires right { right < length nodes.now }
    requires few { length nodes.now ≤ 4095 }
    requires skipped { skipped < 256 }
    ensures { Joins nodes.now left right skipped result }
{
    let first = nodes[left as usize];
    if first.is_equal_to(nodes[right as usize]) {
        return first;
    }
    Node::pair(left, right, skipped)
}

/// Counts the values of a symbol, if it isn't counted yet, and of those below it.
#[cycle(settle)]
#[inline(always)]
fn settle(
    symbols: &[u8],
    counts: &mut [u16],
    nodes: &mut [Node],
    symbol: usize,
    most: usize,
) -> Result<(), DictFault>
    requires known { symbol < symbol_count symbols.now }
    requires short { symbol_count symbols.now ≤ 4095 }
    requires settled { AreSettled symbols.now counts.old }
    requires nodes { AreKnownNodes symbols.now counts.old nodes.old }
    requires few { most ≤ 256 }
    ensures settled { OnOk result (AreSettled symbols.now counts.new) }
    ensures nodes { OnOk result (AreKnownNodes symbols.now counts.new nodes.new) }
    ensures kept { OnOk result (KeepsKnown counts.old counts.new) }
    ensures counted { OnOk result (slice_index counts.new symbol ≢ 0) }
    ensures fault { IfErr result (λ e. e ≡ BadSymbol) }
    ensures none { OnErr result ((vs : List ℕ) → HasSymbolValues symbols.now symbol vs → most < length vs) }
{
    if counts[symbol] != 0 {
        return Ok(());
    }
    count(symbols, counts, nodes, symbol, most)
}

/// Counts the values of a symbol, and of each one below it that isn't counted yet, and sets their nodes.
///
/// It goes down at most `most` levels: a symbol that is deeper has more values than that, or leads back to itself and has
/// none. So each symbol is settled once, in whatever order they stand.
#[cycle(settle)]
#[inline(never)]
fn count(
    symbols: &[u8],
    counts: &mut [u16],
    nodes: &mut [Node],
    symbol: usize,
    most: usize,
) -> Result<(), DictFault>
    requires known { symbol < symbol_count symbols.now }
    requires short { symbol_count symbols.now ≤ 4095 }
    requires settled { AreSettled symbols.now counts.old }
    requires nodes { AreKnownNodes symbols.now counts.old nodes.old }
    requires few { most ≤ 256 }
    ensures settled { OnOk result (AreSettled symbols.now counts.new) }
    ensures nodes { OnOk result (AreKnownNodes symbols.now counts.new nodes.new) }
    ensures kept { OnOk result (KeepsKnown counts.old counts.new) }
    ensures counted { OnOk result (slice_index counts.new symbol ≢ 0) }
    ensures fault { IfErr result (λ e. e ≡ BadSymbol) }
    ensures none { OnErr result ((vs : List ℕ) → HasSymbolValues symbols.now symbol vs → most < length vs) }
{
    if most == 0 {
        return Err(DictFault::BadSymbol);
    }
    match symbol_at(symbols, symbol) {
        Symbol::Leaf(value) => {
            counts[symbol] = 1;
            nodes[symbol] = Node::equal(value);
        }
        Symbol::Pair(left, right) => {
            if left as usize >= counts.len() || right as usize >= counts.len() {
                return Err(DictFault::BadSymbol);
            }
            settle(symbols, counts, nodes, left as usize, most - 1)?;
            settle(symbols, counts, nodes, right as usize, most - 1)?;
            let skipped = counts[left as usize];
            let count = skipped + counts[right as usize];
            if count as usize > MOST_VALUES {
                return Err(DictFault::BadSymbol);
            }
            counts[symbol] = count;
            nodes[symbol] = joined(nodes, left, right, skipped);
        }
    }
    Ok(())
}

/// The number of values of each symbol, and its node.
#[derive(Drop)]
pub(crate) struct Settled {
    pub(crate) counts: Vec<u16>,
    pub(crate) nodes: Vec<Node>,
}

/// Counts the values of all symbols, and makes their nodes.
pub(crate) fn settle_all(alloc: Global, symbols: &[u8]) -> Result<Settled, DictFault>
    requires { symbol_count symbols.now ≤ 4095 }
    ensures found { IfOk result (λ s. AreCounts symbols.now s.counts.items) }
    ensures nodes { IfOk result (λ s. AreNodes symbols.now s.nodes.items) }
    ensures good { OnOk result (have_values symbols.now ≡ true) }
    ensures bad { IfErr result (λ e. (e ≡ OutOfMemory) ⊎ ((e ≡ BadSymbol) × (have_values symbols.now ≡ false))) }
{
    let mut counts = vec![in alloc; 0u16; symbols.len() / 3]?;
    let mut nodes = vec![in alloc; Node::none(); symbols.len() / 3]?;
    for symbol in 0..symbols.len() / 3 {
        settle(symbols, &mut counts, &mut nodes, symbol, MOST_VALUES)?;
    }
    Ok(Settled { counts, nodes })
}
