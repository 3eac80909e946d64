//! Symbols of three bytes.

ghost use Rattle.std.specs.Prelude.{◌<◌};
ghost use Rattle.pair_dict.specs.Symbols.{symbol_count};
ghost use Rattle.pair_dict.specs.Inside.Counts.{IsSymbol, IsShortSymbol};

use crate::two_bytes::word_at;

/// The most values that a symbol may stand for (Syzygy table format, the symbols of a size record).
pub(crate) const MOST_VALUES: usize = 256;

/// The high twelve bits of a leaf.
const LEAF: u16 = 4095;

/// What a symbol stands for: one value, or the values of two symbols, one after the other.
#[derive(Clone, Copy)]
pub(crate) enum Symbol {
    Leaf(u16),
    Pair(u16, u16),
}

/// The symbol of that number: its low twelve bits are the left part, its high twelve the right one.
#[inline]
pub(crate) fn symbol_at(symbols: &[u8], symbol: usize) -> Symbol
    requires { symbol < symbol_count symbols.now }
    ensures is { IsSymbol symbols.now symbol result }
    ensures few { IsShortSymbol result }
{
    let left = word_at(symbols, 3 * symbol) % 4096;
    let right = word_at(symbols, 3 * symbol + 1) / 16;
    if right == LEAF {
        Symbol::Leaf(left)
    } else {
        Symbol::Pair(left, right)
    }
}
