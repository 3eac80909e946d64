//! How the blocks of a file and a side are coded.

ghost use Rattle.std.specs.Prelude.{◌≡◌, ◌≤◌, ◌<◌, ◌+◌, ◌*◌, ◌/◌, ◌^◌};
ghost use Rattle.table_file.specs.Figures.{block_size, span, sparse_entry_count};

use pair_dict::Dictionary;
use std::marker::Model;

/// The figures of a size record (Syzygy table format, size record).
#[derive(Drop)]
pub(crate) struct Codes<'a> {
    block_exponent: u8,
    span_exponent: u8,
    padding: u8,
    blocks: u32,
    dictionary: Dictionary<'a>,
}

impl<'a> Model for Codes<'a> {
    ghost use Rattle.table_file.specs.Figures.{Figures};

    ghost Value = { Figures };

    ghost use Rattle.table_file.specs.Inside.Kept.{figures_of, AreKept};

    ghost view = { figures_of };

    ghost invariant = { AreKept };
}

impl<'a> Codes<'a> {
    pub(crate) fn new(
        block_exponent: u8,
        span_exponent: u8,
        padding: u8,
        blocks: u32,
        dictionary: Dictionary<'a>,
    ) -> Codes<'a>
        requires block { block_exponent ≤ 24 }
        requires some { 1 ≤ span_exponent }
        requires wide { span_exponent ≤ 31 }
        ensures { result ≡ record { block_exponent = block_exponent; span_exponent = span_exponent; padding = padding; blocks = blocks; dictionary = dictionary.entry } }
    {
        Codes {
            block_exponent,
            span_exponent,
            padding,
            blocks,
            dictionary,
        }
    }

    /// How many values lie between two sparse entries.
    pub(crate) fn span(&self) -> u64
        ensures is { result ≡ span self.now }
        ensures some { 2 ≤ result }
        ensures wide { result ≤ 2 ^ 31 }
        ensures even { 2 * (result / 2) ≡ result }
    {
        1u64 << self.span_exponent
    }

    /// How many whole spans so many indices have.
    pub(crate) fn spans_in(&self, indices: u64) -> usize
        ensures is { result ≡ indices / span self.now }
        ensures few { result ≤ indices }
    {
        (indices >> self.span_exponent) as usize
    }

    /// How many sparse entries there are for so many indices.
    pub(crate) fn points(&self, size: u64) -> usize
        requires { size ≤ 2 ^ 32 }
        ensures is { result ≡ sparse_entry_count size self.now }
        ensures few { result ≤ size }
    {
        let span = self.span();
        self.spans_in(size + (span - 1))
    }

    /// How many block lengths there are, those of padding entries included.
    pub(crate) fn lengths(&self) -> usize
        ensures is { result ≡ self.now.blocks + self.now.padding }
        ensures few { result ≤ 2 ^ 33 }
    {
        self.blocks as usize + self.padding as usize
    }

    /// How many bytes a block has.
    pub(crate) fn block_size(&self) -> usize
        ensures is { result ≡ block_size self.now }
        ensures some { 1 ≤ result }
        ensures wide { result ≤ 2 ^ 24 }
    {
        1usize << self.block_exponent
    }

    /// How many blocks hold values.
    pub(crate) fn blocks(&self) -> usize
        ensures is { result ≡ self.now.blocks }
        ensures few { result < 2 ^ 32 }
    {
        self.blocks as usize
    }

    pub(crate) fn dictionary(&self) -> &Dictionary<'a>
        ensures { result.now ≡ self.now.dictionary }
    {
        &self.dictionary
    }
}
