//! Dictionaries.

ghost use Rattle.std.specs.Prelude.{◌≡◌, ℕ, List, ◌+◌, ◌*◌, ◌<◌, ◌≤◌, ◌++◌, ◌-◌, ◌/◌, ◌^◌, length, slice_index, slice_get, take, vec_len, vec_capacity, Some, IsOk, IfOk, IfErr, OnErr, IfSome};
ghost use Rattle.pair_dict.specs.Symbols.{symbol_count, values_of, AllHaveValues};
ghost use Rattle.pair_dict.specs.Codes.{code_at};
ghost use Rattle.pair_dict.specs.Inside.Counts.{AreCounts};
ghost use Rattle.pair_dict.specs.Inside.Layouts.{pairing_in, IsDictLayout};
ghost use Rattle.pair_dict.specs.Inside.Nodes.{AreNodes};
ghost use Rattle.pair_dict.specs.Inside.Tables.{AreCodeTables};
ghost use Rattle.pair_dict.specs.Inside.Windows.{IsSoundCode, IsKnownCode, Shows};
ghost use Rattle.pair_dict.specs.Inside.Runs.{run_values, run_bits, sum_values, sum_bits, IsLeft, IsRunAt, IsFurther, IsBefore};
ghost use Rattle.pair_dict.specs.Marks.{AreMarks};
ghost use Rattle.pair_dict.specs.Reading.{GivesFromDict, layout_at, dictionary_at};
ghost use Rattle.pair_dict.specs.declared.fault.DictFault.TheVariants.{OutOfMemory};
ghost use Rattle.pair_dict.specs.Blocks.{block_values, BlockIsComputed, BlockBeginsWithValues};

use crate::bookmarks::{Bookmarks, MOST_MARKS};
use crate::codes::{CodeSearch, code_held, code_in, firsts_of};
use crate::counts::{Settled, settle_all};
use crate::fault::{Damaged, DictFault};
use crate::hints::{HINTS, bytes_of};
use crate::layout::Layout;
use crate::nodes::{Node, Parts};
use crate::places::Place;
use crate::runs::{CodeRun, RunSum, run_width, runs_of};
use crate::symbols::{MOST_VALUES, Symbol, symbol_at};
use crate::window::{BitBuffer, has_word, window, words_end};
use crate::words::{node_at, words_of};
use std::alloc::{AllocError, Global};
use std::marker::Model;

/// How many runs are taken from a word: it holds all of their bits, at most 13 for each.
const RUNS_IN_WORD: u32 = 4;

/// The symbols of a table and their codes.
///
/// It borrows the bytes that it was read from. Beside them it keeps two numbers for each code length, hints where the search
/// for a code begins, the runs of short codes by their first bits, and of each symbol how many values it has and what they are.
#[derive(Drop)]
pub struct Dictionary<'a> {
    search: CodeSearch,
    runs: Vec<CodeRun>,
    // Two words a code length, and then one a node.
    words: Vec<u32>,
    // The hints, and then how many values each symbol has, less one.
    bytes: Vec<u8>,
    // Last, since a single value needs none of them.
    symbols: &'a [u8],
}

impl<'a> Model for Dictionary<'a> {
    ghost use Rattle.pair_dict.specs.Codes.{Pairing};

    ghost Value = { Pairing };

    ghost use Rattle.pair_dict.specs.Inside.Kept.{kept_pairing, IsSoundDictionary};

    ghost view = { kept_pairing };

    ghost invariant = { IsSoundDictionary };
}

/// What values are found by.
#[derive(Drop)]
struct CodeTables {
    search: CodeSearch,
    runs: Vec<CodeRun>,
    words: Vec<u32>,
    bytes: Vec<u8>,
}

/// What the values of a layout are found by, whose symbols have these counts and nodes.
fn code_tables(
    alloc: Global,
    layout: &Layout<'_>,
    counts: &[u16],
    nodes: &[Node],
    most_bits: u32,
) -> Result<CodeTables, AllocError>
    requires layout { IsDictLayout layout.now }
    requires counts { AreCounts layout.now.symbols.now counts.now }
    requires nodes { AreNodes layout.now.symbols.now nodes.now }
    requires some { 1 ≤ most_bits }
    requires few { most_bits ≤ 13 }
    ensures { IfOk result (λ t. AreCodeTables layout.now t) }
{
    let firsts = firsts_of(alloc, layout.least, layout.lowest)?;
    let run_width = run_width(counts.len(), layout.least, most_bits);
    let runs = runs_of(alloc, layout, &firsts, counts, run_width)?;
    let words = words_of(alloc, &firsts, layout.lowest, nodes)?;
    let bytes = bytes_of(alloc, &firsts, counts)?;
    let search = CodeSearch {
        symbols: counts.len() as u16,
        lengths: firsts.len() as u8,
        least: layout.least as u8,
        run_width: run_width as u8,
    };
    Ok(CodeTables {
        search,
        runs,
        words,
        bytes,
    })
}

impl<'a> Dictionary<'a> {
    /// The dictionary at the front of the bytes, and how many bytes it takes (Syzygy table format, a size record from
    /// its greatest code length on). The fill byte after an odd number of symbols counts.
    ///
    /// Each part is checked once it is complete, in the order of the bytes, and the first fault is reported:
    /// `Truncated`, `BadCode` or `BadSymbol`. `OutOfMemory`, where memory is refused, comes only after all symbols are
    /// present. The time is linear in the number of symbols, whatever their order.
    ///
    /// Values are found by a table of at most 2^`most_bits` entries of two bytes, `most_bits` from 1 to 13. A larger table
    /// makes fewer steps and misses the cache more often. Up to 11 bits, where codes are long, values are found code by code.
    pub fn read(
        alloc: Global,
        bytes: &'a [u8],
        most_bits: u32,
    ) -> Result<(Dictionary<'a>, usize), DictFault>
        requires some { 1 ≤ most_bits }
        requires few { most_bits ≤ 13 }
        ensures is { GivesFromDict (λ x. (x.0, x.1)) result (dictionary_at bytes.now) }
        ensures values { IfOk result (λ x. AllHaveValues x.0.symbols) }
        ensures fits { IfOk result (λ x. x.1 ≤ length bytes.now) }
        ensures memory { IfErr result (λ e. e ≡ OutOfMemory → IsOk (layout_at bytes.now)) }
    {
        let layout = Layout::read(bytes)?;
        let settled = settle_all(alloc, layout.symbols)?;
        let dictionary = Dictionary::of(alloc, &layout, settled, most_bits)?;
        Ok((dictionary, layout.taken))
    }

    /// The dictionary of a layout whose symbols are settled. The only error is that memory is refused.
    fn of(
        alloc: Global,
        layout: &Layout<'a>,
        settled: Settled,
        most_bits: u32,
    ) -> Result<Dictionary<'a>, AllocError>
        requires layout { IsDictLayout layout.now }
        requires counts { AreCounts layout.now.symbols.now settled.counts.items }
        requires nodes { AreNodes layout.now.symbols.now settled.nodes.items }
        requires some { 1 ≤ most_bits }
        requires few { most_bits ≤ 13 }
        ensures { IfOk result (λ d. d ≡ (pairing_in layout.now).0) }
    {
        let tables = code_tables(alloc, layout, &settled.counts, &settled.nodes, most_bits)?;
        Ok(Dictionary {
            search: tables.search,
            runs: tables.runs,
            words: tables.words,
            bytes: tables.bytes,
            symbols: layout.symbols,
        })
    }

    /// The run of codes at the front of a buffer's bits.
    #[inline]
    fn run(&self, buffer: BitBuffer) -> CodeRun
        ensures is { (block : List ℕ) (p : ℕ) → Shows block p buffer → run_bits result ≤ buffer.held
            → IsRunAt self.now block p (run_values result) (run_bits result) }
        ensures few { run_bits result ≤ 13 }
    {
        self.runs[buffer.front(self.search.run_width as u32)]
    }

    /// The symbol and the length of the code at a bit of a block.
    #[inline]
    fn code_at(&self, block: &[u8], at: usize) -> Option<(usize, u32)>
        requires at { at ≤ 8 * length block.now }
        ensures is { result ≡ code_at self.now block.now at }
        ensures sound { IfSome result (λ code. IsSoundCode (symbol_count self.now.symbols) block.now at code) }
    {
        code_in(block, at, &self.words, &self.bytes, self.search)
    }

    /// The symbol and the length of the code at the front of 32 bits or more.
    #[inline]
    fn code_held(&self, buffer: BitBuffer) -> Option<(usize, u32)>
        requires { 32 ≤ buffer.held }
        ensures is { (block : List ℕ) (p : ℕ) → Shows block p buffer → result ≡ code_at self.now block p }
        ensures sound { IfSome result (λ code. IsKnownCode (symbol_count self.now.symbols) code) }
    {
        code_held(buffer, &self.words, &self.bytes, self.search)
    }

    /// How many values a symbol has.
    #[inline]
    fn values(&self, symbol: usize) -> usize
        requires { symbol < symbol_count self.now.symbols }
        ensures is { result ≡ length (values_of self.now.symbols symbol) }
        ensures some { 1 ≤ result }
    {
        self.bytes[HINTS + symbol] as usize + 1
    }

    /// One value of a symbol.
    fn value_in(&self, symbol: usize, offset: usize) -> u16
        requires known { symbol < symbol_count self.now.symbols }
        requires within { offset < length (values_of self.now.symbols symbol) }
        ensures { result ≡ slice_index (values_of self.now.symbols symbol) offset }
    {
        let mut symbol = symbol;
        let mut left = offset;
        'down: loop {
            match node_at(&self.words, self.search.lengths, symbol).parts() {
                Parts::Equal(value) => return value,
                Parts::Pair(first, second, skipped) => {
                    if left < skipped as usize {
                        symbol = first as usize;
                    } else {
                        left -= skipped as usize;
                        symbol = second as usize;
                    }
                }
            }
        }
    }

    /// Four runs taken from a word one after the other, added up, and the last of them; and as many of the first ones, added
    /// up, as have at most so many values.
    #[inline]
    fn four_runs(&self, buffer: BitBuffer, most: usize) -> (RunSum, CodeRun, RunSum)
        requires { 52 ≤ buffer.held }
        ensures are { (block : List ℕ) (p : ℕ) → Shows block p buffer
            → IsRunAt self.now block p (sum_values result.0) (sum_bits result.0) }
        ensures few { sum_bits result.0 ≤ 52 }
        ensures last { run_bits result.1 ≤ sum_bits result.0 }
        ensures first { (block : List ℕ) (p : ℕ) → Shows block p buffer
            → IsRunAt self.now block p (sum_values result.2) (sum_bits result.2) }
        ensures first_few { sum_bits result.2 ≤ 52 }
        ensures first_fit { sum_values result.2 ≤ most }
    {
        let mut rest = buffer;
        let mut sum = RunSum::none();
        let mut first = RunSum::none();
        let mut run = CodeRun::none();
        for taken in 0..RUNS_IN_WORD {
            run = self.run(rest);
            sum = sum.with(run);
            rest = rest.without(run.bits());
            first = first.or_more(sum, most);
        }
        (sum, run, first)
    }

    /// Skips runs from a place on, one by one from a single word. It stops at bits that begin with no run, at a run
    /// that the word doesn't hold whole, and at one that passes the value sought.
    #[inline]
    fn skip_runs(&self, block: &[u8], from: Place) -> Place
        requires at { from.at ≤ 8 * length block.now }
        requires near { from.at + 32 * from.left < 2 ^ 40 }
        ensures { IsFurther self.now block.now from result }
    {
        let mut place = from;
        let mut buffer = BitBuffer::at(block, place.at);
        'runs: loop {
            let run = self.run(buffer);
            let (values, bits) = (run.values(), run.bits());
            if bits == 0 || bits > buffer.held() || values > place.left {
                return place;
            }
            place = place.after(values, bits);
            buffer = buffer.without(bits);
        }
    }

    /// The place after the code at a place; none where there is no code, or the value sought is one of its own.
    #[inline]
    fn skip_code(&self, block: &[u8], from: Place) -> Option<Place>
        requires at { from.at ≤ 8 * length block.now }
        requires near { from.at + 32 * from.left < 2 ^ 40 }
        ensures further { IfSome result (λ place. IsFurther self.now block.now from place) }
        ensures more { IfSome result (λ place. from.at < place.at) }
    {
        let (symbol, length) = self.code_at(block, from.at)?;
        let skipped = self.values(symbol);
        if from.left < skipped {
            return None;
        }
        Some(from.after(skipped, length))
    }

    /// Skips runs from a place on, four from each word, and codes that no run holds, as long as eight bytes are left.
    /// It stops at a word or a code that passes the value sought, where there is no code, and at or behind a bit.
    #[inline(always)]
    fn skip_words(&self, block: &[u8], from: Place, until: usize) -> Place
        requires at { from.at ≤ 8 * length block.now }
        requires near { from.at + 32 * from.left < 2 ^ 40 }
        ensures { IsFurther self.now block.now from result }
    {
        let end = words_end(block, until);
        let mut place = from;
        'words: while place.at < end {
            let (sum, last, first) = self.four_runs(BitBuffer::whole(block, place.at), place.left);
            if sum.values() > place.left {
                return place.after(first.values(), first.bits());
            }
            place = place.after(sum.values(), sum.bits());
            if last.bits() == 0 && has_word(block, place.at) {
                let Some(next) = self.skip_code(block, place) else {
                    return place;
                };
                place = next;
            }
        }
        place
    }

    /// The value sought from a place on, run by run and code by code.
    #[inline(never)]
    fn value_from(&self, block: &[u8], from: Place) -> Result<u16, Damaged>
        requires at { from.at ≤ 8 * length block.now }
        requires near { from.at + 32 * from.left < 2 ^ 40 }
        ensures found { (offset : ℕ) → IsLeft self.now block.now from.at from.left offset
            → IfOk result (λ v. slice_get (block_values self.now block.now) offset ≡ Some v) }
        ensures damaged { (offset : ℕ) → IsLeft self.now block.now from.at from.left offset
            → OnErr result (length (block_values self.now block.now) ≤ offset) }
    {
        let mut place = from;
        'codes: loop {
            let next = self.skip_runs(block, place);
            let Some((symbol, length)) = self.code_at(block, next.at) else {
                return Err(Damaged);
            };
            let skipped = self.values(symbol);
            if next.left < skipped {
                return Ok(self.value_in(symbol, next.left));
            }
            place = next.after(skipped, length);
        }
    }

    /// The value sought from a place on, code by code.
    #[inline(never)]
    fn value_by_codes(&self, block: &[u8], from: Place) -> Result<u16, Damaged>
        requires at { from.at ≤ 8 * length block.now }
        requires near { from.at + 32 * from.left < 2 ^ 40 }
        ensures found { (offset : ℕ) → IsLeft self.now block.now from.at from.left offset
            → IfOk result (λ v. slice_get (block_values self.now block.now) offset ≡ Some v) }
        ensures damaged { (offset : ℕ) → IsLeft self.now block.now from.at from.left offset
            → OnErr result (length (block_values self.now block.now) ≤ offset) }
    {
        let mut place = from;
        let mut buffer = BitBuffer::at(block, from.at);
        'codes: loop {
            let bits = buffer.filled(block, place.at);
            if bits.held() < 32 {
                return self.value_from(block, place);
            }
            let Some((symbol, length)) = self.code_held(bits) else {
                return Err(Damaged);
            };
            let skipped = self.values(symbol);
            if place.left < skipped {
                return Ok(self.value_in(symbol, place.left));
            }
            place = place.after(skipped, length);
            buffer = bits.without(length);
        }
    }

    /// Whether a run may hold a code.
    #[inline]
    fn has_runs(&self) -> bool {
        self.search.least <= self.search.run_width
    }

    /// The bits of the run at the front of a block, 0 to 13; where no run holds a code, the hint for the block's first bits, up to
    /// 13. To read it is to bring the block's front and that run or hint from memory.
    pub fn first_run_bits(&self, block: &[u8]) -> u32
        ensures { result ≤ 13 }
    {
        if self.has_runs() {
            return self.run(BitBuffer::at(block, 0)).bits();
        }
        (self.bytes[(window(block, 0) >> 58) as usize] as u32).min(13)
    }

    /// The value of a block at an offset from its first value, 0 to 4095. It takes no memory. It skips the symbols
    /// before the value by their counts, several codes at a time where codes are short, and descends into one symbol.
    ///
    /// `Damaged` where the block's whole codes give no value at that offset (Syzygy table format, the values of a block).
    pub fn value(&self, block: &[u8], offset: u32) -> Result<u16, Damaged>
        ensures found { IfOk result (λ v. slice_get (block_values self.now block.now) offset ≡ Some v) }
        ensures damaged { OnErr result (length (block_values self.now block.now) ≤ offset) }
    {
        let first = Place {
            at: 0,
            left: offset as usize,
        };
        if self.has_runs() {
            return self.value_from(block, self.skip_words(block, first, usize::MAX));
        }
        self.value_by_codes(block, first)
    }

    /// Skips words from a place on, and adds bookmarks on the way, one for each sixteenth of the block.
    fn skip_marked(&self, block: &[u8], from: Place, offset: u32, marks: &mut Bookmarks) -> Place
        requires short { length block.now ≤ 2 ^ 24 }
        requires near { from.at + 32 * from.left < 2 ^ 40 }
        requires before { IsBefore self.now block.now offset from }
        requires marks { AreMarks self.now block.now marks.old }
        ensures further { IsFurther self.now block.now from result }
        ensures marks { AreMarks self.now block.now marks.new }
    {
        let step = block.len() / 2;
        let mut place = from;
        for number in marks.filled() + 1..MOST_MARKS + 1 {
            let until = number * step;
            place = self.skip_words(block, place, until);
            if place.at < until {
                return place;
            }
            marks.add(place.at as u32, offset - place.left as u32);
        }
        self.skip_words(block, place, usize::MAX)
    }

    /// The value of a block of at most 2^24 bytes at an offset, as `value` gives it, from the last bookmark before it on. It adds
    /// bookmarks on the way, so that later values of the block are found from there.
    ///
    /// `Damaged` where the block's whole codes give no value at that offset.
    pub fn value_marked(
        &self,
        block: &[u8],
        offset: u32,
        marks: &mut Bookmarks,
    ) -> Result<u16, Damaged>
        requires short { length block.now ≤ 2 ^ 24 }
        requires marks { AreMarks self.now block.now marks.old }
        ensures found { IfOk result (λ v. slice_get (block_values self.now block.now) offset ≡ Some v) }
        ensures damaged { OnErr result (length (block_values self.now block.now) ≤ offset) }
        ensures marks { AreMarks self.now block.now marks.new }
    {
        let from = marks.before(offset);
        if self.has_runs() {
            let place = self.skip_marked(block, from, offset, marks);
            return self.value_from(block, place);
        }
        self.value_by_codes(block, from)
    }

    /// Appends the values of a symbol, as long as there are fewer than `limit`. Right halves wait on a stack while left
    /// ones are expanded.
    fn push_values(
        &self,
        symbol: usize,
        limit: usize,
        waiting: &mut [u16; MOST_VALUES],
        values: &mut Vec<u16>,
    )
        requires known { symbol < symbol_count self.now.symbols }
        requires within { vec_len values.old ≤ limit }
        requires room { limit ≤ vec_capacity values.old }
        ensures is { values.new.items ≡ take limit (values.old.items ++ values_of self.now.symbols symbol) }
        ensures more { vec_len values.old < limit → vec_len values.old < vec_len values.new }
        ensures room { vec_capacity values.new ≡ vec_capacity values.old }
    {
        let mut symbol = symbol;
        let mut top: usize = 0;
        'values: while values.len() < limit {
            match symbol_at(self.symbols, symbol) {
                Symbol::Leaf(value) => {
                    values.push_reserved(value);
                    if top == 0 {
                        return;
                    }
                    top -= 1;
                    symbol = waiting[top] as usize;
                }
                Symbol::Pair(left, right) => {
                    waiting[top] = right;
                    top += 1;
                    symbol = left as usize;
                }
            }
        }
    }

    /// The number of values requested, but no more than the block's codes could give.
    fn limit_of(&self, block: &[u8], count: u32) -> usize
        ensures same { take result (block_values self.now block.now) ≡ take count (block_values self.now block.now) }
        ensures few { result ≤ count }
        ensures small { result ≤ 2048 * length block.now }
    {
        // Each code has `least` bits or more, and each symbol 256 values or fewer.
        let most = block.len().saturating_mul(8 * MOST_VALUES) / self.search.least as usize;
        most.min(count as usize)
    }

    /// The first values of a block, at most `count`, and fewer where the block's whole codes give fewer (Syzygy table
    /// format, the values of a block). To cut them by the block's length, pass that as `count`. Values are 0 to
    /// 4095. Room for them is allocated once, for at most `count` values and at most 2048 for each byte of the block.
    ///       The only error is that it is refused. A `count` of 0 takes none.
    pub fn decode(&self, alloc: Global, block: &[u8], count: u32) -> Result<Vec<u16>, AllocError>
        ensures values { IfOk result (λ values. values.items ≡ take count (block_values self.now block.now)) }
        ensures room { IfOk result (λ values. vec_capacity values ≤ 2048 * length block.now) }
        ensures asked { IfOk result (λ values. vec_capacity values ≤ count) }
        ensures none { count ≡ 0 → IsOk result }
    {
        let limit = self.limit_of(block, count);
        let mut values = Vec::with_capacity(alloc, limit)?;
        let mut waiting = [0u16; MOST_VALUES];
        let mut at: usize = 0;
        'codes: while values.len() < limit {
            let Some((symbol, length)) = self.code_at(block, at) else {
                break;
            };
            self.push_values(symbol, limit, &mut waiting, &mut values);
            at += length as usize;
        }
        Ok(values)
    }

    /// The values of a block are those of the longest list of symbols whose codes begin it, and no others. Any list of
    /// symbols whose codes begin it gives its first values.
    pub fn block_is_computed(&self, block: &[u8])
        ensures computed { BlockIsComputed self.now block.now }
        ensures front { BlockBeginsWithValues self.now block.now }
    {
        let _ = &self.search;
    }
}
