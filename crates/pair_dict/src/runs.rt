//! Codes that stand one after the other in a few bits.

ghost use Rattle.std.specs.Prelude.{◌≡◌, ◌+◌, ◌*◌, ◌^◌, ◌<◌, ◌≤◌, ◌↔◌, ◌⊎◌, ℕ, length, IsTrue, IfOk};
ghost use Rattle.pair_dict.specs.Symbols.{symbol_count};
ghost use Rattle.pair_dict.specs.Inside.Counts.{AreCounts};
ghost use Rattle.pair_dict.specs.Reading.{words};
ghost use Rattle.pair_dict.specs.Inside.Layouts.{pairing_in};
ghost use Rattle.pair_dict.specs.Inside.Windows.{AreFirsts};
ghost use Rattle.pair_dict.specs.Inside.Runs.{run_values, run_bits, sum_values, sum_bits, IsCodeRun, IsRunOf, IsTop, AreJoined, AreRuns, IsRunWithin, AreRunsWithin};

use crate::layout::Layout;
use crate::two_bytes::word_of;
use std::alloc::{AllocError, Global};

/// Runs are looked up by this many more bits than the symbols' numbers have. More bits make fewer steps, but a larger
/// table that misses the cache more often.
const MORE_BITS: u32 = 3;

/// The most bits by which a small table is looked up.
const SMALL_TABLE: u32 = 11;

/// Where the least code has this many bits or more, a look-up in a small table gives one code or none.
const LONG_CODE: u32 = 3;

/// By how many bits runs are looked up for this number of symbols and this least length of a code: `MORE_BITS` more than the
/// symbols' numbers have, up to `most`. One bit, which holds no code, where a small table of long codes gains nothing.
pub(crate) fn run_width(symbols: usize, least: u32, most: u32) -> u32
    requires some { 1 ≤ most }
    requires few { most ≤ 13 }
    ensures some { 1 ≤ result }
    ensures few { result ≤ 13 }
{
    if most <= SMALL_TABLE && least >= LONG_CODE {
        return 1;
    }
    for bits in 0..most.saturating_sub(MORE_BITS) {
        if symbols < 1 << bits {
            return bits + MORE_BITS;
        }
    }
    most
}

/// The most values that a run stands for.
const MOST_RUN_VALUES: usize = 1023;

/// Whole codes one after the other: how many values they stand for, 0 to 1023, and how many bits they take, 0 to 63. A run
/// of no bits holds no code.
#[derive(Clone, Copy)]
pub(crate) struct CodeRun {
    // 64 times the values plus the bits. The low six bits are a shift count as they stand, and one addition joins two
    // runs.
    packed: u16,
}

impl CodeRun {
    /// A run that holds no code.
    pub(crate) fn none() -> CodeRun
        ensures values { run_values result ≡ 0 }
        ensures bits { run_bits result ≡ 0 }
    {
        CodeRun { packed: 0 }
    }

    /// A run of this many values in this many bits.
    fn of(values: u16, bits: u32) -> CodeRun
        requires values { values < 1024 }
        requires bits { bits < 64 }
        ensures values { run_values result ≡ values }
        ensures bits { run_bits result ≡ bits }
    {
        CodeRun {
            packed: values * 64 + bits as u16,
        }
    }

    /// This run and then another.
    #[inline]
    fn then(self, other: CodeRun) -> CodeRun
        requires values { run_values self + run_values other < 1024 }
        requires bits { run_bits self + run_bits other < 64 }
        ensures values { run_values result ≡ run_values self + run_values other }
        ensures bits { run_bits result ≡ run_bits self + run_bits other }
    {
        CodeRun {
            packed: self.packed + other.packed,
        }
    }

    /// How many values the codes stand for.
    #[inline]
    pub(crate) fn values(self) -> usize
        ensures { result ≡ run_values self }
    {
        (self.packed / 64) as usize
    }

    /// How many bits the codes take.
    #[inline]
    pub(crate) fn bits(self) -> u32
        ensures { result ≡ run_bits self }
    {
        (self.packed % 64) as u32
    }
}

/// Runs one after the other, taken together: how many values they stand for, and how many bits they take, 0 to 63.
#[derive(Clone, Copy)]
pub(crate) struct RunSum {
    // 64 times the values plus the bits, as in `CodeRun`.
    packed: usize,
}

impl RunSum {
    /// No runs.
    #[inline]
    pub(crate) fn none() -> RunSum
        ensures values { sum_values result ≡ 0 }
        ensures bits { sum_bits result ≡ 0 }
    {
        RunSum { packed: 0 }
    }

    /// These runs and then another.
    #[inline]
    pub(crate) fn with(self, run: CodeRun) -> RunSum
        requires values { sum_values self < 2 ^ 32 }
        requires bits { sum_bits self + run_bits run < 64 }
        ensures values { sum_values result ≡ sum_values self + run_values run }
        ensures bits { sum_bits result ≡ sum_bits self + run_bits run }
    {
        RunSum {
            packed: self.packed + run.packed as usize,
        }
    }

    /// More runs that begin with these, where they have at most so many values; otherwise these.
    #[inline]
    pub(crate) fn or_more(self, more: RunSum, most: usize) -> RunSum
        requires { sum_values self ≤ most }
        ensures fits { sum_values result ≤ most }
        ensures is { (result ≡ more) ⊎ (result ≡ self) }
    {
        if more.values() <= most { more } else { self }
    }

    /// How many values the runs stand for.
    #[inline]
    pub(crate) fn values(self) -> usize
        ensures { result ≡ sum_values self }
    {
        self.packed / 64
    }

    /// How many bits the runs take.
    #[inline]
    pub(crate) fn bits(self) -> u32
        ensures { result ≡ sum_bits self }
    {
        (self.packed % 64) as u32
    }
}

/// How many numbers of this many bits there are.
#[inline]
fn numbers_of(bits: u32) -> usize
    requires { bits ≤ 14 }
    ensures { result ≡ 2 ^ bits }
{
    1 << bits
}

/// The run at a place. Where it has more values than this, the run of fewer of its first bits that has not. The layout
/// serves the clauses alone.
fn run_within(layout: &Layout<'_>, runs: &[CodeRun], place: usize, most: usize) -> CodeRun
    requires some { 1 ≤ place }
    requires known { place < length runs.now }
    requires joined { AreJoined (pairing_in layout.now).0 runs.now }
    ensures is { IsRunOf (pairing_in layout.now).0 place result }
    ensures few { run_values result ≤ most }
{
    let _ = layout;
    let mut place = place;
    'shorter: loop {
        let run = runs[place];
        if run.values() <= most {
            return run;
        }
        place /= 2;
    }
}

/// The fewest runs that are looked through together, before they are joined to a code.
const MANY_RUNS: usize = 16;

/// Whether none of so many runs, from the place of that number on, has more values than this. Of few runs it isn't found out.
/// They are looked through without a test between them.
#[inline]
fn are_within(runs: &[CodeRun], behind: usize, most: usize) -> bool
    requires { 2 * behind ≤ length runs.now }
    ensures { IsTrue result → AreRunsWithin runs.now behind most }
{
    if behind < MANY_RUNS {
        return false;
    }
    let mut within = true;
    for rest in 0..behind {
        within &= runs[behind + rest].values() <= most;
    }
    within
}

/// The run that `run_within` gives. Where it is known that the one at the place has few enough values, that is taken as it
/// stands.
#[inline]
fn run_behind(
    layout: &Layout<'_>,
    runs: &[CodeRun],
    place: usize,
    most: usize,
    fits: bool,
) -> CodeRun
    requires some { 1 ≤ place }
    requires known { place < length runs.now }
    requires joined { AreJoined (pairing_in layout.now).0 runs.now }
    requires fits { IsTrue fits → IsRunWithin runs.now place most }
    ensures is { IsRunOf (pairing_in layout.now).0 place result }
    ensures few { run_values result ≤ most }
{
    if fits {
        return runs[place];
    }
    run_within(layout, runs, place, most)
}

/// Sets the runs of this many bits that begin with one code: that code, and the run of the bits after it. The layout
/// serves the clauses alone.
fn join_code(layout: &Layout<'_>, single: CodeRun, code: usize, width: u32, runs: &mut [CodeRun])
    requires code { code < 2 ^ run_bits single }
    requires single { IsCodeRun (pairing_in layout.now).0 code single }
    requires values { run_values single ≤ 256 }
    requires short { run_bits single ≤ width }
    requires few { width ≤ 13 }
    requires room { 2 * 2 ^ width ≤ length runs.old }
    requires joined { AreJoined (pairing_in layout.now).0 runs.old }
    ensures joined { AreJoined (pairing_in layout.now).0 runs.new }
    ensures lengths { length runs.new ≡ length runs.old }
{
    let _ = layout;
    let behind = numbers_of(width - single.bits());
    let place = numbers_of(width) + code * behind;
    let most = MOST_RUN_VALUES - single.values();
    let all_fit = are_within(runs, behind, most);
    for rest in 0..behind {
        let run = run_behind(layout, runs, behind + rest, most, all_fit);
        runs[place + rest] = single.then(run);
    }
}

/// The codes of one length: by how many bits they are longer than the least, and below which 32 bits they begin. No shorter
/// code begins below that.
#[derive(Clone, Copy)]
struct OneLength {
    more: usize,
    top: u64,
}

/// Sets those runs of this many bits that begin with a code of one length.
fn join_length(
    layout: &Layout<'_>,
    firsts: &[u64],
    counts: &[u16],
    one: OneLength,
    width: u32,
    runs: &mut [CodeRun],
)
    requires least { 1 ≤ layout.now.least }
    requires firsts { AreFirsts layout.now.least (words layout.now.lowest.now) firsts.now }
    requires counts { AreCounts layout.now.symbols.now counts.now }
    requires known { one.more < length firsts.now }
    requires top { IsTop firsts.now one.more one.top }
    requires short { layout.now.least + one.more ≤ width }
    requires few { width ≤ 13 }
    requires room { 2 * 2 ^ width ≤ length runs.old }
    requires joined { AreJoined (pairing_in layout.now).0 runs.old }
    ensures joined { AreJoined (pairing_in layout.now).0 runs.new }
    ensures lengths { length runs.new ≡ length runs.old }
{
    let OneLength { more: i, top } = one;
    let length = layout.least + i as u32;
    let base = (firsts[i] >> (32 - length)) as usize;
    let end = (top >> (32 - length)) as usize;
    let lowest = word_of(layout.lowest, i) as usize;
    for code in base..end {
        let symbol = lowest + (code - base);
        if symbol >= counts.len() {
            return;
        }
        join_code(
            layout,
            CodeRun::of(counts[symbol], length),
            code,
            width,
            runs,
        );
    }
}

/// Sets the runs of this many bits from those of fewer bits.
fn join_width(layout: &Layout<'_>, firsts: &[u64], counts: &[u16], width: u32, runs: &mut [CodeRun])
    requires least { 1 ≤ layout.now.least }
    requires firsts { AreFirsts layout.now.least (words layout.now.lowest.now) firsts.now }
    requires counts { AreCounts layout.now.symbols.now counts.now }
    requires few { width ≤ 13 }
    requires room { 2 * 2 ^ width ≤ length runs.old }
    requires joined { AreJoined (pairing_in layout.now).0 runs.old }
    ensures joined { AreJoined (pairing_in layout.now).0 runs.new }
    ensures lengths { length runs.new ≡ length runs.old }
{
    let mut top: u64 = 1 << 32;
    for i in 0..firsts.len() {
        if layout.least as usize + i > width as usize {
            return;
        }
        join_length(
            layout,
            firsts,
            counts,
            OneLength { more: i, top },
            width,
            runs,
        );
        top = top.min(firsts[i]);
    }
}

/// The runs of up to this many bits. Those of n bits stand from the place 2^n on, in the order of the bits read as a
/// number.
fn joined_runs(
    alloc: Global,
    layout: &Layout<'_>,
    firsts: &[u64],
    counts: &[u16],
    width: u32,
) -> Result<Vec<CodeRun>, AllocError>
    requires least { 1 ≤ layout.now.least }
    requires firsts { AreFirsts layout.now.least (words layout.now.lowest.now) firsts.now }
    requires counts { AreCounts layout.now.symbols.now counts.now }
    requires few { width ≤ 13 }
    ensures joined { IfOk result (λ runs. AreJoined (pairing_in layout.now).0 runs.items) }
    ensures lengths { IfOk result (λ runs. length runs.items ≡ 2 * 2 ^ width) }
{
    let mut runs = vec![in alloc; CodeRun::none(); numbers_of(width + 1)]?;
    for bits in 1..width + 1 {
        // After a code there are at most `width - least` bits, so no other runs are needed.
        if layout.least <= width - bits || bits == width {
            join_width(layout, firsts, counts, bits, &mut runs);
        }
    }
    Ok(runs)
}

/// The run at the front of each pattern of this many bits, from all bits 0 on.
pub(crate) fn runs_of(
    alloc: Global,
    layout: &Layout<'_>,
    firsts: &[u64],
    counts: &[u16],
    width: u32,
) -> Result<Vec<CodeRun>, AllocError>
    requires least { 1 ≤ layout.now.least }
    requires firsts { AreFirsts layout.now.least (words layout.now.lowest.now) firsts.now }
    requires counts { AreCounts layout.now.symbols.now counts.now }
    requires few { width ≤ 13 }
    ensures all { IfOk result (λ runs. length runs.items ≡ 2 ^ width) }
    ensures each { IfOk result (λ runs. AreRuns (pairing_in layout.now).0 width runs.items) }
{
    let joined = joined_runs(alloc, layout, firsts, counts, width)?;
    Vec::from_slice(alloc, &joined[numbers_of(width)..])
}
