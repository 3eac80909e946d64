//! Where values stand among the blocks, and reading them.

ghost use Rattle.std.specs.Prelude.{◌≡◌, ◌+◌, ◌-◌, ◌*◌, ◌/◌, ◌^◌, ◌<◌, ◌≤◌, ◌⊎◌, length, slice_get, slice_index, take, drop, IfOk, OnErr, Some, None};
ghost use Rattle.pair_dict.specs.Blocks.{block_values};
ghost use Rattle.table_file.specs.Figures.{block_size, span, sparse_entry_count};
ghost use Rattle.table_file.specs.Sparse.{sizes_of, values_before, IsSpotIn};
ghost use Rattle.table_file.specs.Expansion.{entry_at, expanded, values_in, blocks_in, IsSpotOf, IsShort, IsPast};
ghost use Rattle.table_file.specs.Inside.Checked.{IsChecked, AreChecked};
ghost use Rattle.table_file.specs.Tables.{coding_span};

use crate::codes::Codes;
use crate::size_record::Coding;
use crate::sparse::entry;
use crate::steps::{Steps, size_at};
use pair_dict::Damaged;
use std::alloc::{AllocError, Global};
use std::marker::Brand;
use std::sync::ledger::{Blank, Ledger};

/// Where a value of a table stands.
#[derive(Clone, Copy, Debug, PartialEq, Eq)]
pub enum Spot {
    /// The file has this one value for each index.
    Single(u16),
    /// In a block, at an offset from its first value, 0 to 65535.
    At { block: u32, offset: u32 },
}

/// A block, and an offset from its first value, which may pass its last one.
#[derive(Clone, Copy)]
struct Place {
    block: usize,
    offset: usize,
}

/// One part of an opened file, with its sections.
#[derive(Clone, Copy)]
pub(crate) struct View<'t, 'a> {
    /// How many indices the shape has.
    pub(crate) size: u64,
    pub(crate) coding: &'t Coding<'a>,
    pub(crate) entries: &'t [u8],
    pub(crate) lengths: &'t [u8],
    pub(crate) blocks: &'t [u8],
}

/// Steps forward from a place over whole blocks, to the block that holds the offset, or past the real blocks.
fn step_on<L: Ledger>(
    lengths: &[u8],
    real: usize,
    place: Place,
    steps: &mut Steps<L>,
) -> Result<Place, Damaged>
    requires real { real ≤ length lengths.now / 2 }
    ensures found { IfOk result (λ s. IsSpotIn (sizes_of lengths.now) real (values_before (sizes_of lengths.now) place.block + place.offset) s.block s.offset) }
    ensures short { IfOk result (λ s. s.offset < 65536) }
    ensures damaged { OnErr result (values_before (sizes_of lengths.now) real ≤ values_before (sizes_of lengths.now) place.block + place.offset) }
    ensures cost { steps.new ≤ steps.old + place.offset + 1 }
    ensures near { place.offset < slice_index (sizes_of lengths.now) place.block → steps.new ≤ steps.old + 1 }
    ensures each { IfOk result (λ s. steps.new + place.block ≡ steps.old + s.block + 1) }
    ensures all { OnErr result (place.block ≤ real → steps.new + place.block ≡ steps.old + real) }
{
    let mut block = place.block;
    let mut offset = place.offset;
    'steps: while block < real {
        let size = steps.length(lengths, block) as usize + 1;
        if offset < size {
            return Ok(Place { block, offset });
        }
        offset -= size;
        block += 1;
    }
    Err(Damaged)
}

/// Steps back from a place by a number of values, over whole blocks. Where it steps at all, the offset is within its block.
fn step_back<L: Ledger>(lengths: &[u8], place: Place, back: usize, steps: &mut Steps<L>) -> Place
    requires block { place.block ≤ length lengths.now / 2 }
    requires enough { back ≤ values_before (sizes_of lengths.now) place.block + place.offset }
    requires fits { back < 2 ^ 62 }
    ensures place { values_before (sizes_of lengths.now) result.block + result.offset + back ≡ values_before (sizes_of lengths.now) place.block + place.offset }
    ensures cost { ((steps.new ≡ steps.old) × (result.offset ≤ place.offset)) ⊎ ((steps.new ≤ steps.old + back) × (result.offset < slice_index (sizes_of lengths.now) result.block)) }
    ensures each { steps.new + result.block ≡ steps.old + place.block }
{
    let mut block = place.block;
    let mut offset = place.offset;
    'steps: while offset < back {
        block -= 1;
        offset += steps.length(lengths, block) as usize + 1;
    }
    Place {
        block,
        offset: offset - back,
    }
}

/// The place that the sparse entry of an index names, and the index of the value there. The last entry serves all indices
/// past it.
fn nearest(
    codes: &Codes<'_>,
    size: u64,
    entries: &[u8],
    lengths: &[u8],
    index: u64,
) -> (Place, usize)
    requires { AreChecked size codes.now entries.now lengths.now }
    ensures block { result.0.block ≤ length lengths.now / 2 }
    ensures place { values_before (sizes_of lengths.now) result.0.block + result.0.offset ≡ result.1 }
    ensures short { result.0.offset < 65536 }
    ensures fits { result.1 < 2 ^ 62 }
    ensures on { index < size → result.1 ≤ index → index - result.1 < span codes.now / 2 }
    ensures back { index < size → index < result.1 → result.1 - index ≤ span codes.now / 2 }
{
    let span = codes.span() as usize;
    let k = codes.spans_in(index).min(codes.points(size) - 1);
    let (block, offset) = entry(entries, k);
    (Place { block, offset }, k * span + span / 2)
}

/// The real block and the offset in it where the value of an index stands.
fn place_of<L: Ledger>(
    codes: &Codes<'_>,
    size: u64,
    entries: &[u8],
    lengths: &[u8],
    index: u64,
    steps: &mut Steps<L>,
) -> Result<Place, Damaged>
    requires { AreChecked size codes.now entries.now lengths.now }
    ensures found { IfOk result (λ s. IsSpotIn (sizes_of lengths.now) codes.now.blocks index s.block s.offset) }
    ensures fits { IfOk result (λ s. (s.block < 2 ^ 32) × (s.offset < 65536)) }
    ensures damaged { OnErr result (values_before (sizes_of lengths.now) codes.now.blocks ≤ index) }
    ensures cost { index < size → steps.new ≤ steps.old + span codes.now / 2 + 65536 }
{
    let real = codes.blocks();
    let (place, middle) = nearest(codes, size, entries, lengths, index);
    let index = index as usize;
    if middle <= index {
        let place = Place {
            block: place.block,
            offset: place.offset + (index - middle),
        };
        step_on(lengths, real, place, steps)
    } else {
        let place = step_back(lengths, place, middle - index, steps);
        step_on(lengths, real, place, steps)
    }
}

/// The bytes of a block.
pub(crate) fn block_of<'a>(codes: &Codes<'_>, blocks: &'a [u8], block: usize) -> &'a [u8]
    requires known { block < codes.now.blocks }
    requires length { length blocks.now ≡ codes.now.blocks * block_size codes.now }
    ensures is { result.now ≡ take (block_size codes.now) (drop (block * block_size codes.now) blocks.now) }
    ensures few { length result.now ≤ 2 ^ 24 }
{
    let size = codes.block_size();
    let at = block * size;
    let (_, rest) = blocks.split_at(at);
    let (front, _) = rest.split_at(size);
    front
}

/// Where the value of an index stands.
pub(crate) fn spot_in<L: Ledger>(
    view: View<'_, '_>,
    index: u64,
    steps: &mut Steps<L>,
) -> Result<Spot, Damaged>
    requires { IsChecked view }
    ensures found { IfOk result (λ s. IsSpotOf view.entry.coding.now view.entry.lengths.now index s) }
    ensures fits { IfOk result IsShort }
    ensures damaged { OnErr result (IsPast (expanded view.entry.coding.now view.entry.lengths.now view.entry.blocks.now) index) }
    ensures cost { index < view.entry.size → steps.new ≤ steps.old + coding_span view.entry.coding.now / 2 + 65536 }
{
    match view.coding {
        Coding::Single(value) => Ok(Spot::Single(*value)),
        Coding::Pairs(codes) => {
            let place = place_of(codes, view.size, view.entries, view.lengths, index, steps);
            let Ok(place) = place else {
                return Err(Damaged);
            };
            Ok(Spot::At {
                block: place.block as u32,
                offset: place.offset as u32,
            })
        }
    }
}

/// The value at a place of a real block.
fn value_of(codes: &Codes<'_>, blocks: &[u8], place: Place) -> Result<u16, Damaged>
    requires known { place.block < codes.now.blocks }
    requires short { place.offset < 65536 }
    requires length { length blocks.now ≡ codes.now.blocks * block_size codes.now }
    ensures found { IfOk result (λ v. slice_get (block_values codes.now.dictionary (take (block_size codes.now) (drop (place.block * block_size codes.now) blocks.now))) place.offset ≡ Some v) }
    ensures damaged { OnErr result (length (block_values codes.now.dictionary (take (block_size codes.now) (drop (place.block * block_size codes.now) blocks.now))) ≤ place.offset) }
{
    let block = block_of(codes, blocks, place.block);
    codes.dictionary().value(block, place.offset as u32)
}

/// The value of an index, with a step counter of its own.
fn value_by<L: Ledger>(view: View<'_, '_>, index: u64, blank: Blank) -> Result<u16, Damaged>
    requires checked { IsChecked view }
    requires name { blank.name ≡ L.name }
    requires parts { blank.parts ≡ L.parts }
    requires some { 0 < blank.parts }
    ensures found { IfOk result (λ v. entry_at (expanded view.entry.coding.now view.entry.lengths.now view.entry.blocks.now) index ≡ Some v) }
    ensures damaged { OnErr result (entry_at (expanded view.entry.coding.now view.entry.lengths.now view.entry.blocks.now) index ≡ None) }
{
    match view.coding {
        Coding::Single(value) => Ok(*value),
        Coding::Pairs(codes) => {
            let mut steps = Steps::<L>::new(blank);
            let place = place_of(
                codes,
                view.size,
                view.entries,
                view.lengths,
                index,
                &mut steps,
            );
            let Ok(place) = place else {
                return Err(Damaged);
            };
            value_of(codes, view.blocks, place)
        }
    }
}

/// The value of an index.
pub(crate) fn value_in(view: View<'_, '_>, index: u64) -> Result<u16, Damaged>
    requires { IsChecked view }
    ensures found { IfOk result (λ v. entry_at (expanded view.entry.coding.now view.entry.lengths.now view.entry.blocks.now) index ≡ Some v) }
    ensures damaged { OnErr result (entry_at (expanded view.entry.coding.now view.entry.lengths.now view.entry.blocks.now) index ≡ None) }
{
    value_by::<Brand>(view, index, Blank::new(1))
}

/// The bits of the first run of a block or the hint for its first code; 0 where there is no such block.
pub(crate) fn look_ahead_in(view: View<'_, '_>, block: usize) -> u32
    requires { IsChecked view }
    ensures { result ≤ 13 }
{
    match view.coding {
        Coding::Single(_) => 0,
        Coding::Pairs(codes) => {
            if codes.blocks() <= block {
                return 0;
            }
            let block = block_of(codes, view.blocks, block);
            codes.dictionary().first_run_bits(block)
        }
    }
}

/// The values of a block, cut by its length.
pub(crate) fn values_in(
    alloc: Global,
    view: View<'_, '_>,
    block: usize,
) -> Result<Vec<u16>, AllocError>
    requires checked { IsChecked view }
    requires real { block < blocks_in view.coding.now }
    ensures is { IfOk result (λ values. values.items ≡ values_in view.entry.coding.now view.entry.lengths.now view.entry.blocks.now block) }
    ensures few { IfOk result (λ values. length values.items ≤ 65536) }
{
    match view.coding {
        Coding::Single(_) => unreachable!(),
        Coding::Pairs(codes) => {
            let size = size_at(view.lengths, block);
            let block = block_of(codes, view.blocks, block);
            codes.dictionary().decode(alloc, block, size as u32)
        }
    }
}
