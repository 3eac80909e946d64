//! Reading tables through decoded blocks: these functions alone see tables and blocks apart.

ghost use Rattle.std.specs.Prelude.{◌≡◌, ◌<◌, ◌≤◌, Some, IfSome, IfOk, OnErr, option_and_then};
ghost use Rattle.place_index.specs.Placed.{side_number};
ghost use Rattle.table_file.specs.declared.kind.TableKind.TheVariants.{Dtz};
ghost use Rattle.table_file.specs.Expansion.{expansion, real_blocks, IsSpot, IsRealSpot, IsPast};
ghost use Rattle.judge_core.specs.Blocks.{AreBlockValues, AreRight, IsMarked, keyed_part};
ghost use Rattle.judge_core.specs.Distances.{distance_in};
ghost use Rattle.judge_core.specs.Inside.Placing.{IsPartFor, IsPlaceIn, IsOwnPlace, IsValueAt};
ghost use Rattle.judge_core.specs.Tables.{entry_in, slot, table_value, value_or_damaged};
ghost use Rattle.judge_core.specs.Values.{of_points};

use crate::blocks::{BlockKey, Blocks, MarkedBlock, RequestFrequency};
use crate::fault::ValueFault;
use crate::located_position::LocatedPosition;
use crate::table_slots::{TableSlots, slot};
use crate::wdl::Wdl;
use board_core::Side;
use place_index::{Material, Placed, index};
use std::alloc::Global;
use std::marker::Brand;
use std::sync::ledger::{Blank, Ledger};
use table_file::{Damaged, Outcome, Spot, Steps, TableKind, TablePart};

/// Where a part has the value of placed men.
#[derive(Clone, Copy)]
pub(crate) enum PlaceInPart {
    /// No block has to be read: the value, or none where it is damaged.
    Known(Option<u16>),
    /// In a block, at an offset from its first value.
    InBlock { key: BlockKey, offset: u32 },
}

/// Where the own WDL table of a position has its value.
#[derive(Drop)]
pub(crate) struct OwnPlace<'t, 'a> {
    pub(crate) part: TablePart<'t, 'a>,
    pub(crate) place: PlaceInPart,
}

impl<'t, 'a> OwnPlace<'t, 'a> {
    /// Looks at the block before it is read. The number says nothing.
    pub(crate) fn look_ahead(&self) -> u32 {
        match self.place {
            PlaceInPart::Known(_) => 0,
            PlaceInPart::InBlock { key, .. } => self.part.look_ahead(key.block),
        }
    }
}

/// Where the value of an index stands, with a step counter of its own.
#[inline]
fn spot_by<L: Ledger>(part: &TablePart<'_, '_>, index: u64, blank: Blank) -> Result<Spot, Damaged>
    requires name { blank.name ≡ L.name }
    requires parts { blank.parts ≡ L.parts }
    requires some { 0 < blank.parts }
    ensures found { IfOk result (λ s. IsSpot part.now index s) }
    ensures real { IfOk result (λ s. IsRealSpot part.now s) }
    ensures damaged { OnErr result (IsPast (expansion part.now) index) }
{
    part.locate(index, &mut Steps::<L>::new(blank))
}

/// Where the value of an index stands.
#[inline(always)]
fn spot_of(part: &TablePart<'_, '_>, index: u64) -> Result<Spot, Damaged>
    ensures found { IfOk result (λ s. IsSpot part.now index s) }
    ensures real { IfOk result (λ s. IsRealSpot part.now s) }
    ensures damaged { OnErr result (IsPast (expansion part.now) index) }
{
    spot_by::<Brand>(part, index, Blank::new(1))
}

/// The number of a side in a key.
fn side_number(side: Side) -> u8
    ensures { result ≡ side_number side }
{
    match side {
        Side::White => 0,
        Side::Black => 1,
    }
}

/// The value that the entry of a WDL table of this material stands for.
pub(crate) fn value_of(material: Material, points: Option<u16>) -> Result<Wdl, ValueFault>
    ensures { result ≡ value_or_damaged material (option_and_then of_points points) }
{
    let Some(points) = points else {
        return Err(ValueFault::Damaged(material));
    };
    match Wdl::from_points(points) {
        Some(value) => Ok(value),
        None => Err(ValueFault::Damaged(material)),
    }
}

/// The key of a block of the part for placed men.
fn key_of(kind: TableKind, placed: &Placed, block: u32) -> BlockKey
    ensures slot { result.slot ≡ slot kind placed.now.material }
    ensures side { result.side ≡ side_number placed.now.side }
    ensures file { result.file ≡ placed.now.file }
    ensures block { result.block ≡ block }
{
    BlockKey {
        slot: slot(kind, placed.material()) as u16,
        side: side_number(placed.side()),
        file: placed.file().number(),
        block,
    }
}

impl<'a> TableSlots<'a> {
    /// The value of a block at an offset, where the block is kept. The inner option is none where the value is damaged.
    fn kept_value(
        &self,
        blocks: &mut Blocks,
        part: &TablePart<'_, 'a>,
        key: &BlockKey,
        offset: u32,
    ) -> Option<Option<u16>>
        requires right { AreRight self.now blocks.old }
        requires on { keyed_part self.now.tables key.now ≡ Some part.now }
        ensures found { IfSome result (IsValueAt part.now key.now.block offset) }
        ensures right { AreRight self.now blocks.new }
    {
        let _ = self;
        let values = blocks.kept.get(key)?;
        Some(part.value_among(key.block, offset, values))
    }

    /// Keeps the values of a block, where there is memory for it.
    fn keep(&self, blocks: &mut Blocks, key: BlockKey, values: Vec<u16>)
        requires right { AreRight self.now blocks.old }
        requires these { AreBlockValues self.now.tables key values.items }
        ensures { AreRight self.now blocks.new }
    {
        let _ = self;
        let _ = blocks.kept.put(key, values);
    }

    /// The value of a block at an offset. It comes from the block where that is kept. A block that is requested often
    /// is decoded and kept. Otherwise, or where memory is refused, the single value is read.
    fn value_in_block(
        &self,
        blocks: &mut Blocks,
        alloc: Global,
        part: &TablePart<'_, 'a>,
        key: BlockKey,
        offset: u32,
    ) -> Option<u16>
        requires right { AreRight self.now blocks.old }
        requires on { keyed_part self.now.tables key ≡ Some part.now }
        requires real { key.block < real_blocks part.now }
        ensures found { IsValueAt part.now key.block offset result }
        ensures right { AreRight self.now blocks.new }
    {
        let asking = blocks.ask(key);
        if blocks.may_keep(asking) {
            if let Some(value) = self.kept_value(blocks, part, &key, offset) {
                return value;
            }
        }
        if asking == RequestFrequency::Often {
            if let Ok(values) = part.unpack(alloc, key.block) {
                let value = part.value_among(key.block, offset, &values);
                self.keep(blocks, key, values);
                return value;
            }
        }
        part.value_in_block(key.block, offset).ok()
    }

    /// The value of a long block at an offset, found from the bookmarks, which are then this block's.
    fn marked_value(
        &self,
        marked: &mut MarkedBlock,
        part: &TablePart<'_, 'a>,
        key: BlockKey,
        offset: u32,
    ) -> Option<u16>
        requires marked { IsMarked self.now.tables marked.old }
        requires on { keyed_part self.now.tables key ≡ Some part.now }
        requires real { key.block < real_blocks part.now }
        ensures found { IsValueAt part.now key.block offset result }
        ensures marked { IsMarked self.now.tables marked.new }
    {
        let _ = self;
        marked.turn_to(key);
        part.value_marked(key.block, offset, &mut marked.marks).ok()
    }

    /// The value of a block at an offset, in a long block from its bookmarks, where there is memory for these.
    fn value_from_marks(
        &self,
        blocks: &mut Blocks,
        alloc: Global,
        part: &TablePart<'_, 'a>,
        key: BlockKey,
        offset: u32,
    ) -> Option<u16>
        requires right { AreRight self.now blocks.old }
        requires on { keyed_part self.now.tables key ≡ Some part.now }
        requires real { key.block < real_blocks part.now }
        ensures found { IsValueAt part.now key.block offset result }
        ensures right { AreRight self.now blocks.new }
    {
        if part.has_long_blocks() {
            if let Some(place) = blocks.marked_place(alloc, key) {
                return self.marked_value(&mut blocks.marked[place], part, key, offset);
            }
        }
        self.value_in_block(blocks, alloc, part, key, offset)
    }

    /// Where the part of a table of this kind has the value of placed men.
    #[inline(always)]
    fn place_in_part(
        &self,
        kind: TableKind,
        part: &TablePart<'_, 'a>,
        placed: &Placed,
    ) -> PlaceInPart
        requires part { IsPartFor self.now.tables kind placed.now part.now }
        ensures { IsPlaceIn self.now.tables placed.now part.now result }
    {
        let _ = self;
        let index = index(part.shape(), placed);
        match spot_of(part, index) {
            Ok(Spot::Single(value)) => PlaceInPart::Known(Some(value)),
            Ok(Spot::At { block, offset }) => {
                let key = key_of(kind, placed, block);
                PlaceInPart::InBlock { key, offset }
            }
            Err(_) => PlaceInPart::Known(None),
        }
    }

    /// What the part of a table has for placed men, whose place in it this is; none where that is damaged.
    fn read_at(
        &self,
        blocks: &mut Blocks,
        alloc: Global,
        part: &TablePart<'_, 'a>,
        place: PlaceInPart,
        placed: &Placed,
    ) -> Option<u16>
        requires right { AreRight self.now blocks.old }
        requires place { IsPlaceIn self.now.tables placed.now part.now place }
        ensures is { result ≡ entry_in part.now.table placed.now }
        ensures right { AreRight self.now blocks.new }
    {
        let _ = placed;
        match place {
            PlaceInPart::Known(value) => value,
            PlaceInPart::InBlock { key, offset } => {
                self.value_in_block(blocks, alloc, part, key, offset)
            }
        }
    }

    /// As `read_at`, in a long block from its bookmarks.
    fn read_from_marks(
        &self,
        blocks: &mut Blocks,
        alloc: Global,
        part: &TablePart<'_, 'a>,
        place: PlaceInPart,
        placed: &Placed,
    ) -> Option<u16>
        requires right { AreRight self.now blocks.old }
        requires place { IsPlaceIn self.now.tables placed.now part.now place }
        ensures is { result ≡ entry_in part.now.table placed.now }
        ensures right { AreRight self.now blocks.new }
    {
        let _ = placed;
        match place {
            PlaceInPart::Known(value) => value,
            PlaceInPart::InBlock { key, offset } => {
                self.value_from_marks(blocks, alloc, part, key, offset)
            }
        }
    }

    /// What the part of a table of this kind for placed men has at their index; none where that is damaged. It is
    /// `place_in_part` and `read_at` in one: a probe takes 33 instructions fewer than by the two.
    pub(crate) fn read(
        &self,
        blocks: &mut Blocks,
        alloc: Global,
        kind: TableKind,
        part: &TablePart<'_, 'a>,
        placed: &Placed,
    ) -> Option<u16>
        requires right { AreRight self.now blocks.old }
        requires part { IsPartFor self.now.tables kind placed.now part.now }
        ensures is { result ≡ entry_in part.now.table placed.now }
        ensures right { AreRight self.now blocks.new }
    {
        let index = index(part.shape(), placed);
        match spot_of(part, index) {
            Ok(Spot::Single(value)) => Some(value),
            Ok(Spot::At { block, offset }) => {
                let key = key_of(kind, placed, block);
                self.value_in_block(blocks, alloc, part, key, offset)
            }
            Err(_) => None,
        }
    }

    /// Where the own WDL table of a position has its value; none where there is no such table.
    pub(crate) fn own_place(&self, probe: &LocatedPosition<'_>) -> Option<OwnPlace<'_, 'a>>
        ensures { IsOwnPlace self.now.tables probe.now result }
    {
        let Some(placed) = probe.placed() else {
            return None;
        };
        let Some(part) = self.part(TableKind::Wdl, placed) else {
            return None;
        };
        let place = self.place_in_part(TableKind::Wdl, &part, placed);
        Some(OwnPlace { part, place })
    }

    /// What the own WDL table of a position says about it, where this is its place there. Bare kings are a draw.
    pub(crate) fn own_value(
        &self,
        blocks: &mut Blocks,
        alloc: Global,
        probe: &LocatedPosition<'_>,
        own: &Option<OwnPlace<'_, 'a>>,
    ) -> Result<Wdl, ValueFault>
        requires right { AreRight self.now blocks.old }
        requires own { IsOwnPlace self.now.tables probe.now own.now }
        ensures is { result ≡ table_value self.now.tables probe.now }
        ensures right { AreRight self.now blocks.new }
    {
        let Some(placed) = probe.placed() else {
            return Ok(Wdl::Draw);
        };
        let material = placed.material();
        let Some(own) = own else {
            return Err(ValueFault::NotCovered(material));
        };
        let points = self.read_at(blocks, alloc, &own.part, own.place, placed);
        value_of(material, points)
    }

    /// What the part of a DTZ table for placed men stores for them; none where that is damaged.
    pub(crate) fn distance(
        &self,
        blocks: &mut Blocks,
        alloc: Global,
        part: &TablePart<'_, 'a>,
        placed: &Placed,
        outcome: Outcome,
    ) -> Option<u32>
        requires right { AreRight self.now blocks.old }
        requires part { IsPartFor self.now.tables Dtz placed.now part.now }
        ensures is { result ≡ distance_in part.now.table placed.now outcome }
        ensures within { IfSome result (λ n. n ≤ 131070) }
        ensures right { AreRight self.now blocks.new }
    {
        let place = self.place_in_part(TableKind::Dtz, part, placed);
        let Some(value) = self.read_from_marks(blocks, alloc, part, place, placed) else {
            return None;
        };
        match part.plies_of(value, outcome) {
            Ok(plies) => Some(plies),
            Err(_) => None,
        }
    }
}
