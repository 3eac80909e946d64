//! One part of a table: that for a side to move and a file of the leading pawn.

ghost use Rattle.std.specs.Prelude.{◌≡◌, ◌+◌, ◌/◌, ◌<◌, ◌≤◌, length, Some, None, IfOk, OnErr};
ghost use Rattle.place_index.specs.Shape.{Layout, size_of};
ghost use Rattle.place_index.specs.Placed.{Placement, Fits};
ghost use Rattle.table_file.specs.declared.kind.TableKind.TheVariants.{Dtz};
ghost use Rattle.table_file.specs.Inside.Checked.{IsChecked, IsViewOf};
ghost use Rattle.table_file.specs.Tables.{IsAskedBy, part_file, shape_of, flags_of, span_of};
ghost use Rattle.table_file.specs.Expansion.{expansion, entry_at, real_blocks, part_block_values, IsSpot, IsRealSpot, IsPast};
ghost use Rattle.table_file.specs.Distances.{file_flags, file_maps, mapped_value, stores, distance};

use crate::maps::Maps;
use crate::material::{indices, is_symmetric};
use crate::outcome::{Outcome, counts_moves, plies};
use crate::places::side_number;
use crate::reading::has_bit;
use crate::spots::{Spot, View, look_ahead_in, spot_in, value_in, values_in};
use crate::steps::Steps;
use crate::table::{OpenedPart, Table};
use board_core::Side;
use pair_dict::Damaged;
use place_index::{PawnFile, Shape};
use std::alloc::{AllocError, Global};
use std::marker::Model;
use std::sync::ledger::Ledger;

/// One part of a table: that for a side to move and a file of the leading pawn. `Table::part` finds it. It borrows the table,
/// and takes no memory but in `unpack`.
#[derive(Drop)]
pub struct TablePart<'t, 'a> {
    pub(crate) table: &'t Table<'a>,
    pub(crate) part: &'t OpenedPart<'a>,
    pub(crate) side: Side,
    pub(crate) file: PawnFile,
}

impl<'t, 'a> Model for TablePart<'t, 'a> {
    ghost use Rattle.table_file.specs.Tables.{PartAt};

    ghost Value = { PartAt };

    ghost use Rattle.table_file.specs.Inside.KeptPart.{part_of_table, IsKeptPart};

    ghost view = { part_of_table };

    ghost invariant = { IsKeptPart };
}

impl<'t, 'a> TablePart<'t, 'a> {
    /// The shape, which fits a placement for the table whose file picked the part.
    pub fn shape(&self) -> &'t Shape
        ensures is { shape_of self.now ≡ Some result.now }
        ensures material { result.now.material ≡ self.now.table.material }
        ensures file { result.now.file ≡ part_file self.now.table.material self.now.file }
        ensures fits { (placed : Placement) → IsAskedBy self.now placed → Fits result.now placed }
    {
        &self.part.head.shape
    }

    /// The part with its sections.
    pub(crate) fn view(&self) -> View<'t, 'a>
        ensures checked { IsChecked result }
        ensures part { IsViewOf self.now result }
    {
        let part = self.part;
        View {
            size: indices(&part.head.shape),
            coding: &part.head.size_record.coding,
            entries: part.entries.bytes(),
            lengths: part.lengths.bytes(),
            blocks: part.blocks.bytes(),
        }
    }

    /// The flags of the size record.
    pub(crate) fn flags(&self) -> u8
        ensures is { flags_of self.now ≡ Some result }
        ensures dtz { self.now.table.kind ≡ Dtz → result ≡ file_flags self.now }
    {
        self.part.head.size_record.flags
    }

    /// The file of the leading pawn for which the part was found.
    pub(crate) fn file(&self) -> PawnFile
        ensures { result ≡ self.now.file }
    {
        self.file
    }

    /// The value at an index: the entry of the expanded table. No block is unpacked.
    ///
    /// `Damaged` where the expanded table has no entry there, or one that its block doesn't give.
    pub fn value(&self, index: u64) -> Result<u16, Damaged>
        ensures found { IfOk result (λ v. entry_at (expansion self.now) index ≡ Some v) }
        ensures damaged { OnErr result (entry_at (expansion self.now) index ≡ None) }
    {
        value_in(self.view(), index)
    }

    /// Where the value at an index stands: the single value, or a real block and the offset in it.
    ///
    /// It starts at the sparse entry of the index's span, or past the last span at the last entry, and steps back or
    /// forward over whole blocks. `steps` counts the block lengths that it reads: for an index below the size at most
    /// half a span and 65536.
    ///
    /// `Damaged` exactly where the index is past the expanded table.
    pub fn locate<L: Ledger>(&self, index: u64, steps: &mut Steps<L>) -> Result<Spot, Damaged>
        ensures found { IfOk result (λ s. IsSpot self.now index s) }
        ensures real { IfOk result (λ s. IsRealSpot self.now s) }
        ensures damaged { OnErr result (IsPast (expansion self.now) index) }
        ensures cost { (shape : Layout) → shape_of self.now ≡ Some shape → index < size_of shape → steps.new ≤ steps.old + span_of self.now / 2 + 65536 }
    {
        spot_in(self.view(), index, steps)
    }

    /// The values of a real block, one that `locate` gives: those of its codes, at most as many as its length says and
    /// at most 65536. The only error is that memory is refused.
    pub fn unpack(&self, alloc: Global, block: u32) -> Result<Vec<u16>, AllocError>
        requires real { block < real_blocks self.now }
        ensures is { IfOk result (λ values. values.items ≡ part_block_values self.now block) }
        ensures few { IfOk result (λ values. length values.items ≤ 65536) }
    {
        values_in(alloc, self.view(), block as usize)
    }

    /// Looks at the front of a block, so that it has come from memory when it is read: the bits of its first run or the hint for
    /// its first code, 0 to 13, and 0 where there is no such block.
    pub fn look_ahead(&self, block: u32) -> u32
        ensures few { result ≤ 13 }
    {
        look_ahead_in(self.view(), block as usize)
    }

    /// Whether a DTZ table has distances for this side to move: its file stores the side, or both sides have the same
    /// men (Syzygy table format, flags of DTZ tables).
    #[tactic(auto, unfolding(crate::specs::Distances::stores))]
    pub fn stores(&self) -> bool
        requires kind { self.now.table.kind ≡ Dtz }
        ensures { result ≡ stores self.now }
    {
        self.flags() % 2 == side_number(self.side) || is_symmetric(self.table.material())
    }

    /// The value maps of a part of a DTZ table.
    fn maps(&self) -> &Maps<'a>
        requires kind { self.now.table.kind ≡ Dtz }
        ensures { result.now ≡ file_maps self.now }
    {
        let k = self.table.place(self.side, self.file);
        &self.table.maps()[k]
    }

    /// What a stored value stands for: where the file is mapped, the entry at that place of the map.
    pub(crate) fn mapped(&self, outcome: Outcome, value: u16) -> Option<u16>
        requires kind { self.now.table.kind ≡ Dtz }
        ensures { result ≡ mapped_value (file_flags self.now) (file_maps self.now) outcome value }
    {
        if has_bit(2, self.flags()) {
            self.maps().entry(outcome, value as usize)
        } else {
            Some(value)
        }
    }

    /// The plies that a DTZ table gives at an index, for a game of that outcome for the side that the file stores. They
    /// are the value of the expanded table, passed through the value map where the file is mapped. They are doubled
    /// where it counts moves and not plies (Syzygy table format, flags of DTZ tables and value maps).
    ///
    /// It is at most 131070. `Damaged` where the expanded table has no value there, or the map no entry.
    #[tactic(auto, unfolding(crate::specs::Distances::distance))]
    pub fn dtz(&self, index: u64, outcome: Outcome) -> Result<u32, Damaged>
        requires kind { self.now.table.kind ≡ Dtz }
        ensures found { IfOk result (λ d. distance self.now index outcome ≡ Some d) }
        ensures damaged { OnErr result (distance self.now index outcome ≡ None) }
        ensures most { IfOk result (λ d. d ≤ 131070) }
    {
        let Ok(stored) = self.value(index) else {
            return Err(Damaged);
        };
        let Some(value) = self.mapped(outcome, stored) else {
            return Err(Damaged);
        };
        Ok(plies(counts_moves(self.flags(), outcome), value))
    }
}
