//! Values at spots found by `locate`, and from blocks decoded by `unpack`.

ghost use Rattle.std.specs.Prelude.{◌≡◌, ◌<◌, ◌≤◌, ℕ, slice_get, Some, None, IfOk, OnErr};
ghost use Rattle.table_file.specs.declared.kind.TableKind.TheVariants.{Dtz};
ghost use Rattle.table_file.specs.declared.spots.Spot.TheVariants.{At};
ghost use Rattle.table_file.specs.Expansion.{expansion, entry_at, real_blocks, part_block_values, IsSpot};
ghost use Rattle.table_file.specs.Distances.{counts_moves, distance, file_flags};

use crate::outcome::{Outcome, counts_moves, plies};
use crate::size_record::Coding;
use crate::spots::block_of;
use crate::table_part::TablePart;
use pair_dict::Damaged;

/// The value at a place of a list.
fn value_at(values: &[u16], place: u32) -> Option<u16>
    ensures { result ≡ slice_get values.now place }
{
    values.get(place as usize).copied()
}

impl<'t, 'a> TablePart<'t, 'a> {
    /// The value in a real block at an offset: the one that `value` gives at the index for which `locate` gave that
    /// spot.
    pub fn value_in_block(&self, block: u32, offset: u32) -> Result<u16, Damaged>
        requires real { block < real_blocks self.now }
        ensures found { (index : ℕ) → IsSpot self.now index (At block offset) → IfOk result (λ v. entry_at (expansion self.now) index ≡ Some v) }
        ensures damaged { (index : ℕ) → IsSpot self.now index (At block offset) → OnErr result (entry_at (expansion self.now) index ≡ None) }
    {
        let view = self.view();
        match view.coding {
            Coding::Single(_) => unreachable!(),
            Coding::Pairs(codes) => codes
                .dictionary()
                .value(block_of(codes, view.blocks, block as usize), offset),
        }
    }

    /// The value at an offset among the values that `unpack` gave for a block. It is the one that `value` gives at the
    /// index for which `locate` gave that spot; none where that is damaged.
    pub fn value_among(&self, block: u32, offset: u32, values: &[u16]) -> Option<u16>
        requires values { values.now ≡ part_block_values self.now block }
        ensures { (index : ℕ) → IsSpot self.now index (At block offset) → result ≡ entry_at (expansion self.now) index }
    {
        // Called for its contract: what was checked of the part.
        let _view = self.view();
        let _block = block;
        value_at(values, offset)
    }

    /// The plies that a stored value of a DTZ table stands for, as `dtz` gives them at an index with that value. It
    /// passes the value map where the file is mapped, and is doubled where it counts moves.
    ///
    /// It is at most 131070. `Damaged` where the map has no entry.
    #[tactic(auto, unfolding(crate::specs::Distances::distance))]
    pub fn plies_of(&self, value: u16, outcome: Outcome) -> Result<u32, Damaged>
        requires kind { self.now.table.kind ≡ Dtz }
        ensures found { (index : ℕ) → entry_at (expansion self.now) index ≡ Some value → IfOk result (λ d. distance self.now index outcome ≡ Some d) }
        ensures damaged { (index : ℕ) → entry_at (expansion self.now) index ≡ Some value → OnErr result (distance self.now index outcome ≡ None) }
        ensures most { IfOk result (λ d. d ≤ 131070) }
    {
        let Some(value) = self.mapped(outcome, value) else {
            return Err(Damaged);
        };
        Ok(plies(counts_moves(self.flags(), outcome), value))
    }

    /// Whether the values of a DTZ table for this outcome count moves of one side, and not plies (Syzygy table format, flags of
    /// DTZ tables).
    pub fn counts_moves(&self, outcome: Outcome) -> bool
        requires kind { self.now.table.kind ≡ Dtz }
        ensures { result ≡ counts_moves (file_flags self.now) outcome }
    {
        counts_moves(self.flags(), outcome)
    }
}
