//! Values of long blocks, by bookmarks.

ghost use Rattle.std.specs.Prelude.{◌≡◌, ◌<◌, ◌≤◌, ◌↔◌, ℕ, Some, None, IfOk, OnErr, IsTrue};
ghost use Rattle.table_file.specs.declared.spots.Spot.TheVariants.{At};
ghost use Rattle.table_file.specs.Expansion.{expansion, entry_at, real_blocks, IsSpot};
ghost use Rattle.table_file.specs.Marked.{AreMarksIn, block_bytes};
ghost use Rattle.table_file.specs.Tables.{PartAt};

use crate::size_record::Coding;
use crate::spots::block_of;
use crate::table_part::TablePart;
use pair_dict::{Bookmarks, Damaged};

/// Blocks of this many bytes are long: a value in them is found sooner from a place that was passed before.
const LONG_BLOCK: usize = 128;

/// No bookmarks, which are right for any block of any part.
pub fn no_bookmarks() -> Bookmarks
    ensures { (p : PartAt) (block : ℕ) → AreMarksIn p block result }
{
    Bookmarks::none()
}

impl<'t, 'a> TablePart<'t, 'a> {
    /// Whether blocks have 128 bytes or more, so that bookmarks pay.
    pub fn has_long_blocks(&self) -> bool
        ensures { IsTrue result ↔ (128 ≤ block_bytes self.now) }
    {
        let view = self.view();
        match view.coding {
            Coding::Single(_) => false,
            Coding::Pairs(codes) => codes.block_size() >= LONG_BLOCK,
        }
    }

    /// The value in a real block at an offset, as `value_in_block` gives it, found from the last bookmark before it on. Bookmarks
    /// are added on the way.
    pub fn value_marked(
        &self,
        block: u32,
        offset: u32,
        marks: &mut Bookmarks,
    ) -> Result<u16, Damaged>
        requires real { block < real_blocks self.now }
        requires marks { AreMarksIn self.now block marks.old }
        ensures found { (index : ℕ) → IsSpot self.now index (At block offset) → IfOk result (λ v. entry_at (expansion self.now) index ≡ Some v) }
        ensures damaged { (index : ℕ) → IsSpot self.now index (At block offset) → OnErr result (entry_at (expansion self.now) index ≡ None) }
        ensures marks { AreMarksIn self.now block marks.new }
    {
        let view = self.view();
        match view.coding {
            Coding::Single(_) => unreachable!(),
            Coding::Pairs(codes) => codes.dictionary().value_marked(
                block_of(codes, view.blocks, block as usize),
                offset,
                marks,
            ),
        }
    }
}
