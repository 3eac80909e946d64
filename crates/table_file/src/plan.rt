//! Plans of table files.

use crate::kind::TableKind;
use crate::reading::has_bit;
use place_index::Material;

/// What a table file is to hold.
#[derive(Drop)]
pub struct Plan {
    /// What the values mean.
    pub kind: TableKind,
    /// The men.
    pub material: Material,
    /// Files of the leading pawn in order, a and h first, and of each file its sides in order. There are four files
    /// where there are pawns, else one. There are two sides in a WDL file of unsymmetric material, else one.
    pub parts: Vec<PartPlan>,
}

/// What a table file is to hold for a file of the leading pawn and a side to move.
#[derive(Drop)]
pub struct PartPlan {
    /// The codes of the men, in the order of their groups. The first side's P N B R Q K have 1 to 6, the second side's
    /// 9 to 14.
    pub pieces: Vec<u8>,
    /// The place of the leading group, 0 to 4.
    pub order: u8,
    /// The place of the other side's pawns, 0 to 4, where both sides have pawns.
    pub second: Option<u8>,
    /// The flags of the size record. Bit 7 says that there is a single value. In a DTZ file bit 0 is the stored side,
    /// bit 1 says that there are value maps, and bit 4 that they are wide. Bit 2 says that wins are in plies, bit 3
    /// that losses are.
    pub flags: u8,
    /// The values.
    pub content: Content,
    /// The value maps of a DTZ file.
    pub maps: MapsPlan,
}

/// The values of a file and a side.
#[derive(Drop)]
pub enum Content {
    /// One value for each index, 0 to 255; in a DTZ file 0.
    Single(u16),
    /// Values in blocks.
    Pairs(PairsPlan),
}

/// Values in blocks of symbols.
#[derive(Drop)]
pub struct PairsPlan {
    /// A block has 2 to this power bytes; 0 to 24.
    pub block_exponent: u8,
    /// There is a sparse entry for each 2 to this power values; 1 to 31.
    pub span_exponent: u8,
    /// The least length of a code in bits, 1 to 32.
    pub least: u8,
    /// The greatest length of a code in bits, 1 to 32.
    pub greatest: u8,
    /// The lowest symbol of each length from the least on, none greater than the one before.
    pub lowest: Vec<u16>,
    /// The symbols, 1 to 4095 of them: twelve bits of a left symbol and then twelve of a right one. With a right one of
    /// 4095 the left one is a value (Syzygy table format, the symbols of a size record).
    pub symbols: Vec<[u8; 3]>,
    /// The symbols of each block.
    pub blocks: Vec<Vec<u16>>,
}

/// The value maps of a file: what a stored value stands for, 0 to 255 where maps aren't wide.
#[derive(Drop)]
pub struct MapsPlan {
    /// For wins.
    pub win: Vec<u16>,
    /// For losses.
    pub loss: Vec<u16>,
    /// For wins that the fifty-move rule makes draws.
    pub cursed_win: Vec<u16>,
    /// For losses that the fifty-move rule makes draws.
    pub blessed_loss: Vec<u16>,
}

impl PartPlan {
    ghost use Rattle.std.specs.Prelude.{◌≡◌};
    ghost use Rattle.table_file.specs.Plan.{is_wide, has_maps};

    /// Whether there are value maps of two bytes an entry.
    pub(crate) fn is_wide(&self) -> bool
        ensures { result ≡ is_wide self.now }
    {
        has_bit(2, self.flags) && has_bit(16, self.flags)
    }

    /// Whether a file of a kind has value maps of the part.
    pub(crate) fn has_maps(&self, kind: TableKind) -> bool
        ensures { result ≡ has_maps kind self.now }
    {
        match kind {
            TableKind::Wdl => false,
            TableKind::Dtz => has_bit(2, self.flags),
        }
    }
}

impl MapsPlan {
    ghost use Rattle.std.specs.Prelude.{IsTrue, ◌↔◌};
    ghost use Rattle.table_file.specs.Plan.{HasNoMaps};

    /// Whether there is no entry.
    pub(crate) fn is_empty(&self) -> bool
        ensures { IsTrue result ↔ HasNoMaps self.now }
    {
        self.win.is_empty()
            && self.loss.is_empty()
            && self.cursed_win.is_empty()
            && self.blessed_loss.is_empty()
    }
}
