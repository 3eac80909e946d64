ghost use Rattle.std.specs.Prelude.{◌≡◌, ◌≤◌, ◌<◌, ◌↔◌, IfOk, OnOk, Err, Some, None, IsTrue, cond, length};
ghost use Rattle.place_index.specs.Shape.{layout, both_have_pawns, HasGoodPieces, HasGoodOrder, groups_of, factors_of, size_of, greatest_size};
ghost use Rattle.place_index.specs.Index.{IsShape};
ghost use Rattle.std.specs.Option.{ForSome};

use crate::arrangement::Arrangement;
use crate::group::Group;
use crate::material::{Material, both_have_pawns};
use crate::pawn_file::PawnFile;
use crate::piece_code::PieceCode;
use crate::places::{factors, places};
use crate::sizes::Sizes;
use arrayvec::ArrayVec;
use std::marker::Model;

/// Why a table file's pieces and order nibbles make no shape.
#[derive(Clone, Copy, PartialEq, Eq, Debug)]
pub enum ShapeFault {
    /// The pieces are not the men of the material with equal ones side by side, or do not begin with the leading men.
    /// With pawns these are the leading colour's pawns, followed by the other's. Without pawns they are three pieces
    /// that each occur once, if some piece other than a king occurs once, and otherwise the two kings.
    BadPieces,
    /// An order nibble is no place of a group, or both sides' pawns have the same place.
    BadOrder,
}

/// In which order a table takes its men, for one side to move and one file of the leading pawn (Syzygy index, groups).
///
/// Its men fall into groups, each of which has a number among the placements of its men. The index is the sum of these
/// numbers times the groups' factors.
#[derive(Drop, Debug)]
pub struct Shape {
    arrangement: Arrangement,
    order: u8,
    second: u8,
    file: PawnFile,
    factors: ArrayVec<u32, 5>,
    size: u32,
}

impl Model for Shape {
    ghost use Rattle.place_index.specs.Shape.{Layout};

    ghost Value = { Layout };

    ghost use Rattle.place_index.specs.Inside.ShapeFields.{layout_of, AreFields};

    ghost view = { layout_of };

    ghost invariant = { AreFields };
}

/// The place of the pawns that don't lead, where both sides have pawns.
fn second_place(material: Material, second: u8) -> Option<u8>
    ensures { result ≡ cond (both_have_pawns material) (Some second) None }
{
    if both_have_pawns(material) {
        Some(second)
    } else {
        None
    }
}

/// Whether the order nibbles are places of so many groups, different ones where both sides have pawns.
fn has_good_order(groups: usize, order: u8, second: Option<u8>) -> bool
    ensures { IsTrue result ↔ (order < groups) × ForSome second (λ s. (s < groups) × (s ≡ order → ⊥)) }
{
    let second_is_good = match second {
        Some(place) => (place as usize) < groups && place != order,
        None => true,
    };
    (order as usize) < groups && second_is_good
}

impl Shape {
    /// The shape of a table with this material, for leading pawns on this file.
    ///
    /// The pieces are codes of the table file: 1 to 6 for white's pawn, knight, bishop, rook, queen and king, 9 to 14
    /// for black's. `order` is the place of the leading group among the groups, and `second` that of the other side's
    /// pawns, which is ignored unless both sides have pawns.
    ///
    /// `BadPieces` comes before `BadOrder`.
    pub fn new(
        material: &Material,
        pieces: &[u8],
        order: u8,
        second: u8,
        file: PawnFile,
    ) -> Result<Shape, ShapeFault>
        ensures shape { IfOk result (λ s. s ≡ layout material.now pieces.now order second file) }
        ensures good { OnOk result (HasGoodPieces material.now pieces.now × HasGoodOrder (layout material.now pieces.now order second file)) }

        ensures bad_pieces { (result ≡ Err ShapeFault.BadPieces) ↔ (HasGoodPieces material.now pieces.now → ⊥) }
        ensures bad_order { result ≡ Err ShapeFault.BadOrder → HasGoodPieces material.now pieces.now × (HasGoodOrder (layout material.now pieces.now order second file) → ⊥) }
    {
        let Some(arrangement) = Arrangement::new(*material, pieces) else {
            return Err(ShapeFault::BadPieces);
        };
        let groups = arrangement.groups().len();
        let second_place = second_place(*material, second);
        if !has_good_order(groups, order, second_place) {
            return Err(ShapeFault::BadOrder);
        }
        let sizes = Sizes::of(&arrangement, file);
        let places = places(groups, order, second_place);
        Ok(Shape {
            arrangement,
            order,
            second,
            file,
            factors: factors(places.as_slice(), &sizes),
            size: sizes.product() as u32,
        })
    }

    /// The table's material.
    pub fn material(&self) -> Material
        ensures is { result ≡ self.now.material }
        ensures shape { IsShape self.now }
    {
        self.arrangement.material()
    }

    /// The pieces in the order of the groups.
    pub fn pieces(&self) -> &[PieceCode]
        ensures is { result.now ≡ self.now.pieces }
        ensures least { 3 ≤ length result.now }
    {
        self.arrangement.pieces()
    }

    /// Whether the pieces have these codes of a table file, in this order.
    pub fn has_pieces(&self, codes: &[u8]) -> bool
        ensures { IsTrue result ↔ (self.now.pieces ≡ codes.now) }
    {
        let pieces = self.pieces();
        if pieces.len() != codes.len() {
            return false;
        }
        for i in 0..pieces.len() {
            if pieces[i].number() != codes[i] {
                return false;
            }
        }
        true
    }

    /// The place of the leading group among all groups.
    pub fn order(&self) -> u8
        ensures { result ≡ self.now.order }
    {
        self.order
    }

    /// The place of the other side's pawns, where both sides have pawns. Otherwise it is the ignored argument from
    /// which the shape was made.
    pub fn second(&self) -> u8
        ensures { result ≡ self.now.second }
    {
        self.second
    }

    /// The file of the leading pawn.
    pub fn file(&self) -> PawnFile
        ensures { result ≡ self.now.file }
    {
        self.file
    }

    /// The leading group, then the runs of equal pieces after it.
    pub fn groups(&self) -> &[Group]
        ensures { result.now ≡ groups_of self.now }
    {
        self.arrangement.groups()
    }

    /// By what each group's number is multiplied, a number for each group in their order; the lowest is 1.
    pub fn factors(&self) -> &[u32]
        ensures { result.now ≡ factors_of self.now }
    {
        self.factors.as_slice()
    }

    /// How many indices there are, 1 to 114,675,120: the product of the groups' sizes.
    pub fn size(&self) -> u64
        ensures is { result ≡ size_of self.now }
        ensures some { 1 ≤ result }
        ensures most { result ≤ greatest_size }
    {
        self.size as u64
    }
}
