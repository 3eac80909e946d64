//! The places of a table file's parts: files of the leading pawn in order, and in each file its sides.

ghost use Rattle.std.specs.Prelude.{◌≡◌, ◌≤◌, ◌<◌, IfSome, IfNone};
ghost use Rattle.place_index.specs.Placed.{side_number};
ghost use Rattle.table_file.specs.Files.{side_count, side_of};
ghost use Rattle.table_file.specs.Tables.{part_count};
ghost use Rattle.table_file.specs.Inside.Places.{sides_count, IsPlace};

use crate::kind::TableKind;
use crate::material::{files, is_symmetric};
use board_core::Side;
use place_index::{Material, PawnFile};

/// How many sides to move a table file has in each file of the leading pawn.
#[derive(Clone, Copy)]
pub(crate) enum Sides {
    One,
    Two,
}

/// Where a part stands among those of a table file.
#[derive(Clone, Copy)]
pub(crate) struct PartPlace {
    pub(crate) side: Side,
    pub(crate) file: PawnFile,
    /// Whether no side follows in the file.
    pub(crate) is_last: bool,
}

impl Sides {
    /// Those of a table file of a kind for a material.
    #[tactic(auto, unfolding(crate::specs::Files::side_count))]
    pub(crate) fn of(kind: TableKind, material: &Material) -> Sides
        ensures { sides_count result ≡ side_count kind material.now }
    {
        match kind {
            TableKind::Wdl => {
                if is_symmetric(material) {
                    Sides::One
                } else {
                    Sides::Two
                }
            }
            TableKind::Dtz => Sides::One,
        }
    }

    /// How many they are.
    pub(crate) fn count(self) -> usize
        ensures { result ≡ sides_count self }
    {
        match self {
            Sides::One => 1,
            Sides::Two => 2,
        }
    }
}

/// The number of a side: 0 for the first side of the name, 1 for the second.
pub(crate) fn side_number(side: Side) -> u8
    ensures is { result ≡ side_number side }
    ensures few { result < 2 }
{
    match side {
        Side::White => 0,
        Side::Black => 1,
    }
}

/// The side of a number.
fn side_of(number: usize) -> Side
    ensures { result ≡ side_of number }
{
    if number == 0 {
        Side::White
    } else {
        Side::Black
    }
}

/// How many parts a table file of a kind has for a material.
pub(crate) fn part_count(kind: TableKind, material: &Material) -> usize
    ensures is { result ≡ part_count kind material.now }
    ensures few { result ≤ 8 }
{
    files(material) * Sides::of(kind, material).count()
}

/// The place of part k, where a table file of this kind has so many for the material.
pub(crate) fn place_at(kind: TableKind, material: &Material, k: usize) -> Option<PartPlace>
    ensures is { IfSome result (λ place. IsPlace (side_count kind material.now) k place) }
    ensures within { IfSome result (λ _. k < part_count kind material.now) }
    ensures none { IfNone result (part_count kind material.now ≤ k) }
{
    if part_count(kind, material) <= k {
        return None;
    }
    let sides = Sides::of(kind, material).count();
    let Some(file) = PawnFile::new((k / sides) as u8) else {
        return None;
    };
    Some(PartPlace {
        side: side_of(k % sides),
        file,
        is_last: k % sides + 1 == sides,
    })
}
