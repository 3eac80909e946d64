//! The men of a material in an order in which its tables may take them.

ghost use Rattle.std.specs.Prelude.{◌≡◌, ◌↔◌, ◌≤◌, ◌<◌, ◌+◌, ◌⊎◌, ℕ, IfNone, IfSome, IsTrue, true, length, slice_index};
ghost use Rattle.std.specs.List.Sorted.{IsPermutation};
ghost use Rattle.place_index.specs.Inside.Arranged.{arranged, groups_in};
ghost use Rattle.place_index.specs.Material.{IsPieceCode, pieces_of, count_of};
ghost use Rattle.place_index.specs.Shape.{IsSideBySide, AreAll, BeginsByPawns, BeginsByThree, BeginsByKings, BeginsWell, HasGoodPieces, has_pawns};

use crate::group::{Group, groups};
use crate::material::{Material, leading_men, leading_pawn, men, other_pawn, other_pawns};
use crate::piece_code::PieceCode;
use arrayvec::ArrayVec;
use std::marker::Model;

/// The men of a material in an order in which its tables may take them, and their groups.
#[derive(Drop, Debug)]
pub(crate) struct Arrangement {
    material: Material,
    pieces: ArrayVec<PieceCode, 5>,
    groups: ArrayVec<Group, 5>,
}

impl Model for Arrangement {
    ghost use Rattle.place_index.specs.Inside.Arranged.{Arranged};

    ghost Value = { Arranged };

    ghost use Rattle.place_index.specs.Inside.Arrangements.{arranged_men, IsArranged};

    ghost view = { arranged_men };

    ghost invariant = { IsArranged };
}

impl Arrangement {
    /// The material's men in the order of these codes of a table file; none where no table of the material gives them so.
    pub(crate) fn new(material: Material, codes: &[u8]) -> Option<Arrangement>
        ensures is { IfSome result (λ a. a ≡ arranged material codes.now) }
        ensures good { IfSome result (λ _. HasGoodPieces material codes.now) }
        ensures none { IfNone result (HasGoodPieces material codes.now → ⊥) }
    {
        let lead = leading_men(material);
        let Some(pieces) = coded(codes) else {
            return None;
        };
        if !has_good_pieces(material, pieces.as_slice()) {
            return None;
        }
        let groups = groups(lead, pieces.as_slice());
        Some(Arrangement {
            material,
            pieces,
            groups,
        })
    }

    /// The material.
    pub(crate) fn material(&self) -> Material
        ensures is { result ≡ self.now.material }
        ensures known { self.now.material < 145 }
        ensures good { HasGoodPieces self.now.material self.now.pieces }
    {
        self.material
    }

    /// The pieces in their order.
    pub(crate) fn pieces(&self) -> &[PieceCode]
        ensures is { result.now ≡ self.now.pieces }
        ensures least { 3 ≤ length result.now }
    {
        self.pieces.as_slice()
    }

    /// The leading group, then the runs of equal pieces after it.
    pub(crate) fn groups(&self) -> &[Group]
        ensures is { result.now ≡ groups_in self.now }
        ensures few { length result.now ≤ 5 }
    {
        self.groups.as_slice()
    }
}

/// The pieces of these codes; none where there are more than five, or no piece has one of them.
fn coded(codes: &[u8]) -> Option<ArrayVec<PieceCode, 5>>
    ensures pieces { IfSome result (λ pieces. pieces.items ≡ codes.now) }
    ensures none { IfNone result ((5 < length codes.now) ⊎ ((k : ℕ) × (k < length codes.now) × (IsPieceCode (slice_index codes.now k) → ⊥))) }
{
    if codes.len() > 5 {
        return None;
    }
    let mut pieces = ArrayVec::<PieceCode, 5>::new();
    for code in codes {
        let Some(piece) = PieceCode::new(*code) else {
            return None;
        };
        pieces.push(piece);
    }
    Some(pieces)
}

/// How many of the pieces have this code.
#[tactic(auto, unfolding(crate::specs::Material::count_of))]
fn occurrences(pieces: &[PieceCode], code: PieceCode) -> usize
    ensures { result ≡ count_of pieces.now code }
{
    pieces.iter().filter(|piece| **piece == code).count()
}

/// Whether the pieces are the men of the material.
fn is_arrangement(material: Material, pieces: &[PieceCode]) -> bool
    ensures { IsTrue result ↔ IsPermutation pieces.now (pieces_of material) }
{
    if pieces.len() != men(material) as usize {
        return false;
    }
    for piece in pieces {
        if occurrences(pieces, *piece) != material.count(*piece) as usize {
            return false;
        }
    }
    true
}

/// Whether equal pieces stand side by side.
fn is_side_by_side(pieces: &[PieceCode]) -> bool
    ensures { IsTrue result ↔ IsSideBySide pieces.now }
{
    for k in 1..pieces.len() {
        if pieces[k] != pieces[k - 1] && pieces[..k].contains(&pieces[k]) {
            return false;
        }
    }
    true
}

/// Whether the pieces from one place on and before another one all have this code.
fn are_all(pieces: &[PieceCode], from: usize, to: usize, code: PieceCode) -> bool
    requires { to ≤ length pieces.now }
    ensures { IsTrue result ↔ AreAll pieces.now from to code }
{
    for i in from..to {
        if pieces[i] != code {
            return false;
        }
    }
    true
}

fn begins_by_pawns(material: Material, pieces: &[PieceCode]) -> bool
    requires pawns { has_pawns material ≡ true }
    requires men { length pieces.now ≡ length (pieces_of material) }
    ensures { IsTrue result ↔ BeginsByPawns material pieces.now }
{
    let lead = leading_men(material) as usize;
    let both = lead + other_pawns(material) as usize;
    are_all(pieces, 0, lead, leading_pawn(material))
        && are_all(pieces, lead, both, other_pawn(material))
}

fn begins_by_three(pieces: &[PieceCode]) -> bool
    requires { 3 ≤ length pieces.now }
    ensures { IsTrue result ↔ BeginsByThree pieces.now }
{
    for i in 0..3 {
        if occurrences(pieces, pieces[i]) != 1 {
            return false;
        }
    }
    true
}

fn begins_by_kings(pieces: &[PieceCode]) -> bool
    requires { 3 ≤ length pieces.now }
    ensures { IsTrue result ↔ BeginsByKings pieces.now }
{
    let first = pieces[0];
    let second = pieces[1];
    first == PieceCode::WHITE_KING && second == PieceCode::BLACK_KING
        || first == PieceCode::BLACK_KING && second == PieceCode::WHITE_KING
}

/// Whether the leading men come first.
fn begins_well(material: Material, pieces: &[PieceCode]) -> bool
    requires { length pieces.now ≡ length (pieces_of material) }
    ensures { IsTrue result ↔ BeginsWell material pieces.now }
{
    if material.has_pawns() {
        begins_by_pawns(material, pieces)
    } else if leading_men(material) == 3 {
        begins_by_three(pieces)
    } else {
        begins_by_kings(pieces)
    }
}

/// Whether a table of this material may give its pieces in this order.
fn has_good_pieces(material: Material, pieces: &[PieceCode]) -> bool
    ensures { IsTrue result ↔ HasGoodPieces material pieces.now }
{
    if !is_arrangement(material, pieces) {
        return false;
    }
    is_side_by_side(pieces) && begins_well(material, pieces)
}
