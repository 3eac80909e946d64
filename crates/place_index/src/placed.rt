ghost use Rattle.std.specs.Prelude.{◌≡◌, ◌<◌, ◌≤◌, ℕ, IfNone, IfSome, true, false, take, cond};
ghost use Rattle.board_core.specs.Side.{other};
ghost use Rattle.board_core.specs.declared.piece.Side.TheVariants.{White};
ghost use Rattle.place_index.specs.Index.{IsPlacement};
ghost use Rattle.place_index.specs.Material.{tally_of};
ghost use Rattle.place_index.specs.Men.{codes_of, exchanged};
ghost use Rattle.place_index.specs.Placed.{IsNamed, IsMaterialOf, IsSymmetric, IsLookedUp, men_on};
ghost use Rattle.place_index.specs.Shape.{has_pawns};
ghost use Rattle.place_index.specs.Turning.{lead_file, lead_pawn};
ghost use Rattle.place_index.specs.Inside.Turns.{lead_square};

use crate::finding::material_by_tally;
use crate::man::Man;
use crate::material::Material;
use crate::pawn_file::PawnFile;
use crate::sweep::{exchange, men_on};
use crate::turning::lead_pawn;
use board_core::{Position, Side, Square};
use std::marker::Model;

/// The key of a look-up in a table: a position's men with the colours of the table's name, the side to move, and the
/// file of the leading pawn.
#[derive(Drop, Debug)]
pub struct Placed {
    material: Material,
    men: [Man; 5],
    count: u8,
    side: Side,
    lead: Square,
    file: PawnFile,
}

impl Model for Placed {
    ghost use Rattle.place_index.specs.Placed.{Placement};
    ghost use Rattle.place_index.specs.Inside.LookUp.{placement_of, IsPlaced};

    ghost Value = { Placement };

    ghost view = { placement_of };

    ghost invariant = { IsPlaced };
}

impl Placed {
    /// The table's material.
    pub fn material(&self) -> Material
        ensures { result ≡ self.now.material }
    {
        self.material
    }

    /// The men, in the order of their squares before colours were exchanged.
    pub fn men(&self) -> &[Man]
        ensures is { result.now ≡ self.now.men }
        ensures known { self.now.material < 145 }
        ensures placement { IsPlacement self.now.material self.now.men }
        ensures file { lead_file self.now.material self.now.men ≡ self.now.file }
    {
        &self.men[..self.count as usize]
    }

    /// The side to move after the exchange of colours: white for the first side of the table's name.
    pub fn side(&self) -> Side
        ensures { result ≡ self.now.side }
    {
        self.side
    }

    /// The file that picks the table's record: that of the leading pawn mirrored to the left, and the first one without pawns.
    pub fn file(&self) -> PawnFile
        ensures is { result ≡ self.now.file }
        ensures first { has_pawns self.now.material ≡ false → result ≡ 0 }
    {
        self.file
    }

    /// The square of the leading pawn, where there are pawns.
    pub(crate) fn lead_pawn(&self) -> Square
        ensures { has_pawns self.now.material ≡ true → result ≡ lead_pawn self.now.material self.now.men }
    {
        self.lead
    }
}

/// The square of the leading pawn; 0 without pawns.
fn lead_square(material: Material, men: &[Man]) -> Square
    requires { IsPlacement material men.now }
    ensures { result ≡ lead_square material men.now }
{
    if material.has_pawns() {
        lead_pawn(material, men)
    } else {
        Square::at(0)
    }
}

/// Whether the position, whose men have this tally, is looked up with colours exchanged: where white's men are the name's
/// second side, and for symmetric material with black to move.
fn is_exchanged(material: Material, position: &Position, tally: u64) -> bool
    requires tally { tally ≡ tally_of (codes_of (men_on position.now.men)) }
    requires material { IsMaterialOf material (men_on position.now.men) }
    ensures named { IsNamed material (cond result (exchanged (men_on position.now.men)) (men_on position.now.men)) }
    ensures white { IsSymmetric material → cond result (other position.now.side) position.now.side ≡ White }
{
    // The condition that the key is below 145 serves the proof alone.
    let _key = material.key();
    // In either colours there are as many men as in the material, so equal tallies are equal men.
    if tally != material.tally() {
        return true;
    }
    position.side() == Side::Black && material.symmetric()
}

/// Exchanges colours, if so.
fn in_colours(men: &mut [Man; 5], exchanges: bool)
    ensures { men.new ≡ cond exchanges (exchanged men.old) men.old }
{
    if exchanges {
        exchange(men);
    }
}

/// The side to move after the exchange, if there is one.
fn side_after(side: Side, exchange: bool) -> Side
    ensures { result ≡ cond exchange (other side) side }
{
    if (side == Side::Black) != exchange {
        Side::Black
    } else {
        Side::White
    }
}

/// The position's men, which are the first `count` of these, as their table sees them.
fn looked_up(
    material: Material,
    position: &Position,
    mut men: [Man; 5],
    count: usize,
    exchanges: bool,
) -> Placed
    requires men { take count men ≡ men_on position.now.men }
    requires few { count ≤ 5 }
    requires named { IsNamed material (cond exchanges (exchanged (men_on position.now.men)) (men_on position.now.men)) }
    requires white { IsSymmetric material → cond exchanges (other position.now.side) position.now.side ≡ White }
    ensures { IsLookedUp material position.now result }
{
    // The conditions that it is a position and that the key is below 145 serve the proof alone.
    let _position = position.parts();
    let _key = material.key();
    in_colours(&mut men, exchanges);
    let lead = lead_square(material, &men[..count]);
    Placed {
        material,
        men,
        count: count as u8,
        side: side_after(position.side(), exchanges),
        lead,
        file: PawnFile::of(lead),
    }
}

impl Placed {
    /// The position as its table sees it, found by one look at its men: what `Material::of` finds, and then what `place` gives for
    /// that material (Syzygy tables). `None` for bare kings and for more than five men. It takes no memory.
    pub fn of(position: &Position) -> Option<Placed>
        ensures material { IfSome result (λ placed. IsMaterialOf placed.material (men_on position.now.men)) }
        ensures placed { IfSome result (λ placed. IsLookedUp placed.material position.now placed) }
        ensures none { IfNone result ((key : ℕ) → key < 145 → IsMaterialOf key (men_on position.now.men) → ⊥) }
    {
        if position.men() > 5 {
            return None;
        }
        let mut men = [Man::default(); 5];
        let (count, tally) = men_on(position, &mut men);
        let Some(material) = material_by_tally(tally) else {
            return None;
        };
        let exchanges = is_exchanged(material, position, tally);
        Some(looked_up(material, position, men, count, exchanges))
    }
}

/// A position as its table sees it (Syzygy tables). Where white's men are the name's second side, or symmetric material
/// has black to move, colours are exchanged and squares go to the opposite rank. That the material is the position's is
/// the caller's condition.
pub fn place(position: &Position, material: &Material) -> Placed
    requires { IsMaterialOf material.now (men_on position.now.men) }
    ensures { IsLookedUp material.now position.now result }
{
    // The condition that the key is below 145 serves the proof alone.
    let _key = material.key();
    let mut men = [Man::default(); 5];
    let (count, tally) = men_on(position, &mut men);
    let exchanges = is_exchanged(*material, position, tally);
    looked_up(*material, position, men, count, exchanges)
}
