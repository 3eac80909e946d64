//! The material of a position.

ghost use Rattle.std.specs.Prelude.{◌≡◌, ◌<◌, ℕ, IfSome, IfNone};
ghost use Rattle.place_index.specs.Inside.LookUp.{HasTally, key_by_tally, rotated};
ghost use Rattle.place_index.specs.Placed.{IsMaterialOf, men_on};

use crate::man::Man;
use crate::material::Material;
use crate::sweep::men_on;
use crate::tables::KEYS;
use board_core::Position;

/// The tally of the same men with colours exchanged.
pub(crate) fn rotated(tally: u64) -> u64
    ensures { result ≡ rotated tally }
{
    tally.rotate_left(32)
}

/// The only key that men with this tally can have, in the table's colours or with colours exchanged; 145 for none.
fn key_by_tally(tally: u64) -> u8
    ensures { result ≡ key_by_tally tally }
{
    let greater = tally.max(rotated(tally));
    KEYS[(greater % 1181) as usize]
}

/// The material of men with this tally, in the table's colours or with colours exchanged.
pub(crate) fn material_by_tally(tally: u64) -> Option<Material>
    ensures found { IfSome result (λ m. (m < 145) × HasTally m tally) }
    ensures none { IfNone result ((key : ℕ) → key < 145 → HasTally key tally → ⊥) }
{
    let Some(material) = Material::with_key(key_by_tally(tally)) else {
        return None;
    };
    let own = material.tally();
    if tally == own {
        return Some(material);
    }
    let other = rotated(tally);
    if other == own { Some(material) } else { None }
}

impl Material {
    /// The material of the table in which the position is looked up, in the table's colours or with colours exchanged; `None`
    /// for bare kings and for more than five men. Castling rights don't matter.
    pub fn of(position: &Position) -> Option<Material>
        ensures found { IfSome result (λ m. IsMaterialOf m (men_on position.now.men)) }
        ensures none { IfNone result ((key : ℕ) → key < 145 → IsMaterialOf key (men_on position.now.men) → ⊥) }
    {
        if position.men() > 5 {
            return None;
        }
        let mut men = [Man::default(); 5];
        let (_, tally) = men_on(position, &mut men);
        material_by_tally(tally)
    }
}
