//! How many placements the groups of a shape have.

ghost use Rattle.std.specs.Prelude.{◌≡◌, ◌≤◌, ◌<◌, ◌-◌, ◌+◌, ◌∷◌, length, sum_by};
ghost use Rattle.place_index.specs.Inside.Arranged.{groups_in, sizes_in};
ghost use Rattle.place_index.specs.Shape.{lead_size, other_sizes, product, greatest_size};

use crate::arrangement::Arrangement;
use crate::choose::choices;
use crate::group::Group;
use crate::material::{Material, leading_men};
use crate::pawn_file::PawnFile;
use crate::tables::PAWN_PLACEMENTS;
use arrayvec::ArrayVec;
use std::marker::Model;

/// How many placements the groups of a table have, in the order of the groups.
#[derive(Drop)]
pub(crate) struct Sizes {
    sizes: ArrayVec<u64, 5>,
}

impl Model for Sizes {
    ghost use Rattle.std.specs.Prelude.{ℕ, List};
    ghost use Rattle.place_index.specs.Inside.GroupSizes.{AreSizes};

    ghost Value = { List ℕ };

    ghost view = { λ s. s.sizes.items };

    ghost invariant = { AreSizes };
}

impl Sizes {
    /// The sizes for leading pawns on this file.
    pub(crate) fn of(arrangement: &Arrangement, file: PawnFile) -> Sizes
        ensures is { result ≡ sizes_in arrangement.now file }
        ensures len { length result ≡ length (groups_in arrangement.now) }
        ensures left { file < 4 }
    {
        let material = arrangement.material();
        let first = leading_size(material, file);
        let lead = leading_men(material);
        let groups = arrangement.groups();
        Sizes {
            sizes: all_sizes(first, lead, &groups[1..]),
        }
    }

    /// The sizes.
    pub(crate) fn as_slice(&self) -> &[u64]
        ensures is { result.now ≡ self.now }
        ensures few { length self.now ≤ 5 }
        ensures some { 1 ≤ product self.now }
        ensures fits { product self.now ≤ greatest_size }
    {
        self.sizes.as_slice()
    }

    /// The product of all sizes.
    pub(crate) fn product(&self) -> u64
        ensures is { result ≡ product self.now }
        ensures some { 1 ≤ result }
        ensures fits { result ≤ greatest_size }
    {
        let all = self.as_slice();
        let mut product: u64 = 1;
        for size in all {
            product *= *size;
        }
        product
    }
}

/// How many placements the leading group has, for leading pawns on this file.
fn leading_size(material: Material, file: PawnFile) -> u64
    ensures is { result ≡ lead_size material file }
    ensures left { file < 4 }
{
    let lead = leading_men(material);
    let file = file.number();
    if material.has_pawns() {
        return PAWN_PLACEMENTS[(lead as usize - 1) * 4 + file as usize] as u64;
    }
    if lead == 3 { 31332 } else { 462 }
}

/// The sizes of all groups; the first one has this many men and this size.
fn all_sizes(first: u64, lead: u8, groups: &[Group]) -> ArrayVec<u64, 5>
    requires lead { lead ≤ 3 }
    requires groups { length groups.now ≤ 4 }
    requires men { sum_by (λ g. g.men) groups.now ≤ 5 }
    ensures is { result.items ≡ first ∷ other_sizes lead (64 - lead) groups.now }
    ensures len { length result.items ≡ 1 + length groups.now }
{
    let mut sizes = ArrayVec::<u64, 5>::new();
    sizes.push(first);
    let mut free = 64 - lead;
    for group in groups {
        let squares = group.squares(lead, free);
        sizes.push(choices(squares as u64, group.men as u64));
        free -= group.men;
    }
    sizes
}
