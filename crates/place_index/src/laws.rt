ghost use Rattle.place_index.specs.Choose.{SetsAreNumbered};
ghost use Rattle.place_index.specs.Covered.{FewMenHaveTables};
ghost use Rattle.place_index.specs.Index.{IndicesAreOne};
ghost use Rattle.place_index.specs.Kings.{KingsAreNumbered};
ghost use Rattle.place_index.specs.Others.{FreeSetsAreNumbered};
ghost use Rattle.place_index.specs.Pawns.{PawnsAreNumbered};
ghost use Rattle.place_index.specs.Three.{ThreesAreNumbered};

use crate::material::tables_are_numbered;

/// The number of each kind of group grows with the order of its placements, is below the group's size, and belongs to one
/// placement.
pub fn groups_are_numbered()
    ensures pawns { PawnsAreNumbered }
    ensures threes { ThreesAreNumbered }
    ensures kings { KingsAreNumbered }
    ensures sets { SetsAreNumbered }
    ensures others { FreeSetsAreNumbered }
{}

/// An index is below the shape's size, and two placements of one shape have equal indices only where their turned men are
/// equal.
pub fn indices_are_one()
    ensures { IndicesAreOne }
{}

/// Each position of three to five men has the material of a table, in the table's colours or with colours exchanged; no other
/// position has.
pub fn few_men_have_tables()
    ensures { FewMenHaveTables }
{
    tables_are_numbered();
}
