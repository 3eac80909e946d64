//! Which men a table of three to five men is for, and how it numbers their placements.
//!
//! Names, pieces and positions go in; a table's material, the shape of an index, a position as its table sees it, and its index
//! come out. Nothing takes memory. The way of a position: `sweep` (its men), `finding` (its material), `placed`, `turning` and
//! `turn` (mirrorings), `indexing` (the page of this file works an example through), `leading`, `group`. What these stand on:
//! `material`, `man`, `piece_code`, `pawn_file`, `shape`, `arrangement`, `places`, `sizes`, `squares`, `lone_squares`, `short_lists`,
//! `choose`, `numbers`, `tables`; and `laws`. The numbers of `tables` are literals, proved to be those of the definitions;
//! `tools/index_tables` prints them anew.
//!
//! Words of Stockfish: the mirror along a1-h8 is `off_A1H8`, to files a to d `flip_file`; triangles `MapA1D1D4`, `MapB1H1H7`,
//! kings `MapKK`, pawns `MapPawns`, leading pawns `LeadPawnIdx`, `LeadPawnsSize`; groups `set_groups`, `groupIdx`; the index
//! `do_probe_table`. Where: the mirror in `Turn::square` (its rule `across` in `specs/Square.antt`), when it applies in
//! `turn_of_pieces`, two kings in `kings_number`, the order of groups in `src/places.rt`, pawns in `pawn_number`.
//! Fathom's words: `index` is `encode`, `Placed::file` is `leading_pawn` with `FileToFile`, `lead_pawn` the pawn that it finds.
//!
//! Definitions, in reading order: `Material`, `Square`, `Counting`, `Choose`, `Men`, `Pawns`, `Three`, `Kings`, `Others`, `Shape`,
//! `Turning`, `Index` (`index_of`), `Placed`, `Covered`. `proofs/Indices/WorkedRows.antt` computes six worked indices; those with
//! pawns are cases in `indices.txt` of `rows`. A hundred seeded positions of each material are compared with a plain count by
//! `seeded_tests` of `checks`.
//!
//! - CLAIM: `Material::from_name`, clauses `found`, `none`; `Material::name`; `Material::key`, clauses `is`, `below`;
//!   `Material::symmetric`; `Material::has_pawns`; `tables_are_numbered`: the names of the 145 tables and no other text name a
//!   material. Keys, men and names are one to one; whether both sides have the same men, and whether there are pawns.
//! - CLAIM: `Material::of`, clauses `found`, `none`; `Placed::of`, clauses `material`, `none`: a position's material is reported
//!   where a table has its men, in its colours or exchanged, and none where no table has.
//! - CLAIM: `few_men_have_tables`: a table has the men of each position of three to five men, and of no other.
//! - CLAIM: `Shape::new`, clauses `shape`, `good`, `bad_pieces`, `bad_order`; `Shape::groups`; `Shape::factors`; `Shape::size`,
//!   clauses `is`, `most`: a shape is made exactly of pieces and orders that the format allows, `BadPieces` before `BadOrder`,
//!   and its size is 1 to 114,675,120.
//! - CLAIM: `place`; `Placed::men`, clauses `is`, `placement`; `Placed::side`; `Placed::file`, clause `is`: a position is looked
//!   up with colours exchanged where the table's name requires it.
//! - CLAIM: `index`, clauses `is`, `below`: the index is the sum of the definition, below the size.
//! - CLAIM: `indices_are_one`; `groups_are_numbered`, clauses `pawns`, `threes`, `kings`, `sets`, `others`: two placements of one
//!   shape have the same index only where their turned men are the same; a later placement of a group has a greater number, below
//!   the group's size.
//! - CLAIM: `parts_are_listed`; `pascals_rule`: `choose` is the number of k-element parts.
//! - CLAIM: `PieceCode::new`, clauses `known`, `code`; `PawnFile::new`, clauses `left`, `number`; `Shape::order`;
//!   `Shape::second`; `Shape::has_pieces`: piece codes, files of leading pawns, orders and pieces are what they say.
#![tactic(auto)]

mod arrangement;
mod choose;
mod finding;
mod group;
mod indexing;
mod laws;
mod leading;
mod lone_squares;
mod man;
mod material;
mod numbers;
mod pawn_file;
mod piece_code;
mod placed;
mod places;
mod shape;
mod short_lists;
mod sizes;
mod squares;
mod sweep;
mod tables;
mod turn;
mod turning;

pub use choose::{parts_are_listed, pascals_rule};
pub use group::Group;
pub use indexing::index;
pub use laws::{few_men_have_tables, groups_are_numbered, indices_are_one};
pub use man::Man;
pub use material::{Material, tables_are_numbered};
pub use pawn_file::PawnFile;
pub use piece_code::PieceCode;
pub use placed::{Placed, place};
pub use shape::{Shape, ShapeFault};
