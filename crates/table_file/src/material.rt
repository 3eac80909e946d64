//! What follows from a material for its table files.

ghost use Rattle.std.specs.Prelude.{◌≡◌, ◌≤◌, length};
ghost use Rattle.place_index.specs.Material.{pieces_of};
ghost use Rattle.place_index.specs.Shape.{has_pawns, both_have_pawns, greatest_size};
ghost use Rattle.table_file.specs.Files.{is_symmetric, files_of, indices};

use place_index::{Material, Shape, tables_are_numbered};

/// Whether both sides have the same men.
pub(crate) fn is_symmetric(material: &Material) -> bool
    ensures { result ≡ is_symmetric material.now }
{
    material.symmetric()
}

/// Whether there are pawns.
pub(crate) fn has_pawns(material: &Material) -> bool
    ensures { result ≡ has_pawns material.now }
{
    material.has_pawns()
}

/// Whether both sides have pawns. A pawn's letter is the last of its side. The second side has at most one letter
/// beside its king's.
pub(crate) fn both_have_pawns(material: &Material) -> bool
    ensures { result ≡ both_have_pawns material.now }
{
    let _ = material.key();
    let name = material.name();
    let letters = name.as_str().as_bytes();
    letters[letters.len() - 1] == b'P' && letters[letters.len() - 4] == b'P'
}

/// How many men there are, the kings among them: a letter each.
pub(crate) fn men(material: &Material) -> usize
    ensures is { result ≡ length (pieces_of material.now) }
    ensures few { result ≤ 5 }
{
    let _ = material.key();
    let name = material.name();
    name.as_str().len() - 1
}

/// How many files of the leading pawn a table file has.
#[tactic(auto, unfolding(crate::specs::Files::files_of))]
pub(crate) fn files(material: &Material) -> usize
    ensures is { result ≡ files_of material.now }
    ensures some { 1 ≤ result }
    ensures few { result ≤ 4 }
{
    if has_pawns(material) { 4 } else { 1 }
}

/// How many indices a shape has.
#[tactic(auto, unfolding(crate::specs::Files::indices))]
pub(crate) fn indices(shape: &Shape) -> u64
    ensures is { result ≡ indices shape.now }
    ensures some { 1 ≤ result }
    ensures most { result ≤ greatest_size }
{
    shape.size()
}
