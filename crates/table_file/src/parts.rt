//! The parts of a file, in their order.

ghost use Rattle.std.specs.Prelude.{◌≡◌, ◌≢◌, ◌≤◌, ℕ, length, map, IfOk, IfErr};
ghost use Rattle.std.specs.List.{range_with_len};
ghost use Rattle.place_index.specs.Shape.{greatest_size};
ghost use Rattle.table_file.specs.declared.fault.TableFault.TheVariants.{OutOfMemory};
ghost use Rattle.table_file.specs.Reading.{Gives, each_at};
ghost use Rattle.table_file.specs.Sections.{AreSized};
ghost use Rattle.table_file.specs.Tables.{part_count};
ghost use Rattle.table_file.specs.Inside.Opening.{both_setups_at};
ghost use Rattle.table_file.specs.Inside.Places.{IsPlace};
ghost use Rattle.table_file.specs.Shapes.{shape_at};
ghost use Rattle.table_file.specs.Files.{indices, side_count, body_of, magic_of, magic_at, same, flags_agree, flags_at, nibble, second_at, setup_at, part_at, section_size, section_at};

use crate::fault::TableFault;
use crate::kind::TableKind;
use crate::material::{both_have_pawns, has_pawns, indices, is_symmetric, men};
use crate::places::{PartPlace, place_at};
use crate::reading::{FileBytes, aligned, byte, has_bit, number, taken};
use crate::size_record::{Coding, SizeRecord, size_record};
use arrayvec::ArrayVec;
use board_core::Side;
use place_index::{Material, PawnFile, Shape, ShapeFault};
use std::alloc::Global;

/// A shape, and the coding of its values.
#[derive(Drop)]
pub(crate) struct Part<'a> {
    pub(crate) shape: Shape,
    pub(crate) size_record: SizeRecord<'a>,
}

/// The sections after the value maps, each for all parts.
#[derive(Clone, Copy)]
pub(crate) enum Section {
    Entries,
    Lengths,
    Blocks,
}

/// The file without its checksum.
#[tactic(auto, unfolding(crate::specs::Files::body_of))]
pub(crate) fn body(file: &[u8]) -> Result<&[u8], TableFault>
    ensures is { Gives (λ x. x.now) result (body_of file.now) }
    ensures no_memory { IfErr result (λ e. e ≢ OutOfMemory) }
{
    if file.len() < 80 || file.len() % 64 != 16 {
        return Err(TableFault::BadSize);
    }
    let (body, _) = file.split_at(file.len() - 16);
    Ok(body)
}

/// The first four bytes of a kind of table file as a number, the low one first.
pub(crate) fn magic_of(kind: TableKind) -> u32
    ensures { result ≡ magic_of kind }
{
    match kind {
        TableKind::Wdl => 0x5D23_E871,
        TableKind::Dtz => 0xA50C_66D7,
    }
}

/// What is left after the magic number of a kind.
#[tactic(auto, unfolding(crate::specs::Files::magic_at))]
pub(crate) fn magic(kind: TableKind, bytes: &[u8]) -> Result<&[u8], TableFault>
    ensures is { Gives (λ x. x.now) result (magic_at kind bytes.now) }
    ensures no_memory { IfErr result (λ e. e ≢ OutOfMemory) }
{
    let (magic, rest) = number(bytes)?;
    if magic != magic_of(kind) {
        return Err(TableFault::BadMagic);
    }
    Ok(rest)
}

fn same(a: bool, b: bool) -> bool
    ensures { result ≡ same a b }
{
    if a { b } else { !b }
}

/// Whether the flags byte of a file agrees with its name.
fn flags_agree(kind: TableKind, material: &Material, flags: u8) -> bool
    ensures { result ≡ flags_agree kind material.now flags }
{
    let pawns = same(has_bit(2, flags), has_pawns(material));
    match kind {
        TableKind::Wdl => pawns && same(has_bit(1, flags), !is_symmetric(material)),
        TableKind::Dtz => pawns,
    }
}

/// What is left after the flags byte.
#[tactic(auto, unfolding(crate::specs::Files::flags_at))]
pub(crate) fn flags<'a>(
    kind: TableKind,
    material: &Material,
    bytes: &'a [u8],
) -> Result<&'a [u8], TableFault>
    ensures is { Gives (λ x. x.now) result (flags_at kind material.now bytes.now) }
    ensures no_memory { IfErr result (λ e. e ≢ OutOfMemory) }
{
    let (flags, rest) = byte(bytes)?;
    if !flags_agree(kind, material, flags) {
        return Err(TableFault::BadFlags);
    }
    Ok(rest)
}

/// The half of a byte that is a side's.
fn nibble(side: Side, byte: u8) -> u8
    ensures { result ≡ nibble side byte }
{
    match side {
        Side::White => byte % 16,
        Side::Black => byte / 16,
    }
}

/// The halves of some bytes that belong to a side.
fn nibbles(side: Side, bytes: &[u8]) -> ArrayVec<u8, 5>
    requires { length bytes.now ≤ 5 }
    ensures { result.items ≡ map (nibble side) bytes.now }
{
    let mut out = ArrayVec::<u8, 5>::new();
    for byte in bytes {
        out.push(nibble(side, *byte));
    }
    out
}

/// The second order byte, where both sides have pawns, and what is left.
#[tactic(auto, unfolding(crate::specs::Files::second_at))]
fn second<'a>(material: &Material, bytes: &'a [u8]) -> Result<(u8, &'a [u8]), TableFault>
    ensures is { Gives (λ x. (x.0, x.1.now)) result (second_at material.now bytes.now) }
    ensures no_memory { IfErr result (λ e. e ≢ OutOfMemory) }
{
    if both_have_pawns(material) {
        byte(bytes)
    } else {
        Ok((0, bytes))
    }
}

/// The shape that pieces and order nibbles make.
#[tactic(auto, unfolding(crate::specs::Shapes::shape_at))]
fn shape(
    material: &Material,
    pieces: &[u8],
    order: u8,
    second: u8,
    file: PawnFile,
) -> Result<Shape, TableFault>
    ensures is { Gives (λ x. x) result (shape_at material.now pieces.now order second file) }
    ensures no_memory { IfErr result (λ e. e ≢ OutOfMemory) }
{
    let _ = material.key();
    match Shape::new(material, pieces, order, second, file) {
        Ok(shape) => Ok(shape),
        Err(ShapeFault::BadPieces) => Err(TableFault::BadPieces),
        Err(ShapeFault::BadOrder) => Err(TableFault::BadOrder),
    }
}

/// The shape made by a side's halves of some bytes.
fn side_shape(
    material: &Material,
    side: Side,
    men: &[u8],
    order: u8,
    second: u8,
    file: PawnFile,
) -> Result<Shape, TableFault>
    requires { length men.now ≤ 5 }
    ensures is { Gives (λ x. x) result (shape_at material.now (map (nibble side) men.now) (nibble side order) (nibble side second) file) }
    ensures no_memory { IfErr result (λ e. e ≢ OutOfMemory) }
{
    let pieces = nibbles(side, men);
    shape(
        material,
        pieces.as_slice(),
        nibble(side, order),
        nibble(side, second),
        file,
    )
}

/// The order bytes and the pieces of a file of the leading pawn, of both sides, and what is left.
#[tactic(auto, unfolding(crate::specs::Inside::Opening::both_setups_at))]
fn both_setups<'a>(
    material: &Material,
    bytes: &'a [u8],
) -> Result<((u8, u8, &'a [u8]), &'a [u8]), TableFault>
    ensures is { Gives (λ x. ((x.0.0, x.0.1, x.0.2.now), x.1.now)) result (both_setups_at material.now bytes.now) }
    ensures few { IfOk result (λ x. length x.0.2.now ≤ 5) }
    ensures no_memory { IfErr result (λ e. e ≢ OutOfMemory) }
{
    let (order, rest) = byte(bytes)?;
    let (second, rest) = second(material, rest)?;
    let (men, rest) = taken(men(material), rest)?;
    Ok(((order, second, men), rest))
}

/// The shape of the part at a place, and what is left.
fn setup<'a>(
    material: &Material,
    place: PartPlace,
    bytes: &'a [u8],
) -> Result<(Shape, &'a [u8]), TableFault>
    ensures is { (sides k : ℕ) → IsPlace sides k place → Gives (λ x. (x.0, x.1.now)) result (setup_at material.now sides k bytes.now) }
    ensures no_memory { IfErr result (λ e. e ≢ OutOfMemory) }
{
    let ((order, second, men), rest) = match both_setups(material, bytes) {
        Ok(read) => read,
        Err(fault) => return Err(fault),
    };
    match side_shape(material, place.side, men, order, second, place.file) {
        Ok(shape) => Ok((shape, if place.is_last { rest } else { bytes })),
        Err(fault) => Err(fault),
    }
}

/// The shapes of all parts, and what is left.
pub(crate) fn setups<'a>(
    alloc: Global,
    kind: TableKind,
    material: &Material,
    bytes: &'a [u8],
) -> Result<(Vec<Shape>, &'a [u8]), TableFault>
    ensures is { Gives (λ x. (x.0.items, x.1.now)) result (each_at (setup_at material.now (side_count kind material.now)) (range_with_len 0 (part_count kind material.now)) bytes.now) }
    ensures all { IfOk result (λ x. length x.0.items ≡ part_count kind material.now) }
{
    let mut shapes = Vec::new(alloc);
    let mut rest = bytes;
    'places: while let Some(place) = place_at(kind, material, shapes.len()) {
        let (shape, after) = setup(material, place, rest)?;
        shapes.push(shape)?;
        rest = after;
    }
    Ok((shapes, rest))
}

/// One shape with its size record, and what is left.
#[tactic(auto, unfolding(crate::specs::Files::part_at))]
fn part_of<'a>(
    alloc: Global,
    kind: TableKind,
    shape: Shape,
    bytes: &'a [u8],
) -> Result<(Part<'a>, &'a [u8]), TableFault>
    ensures { Gives (λ x. (x.0, x.1.now)) result (part_at kind shape bytes.now) }
{
    let (size_record, rest) = size_record(alloc, kind, bytes)?;
    Ok((Part { shape, size_record }, rest))
}

/// All size records, and what is left.
pub(crate) fn parts<'a>(
    alloc: Global,
    kind: TableKind,
    shapes: Vec<Shape>,
    bytes: &'a [u8],
) -> Result<(Vec<Part<'a>>, &'a [u8]), TableFault>
    ensures is { Gives (λ x. (x.0.items, x.1.now)) result (each_at (part_at kind) shapes.items bytes.now) }
    ensures all { IfOk result (λ x. length x.0.items ≡ length shapes.items) }
{
    let mut parts = Vec::new(alloc);
    let mut rest = bytes;
    let mut left = shapes.into_iter();
    'shapes: while let Some(shape) = left.next() {
        let (part, after) = part_of(alloc, kind, shape, rest)?;
        parts.push(part)?;
        rest = after;
    }
    Ok((parts, rest))
}

/// How many bytes a section has for a part.
fn section_size(section: Section, size: u64, coding: &Coding<'_>) -> usize
    requires { size ≤ greatest_size }
    ensures { result ≡ section_size section size coding.now }
{
    match coding {
        Coding::Single(_) => 0,
        Coding::Pairs(codes) => match section {
            Section::Entries => 6 * codes.points(size),
            Section::Lengths => 2 * codes.lengths(),
            Section::Blocks => codes.blocks() * codes.block_size(),
        },
    }
}

/// The section of one part, and what is left.
#[tactic(auto, unfolding(crate::specs::Files::section_at))]
fn section_of<'a>(
    section: Section,
    part: &Part<'_>,
    bytes: &'a [u8],
) -> Result<(&'a [u8], &'a [u8]), TableFault>
    ensures is { Gives (λ x. (x.0.now, x.1.now)) result (section_at section part.now bytes.now) }
    ensures no_memory { IfErr result (λ e. e ≢ OutOfMemory) }
{
    let n = section_size(section, indices(&part.shape), &part.size_record.coding);
    match section {
        Section::Entries => taken(n, bytes),
        Section::Lengths => taken(n, bytes),
        Section::Blocks => taken(n, aligned(bytes)),
    }
}

/// A section of each part, and what is left.
pub(crate) fn sections<'a>(
    alloc: Global,
    section: Section,
    parts: &[Part<'_>],
    bytes: &'a [u8],
) -> Result<(Vec<FileBytes<'a>>, &'a [u8]), TableFault>
    ensures is { Gives (λ x. (x.0.items, x.1.now)) result (each_at (section_at section) parts.now bytes.now) }
    ensures sized { IfOk result (λ x. AreSized section parts.now x.0.items) }
{
    let mut runs = Vec::new(alloc);
    let mut rest = bytes;
    for i in 0..parts.len() {
        let (run, after) = section_of(section, &parts[i], rest)?;
        runs.push(FileBytes::new(run))?;
        rest = after;
    }
    Ok((runs, rest))
}
