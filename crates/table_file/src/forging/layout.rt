//! The bytes of a planned file.

ghost use Rattle.std.specs.Prelude.{◌≡◌, ◌≤◌, ◌+◌, ◌++◌, ◌*◌, ◌^◌, ◌<◌, ◌∷◌, ◌↔◌, [], true, false, length, IsSome, IsTrue, IfOk, OnOk, IfSome, IfNone};
ghost use Rattle.std.specs.List.{flat_map, All};
ghost use Rattle.std.specs.Int.{w32, to_le_bytes};
ghost use Rattle.table_file.specs.declared.plan.Content.{Content};
ghost use Rattle.pair_dict.specs.Reading.{falls};
ghost use Rattle.pair_dict.specs.Symbols.{AllHaveValues};
ghost use Rattle.place_index.specs.Shape.{size_of, greatest_size, both_have_pawns};
ghost use Rattle.table_file.specs.Plan.{planned_shape, symbol_bytes, is_wide, has_maps, last_point, AreGoodFigures, AreGoodCodes, AreGoodBlocks, FitsBlock, AreGoodPairs, AreGoodMaps, IsGoodMap, IsGoodSingle, IsGoodContent, HasGoodShape, IsGoodPart, IsGoodPlan, HasNoMaps};
ghost use Rattle.table_file.specs.Files.{side_count};
ghost use Rattle.table_file.specs.Inside.Places.{sides_count};
ghost use Rattle.table_file.specs.PlannedFile.{Laid, filled_to, head_bytes, halves, piece_halves, setup_bytes, one_sided, two_sided, setups_bytes, word_bytes, dictionary_bytes, figures_bytes, planned_lengths, padding_for, planned_span, laid_content, laid_part, laid_parts, one_map_bytes, four_maps_bytes, with_maps, with_each_maps, with_all_maps, with_blocks, front_bytes, with_sections, ended_file, file_with, planned_file};

use super::blocks::{blocks_bytes, entries_of, fit_blocks, lengths_of, padded, padding_of};
use super::codes::are_good_codes;
use super::values::{counts_of, put_map_bytes, symbol_bytes};
use crate::kind::TableKind;
use crate::material::{both_have_pawns, has_pawns, is_symmetric};
use crate::parts::magic_of;
use crate::places::{Sides, part_count, place_at};
use crate::plan::{Content, MapsPlan, PairsPlan, PartPlan, Plan};
use crate::reading::has_bit;
use pair_dict::{DictFault, Dictionary};
use place_index::{Material, PawnFile, Shape};
use std::alloc::{AllocError, Global};
use std::marker::Model;

/// What the sections of a file hold of a planned part.
#[derive(Drop)]
struct LaidPart {
    size_record: Vec<u8>,
    entries: Vec<u8>,
    lengths: Vec<u8>,
    blocks: Vec<u8>,
}

impl Model for LaidPart {
    ghost use Rattle.table_file.specs.PlannedFile.{Laid};

    ghost Value = { Laid };

    ghost view = { λ a. record { size_record = a.size_record.items; entries = a.entries.items; lengths = a.lengths.items; blocks = a.blocks.items } };
}

impl LaidPart {
    fn new(size_record: Vec<u8>, entries: Vec<u8>, lengths: Vec<u8>, blocks: Vec<u8>) -> LaidPart
        ensures { result ≡ record { size_record = size_record.items; entries = entries.items; lengths = lengths.items; blocks = blocks.items } }
    {
        LaidPart {
            size_record,
            entries,
            lengths,
            blocks,
        }
    }

    fn size_record(&self) -> &[u8]
        ensures { result.now ≡ self.now.size_record }
    {
        &self.size_record
    }

    fn entries(&self) -> &[u8]
        ensures { result.now ≡ self.now.entries }
    {
        &self.entries
    }

    fn lengths(&self) -> &[u8]
        ensures { result.now ≡ self.now.lengths }
    {
        &self.lengths
    }

    fn blocks(&self) -> &[u8]
        ensures { result.now ≡ self.now.blocks }
    {
        &self.blocks
    }
}

/// Whether none of the numbers is greater than the one before.
fn is_falling(lowest: &[u16]) -> bool
    ensures { result ≡ falls lowest.now }
{
    match lowest {
        [] => true,
        [_] => true,
        [low, next, ..] => *next <= *low && is_falling(&lowest[1..]),
    }
}

/// Whether the figures of a size record are those of a file.
fn are_good_figures(plan: &PairsPlan) -> bool
    ensures { IsTrue result ↔ AreGoodFigures plan.now }
{
    plan.block_exponent <= 24
        && 1 <= plan.span_exponent
        && plan.span_exponent <= 31
        && 1 <= plan.least
        && plan.greatest <= 32
        && plan.least <= plan.greatest
        && plan.lowest.len() == (plan.greatest - plan.least) as usize + 1
        && is_falling(&plan.lowest)
        && 1 <= plan.symbols.len()
        && plan.symbols.len() <= 4095
        && plan.blocks.len() < 1 << 32
}

/// Appends numbers of two bytes, the low one first.
#[tactic(auto, unfolding(crate::specs::PlannedFile::word_bytes))]
fn put_words(words: &[u16], bytes: &mut Vec<u8>) -> Result<(), AllocError>
    ensures { OnOk result (bytes.new.items ≡ bytes.old.items ++ word_bytes words.now) }
{
    for word in words {
        bytes.extend_from_slice(&word.to_le_bytes())?;
    }
    Ok(())
}

/// The bytes of a dictionary (Syzygy table format, a size record from its greatest code length on).
#[tactic(auto, unfolding(crate::specs::PlannedFile::dictionary_bytes))]
fn dictionary_bytes(alloc: Global, plan: &PairsPlan, symbols: &[u8]) -> Result<Vec<u8>, AllocError>
    requires figures { AreGoodFigures plan.now }
    requires symbols { symbols.now ≡ symbol_bytes plan.now }
    ensures { IfOk result (λ v. v.items ≡ dictionary_bytes plan.now) }
{
    let count = plan.symbols.len() as u16;
    let mut bytes = Vec::new(alloc);
    bytes.push(plan.greatest)?;
    bytes.push(plan.least)?;
    put_words(&plan.lowest, &mut bytes)?;
    bytes.extend_from_slice(&count.to_le_bytes())?;
    bytes.extend_from_slice(symbols)?;
    if count % 2 == 1 {
        bytes.push(0)?;
    }
    Ok(bytes)
}

/// Whether the symbols of a dictionary all have values, at most 256 each.
fn have_values(
    alloc: Global,
    plan: &PairsPlan,
    lowest: &[u16],
    bytes: &[u8],
) -> Result<bool, AllocError>
    requires figures { AreGoodFigures plan.now }
    requires lowest { lowest.now ≡ plan.now.lowest.items }
    requires long { length (symbol_bytes plan.now) ≡ 3 * length plan.now.symbols.items }
    requires spelled { bytes.now ≡ dictionary_bytes plan.now }
    ensures { IfOk result (λ b. IsTrue b ↔ AllHaveValues (symbol_bytes plan.now)) }
{
    // No value is looked up.
    match Dictionary::read(alloc, bytes, 1) {
        Ok(_) => Ok(true),
        Err(DictFault::OutOfMemory) => Err(AllocError),
        Err(DictFault::Truncated) => Ok(false),
        Err(DictFault::BadCode) => Ok(false),
        Err(DictFault::BadSymbol) => Ok(false),
    }
}

/// The figures and the dictionary of a size record, for blocks of good figures.
#[tactic(auto, unfolding(crate::specs::PlannedFile::figures_bytes))]
fn size_record_of(
    alloc: Global,
    flags: u8,
    plan: &PairsPlan,
    padding: u8,
    dictionary: &[u8],
) -> Result<Vec<u8>, AllocError>
    requires figures { AreGoodFigures plan.now }
    ensures { IfOk result (λ v. v.items ≡ flags ∷ plan.now.block_exponent ∷ plan.now.span_exponent ∷ padding ∷ to_le_bytes w32 (length plan.now.blocks.items) ++ dictionary.now) }
{
    let blocks = plan.blocks.len() as u32;
    let mut bytes = Vec::new(alloc);
    bytes.push(flags)?;
    bytes.push(plan.block_exponent)?;
    bytes.push(plan.span_exponent)?;
    bytes.push(padding)?;
    bytes.extend_from_slice(&blocks.to_le_bytes())?;
    bytes.extend_from_slice(dictionary)?;
    Ok(bytes)
}

/// The lengths of blocks and padding entries as bytes.
fn length_bytes(alloc: Global, lengths: &[u16]) -> Result<Vec<u8>, AllocError>
    ensures { IfOk result (λ v. v.items ≡ word_bytes lengths.now) }
{
    let mut bytes = Vec::new(alloc);
    put_words(lengths, &mut bytes)?;
    Ok(bytes)
}

/// The lengths of blocks and of padding entries, and how many of these there are. There are none where blocks or padding
/// make the plan bad.
#[tactic(auto, unfolding(crate::specs::PlannedFile::planned_lengths))]
fn padded_lengths(
    alloc: Global,
    plan: &PairsPlan,
    symbols: &[u8],
    size: u64,
) -> Result<Option<(Vec<u16>, u8)>, AllocError>
    requires figures { AreGoodFigures plan.now }
    requires symbols { symbols.now ≡ symbol_bytes plan.now }
    requires values { AllHaveValues symbols.now }
    requires fit { All (λ block. FitsBlock plan.now block.items) plan.now.blocks.items }
    requires size { size ≤ 2 ^ 32 }
    ensures found { IfOk result (λ o. IfSome o (λ x. (x.0.items ≡ planned_lengths plan.now size) × (x.1 ≡ padding_for (planned_span plan.now) size))) }
    ensures good { IfOk result (λ o. IfSome o (λ _. AreGoodBlocks plan.now size × (last_point (2 ^ plan.now.span_exponent) size < size + 65536 * 255))) }
    ensures bad { IfOk result (λ o. IfNone o (AreGoodBlocks plan.now size → last_point (2 ^ plan.now.span_exponent) size < size + 65536 * 255 → ⊥)) }
{
    let counts = counts_of(alloc, symbols)?;
    let Some(padding) = padding_of(1u64 << plan.span_exponent, size) else {
        return Ok(None);
    };
    let Some(lengths) = lengths_of(alloc, plan, &counts, size)? else {
        return Ok(None);
    };
    let lengths = padded(lengths, padding)?;
    Ok(Some((lengths, padding)))
}

/// Planned blocks as the sections of a file hold them, with the bytes of their dictionary, their lengths and the number of
/// padding entries.
fn laid_with(
    alloc: Global,
    flags: u8,
    plan: &PairsPlan,
    size: u64,
    dictionary: &[u8],
    padded: (&[u16], u8),
) -> Result<LaidPart, AllocError>
    requires figures { AreGoodFigures plan.now }
    requires codes { AreGoodCodes plan.now }
    requires fit { All (λ block. FitsBlock plan.now block.items) plan.now.blocks.items }
    requires some { 1 ≤ size }
    requires size { size ≤ greatest_size }
    requires dictionary { dictionary.now ≡ dictionary_bytes plan.now }
    requires lengths { padded.0.now ≡ planned_lengths plan.now size }
    requires padding { padded.1 ≡ padding_for (planned_span plan.now) size }
    ensures { IfOk result (λ laid. laid ≡ laid_content (Content.Pairs plan.now) flags size) }
{
    let (lengths, padding) = padded;
    let span = 1u64 << plan.span_exponent;
    let points = (size + (span - 1)) / span;
    let size_record = size_record_of(alloc, flags, plan, padding, dictionary)?;
    let entries = entries_of(alloc, lengths, span, points)?;
    let lengths = length_bytes(alloc, lengths)?;
    let blocks = blocks_bytes(alloc, plan)?;
    Ok(LaidPart::new(size_record, entries, lengths, blocks))
}

/// Planned blocks whose figures and codes are good, as the sections of a file hold them. There is nothing where what else
/// they say makes the plan bad.
fn laid_blocks(
    alloc: Global,
    flags: u8,
    plan: &PairsPlan,
    symbols: &[u8],
    size: u64,
) -> Result<Option<LaidPart>, AllocError>
    requires figures { AreGoodFigures plan.now }
    requires codes { AreGoodCodes plan.now }
    requires fit { All (λ block. FitsBlock plan.now block.items) plan.now.blocks.items }
    requires symbols { symbols.now ≡ symbol_bytes plan.now }
    requires long { length symbols.now ≡ 3 * length plan.now.symbols.items }
    requires some { 1 ≤ size }
    requires size { size ≤ greatest_size }
    ensures found { IfOk result (λ o. IfSome o (λ laid. laid ≡ laid_content (Content.Pairs plan.now) flags size)) }
    ensures good { IfOk result (λ o. IfSome o (λ _. AllHaveValues (symbol_bytes plan.now) × AreGoodBlocks plan.now size × (last_point (2 ^ plan.now.span_exponent) size < size + 65536 * 255))) }
    ensures bad { IfOk result (λ o. IfNone o (AllHaveValues (symbol_bytes plan.now) → AreGoodBlocks plan.now size → last_point (2 ^ plan.now.span_exponent) size < size + 65536 * 255 → ⊥)) }
{
    let dictionary = dictionary_bytes(alloc, plan, symbols)?;
    if !have_values(alloc, plan, &plan.lowest, &dictionary)? {
        return Ok(None);
    }
    let Some((lengths, padding)) = padded_lengths(alloc, plan, symbols, size)? else {
        return Ok(None);
    };
    let laid = laid_with(alloc, flags, plan, size, &dictionary, (&lengths, padding))?;
    Ok(Some(laid))
}

/// Planned blocks as the sections of a file hold them. There is nothing where they make the plan bad.
fn laid_pairs(
    alloc: Global,
    flags: u8,
    plan: &PairsPlan,
    size: u64,
) -> Result<Option<LaidPart>, AllocError>
    requires some { 1 ≤ size }
    requires size { size ≤ greatest_size }
    ensures found { IfOk result (λ o. IfSome o (λ laid. laid ≡ laid_content (Content.Pairs plan.now) flags size)) }
    ensures good { IfOk result (λ o. IfSome o (λ _. AreGoodPairs plan.now size)) }
    ensures bad { IfOk result (λ o. IfNone o (AreGoodPairs plan.now size → ⊥)) }
{
    if !are_good_figures(plan) {
        return Ok(None);
    }
    let symbols = symbol_bytes(alloc, &plan.symbols)?;
    let count = (symbols.len() / 3) as u16;
    if !are_good_codes(plan, count) || !fit_blocks(plan, count) {
        return Ok(None);
    }
    laid_blocks(alloc, flags, plan, &symbols, size)
}

/// A single value as the sections of a file hold it. There is nothing where a file can't have it.
fn laid_single(
    alloc: Global,
    kind: TableKind,
    flags: u8,
    value: u16,
) -> Result<Option<LaidPart>, AllocError>
    ensures found { IfOk result (λ o. IfSome o (λ laid. (laid ≡ laid_content (Content.Single value) flags 0) × IsGoodSingle kind value)) }
    ensures bad { IfOk result (λ o. IfNone o (IsGoodSingle kind value → ⊥)) }
{
    let most = match kind {
        TableKind::Wdl => 255,
        TableKind::Dtz => 0,
    };
    if most < value {
        return Ok(None);
    }
    let mut size_record = Vec::new(alloc);
    size_record.push(flags)?;
    size_record.push(value as u8)?;
    Ok(Some(LaidPart {
        size_record,
        entries: Vec::new(alloc),
        lengths: Vec::new(alloc),
        blocks: Vec::new(alloc),
    }))
}

/// Planned values as the sections of a file hold them. There is nothing where they make the plan bad, or the flags disagree
/// with them.
fn laid_content(
    alloc: Global,
    kind: TableKind,
    part: &PartPlan,
    size: u64,
) -> Result<Option<LaidPart>, AllocError>
    requires some { 1 ≤ size }
    requires size { size ≤ greatest_size }
    ensures found { IfOk result (λ o. IfSome o (λ laid. laid ≡ laid_content part.now.content part.now.flags size)) }
    ensures good { IfOk result (λ o. IfSome o (λ _. IsGoodContent kind part.now.content part.now.flags size)) }
    ensures bad { IfOk result (λ o. IfNone o (IsGoodContent kind part.now.content part.now.flags size → ⊥)) }
{
    match &part.content {
        Content::Single(value) => {
            if !has_bit(128, part.flags) {
                return Ok(None);
            }
            laid_single(alloc, kind, part.flags, *value)
        }
        Content::Pairs(pairs) => {
            if has_bit(128, part.flags) {
                return Ok(None);
            }
            laid_pairs(alloc, part.flags, pairs, size)
        }
    }
}

/// The number of indices of a planned part, on a file of the leading pawn, if its pieces and orders make a shape.
fn indices_of(material: &Material, part: &PartPlan, file: PawnFile) -> Option<u64>
    ensures found { IfSome result (λ size. size ≡ size_of (planned_shape material.now part.now file)) }
    ensures few { IfSome result (λ size. (1 ≤ size) × (size ≤ greatest_size)) }
    ensures good { IfSome result (λ _. HasGoodShape material.now part.now file) }
    ensures bad { IfNone result (HasGoodShape material.now part.now file → ⊥) }
{
    if part.second.is_some() != both_have_pawns(material) {
        return None;
    }
    let second = part.second.unwrap_or(0);
    match Shape::new(material, &part.pieces, part.order, second, file) {
        Ok(shape) => Some(shape.size()),
        Err(_) => None,
    }
}

/// Whether a map's length and entries are ones that its fields hold.
fn is_good_map(wide: bool, entries: &[u16]) -> bool
    ensures { IsTrue result ↔ IsGoodMap wide entries.now }
{
    if wide {
        entries.len() < 65536
    } else {
        entries.len() < 256 && are_bytes(entries)
    }
}

/// Whether a byte holds each entry.
fn are_bytes(entries: &[u16]) -> bool
    ensures { IsTrue result ↔ All (λ e. e < 256) entries.now }
{
    for entry in entries {
        if 256 <= *entry {
            return false;
        }
    }
    true
}

/// Whether the maps of a part are ones that its file can have.
fn are_good_maps(kind: TableKind, part: &PartPlan) -> bool
    ensures { IsTrue result ↔ ((has_maps kind part.now ≡ false → HasNoMaps part.now.maps) × AreGoodMaps (is_wide part.now) part.now.maps) }
{
    let wide = part.is_wide();
    (part.has_maps(kind) || part.maps.is_empty())
        && is_good_map(wide, &part.maps.win)
        && is_good_map(wide, &part.maps.loss)
        && is_good_map(wide, &part.maps.cursed_win)
        && is_good_map(wide, &part.maps.blessed_loss)
}

/// A planned part as the sections of a file hold it, on a file of the leading pawn. There is nothing where it makes the plan
/// bad.
#[tactic(auto, unfolding(crate::specs::PlannedFile::laid_part))]
fn laid_part(
    alloc: Global,
    kind: TableKind,
    material: &Material,
    part: &PartPlan,
    file: PawnFile,
) -> Result<Option<LaidPart>, AllocError>
    ensures found { IfOk result (λ o. IfSome o (λ laid. laid ≡ laid_part material.now part.now file)) }
    ensures good { IfOk result (λ o. IfSome o (λ _. IsGoodPart kind material.now part.now file)) }
    ensures bad { IfOk result (λ o. IfNone o (IsGoodPart kind material.now part.now file → ⊥)) }
{
    if !are_good_maps(kind, part) {
        return Ok(None);
    }
    let Some(size) = indices_of(material, part, file) else {
        return Ok(None);
    };
    laid_content(alloc, kind, part, size)
}

/// All planned parts as the sections of a file hold them. There is nothing where the plan is bad.
fn laid_parts(alloc: Global, plan: &Plan) -> Result<Option<Vec<LaidPart>>, AllocError>
    ensures found { IfOk result (λ o. IfSome o (λ laid. laid.items ≡ laid_parts plan.now.material (side_count plan.now.kind plan.now.material) 0 plan.now.parts.items)) }
    ensures good { IfOk result (λ o. IfSome o (λ _. IsGoodPlan plan.now.kind plan.now.material plan.now.parts.items)) }
    ensures bad { IfOk result (λ o. IfNone o (IsGoodPlan plan.now.kind plan.now.material plan.now.parts.items → ⊥)) }
{
    if plan.parts.len() != part_count(plan.kind, &plan.material) {
        return Ok(None);
    }
    let mut laid = Vec::new(alloc);
    for k in 0..plan.parts.len() {
        let Some(place) = place_at(plan.kind, &plan.material, k) else {
            return Ok(None);
        };
        match laid_part(alloc, plan.kind, &plan.material, &plan.parts[k], place.file) {
            Ok(Some(part)) => laid.push(part)?,
            Ok(None) => return Ok(None),
            Err(fault) => return Err(fault),
        }
    }
    Ok(Some(laid))
}

/// Fills the file with zeros up to the next length that so many bytes divide.
#[tactic(auto, unfolding(crate::specs::PlannedFile::filled_to))]
fn fill_to(multiple: usize, file: &mut Vec<u8>) -> Result<(), AllocError>
    requires some { 1 ≤ multiple }
    requires few { multiple ≤ 64 }
    ensures { OnOk result (file.new.items ≡ filled_to multiple file.old.items) }
{
    let fill = (multiple - file.len() % multiple) % multiple;
    for _ in 0..fill {
        file.push(0)?;
    }
    Ok(())
}

/// Magic number and flags.
#[tactic(auto, unfolding(crate::specs::PlannedFile::head_bytes))]
fn put_head(kind: TableKind, material: &Material, file: &mut Vec<u8>) -> Result<(), AllocError>
    ensures { OnOk result (file.new.items ≡ file.old.items ++ head_bytes kind material.now) }
{
    let split = if is_symmetric(material) { 0u8 } else { 1 };
    let pawns = if has_pawns(material) { 2u8 } else { 0 };
    file.extend_from_slice(&magic_of(kind).to_le_bytes())?;
    file.push(split + pawns)?;
    Ok(())
}

/// A byte of which side 0 has the low half and side 1 the high half.
fn halves(low: u8, high: u8) -> u8
    ensures { result ≡ halves low high }
{
    low % 16 + 16 * (high % 16)
}

/// The pieces of both sides; a side that isn't there has zeros.
fn put_pieces(first: &[u8], second: &[u8], file: &mut Vec<u8>) -> Result<(), AllocError>
    ensures { OnOk result (file.new.items ≡ file.old.items ++ piece_halves first.now second.now) }
{
    match (first, second) {
        ([], _) => Ok(()),
        ([low, others @ ..], []) => {
            file.push(halves(*low, 0))?;
            put_pieces(others, second, file)
        }
        ([low, others @ ..], [high, rest @ ..]) => {
            file.push(halves(*low, *high))?;
            put_pieces(others, rest, file)
        }
    }
}

/// Orders and pieces of a file of the leading pawn, with those of side 1.
#[tactic(auto, unfolding(crate::specs::PlannedFile::setup_bytes))]
fn put_setup(
    part: &PartPlan,
    order: u8,
    second: u8,
    pieces: &[u8],
    file: &mut Vec<u8>,
) -> Result<(), AllocError>
    ensures { OnOk result (file.new.items ≡ file.old.items ++ setup_bytes part.now order second pieces.now) }
{
    file.push(halves(part.order, order))?;
    if let Some(place) = part.second {
        file.push(halves(place, second))?;
    }
    put_pieces(&part.pieces, pieces, file)
}

/// Orders and pieces of all files of the leading pawn, of one side.
#[tactic(auto, unfolding(crate::specs::PlannedFile::one_sided))]
fn put_one_sided(parts: &[PartPlan], file: &mut Vec<u8>) -> Result<(), AllocError>
    ensures { OnOk result (file.new.items ≡ file.old.items ++ one_sided parts.now) }
{
    match parts {
        [] => Ok(()),
        [part, rest @ ..] => {
            put_setup(part, 0, 0, &[], file)?;
            put_one_sided(rest, file)
        }
    }
}

/// Orders and pieces of all files of the leading pawn, of two sides.
#[tactic(auto, unfolding(crate::specs::PlannedFile::two_sided))]
fn put_two_sided(parts: &[PartPlan], file: &mut Vec<u8>) -> Result<(), AllocError>
    ensures { OnOk result (file.new.items ≡ file.old.items ++ two_sided parts.now) }
{
    match parts {
        [part, other, rest @ ..] => {
            let second = other.second.unwrap_or(0);
            put_setup(part, other.order, second, &other.pieces, file)?;
            put_two_sided(rest, file)
        }
        _ => Ok(()),
    }
}

/// Orders and pieces of all files of the leading pawn.
fn put_setups(parts: &[PartPlan], sides: Sides, file: &mut Vec<u8>) -> Result<(), AllocError>
    ensures { OnOk result (file.new.items ≡ file.old.items ++ setups_bytes (sides_count sides) parts.now) }
{
    match sides {
        Sides::One => put_one_sided(parts, file),
        Sides::Two => put_two_sided(parts, file),
    }
}

/// What stands before the size records: head, shapes and a fill byte.
#[tactic(auto, unfolding(crate::specs::PlannedFile::front_bytes))]
fn front(alloc: Global, plan: &Plan) -> Result<Vec<u8>, AllocError>
    ensures { IfOk result (λ v. v.items ≡ front_bytes plan.now) }
{
    let sides = Sides::of(plan.kind, &plan.material);
    let mut file = Vec::new(alloc);
    put_head(plan.kind, &plan.material, &mut file)?;
    put_setups(&plan.parts, sides, &mut file)?;
    fill_to(2, &mut file)?;
    Ok(file)
}

/// Appends the size records of all parts.
fn put_size_records(parts: &[LaidPart], file: &mut Vec<u8>) -> Result<(), AllocError>
    ensures { OnOk result (file.new.items ≡ file.old.items ++ flat_map (λ l. l.size_record) parts.now) }
{
    for part in parts {
        file.extend_from_slice(part.size_record())?;
    }
    Ok(())
}

/// Appends a value map: its length, and its entries.
fn put_map(wide: bool, entries: &[u16], file: &mut Vec<u8>) -> Result<(), AllocError>
    requires { IsGoodMap wide entries.now }
    ensures { OnOk result (file.new.items ≡ file.old.items ++ one_map_bytes wide entries.now) }
{
    if wide {
        let count = entries.len() as u16;
        file.extend_from_slice(&count.to_le_bytes())?;
    } else {
        file.push(entries.len() as u8)?;
    }
    put_map_bytes(wide, entries, file)
}

/// Appends four value maps: wins, losses, cursed wins and blessed losses.
#[tactic(auto, unfolding(crate::specs::PlannedFile::four_maps_bytes))]
fn put_four_maps(wide: bool, maps: &MapsPlan, file: &mut Vec<u8>) -> Result<(), AllocError>
    requires { AreGoodMaps wide maps.now }
    ensures { OnOk result (file.new.items ≡ file.old.items ++ four_maps_bytes wide maps.now) }
{
    put_map(wide, &maps.win, file)?;
    put_map(wide, &maps.loss, file)?;
    put_map(wide, &maps.cursed_win, file)?;
    put_map(wide, &maps.blessed_loss, file)
}

/// Appends the value maps of a file of the leading pawn, where its flags announce them.
#[tactic(auto, unfolding(crate::specs::PlannedFile::with_maps))]
fn put_maps(part: &PartPlan, file: &mut Vec<u8>) -> Result<(), AllocError>
    requires { AreGoodMaps (is_wide part.now) part.now.maps }
    ensures { OnOk result (file.new.items ≡ with_maps file.old.items part.now) }
{
    if !has_bit(2, part.flags) {
        return Ok(());
    }
    let wide = part.is_wide();
    if wide {
        fill_to(2, file)?;
    }
    put_four_maps(wide, &part.maps, file)
}

/// Appends the value maps of all files of the leading pawn.
#[tactic(auto, unfolding(crate::specs::PlannedFile::with_each_maps))]
fn put_each_maps(parts: &[PartPlan], file: &mut Vec<u8>) -> Result<(), AllocError>
    requires { All (λ p. AreGoodMaps (is_wide p) p.maps) parts.now }
    ensures { OnOk result (file.new.items ≡ with_each_maps file.old.items parts.now) }
{
    match parts {
        [] => Ok(()),
        [part, rest @ ..] => {
            put_maps(part, file)?;
            put_each_maps(rest, file)
        }
    }
}

/// Appends all value maps, in a DTZ file.
#[tactic(auto, unfolding(crate::specs::PlannedFile::with_all_maps))]
fn put_all_maps(kind: TableKind, parts: &[PartPlan], file: &mut Vec<u8>) -> Result<(), AllocError>
    requires { All (λ p. AreGoodMaps (is_wide p) p.maps) parts.now }
    ensures { OnOk result (file.new.items ≡ with_all_maps kind file.old.items parts.now) }
{
    match kind {
        TableKind::Wdl => Ok(()),
        TableKind::Dtz => {
            put_each_maps(parts, file)?;
            fill_to(2, file)
        }
    }
}

/// Appends the sparse entries of all parts.
fn put_entries(parts: &[LaidPart], file: &mut Vec<u8>) -> Result<(), AllocError>
    ensures { OnOk result (file.new.items ≡ file.old.items ++ flat_map (λ l. l.entries) parts.now) }
{
    for part in parts {
        file.extend_from_slice(part.entries())?;
    }
    Ok(())
}

/// Appends the block lengths of all parts.
fn put_lengths(parts: &[LaidPart], file: &mut Vec<u8>) -> Result<(), AllocError>
    ensures { OnOk result (file.new.items ≡ file.old.items ++ flat_map (λ l. l.lengths) parts.now) }
{
    for part in parts {
        file.extend_from_slice(part.lengths())?;
    }
    Ok(())
}

/// Appends the blocks of all parts, those of each from a multiple of 64 on.
#[tactic(auto, unfolding(crate::specs::PlannedFile::with_blocks))]
fn put_blocks(parts: &[LaidPart], file: &mut Vec<u8>) -> Result<(), AllocError>
    ensures { OnOk result (file.new.items ≡ with_blocks file.old.items parts.now) }
{
    match parts {
        [] => Ok(()),
        [part, rest @ ..] => {
            fill_to(64, file)?;
            file.extend_from_slice(part.blocks())?;
            put_blocks(rest, file)
        }
    }
}

/// Appends the sections behind the maps: sparse entries, block lengths, and blocks, each of all parts.
#[tactic(auto, unfolding(crate::specs::PlannedFile::with_sections))]
fn put_sections(parts: &[LaidPart], file: &mut Vec<u8>) -> Result<(), AllocError>
    ensures { OnOk result (file.new.items ≡ with_sections file.old.items parts.now) }
{
    put_entries(parts, file)?;
    put_lengths(parts, file)?;
    put_blocks(parts, file)
}

/// Appends what stands behind the sections: fill and the checksum.
#[tactic(auto, unfolding(crate::specs::PlannedFile::ended_file))]
fn put_end(file: &mut Vec<u8>) -> Result<(), AllocError>
    ensures { OnOk result (file.new.items ≡ ended_file file.old.items) }
{
    fill_to(64, file)?;
    file.extend_from_slice(&[0; 16])
}

/// The file of the parts that are laid out.
#[tactic(auto, unfolding(crate::specs::PlannedFile::file_with))]
fn file_with(alloc: Global, plan: &Plan, laid: &[LaidPart]) -> Result<Vec<u8>, AllocError>
    requires { All (λ p. AreGoodMaps (is_wide p) p.maps) plan.now.parts.items }
    ensures { IfOk result (λ v. v.items ≡ file_with plan.now laid.now) }
{
    let mut file = front(alloc, plan)?;
    put_size_records(laid, &mut file)?;
    put_all_maps(plan.kind, &plan.parts, &mut file)?;
    put_sections(laid, &mut file)?;
    put_end(&mut file)?;
    Ok(file)
}

/// The bytes of the file that a plan describes. There are none where the plan breaks a rule of plans.
#[tactic(auto, unfolding(crate::specs::PlannedFile::planned_file))]
pub(super) fn laid_out(alloc: Global, plan: &Plan) -> Result<Option<Vec<u8>>, AllocError>
    ensures found { IfOk result (λ o. IfSome o (λ v. v.items ≡ planned_file plan.now)) }
    ensures good { IfOk result (λ o. IfSome o (λ _. IsGoodPlan plan.now.kind plan.now.material plan.now.parts.items)) }
    ensures bad { IfOk result (λ o. IfNone o (IsGoodPlan plan.now.kind plan.now.material plan.now.parts.items → ⊥)) }
{
    let Some(laid) = laid_parts(alloc, plan)? else {
        return Ok(None);
    };
    let file = file_with(alloc, plan, &laid)?;
    Ok(Some(file))
}
