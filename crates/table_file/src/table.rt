//! Opened table files.

ghost use Rattle.std.specs.Prelude.{◌≡◌, ◌≢◌, ◌<◌, [], length, get_or, IsTrue, IsOk, true, cond, IfOk, IfErr, ◌↔◌};
ghost use Rattle.table_file.specs.declared.fault.TableFault.TheVariants.{OutOfMemory};
ghost use Rattle.table_file.specs.declared.kind.TableKind.TheVariants.{Dtz};
ghost use Rattle.table_file.specs.declared.parts.Section.TheVariants.{Entries, Lengths, Blocks};
ghost use Rattle.table_file.specs.Files.{indices, section_size};
ghost use Rattle.table_file.specs.Reading.{Gives};
ghost use Rattle.table_file.specs.Sparse.{all_fit, fits_in};
ghost use Rattle.table_file.specs.Sections.{AreShaped, AreSized};
ghost use Rattle.table_file.specs.Inside.OpenedParts.{plain_parts, all_entries, all_lengths, all_blocks};
ghost use Rattle.table_file.specs.Tables.{Contents, head_at, sections_at, parts_at, contents_at, part_count, part_for, part_place};
ghost use Rattle.table_file.specs.Inside.Opening.{checked_at, section_bytes_at, all_parts_at};
ghost use Rattle.table_file.specs.Layouts.{IsLayout};
ghost use Rattle.table_file.specs.FirstFaults.{IsFirstTableFault};

use crate::fault::TableFault;
use crate::kind::{TableKind, title};
use crate::laws::{reads_what_is_laid_out, tells_first_fault};
use crate::maps::{Maps, all_maps};
use crate::material::{has_pawns, indices};
use crate::parts::{Part, Section, body, flags, magic, parts, sections, setups};
use crate::places::{Sides, side_number};
use crate::reading::{FileBytes, even};
use crate::sparse::fits_in;
use crate::table_part::TablePart;
use board_core::Side;
use place_index::{Material, PawnFile};
use std::alloc::{AllocError, Global};
use std::marker::Model;

/// An opened table file: its parts are there and in order, and its sparse entries name the values in the middle of
/// their spans. It borrows the file's bytes.
#[derive(Drop)]
pub struct Table<'a> {
    kind: TableKind,
    material: Material,
    has_pawns: bool,
    sides: Sides,
    parts: Vec<OpenedPart<'a>>,
    maps: Vec<Maps<'a>>,
}

impl<'a> Model for Table<'a> {
    ghost use Rattle.table_file.specs.Tables.{Contents};

    ghost Value = { Contents };

    ghost use Rattle.table_file.specs.Inside.Opened.{contents_of, IsOpened};

    ghost view = { contents_of };

    ghost invariant = { IsOpened };
}

/// A part with its sections: all that a look-up in it reads, in one place.
#[derive(Drop)]
pub(crate) struct OpenedPart<'a> {
    pub(crate) entries: FileBytes<'a>,
    pub(crate) lengths: FileBytes<'a>,
    pub(crate) blocks: FileBytes<'a>,
    pub(crate) head: Part<'a>,
}

/// Whether the sparse entries of a part name the values in the middle of their spans.
fn part_fits(
    alloc: Global,
    part: &Part<'_>,
    entries: &FileBytes<'_>,
    lengths: &FileBytes<'_>,
) -> Result<bool, AllocError>
    requires entries { length entries.now ≡ section_size Entries (indices part.now.shape) part.now.size_record.coding }
    requires lengths { length lengths.now ≡ section_size Lengths (indices part.now.shape) part.now.size_record.coding }
    ensures { IfOk result (λ b. b ≡ fits_in (indices part.now.shape) part.now.size_record.coding entries.now lengths.now) }
{
    fits_in(
        alloc,
        indices(&part.shape),
        &part.size_record.coding,
        entries.bytes(),
        lengths.bytes(),
    )
}

/// Whether the sparse entries of all parts name the values in the middle of their spans.
fn all_fit(
    alloc: Global,
    parts: &[Part<'_>],
    entries: &[FileBytes<'_>],
    lengths: &[FileBytes<'_>],
) -> Result<bool, AllocError>
    requires entries { AreSized Entries parts.now entries.now }
    requires lengths { AreSized Lengths parts.now lengths.now }
    ensures { IfOk result (λ b. b ≡ all_fit parts.now entries.now lengths.now) }
{
    for i in 0..parts.len() {
        match part_fits(alloc, &parts[i], &entries[i], &lengths[i]) {
            Ok(true) => {}
            Ok(false) => return Ok(false),
            Err(fault) => return Err(fault),
        }
    }
    Ok(true)
}

/// Name, size, magic and flags: the kind, the material, and what is left to read.
#[tactic(auto, unfolding(crate::specs::Tables::head_at))]
fn head<'a>(name: &[u8], file: &'a [u8]) -> Result<((TableKind, Material), &'a [u8]), TableFault>
    ensures is { Gives (λ x. ((x.0.0, x.0.1), x.1.now)) result (head_at name.now file.now) }
    ensures no_memory { IfErr result (λ e. e ≢ OutOfMemory) }
{
    let (kind, material) = title(name)?;
    let body = body(file)?;
    let rest = magic(kind, body)?;
    let rest = flags(kind, &material, rest)?;
    Ok(((kind, material), rest))
}

/// The sections behind the maps: of each part its sparse entries, its block lengths and its blocks.
#[derive(Drop)]
struct Sections<'a> {
    entries: Vec<FileBytes<'a>>,
    lengths: Vec<FileBytes<'a>>,
    blocks: Vec<FileBytes<'a>>,
}

/// The sections behind the maps.
#[tactic(auto, unfolding(crate::specs::Inside::Opening::section_bytes_at))]
fn all_sections<'a>(
    alloc: Global,
    parts: &[Part<'_>],
    bytes: &'a [u8],
) -> Result<Sections<'a>, TableFault>
    ensures is { Gives (λ x. record { entries = x.entries.items; lengths = x.lengths.items; blocks = x.blocks.items }) result (section_bytes_at parts.now bytes.now) }
    ensures entries { IfOk result (λ x. AreSized Entries parts.now x.entries.items) }
    ensures lengths { IfOk result (λ x. AreSized Lengths parts.now x.lengths.items) }
    ensures blocks { IfOk result (λ x. AreSized Blocks parts.now x.blocks.items) }
{
    let (entries, rest) = sections(alloc, Section::Entries, parts, bytes)?;
    let (lengths, rest) = sections(alloc, Section::Lengths, parts, rest)?;
    let (blocks, _) = sections(alloc, Section::Blocks, parts, rest)?;
    Ok(Sections {
        entries,
        lengths,
        blocks,
    })
}

/// The sections behind the maps, and the check of the sparse entries.
#[tactic(auto, unfolding(crate::specs::Inside::Opening::checked_at))]
fn checked_sections<'a>(
    alloc: Global,
    parts: &[Part<'_>],
    bytes: &'a [u8],
) -> Result<Sections<'a>, TableFault>
    ensures is { Gives (λ x. record { entries = x.entries.items; lengths = x.lengths.items; blocks = x.blocks.items }) result (checked_at parts.now bytes.now) }
    ensures entries { IfOk result (λ x. AreSized Entries parts.now x.entries.items) }
    ensures lengths { IfOk result (λ x. AreSized Lengths parts.now x.lengths.items) }
    ensures blocks { IfOk result (λ x. AreSized Blocks parts.now x.blocks.items) }
    ensures fit { IfOk result (λ x. all_fit parts.now x.entries.items x.lengths.items ≡ true) }
{
    let sections = all_sections(alloc, parts, bytes)?;
    match all_fit(alloc, parts, &sections.entries, &sections.lengths) {
        Ok(true) => Ok(sections),
        Ok(false) => Err(TableFault::BadSparse),
        Err(_) => Err(TableFault::OutOfMemory),
    }
}

/// A part with its sections, which have one place in the three lists.
fn opened_part<'a>(part: Part<'a>, sections: &Sections<'a>, place: usize) -> OpenedPart<'a>
    requires entries { place < length sections.now.entries.items }
    requires lengths { place < length sections.now.lengths.items }
    requires blocks { place < length sections.now.blocks.items }
    ensures head { result.head ≡ part.entry }
    ensures entries { result.entries ≡ get_or sections.now.entries.items place [] }
    ensures lengths { result.lengths ≡ get_or sections.now.lengths.items place [] }
    ensures blocks { result.blocks ≡ get_or sections.now.blocks.items place [] }
{
    OpenedPart {
        entries: FileBytes::new(sections.entries[place].bytes()),
        lengths: FileBytes::new(sections.lengths[place].bytes()),
        blocks: FileBytes::new(sections.blocks[place].bytes()),
        head: part,
    }
}

/// Each part with its sections. The only error is that memory is refused.
fn opened_parts<'a>(
    alloc: Global,
    parts: Vec<Part<'a>>,
    sections: &Sections<'a>,
) -> Result<Vec<OpenedPart<'a>>, AllocError>
    requires entries { length sections.now.entries.items ≡ length parts.items }
    requires lengths { length sections.now.lengths.items ≡ length parts.items }
    requires blocks { length sections.now.blocks.items ≡ length parts.items }
    ensures parts { IfOk result (λ opened. plain_parts opened.items ≡ parts.entry.items) }
    ensures entries { IfOk result (λ opened. all_entries opened.items ≡ sections.now.entries.items) }
    ensures lengths { IfOk result (λ opened. all_lengths opened.items ≡ sections.now.lengths.items) }
    ensures blocks { IfOk result (λ opened. all_blocks opened.items ≡ sections.now.blocks.items) }
{
    let mut opened = Vec::with_capacity(alloc, parts.len())?;
    let mut left = parts.into_iter();
    'parts: while let Some(part) = left.next() {
        let k = opened.len();
        opened.push(opened_part(part, sections, k))?;
    }
    Ok(opened)
}

/// The table of parts, maps and the sections behind them.
fn with_sections<'a>(
    alloc: Global,
    kind: TableKind,
    material: Material,
    parts: Vec<Part<'a>>,
    maps: Vec<Maps<'a>>,
    bytes: &'a [u8],
) -> Result<Table<'a>, TableFault>
    requires all { length parts.items ≡ part_count kind material }
    requires shaped { AreShaped kind material parts.items }
    requires maps { kind ≡ Dtz → length maps.items ≡ length parts.items }
    ensures { Gives (λ x. x) result (sections_at kind material parts.entry.items maps.entry.items bytes.now) }
{
    let sections = match checked_sections(alloc, &parts, bytes) {
        Ok(sections) => sections,
        Err(fault) => return Err(fault),
    };
    let has_pawns = has_pawns(&material);
    let sides = Sides::of(kind, &material);
    match opened_parts(alloc, parts, &sections) {
        Ok(parts) => Ok(Table {
            kind,
            material,
            has_pawns,
            sides,
            parts,
            maps,
        }),
        Err(_) => Err(TableFault::OutOfMemory),
    }
}

/// Shapes and size records, and what is left.
#[tactic(auto, unfolding(crate::specs::Inside::Opening::all_parts_at))]
fn all_parts<'a>(
    alloc: Global,
    kind: TableKind,
    material: &Material,
    bytes: &'a [u8],
) -> Result<(Vec<Part<'a>>, &'a [u8]), TableFault>
    ensures is { Gives (λ x. (x.0.items, x.1.now)) result (all_parts_at kind material.now bytes.now) }
    ensures all { IfOk result (λ x. length x.0.items ≡ part_count kind material.now) }
    ensures shaped { IfOk result (λ x. AreShaped kind material.now x.0.items) }
{
    let (shapes, rest) = setups(alloc, kind, material, bytes)?;
    parts(alloc, kind, shapes, even(rest))
}

/// Shapes, size records and value maps, and then the sections.
fn with_parts<'a>(
    alloc: Global,
    kind: TableKind,
    material: Material,
    bytes: &'a [u8],
) -> Result<Table<'a>, TableFault>
    ensures { Gives (λ x. x) result (parts_at kind material bytes.now) }
{
    let (parts, rest) = match all_parts(alloc, kind, &material, bytes) {
        Ok(read) => read,
        Err(fault) => return Err(fault),
    };
    let (maps, rest) = match all_maps(alloc, kind, &parts, rest) {
        Ok(read) => read,
        Err(fault) => return Err(fault),
    };
    with_sections(alloc, kind, material, parts, maps, rest)
}

/// Opens a table file by its name, `KQvK.rtbw` or the like, and its bytes (Syzygy table format).
///
/// Each part is checked once, in the order of `TableFault`: name, size, magic and flags first, and then all in the
/// file's order. The first fault is returned. `OutOfMemory`, where memory is refused, comes only when name, size, magic
/// and flags are good. The time is linear in the length of the file.
#[tactic(auto, unfolding(crate::specs::Tables::contents_at))]
pub fn open<'a>(alloc: Global, name: &[u8], file: &'a [u8]) -> Result<Table<'a>, TableFault>
    ensures is { Gives (λ x. x) result (contents_at name.now file.now) }
    ensures found { IfOk result (λ t. IsLayout name.now file.now t) }
    ensures only { IfErr result (λ e. e ≢ OutOfMemory → (t : Contents) → IsLayout name.now file.now t → ⊥) }
    ensures first { IfErr result (λ e. e ≢ OutOfMemory → IsFirstTableFault name.now file.now e) }
    ensures memory { IfErr result (λ e. e ≡ OutOfMemory → IsOk (head_at name.now file.now)) }
{
    reads_what_is_laid_out();
    tells_first_fault();
    match head(name, file) {
        Ok((title, rest)) => with_parts(alloc, title.0, title.1, rest),
        Err(fault) => Err(fault),
    }
}

/// The file of the leading pawn that picks a part: 0 where there are no pawns.
fn own_file(has_pawns: bool, file: PawnFile) -> usize
    ensures is { result ≡ cond has_pawns file 0 }
    ensures few { result < 4 }
    ensures left { file < 4 }
{
    let number = file.number() as usize;
    if has_pawns { number } else { 0 }
}

impl<'a> Table<'a> {
    /// The men of the table. It takes no memory.
    pub fn material(&self) -> &Material
        ensures { result.now ≡ self.now.material }
    {
        &self.material
    }

    /// What the values mean. It takes no memory.
    pub fn kind(&self) -> TableKind
        ensures { result ≡ self.now.kind }
    {
        self.kind
    }

    /// Whether the values are distances to the next move that sets the halfmove clock to 0, and not results.
    pub fn is_dtz(&self) -> bool
        ensures { IsTrue result ↔ (self.now.kind ≡ Dtz) }
    {
        matches!(&self.kind, TableKind::Dtz)
    }

    /// The number of the part for a side and a file.
    pub(crate) fn place(&self, side: Side, file: PawnFile) -> usize
        ensures is { result ≡ part_place (part_for self.now side file) }
        ensures known { result < length self.now.parts }
    {
        let file = own_file(self.has_pawns, file);
        match self.sides {
            Sides::One => file,
            Sides::Two => 2 * file + side_number(side) as usize,
        }
    }

    /// The part for a side to move, white for the first side of the name, and a file of the leading pawn. A table of one
    /// side doesn't look at the side, and one without pawns not at the file.
    pub fn part(&self, side: Side, file: PawnFile) -> TablePart<'_, 'a>
        ensures { result ≡ part_for self.now side file }
    {
        let k = self.place(side, file);
        TablePart {
            table: self,
            part: &self.parts[k],
            side,
            file,
        }
    }

    /// How many parts there are: of each file of the leading pawn its sides.
    pub(crate) fn part_count(&self) -> usize
        ensures is { result ≡ length self.now.parts }
        ensures count { result ≡ part_count self.now.kind self.now.material }
    {
        self.parts.len()
    }

    /// The value maps, of each file in a DTZ file.
    pub(crate) fn maps(&self) -> &[Maps<'a>]
        ensures is { result.now ≡ self.now.maps }
        ensures all { self.now.kind ≡ Dtz → length self.now.maps ≡ length self.now.parts }
    {
        &self.maps
    }
}
