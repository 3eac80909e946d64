//! The tables of files, with or without a manifest.

ghost use Rattle.std.specs.Prelude.{◌≡◌, map, option_map, IfOk, Some, None, Ok};
ghost use Rattle.move_msg.specs.Files.{table_file_of};
ghost use Rattle.move_msg.specs.Manifests.{entry_of};
ghost use Rattle.task_files.specs.FileNames.{file_named};
ghost use Rattle.answer_parts.specs.Looks.{gathered, gathered_by, held, look_at, look_for, tables_from_looks, with_found};
ghost use Rattle.answer_parts.specs.Refusals.{filled_unless_refused, tables_or_refusal};

use crate::answers::refusals::Refusal;
use arrayvec::ArrayString;
use command_line::CacheSize;
use judge_core::{Set, SetFault};
use move_msg::{Line as Entry, Manifest, NamedFile, file_digest};
use std::alloc::{AllocError, Global};
use table_file::Table;
use table_folder::{FileFault, open_file};
use task_files::Inputs;

/// The file of this name.
fn file_named<'f>(files: &'f [NamedFile], name: &str) -> Option<&'f NamedFile>
    ensures { option_map (λ f. table_file_of f.now) result ≡ file_named name.now (map table_file_of files.now) }
{
    for file in files {
        if file.name.as_str() == name {
            return Some(file);
        }
    }
    None
}

/// The table of a manifest's line: its file has to be there and to have its digest.
fn open_line<'f>(
    alloc: Global,
    files: &'f [NamedFile],
    line: &Entry,
) -> Result<Result<Table<'f>, FileFault>, AllocError>
    ensures { IfOk result (λ found. found ≡ held line.now.digest (file_named line.now.name.bytes (map table_file_of files.now))) }
{
    let Some(file) = file_named(files, line.name.as_str()) else {
        return Ok(Err(FileFault::Missing));
    };
    if file_digest(&file.bytes) != line.digest {
        return Ok(Err(FileFault::Changed));
    }
    open_file(alloc, file.name.as_str(), &file.bytes)
}

/// Adds a table that was found; of two tables of one kind and material the first stays.
fn add_found<'f>(
    set: &mut Set<'f>,
    name: &ArrayString<16>,
    found: Result<Table<'f>, FileFault>,
) -> Result<Result<(), Refusal>, AllocError>
    ensures tables { IfOk result (λ added. filled_unless_refused added set.new.tables ≡ with_found set.old.tables name.now.bytes found.entry) }
    ensures cache { IfOk result (λ _. set.new.cache ≡ set.old.cache) }
{
    match found {
        Err(fault) => Ok(Err(Refusal::File(*name, fault))),
        Ok(table) => match set.add(table) {
            Ok(()) | Err(SetFault::Duplicate) => Ok(Ok(())),
            Err(SetFault::OutOfMemory) => Err(AllocError),
        },
    }
}

/// Adds the tables of all files, up to the first that is at fault.
fn add_files<'f>(
    alloc: Global,
    set: &mut Set<'f>,
    files: &'f [NamedFile],
) -> Result<Result<(), Refusal>, AllocError>
    ensures tables { IfOk result (λ added. filled_unless_refused added set.new.tables ≡ tables_from_looks set.old.tables (map look_at (map table_file_of files.now))) }
    ensures cache { IfOk result (λ _. set.new.cache ≡ set.old.cache) }
{
    for file in files {
        let found = open_file(alloc, file.name.as_str(), &file.bytes)?;
        match add_found(set, &file.name, found)? {
            Ok(()) => {}
            Err(refusal) => return Ok(Err(refusal)),
        }
    }
    Ok(Ok(()))
}

/// Adds the tables of a manifest's lines, up to the first whose file is at fault.
fn add_lines<'f>(
    alloc: Global,
    set: &mut Set<'f>,
    files: &'f [NamedFile],
    lines: &[Entry],
) -> Result<Result<(), Refusal>, AllocError>
    ensures tables { IfOk result (λ added. filled_unless_refused added set.new.tables ≡ tables_from_looks set.old.tables (map (look_for (map table_file_of files.now)) (map entry_of lines.now))) }
    ensures cache { IfOk result (λ _. set.new.cache ≡ set.old.cache) }
{
    for line in lines {
        let found = open_line(alloc, files, line)?;
        match add_found(set, &line.name, found)? {
            Ok(()) => {}
            Err(refusal) => return Ok(Err(refusal)),
        }
    }
    Ok(Ok(()))
}

/// The set of all files, which may keep so many decoded blocks.
fn gather_files<'f>(
    alloc: Global,
    files: &'f [NamedFile],
    cache: CacheSize,
) -> Result<Result<Set<'f>, Refusal>, AllocError>
    ensures tables { IfOk result (λ set. tables_or_refusal set ≡ gathered_by (map table_file_of files.now) None) }
    ensures cache { IfOk result (λ found. IfOk found (λ set. set.cache ≡ cache)) }
{
    let mut set = Set::new(alloc, cache.blocks())?;
    match add_files(alloc, &mut set, files)? {
        Ok(()) => Ok(Ok(set)),
        Err(refusal) => Ok(Err(refusal)),
    }
}

/// The set of the files that the lines of a manifest name, which may keep so many decoded blocks.
fn gather_lines<'f>(
    alloc: Global,
    files: &'f [NamedFile],
    lines: &[Entry],
    cache: CacheSize,
) -> Result<Result<Set<'f>, Refusal>, AllocError>
    ensures tables { IfOk result (λ set. tables_or_refusal set ≡ gathered_by (map table_file_of files.now) (Some (Ok (map entry_of lines.now)))) }
    ensures cache { IfOk result (λ found. IfOk found (λ set. set.cache ≡ cache)) }
{
    let mut set = Set::new(alloc, cache.blocks())?;
    match add_lines(alloc, &mut set, files, lines)? {
        Ok(()) => Ok(Ok(set)),
        Err(refusal) => Ok(Err(refusal)),
    }
}

/// The set of the files that are looked at, or the first refusal: without a manifest all files are, in their order; with one those
/// that its lines name, in its order. It may keep so many decoded blocks. The error comes only where memory is refused.
#[tactic(auto, unfolding(crate::specs::Looks::gathered))]
pub fn gather<'f>(
    alloc: Global,
    sources: &'f Inputs,
    cache: CacheSize,
) -> Result<Result<Set<'f>, Refusal>, AllocError>
    ensures tables { IfOk result (λ set. tables_or_refusal set ≡ gathered sources.now) }
    ensures cache { IfOk result (λ found. IfOk found (λ set. set.cache ≡ cache)) }
{
    match sources.manifest() {
        Manifest::Unnamed => gather_files(alloc, sources.files(), cache),
        Manifest::Lines(lines) => gather_lines(alloc, sources.files(), lines, cache),
        Manifest::BadLine(number) => Ok(Err(Refusal::Manifest(*number))),
    }
}
