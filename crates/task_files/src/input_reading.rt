//! What a task names is read.

ghost use Rattle.std.specs.Prelude.{[], map, option_map, IfOk};
ghost use Rattle.move_msg.specs.Files.{AreFiles, table_file_of};
ghost use Rattle.task_files.specs.InputReads.{AddsRead, ReadsGiven, ReadsHeld, ReadsInput, ReadsKept, ReadsLines, ReadsManifest, ReadsTextsOf, ReadsWanted};
ghost use Rattle.task_files.specs.Inside.Readings.{held_taken, texts_taken};
ghost use Rattle.task_files.specs.Sources.{named_by, path_named};
ghost use Rattle.task_files.specs.TableReads.{taken};
ghost use Rattle.timeline.specs.Events.{bytes_read};
ghost use Rattle.timeline.specs.Outsides.{AddsSome};

use crate::sources::{InputPaths, Inputs, Texts};
use crate::table_reading::read_tables;
use move_msg::{Manifest, NamedFile};
use std::alloc::Global;
use system_io::{MOST_KEPT_BYTES, ReadFault};
use timeline::System;

/// What a text says as a manifest.
fn manifest_of(alloc: Global, text: &[u8]) -> Result<Manifest, ReadFault>
    ensures { ReadsLines text.now result [] }
{
    match Manifest::of(alloc, text) {
        Ok(manifest) => Ok(manifest),
        Err(_) => Err(ReadFault::OutOfMemory),
    }
}

/// The manifest at a path, if one is named. `Unreadable` where it can't be read or has more than 2^30 bytes, `OutOfMemory` where memory is
/// refused.
pub fn manifest_at<S: System>(
    alloc: Global,
    system: &S,
    timeline: &mut S::Timeline,
    path: Option<&str>,
) -> Result<Manifest, ReadFault>
    ensures { AddsSome (S.outside system.now) timeline.old timeline.new (ReadsManifest (S.outside system.now).disk (option_map (λ s. s.now) path.entry) result) }
{
    match path {
        None => Ok(Manifest::Unnamed),
        Some(path) => match system.read(timeline, alloc, path) {
            Ok(text) => manifest_of(alloc, &text),
            Err(fault) => Err(fault),
        },
    }
}

/// The files of a folder that a manifest wants, if a folder is named.
fn wanted_files<S: System>(
    alloc: Global,
    system: &S,
    timeline: &mut S::Timeline,
    folder: Option<&str>,
    manifest: &Manifest,
) -> Result<Vec<NamedFile>, ReadFault>
    ensures reads { AddsRead (S.outside system.now) timeline.old timeline.new (λ d. ReadsWanted d (path_named folder.entry) manifest.now) (taken result) }
    ensures files { IfOk result (λ files. AreFiles (map table_file_of files.items)) }
{
    match folder {
        None => Ok(Vec::new(alloc)),
        Some(folder) => read_tables(alloc, system, timeline, folder, manifest),
    }
}

/// A manifest, and the files that it wants.
#[derive(Drop)]
struct Tables {
    manifest: Manifest,
    files: Vec<NamedFile>,
}

/// Reads the manifest, and then the files that it wants.
fn read_held<S: System>(
    alloc: Global,
    system: &S,
    timeline: &mut S::Timeline,
    places: &InputPaths,
) -> Result<Tables, ReadFault>
    ensures reads { AddsSome (S.outside system.now) timeline.old timeline.new (ReadsHeld (S.outside system.now).disk (named_by places.now) (held_taken result)) }
    ensures files { IfOk result (λ tables. AreFiles (map table_file_of tables.files.items)) }
{
    let manifest = match manifest_at(alloc, system, timeline, places.manifest) {
        Ok(manifest) => manifest,
        Err(fault) => return Err(fault),
    };
    match wanted_files(alloc, system, timeline, places.folder, &manifest) {
        Ok(files) => Ok(Tables { manifest, files }),
        Err(fault) => Err(fault),
    }
}

/// The input, if it is wanted.
fn read_input<S: System>(
    alloc: Global,
    system: &S,
    timeline: &mut S::Timeline,
    is_wanted: bool,
) -> Result<Vec<u8>, ReadFault>
    ensures { AddsSome (S.outside system.now) timeline.old timeline.new (ReadsInput (S.outside system.now).input is_wanted (bytes_read result)) }
{
    if is_wanted {
        system.read_input(timeline, alloc)
    } else {
        Ok(Vec::new(alloc))
    }
}

/// The bytes of a kept file, if one is named: at most 8217.
fn read_kept<S: System>(
    alloc: Global,
    system: &S,
    timeline: &mut S::Timeline,
    path: Option<&str>,
) -> Result<Vec<u8>, ReadFault>
    ensures { AddsRead (S.outside system.now) timeline.old timeline.new (λ d. ReadsKept d (path_named path.entry)) (bytes_read result) }
{
    match path {
        None => Ok(Vec::new(alloc)),
        Some(path) => system.read_within(timeline, alloc, path, MOST_KEPT_BYTES as u64),
    }
}

/// Reads the input, and then the kept files.
fn read_texts<S: System>(
    alloc: Global,
    system: &S,
    timeline: &mut S::Timeline,
    places: &InputPaths,
) -> Result<Texts, ReadFault>
    ensures { AddsSome (S.outside system.now) timeline.old timeline.new (ReadsTextsOf (S.outside system.now) (named_by places.now) (texts_taken result)) }
{
    let input = match read_input(alloc, system, timeline, places.reads_input) {
        Ok(input) => input,
        Err(fault) => return Err(fault),
    };
    let kept = match read_kept(alloc, system, timeline, places.kept) {
        Ok(kept) => kept,
        Err(fault) => return Err(fault),
    };
    match read_kept(alloc, system, timeline, places.other_kept) {
        Ok(other_kept) => Ok(Texts {
            input,
            kept,
            other_kept,
        }),
        Err(fault) => Err(fault),
    }
}

/// Reads what these places name, each thing once: the manifest, the wanted files of the folder, the input where it is wanted, and kept
/// files, in this order. Nothing more is read after a fault.
///
/// Files whose names are not those of tables are ignored, and with a manifest those that it doesn't name. `Unreadable` where one of these
/// can't be read, also where a kept file has more than 8217 bytes or one of the others more than 2^30, or the folder lists one of these
/// files twice. `OutOfMemory` where memory is refused.
pub fn read_inputs<S: System>(
    alloc: Global,
    system: &S,
    timeline: &mut S::Timeline,
    places: &InputPaths,
) -> Result<Inputs, ReadFault>
    ensures { AddsSome (S.outside system.now) timeline.old timeline.new (ReadsGiven (S.outside system.now) (named_by places.now) result) }
{
    let tables = match read_held(alloc, system, timeline, places) {
        Ok(tables) => tables,
        Err(fault) => return Err(fault),
    };
    match read_texts(alloc, system, timeline, places) {
        Ok(texts) => Ok(Inputs {
            files: tables.files,
            manifest: tables.manifest,
            input: texts.input,
            kept: texts.kept,
            other_kept: texts.other_kept,
        }),
        Err(fault) => Err(fault),
    }
}
