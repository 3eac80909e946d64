//! The manifest by which games are stamped that are entered or sent.

ghost use Rattle.std.specs.Prelude.{None};
ghost use Rattle.answer_commands.specs.Inside.Entering.{FileStamping, StampingBy, StampingOf};
ghost use Rattle.timeline.specs.Outsides.{AddsSome};

use answer_parts::Refusal;
use move_msg::{Line, Manifest, ManifestFault, manifest_read, manifest_write};
use std::alloc::Global;
use system_io::ReadFault;
use task_files::look_at_tables;
use timeline::System;

/// The manifest at a path.
fn file_manifest<S: System>(
    alloc: Global,
    system: &S,
    timeline: &mut S::Timeline,
    path: &str,
) -> Result<Vec<u8>, Refusal>
    ensures { AddsSome (S.outside system.now) timeline.old timeline.new (FileStamping (S.outside system.now) path.now result) }
{
    let text = match system.read(timeline, alloc, path) {
        Ok(text) => text,
        Err(fault) => return Err(Refusal::unread(fault)),
    };
    match manifest_read(alloc, &text) {
        Ok(_) => Ok(text),
        Err(ManifestFault::BadLine(number)) => Err(Refusal::Manifest(number)),
        Err(ManifestFault::OutOfMemory) => Err(Refusal::Memory),
    }
}

/// The manifest of the tables in a folder, of which one at a time is held.
fn folder_manifest<S: System>(
    alloc: Global,
    system: &S,
    timeline: &mut S::Timeline,
    folder: &str,
) -> Result<Vec<u8>, Refusal>
    ensures { AddsSome (S.outside system.now) timeline.old timeline.new (StampingOf (S.outside system.now) None folder.now result) }
{
    let looked: Result<Vec<Line>, ReadFault> = look_at_tables(
        alloc,
        system,
        timeline,
        folder,
        &Manifest::Unnamed,
        false,
    );
    let lines = match looked {
        Ok(lines) => lines,
        Err(fault) => return Err(Refusal::unread(fault)),
    };
    match manifest_write(alloc, &lines) {
        Ok(text) => Ok(text),
        Err(_) => Err(Refusal::Memory),
    }
}

/// The manifest by which a game is stamped: of the file that is named, or else of the tables in a folder, of which one at a time is held.
pub(crate) fn stamping_manifest<S: System>(
    alloc: Global,
    system: &S,
    timeline: &mut S::Timeline,
    named: Option<&str>,
    tables: &str,
) -> Result<Vec<u8>, Refusal>
    ensures { AddsSome (S.outside system.now) timeline.old timeline.new (StampingBy (S.outside system.now) named.entry tables.now result) }
{
    match named {
        Some(path) => file_manifest(alloc, system, timeline, path),
        None => folder_manifest(alloc, system, timeline, tables),
    }
}
