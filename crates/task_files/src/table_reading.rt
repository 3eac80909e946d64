//! The table files of a folder.

ghost use Rattle.std.specs.Prelude.{◌≡◌, ◌↔◌, map, string_bytes, IfOk, IsTrue};
ghost use Rattle.move_msg.specs.Files.{AreFiles, table_file_of};
ghost use Rattle.task_files.specs.TableReads.{HasTable, ListsTables, MayNote, ReadsFolder, ReadsTable, ReadsTables, listed, taken, taken_file};
ghost use Rattle.timeline.specs.Outsides.{AddsSome};

use crate::file_name::FileName;
use crate::reading::wanted_names;
use move_msg::{Manifest, NamedFile, is_file_name};
use std::alloc::Global;
use system_io::ReadFault;
use timeline::System;

/// Whether one of these names is that of a table's file.
fn has_table(names: &[String]) -> bool
    ensures { IsTrue result ↔ HasTable (map string_bytes names.now) }
{
    for name in names {
        if is_file_name(name.as_bytes()) {
            return true;
        }
    }
    false
}

/// Notes that a folder lists no table's file, where it lists these names. Nothing is noted where memory for the line is refused.
fn note_if_none<S: System>(
    alloc: Global,
    system: &S,
    timeline: &mut S::Timeline,
    folder: &str,
    names: &[String],
)
    ensures { AddsSome (S.outside system.now) timeline.old timeline.new (MayNote folder.now (map string_bytes names.now)) }
{
    if has_table(names) {
        return;
    }
    let Ok(line) = format!(in alloc; "no table in {folder}") else {
        return;
    };
    system.note(timeline, &[line.as_str()]);
}

/// The names of the wanted table files of a folder, in rising order. Wanted are those with names of table files, and with a
/// manifest only those that its lines name. No file is read. Whoever runs the program is told where the folder lists no table's file.
///
/// `Unreadable` where the folder can't be read or lists one of them twice, `OutOfMemory` where memory is refused.
pub fn list_tables<S: System>(
    alloc: Global,
    system: &S,
    timeline: &mut S::Timeline,
    folder: &str,
    manifest: &Manifest,
) -> Result<Vec<FileName>, ReadFault>
    ensures { AddsSome (S.outside system.now) timeline.old timeline.new (ListsTables (S.outside system.now).disk folder.now manifest.now (listed result)) }
{
    match system.names(timeline, alloc, folder) {
        Ok(names) => {
            note_if_none(alloc, system, timeline, folder, &names);
            wanted_names(alloc, &names, manifest)
        }
        Err(fault) => Err(fault),
    }
}

/// The file of this name in a folder, with the bytes at its path.
///
/// `Unreadable` where it can't be read or has more than 2^30 bytes, `OutOfMemory` where memory is refused.
pub fn read_table<S: System>(
    alloc: Global,
    system: &S,
    timeline: &mut S::Timeline,
    folder: &str,
    name: &FileName,
) -> Result<NamedFile, ReadFault>
    ensures { AddsSome (S.outside system.now) timeline.old timeline.new (ReadsTable (S.outside system.now).disk folder.now name.now (taken_file result)) }
{
    let text = name.as_str();
    let Ok(path) = format!(in alloc; "{folder}/{text}") else {
        return Err(ReadFault::OutOfMemory);
    };
    match system.read(timeline, alloc, path.as_str()) {
        Ok(bytes) => Ok(NamedFile {
            name: name.text(),
            bytes,
        }),
        Err(fault) => Err(fault),
    }
}

/// The files of these names in a folder, which are read in this order. It ends at the first that isn't.
fn read_each<S: System>(
    alloc: Global,
    system: &S,
    timeline: &mut S::Timeline,
    folder: &str,
    names: &[FileName],
) -> Result<Vec<NamedFile>, ReadFault>
    ensures { AddsSome (S.outside system.now) timeline.old timeline.new (ReadsTables (S.outside system.now).disk folder.now names.now (taken result)) }
{
    let mut files = Vec::new(alloc);
    for name in names {
        let file = match read_table(alloc, system, timeline, folder, name) {
            Ok(file) => file,
            Err(fault) => return Err(fault),
        };
        let Ok(()) = files.push(file) else {
            return Err(ReadFault::OutOfMemory);
        };
    }
    Ok(files)
}

/// The wanted table files of a folder, in rising order of names, as `list_tables` has them. All are held. Each is read once, in this
/// order, after the folder was listed, and nothing is read after one that can't be.
///
/// `Unreadable` where the folder or one of these files can't be read or has more than 2^30 bytes, or the folder lists one of them twice;
/// `OutOfMemory` where memory is refused.
pub fn read_tables<S: System>(
    alloc: Global,
    system: &S,
    timeline: &mut S::Timeline,
    folder: &str,
    manifest: &Manifest,
) -> Result<Vec<NamedFile>, ReadFault>
    ensures reads { AddsSome (S.outside system.now) timeline.old timeline.new (ReadsFolder (S.outside system.now).disk folder.now manifest.now (taken result)) }
    ensures files { IfOk result (λ files. AreFiles (map table_file_of files.items)) }
{
    match list_tables(alloc, system, timeline, folder, manifest) {
        Ok(wanted) => read_each(alloc, system, timeline, folder, &wanted),
        Err(fault) => Err(fault),
    }
}
