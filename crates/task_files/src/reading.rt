//! The wanted names of a folder's table files, and what is kept of such a file.

ghost use Rattle.std.specs.Prelude.{◌≡◌, ◌↔◌, map, string_bytes, IfOk, IfSome, IfNone, OnOk, IsErrOf, IsTrue};
ghost use Rattle.std.specs.List.{Contains};
ghost use Rattle.move_msg.specs.Manifests.{entry_of};
ghost use Rattle.move_msg.specs.TableNames.{IsFileName};
ghost use Rattle.move_msg.specs.Files.{File, table_file_of};
ghost use Rattle.task_files.specs.FileNames.{AreRisingNames};
ghost use Rattle.move_msg.specs.ToldBy.{told_by};
ghost use Rattle.task_files.specs.Outside.{AreWantedOf, IsWanted, ListsTwice};
ghost use Rattle.task_files.specs.Made.{AreMadeOf};
ghost use Rattle.task_files.specs.Inside.Placing.{IsNamePlace, AddsName};

use crate::file_name::FileName;
use move_msg::{Line, Manifest, NamedFile};
use std::alloc::{AllocError, Global};
use std::cmp::Ordering;
use system_io::ReadFault;

/// Whether one of the lines has this name.
fn is_named(lines: &[Line], name: &str) -> bool
    ensures { IsTrue result ↔ Contains (map (λ e. e.name) (map entry_of lines.now)) name.now }
{
    for line in lines {
        if line.name.as_str() == name {
            return true;
        }
    }
    false
}

/// Whether the file of this name is wanted: by the manifest, or, without one, always.
fn is_wanted(name: &str, manifest: &Manifest) -> bool
    ensures { IsTrue result ↔ IsWanted (told_by manifest.now) name.now }
{
    match manifest {
        Manifest::Unnamed => true,
        Manifest::Lines(lines) => is_named(lines, name),
        Manifest::BadLine(_) => false,
    }
}

/// The name of a table's file that is wanted.
fn wanted_name(name: &str, manifest: &Manifest) -> Option<FileName>
    ensures name { IfSome result (λ wanted. wanted ≡ name.now) }
    ensures some { IfSome result (λ wanted. IsFileName name.now × IsWanted (told_by manifest.now) name.now) }
    ensures none { IfNone result (IsFileName name.now → IsWanted (told_by manifest.now) name.now → ⊥) }
{
    if is_wanted(name, manifest) {
        FileName::of(name)
    } else {
        None
    }
}

/// The place of a name among rising ones; none where it is one of them.
fn place_of(names: &[FileName], name: &FileName) -> Option<usize>
    ensures place { IfSome result (IsNamePlace names.now name.now) }
    ensures there { IfNone result (Contains names.now name.now) }
{
    for i in 0..names.len() {
        match names[i].order(name) {
            Ordering::Less => {}
            Ordering::Equal => return None,
            Ordering::Greater => return Some(i),
        }
    }
    Some(names.len())
}

/// Puts a name in its place among rising ones; `Unreadable` where it is one of them.
fn add_name(names: &mut Vec<FileName>, name: FileName) -> Result<(), ReadFault>
    requires { AreRisingNames names.old.items }
    ensures ok { OnOk result (AddsName names.old.items name names.new.items) }
    ensures cause { IsErrOf result ReadFault.Unreadable → Contains names.old.items name }
{
    let Some(place) = place_of(names, &name) else {
        return Err(ReadFault::Unreadable);
    };
    match names.insert(place, name) {
        Ok(()) => Ok(()),
        Err(_) => Err(ReadFault::OutOfMemory),
    }
}

/// The names of table files that are wanted, in rising order; `Unreadable` where one is listed twice.
pub(crate) fn wanted_names(
    alloc: Global,
    names: &[String],
    manifest: &Manifest,
) -> Result<Vec<FileName>, ReadFault>
    ensures ok { IfOk result (λ wanted. AreWantedOf (told_by manifest.now) (map string_bytes names.now) wanted.items) }
    ensures cause { IsErrOf result ReadFault.Unreadable → ListsTwice (told_by manifest.now) (map string_bytes names.now) }
{
    let mut wanted = Vec::new(alloc);
    for name in names {
        match wanted_name(name.as_str(), manifest) {
            None => {}
            Some(name) => match add_name(&mut wanted, name) {
                Ok(()) => {}
                Err(fault) => return Err(fault),
            },
        }
    }
    Ok(wanted)
}

/// What is kept of a table's file that is read.
pub trait TableRequest: Drop {
    /// It is made of the file.
    ghost made_of: { Self → File → Type 0 };

    /// What is kept of a file. The error comes only where memory is refused.
    fn of(alloc: Global, file: NamedFile) -> Result<Self, AllocError>
        ensures { IfOk result (λ look. made_of look (table_file_of file)) };
}

impl TableRequest for Line {
    ghost use Rattle.std.specs.Prelude.{◌≡◌};
    ghost use Rattle.move_msg.specs.Files.{entry_for};
    ghost use Rattle.move_msg.specs.Manifests.{IsEntry, entry_of};
    ghost use Rattle.move_msg.specs.TableNames.{IsFileName};

    ghost made_of = { λ line f. (entry_of line ≡ entry_for f) × (IsFileName f.name → IsEntry (entry_of line)) };

    fn of(_alloc: Global, file: NamedFile) -> Result<Line, AllocError> {
        Ok(Line::of(file.name, &file.bytes))
    }
}
