//! The manifest of files in any order.

ghost use Rattle.std.specs.Prelude.{◌≡◌, ◌↔◌, map, IfOk, IsTrue};
ghost use Rattle.move_msg.specs.Manifests.{IsBefore, entry_of};
ghost use Rattle.move_msg.specs.TableNames.{IsFileName};
ghost use Rattle.relay_world.specs.Gathering.{AreTables, IsNew, IsManifestOf, Inserts};

use crate::file::file_at;
use arrayvec::ArrayString;
use move_msg::{Line, manifest_write};
use std::alloc::{AllocError, Global};
use std::cmp::Ordering;
use std::vec::Vec;

/// The name of a table's file as a text.
fn text_of(name: &[u8]) -> ArrayString<16>
    requires { IsFileName name.now }
    ensures { result.bytes ≡ name.now }
{
    ArrayString::from(str::from_utf8(name).unwrap()).unwrap()
}

/// Whether the one line's name comes before the other's.
fn is_before(first: &Line, second: &Line) -> bool
    ensures { IsTrue result ↔ IsBefore (entry_of first.now) (entry_of second.now) }
{
    match first.name.as_str().cmp(second.name.as_str()) {
        Ordering::Less => true,
        Ordering::Equal | Ordering::Greater => false,
    }
}

/// How many of these lines by rising name come before this one.
fn place_of(lines: &[Line], line: &Line) -> usize
    requires { IsNew (entry_of line.now) (map entry_of lines.now) }
    ensures { Inserts (entry_of line.now) (map entry_of lines.now) result }
{
    let mut place = 0;
    while place < lines.len() && is_before(&lines[place], line) {
        place += 1;
    }
    place
}

/// The manifest of files that are tables, each of another name.
pub(crate) fn manifest_of<'f>(
    alloc: Global,
    files: &'f [(&'f [u8], &'f [u8])],
) -> Result<Vec<u8>, AllocError>
    requires { AreTables (map (λ f. record { name = f.0.now; bytes = f.1.now }) files.now) }
    ensures { IfOk result (λ bytes. IsManifestOf (map (λ f. record { name = f.0.now; bytes = f.1.now }) files.now) bytes.items) }
{
    let mut lines = Vec::new(alloc);
    for i in 0..files.len() {
        let file = file_at(files, i);
        let line = Line::of(text_of(file.name), file.bytes);
        let place = place_of(&lines, &line);
        lines.insert(place, line)?;
    }
    manifest_write(alloc, &lines)
}
