//! Which tables a set has.

ghost use Rattle.std.specs.Prelude.{◌≡◌, pos};
ghost use Rattle.judge_core.specs.Tables.{largest_of};
ghost use Rattle.probe_api.specs.Holds.{TellsHas, has_number, numbered_kind};
ghost use Rattle.probe_api.specs.Replies.{told};

use crate::reply::Reply;
use judge_core::Set;
use place_index::{Material, tables_are_numbered};
use table_file::TableKind;

/// 0 for a WDL table, and every other number for a DTZ table.
fn kind_of(number: u8) -> TableKind
    ensures { result ≡ numbered_kind number }
{
    if number == 0 {
        TableKind::Wdl
    } else {
        TableKind::Dtz
    }
}

/// 1 where the set has the table, else 0.
fn has_number(set: &Set<'_>, kind: TableKind, material: Material) -> i32
    ensures { result ≡ has_number set.now.tables kind material }
{
    if set.has(kind, material) { 1 } else { 0 }
}

/// Whether the set has the WDL table, with kind 0, or else the DTZ table, for the material with this name, as `KQvK`: 1 where it has
/// it, else 0. The status is 64 where the text names no material of three to five men.
pub fn has(set: &Set<'_>, kind: u8, name: &[u8]) -> Reply
    ensures { TellsHas set.now.tables kind name.now result }
{
    tables_are_numbered();
    match Material::from_name(name) {
        Some(material) => Reply::ok(has_number(set, kind_of(kind), material)),
        None => Reply::refused(64),
    }
}

/// The largest number of men of a table in the set, kings included, 0 without a table.
pub fn largest(set: &Set<'_>) -> Reply
    ensures { result ≡ told (pos (largest_of set.now.tables)) }
{
    Reply::ok(set.largest() as i32)
}
