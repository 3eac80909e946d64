//! The tables that probes miss.

ghost use Rattle.std.specs.Prelude.{◌≡◌};
ghost use Rattle.place_index.specs.Material.{name_of, men_of};
ghost use Rattle.probe_api.specs.Missing.{PutsDtzMissing, PutsDtzMissingOf, PutsKnownMissing, PutsKnownMissingOf, PutsMissing, PutsMissingOf};
ghost use Rattle.probe_api.specs.Texts.{PutsText};

use crate::board::{Board, position_on};
use crate::text::put_text;
use board_core::Position;
use judge_core::{ProbeFault, Set};
use place_index::Material;
use std::alloc::Global;

/// Puts the name of a table.
fn put_name(material: &Material, room: &mut [u8]) -> usize
    ensures { PutsText (name_of (men_of material.now)) room.old result room.new }
{
    let name = material.name();
    put_text(name.as_str().as_bytes(), room)
}

/// Puts the name of the table that the WDL probe of a position misses.
fn put_missing_of(alloc: Global, set: &mut Set<'_>, position: &Position, room: &mut [u8]) -> usize
    ensures is { PutsMissingOf set.old.tables position.now room.old result room.new }
    ensures kept { set.new ≡ set.old }
{
    let probed = set.wdl(alloc, position);
    match &probed {
        Err(ProbeFault::NotCovered(material)) => put_name(material, room),
        _ => put_text(b"", room),
    }
}

/// Puts the name of the first table that the WDL probe of a board needs and the set lacks, as `KQvK`, and a byte 0 after it at the
/// front of the room, where both fit; otherwise it writes nothing. The result is the length of the name, at most 6. The name is empty
/// where the probe misses no table, or the board shows no position. The set stays as it was but for its cache.
pub fn put_missing(alloc: Global, set: &mut Set<'_>, board: &Board, room: &mut [u8]) -> usize
    ensures is { PutsMissing set.old.tables board.now room.old result room.new }
    ensures kept { set.new ≡ set.old }
{
    match position_on(board) {
        Ok(position) => put_missing_of(alloc, set, &position, room),
        Err(_) => put_text(b"", room),
    }
}

/// Puts the name of the table that the probe of a position misses which ends at a capture that wins.
fn put_known_missing_of(
    alloc: Global,
    set: &mut Set<'_>,
    position: &Position,
    room: &mut [u8],
) -> usize
    ensures is { PutsKnownMissingOf set.old.tables position.now room.old result room.new }
    ensures kept { set.new ≡ set.old }
{
    let probed = set.known_wdl(alloc, position);
    match &probed {
        Err(ProbeFault::NotCovered(material)) => put_name(material, room),
        _ => put_text(b"", room),
    }
}

/// Puts the name of the first table that the set lacks for the value of a board as soon as it is known (`Question::KnownWdl`), as
/// `put_missing` does for its WDL probe: the name is empty too where a capture wins. The set stays as it was but for its cache.
pub fn put_known_missing(alloc: Global, set: &mut Set<'_>, board: &Board, room: &mut [u8]) -> usize
    ensures is { PutsKnownMissing set.old.tables board.now room.old result room.new }
    ensures kept { set.new ≡ set.old }
{
    match position_on(board) {
        Ok(position) => put_known_missing_of(alloc, set, &position, room),
        Err(_) => put_text(b"", room),
    }
}

/// Puts the name of the material of which the DTZ probe of a position misses a table.
fn put_dtz_missing_of(
    alloc: Global,
    set: &mut Set<'_>,
    position: &Position,
    room: &mut [u8],
) -> usize
    ensures is { PutsDtzMissingOf set.old.tables position.now room.old result room.new }
    ensures kept { set.new ≡ set.old }
{
    let probed = set.dtz(alloc, position);
    match &probed {
        Err(ProbeFault::NotCovered(material)) => put_name(material, room),
        _ => put_text(b"", room),
    }
}

/// Puts the name of the first material of which the DTZ probe of a board needs a table that the set lacks, its WDL table or its DTZ
/// table, as `KQvK`, and a byte 0 after it at the front of the room, where both fit; otherwise it writes nothing. The result is the
/// length of the name, at most 6. The name is empty where the probe misses no table, where memory is refused for its moves, or where
/// the board shows no position. The set stays as it was but for its cache.
pub fn put_dtz_missing(alloc: Global, set: &mut Set<'_>, board: &Board, room: &mut [u8]) -> usize
    ensures is { PutsDtzMissing set.old.tables board.now room.old result room.new }
    ensures kept { set.new ≡ set.old }
{
    match position_on(board) {
        Ok(position) => put_dtz_missing_of(alloc, set, &position, room),
        Err(_) => put_text(b"", room),
    }
}
