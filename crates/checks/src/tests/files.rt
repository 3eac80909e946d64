//! Forged table files of 80 bytes, by the bytes that aren't zero at their end: single values for both sides, and for all files
//! where there are pawns.

use crate::tests::comparing::{check_same, push_bytes};
use check_helpers::file_of;
use judge_core::{Set, SetFault};
use std::alloc::Global;
use std::process::Abort;
use std::test::Fail;
use table_file::{Table, open};

/// A knight draws.
pub(crate) const KNIGHT: [u8; 14] = [
    0x71, 0xE8, 0x23, 0x5D, 0x01, 0x00, 0x66, 0x22, 0xEE, 0x00, 0x80, 0x02, 0x80, 0x02,
];

/// A bishop draws.
pub(crate) const BISHOP: [u8; 14] = [
    0x71, 0xE8, 0x23, 0x5D, 0x01, 0x00, 0x66, 0x33, 0xEE, 0x00, 0x80, 0x02, 0x80, 0x02,
];

/// A pawn wins, and loses for the other side.
pub(crate) const PAWN: [u8; 38] = [
    0x71, 0xE8, 0x23, 0x5D, 0x03, 0x00, 0x11, 0x66, 0xEE, 0x00, 0x11, 0x66, 0xEE, 0x00, 0x11, 0x66,
    0xEE, 0x00, 0x11, 0x66, 0xEE, 0x00, 0x80, 0x04, 0x80, 0x00, 0x80, 0x04, 0x80, 0x00, 0x80, 0x04,
    0x80, 0x00, 0x80, 0x04, 0x80, 0x00,
];

/// Pawn against pawn is a draw.
pub(crate) const PAWNS: [u8; 38] = [
    0x71, 0xE8, 0x23, 0x5D, 0x02, 0x00, 0x01, 0x01, 0x09, 0x06, 0x0E, 0x00, 0x01, 0x01, 0x09, 0x06,
    0x0E, 0x00, 0x01, 0x01, 0x09, 0x06, 0x0E, 0x00, 0x01, 0x01, 0x09, 0x06, 0x0E, 0x00, 0x80, 0x02,
    0x80, 0x02, 0x80, 0x02, 0x80, 0x02,
];

/// The bytes of the queen's table with blocks before its sparse entries: side 0 has 314 blocks of eight bytes, spans of 256
/// values and one padding entry, side 1 the single value 0.
const QUEEN_BLOCKS: [u8; 38] = [
    0x71, 0xE8, 0x23, 0x5D, 0x01, 0x00, 0x66, 0x55, 0xEE, 0x00, 0x00, 0x03, 0x08, 0x01, 0x3A, 0x01,
    0x00, 0x00, 0x02, 0x01, 0x02, 0x00, 0x00, 0x00, 0x03, 0x00, 0x04, 0xF0, 0xFF, 0x00, 0xF0, 0xFF,
    0x00, 0x10, 0x00, 0x00, 0x80, 0x00,
];

/// The whole files of two such fronts.
pub(crate) fn files_of(first: &[u8], second: &[u8]) -> [[u8; 80]; 2] {
    [file_of(first), file_of(second)]
}

/// Fills up to a length.
pub(crate) fn fill(rt: &impl Abort, bytes: &mut Vec<u8>, length: usize, byte: u8) {
    assert!(rt; bytes.resize(length, byte).is_ok());
}

/// Appends these bytes so many times.
fn repeat(rt: &impl Abort, bytes: &mut Vec<u8>, count: u16, more: &[u8]) {
    for _ in 0..count {
        push_bytes(rt, bytes, more);
    }
}

/// The block of a value, and its offset there.
fn spot(middle: u16) -> (u16, u16) {
    if middle < 31332 {
        (middle / 100, middle % 100)
    } else {
        (314, middle.saturating_sub(31332))
    }
}

fn push_entry(rt: &impl Abort, bytes: &mut Vec<u8>, block: u16, offset: u16) {
    push_bytes(rt, bytes, &(block as u32).to_le_bytes());
    push_bytes(rt, bytes, &offset.to_le_bytes());
}

/// The sparse entries: of each 256 values the block of the middle one, and its offset there.
fn push_entries(rt: &impl Abort, bytes: &mut Vec<u8>) {
    for k in 0u16..123 {
        let (block, offset) = spot(256 * k + 128);
        push_entry(rt, bytes, block, offset);
    }
}

/// The block lengths less one, the last one of the padding entry.
fn push_lengths(rt: &impl Abort, bytes: &mut Vec<u8>) {
    repeat(rt, bytes, 313, &[99, 0]);
    push_bytes(rt, bytes, &[31, 0, 0xFF, 0xFF]);
}

/// 313 blocks of fifty pairs 4 0, and one of sixteen.
fn push_blocks(rt: &impl Abort, bytes: &mut Vec<u8>) {
    repeat(
        rt,
        bytes,
        313,
        &[0xFF, 0xFF, 0xFF, 0xFF, 0xFF, 0xFF, 0xC0, 0],
    );
    push_bytes(rt, bytes, &[0xFF, 0xFF, 0, 0, 0, 0, 0, 0]);
}

/// The whole queen's table with blocks, 3984 bytes.
pub(crate) fn queen_file(rt: &impl Abort, alloc: Global) -> Vec<u8> {
    let mut bytes = Vec::new(alloc);
    push_bytes(rt, &mut bytes, &QUEEN_BLOCKS);
    push_entries(rt, &mut bytes);
    push_lengths(rt, &mut bytes);
    fill(rt, &mut bytes, 1408, 0);
    push_blocks(rt, &mut bytes);
    fill(rt, &mut bytes, 3984, 0);
    bytes
}

/// Whether the table is added, which takes no memory.
fn is_taken<'a>(rt: &impl Abort, set: &mut Set<'a>, table: Table<'a>) -> bool {
    match set.add(table) {
        Ok(()) => true,
        Err(fault) => {
            check_same(rt, fault, SetFault::OutOfMemory, "a table");
            false
        }
    }
}

/// Whether the table of this file is added.
pub(crate) fn is_added<'a>(
    rt: &impl Abort,
    alloc: Global,
    set: &mut Set<'a>,
    name: &str,
    file: &'a [u8; 80],
) -> Result<bool, Fail> {
    Ok(is_taken(rt, set, open(alloc, name.as_bytes(), file)?))
}
