//! Records: the worked rows of both versions, and refusals in their order.

use crate::tests::comparing::{check_bytes, check_same};
use move_msg::{Record, RecordFault, WrittenRecord, of_word};
use std::alloc::Global;
use std::process::Abort;

/// A record of one move, with a verdict and a delay.
const ONE_MOVE: [u8; 27] = [
    0x53, 0x52, 2, 0, 1, 2, 3, 4, 5, 6, 7, 8, 9, 10, 11, 12, 13, 14, 15, 4, 3, 0, 0, 0, 1, 0x07,
    0x0c,
];

/// A record is written as these bytes, or memory was refused.
fn check_again(rt: &impl Abort, alloc: Global, record: &Record, bytes: &[u8]) {
    assert!(rt; record.delay <= 8);
    if let Ok(again) = record.encode(alloc) {
        check_bytes(rt, &again, bytes, "again");
    }
}

// Also run with each allocation refused in turn: reading and writing take one each.
#[test]
fn tells_refused_memory(rt: HostRuntime) {
    match Record::decode(rt.alloc(), &ONE_MOVE) {
        Ok(record) => check_again(&rt, rt.alloc(), &record, &ONE_MOVE),
        Err(fault) => check_same(&rt, fault, RecordFault::OutOfMemory, "a fault"),
    }
}

/// The record of that move and e7e5, without a verdict.
const TWO_MOVES: [u8; 29] = [
    0x53, 0x52, 2, 0, 1, 2, 3, 4, 5, 6, 7, 8, 9, 10, 11, 12, 13, 14, 15, 4, 0, 0, 0, 0, 2, 0x07,
    0x0c, 0x09, 0x34,
];

/// The record of the first move alone, without its verdict.
const TAKEN_BACK: [u8; 27] = [
    0x53, 0x52, 2, 0, 1, 2, 3, 4, 5, 6, 7, 8, 9, 10, 11, 12, 13, 14, 15, 4, 0, 0, 0, 0, 1, 0x07,
    0x0c,
];

/// e7e5 is appended and taken back, or memory is refused and the record stays as it was.
fn check_appended(rt: &impl Abort, alloc: Global, written: WrittenRecord) {
    let mut written = written;
    let Some(reply) = of_word(0x0934) else {
        return;
    };
    assert!(rt; written.as_record().moves.as_slice().len() == 1);
    match written.go_on(alloc, &[reply], None) {
        Ok(()) => {
            check_bytes(rt, written.as_bytes(), &TWO_MOVES, "appended");
            written.cut_back(1);
            check_bytes(rt, written.as_bytes(), &TAKEN_BACK, "taken back");
        }
        Err(_) => check_bytes(rt, written.as_bytes(), &ONE_MOVE, "as before"),
    }
}

// Also run with each allocation refused in turn: reading takes two and appending at most three.
#[test]
fn appends_moves_and_takes_them_back(rt: HostRuntime) {
    match WrittenRecord::read(rt.alloc(), &ONE_MOVE) {
        Ok(written) => check_appended(&rt, rt.alloc(), written),
        Err(fault) => check_same(&rt, fault, RecordFault::OutOfMemory, "a fault"),
    }
}
