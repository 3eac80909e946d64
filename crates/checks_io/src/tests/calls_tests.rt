//! A kept file by the calls that are made for it, and by the calls of the system.

use crate::tests::comparing::{check_bytes, check_same, push_bytes};
use std::alloc::Global;
use std::fs;
use std::io::sink;
use std::process::Abort;
use std::rt::Files;
use system_fakes::{Crash, DiskFile, MadeCall, MemoryCalls, Outcome, read_after};
use system_io::{CallLog, KeptFile, ReadFault, SystemFile, begin, replace, replace_in_part};

/// A letter for each call: `r` and `f` for what is read and for the folder that is synced, `w`, `s` and `n` for the file beside
/// that is written, synced and given the name, `x` for one that failed.
fn letter_of(call: &MadeCall) -> u8 {
    match call {
        MadeCall::Read(_) => b'r',
        MadeCall::Wrote(_) => b'w',
        MadeCall::SyncedFile => b's',
        MadeCall::Renamed => b'n',
        MadeCall::SyncedFolder => b'f',
        MadeCall::RenameFailed | MadeCall::Failed => b'x',
    }
}

/// The calls that were made.
fn check_calls(rt: &impl Abort, alloc: Global, calls: &MemoryCalls, wanted: &str) {
    let mut letters = Vec::new(alloc);
    for call in calls.made().expect(rt, "memory") {
        push_bytes(rt, &mut letters, &[letter_of(call)]);
    }
    check_bytes(rt, &letters, wanted.as_bytes(), wanted);
}

/// A file with the bytes `old`, of whose calls that of this number fails.
fn traced(rt: &impl Abort, alloc: Global, fails_at: usize) -> CallLog<MemoryCalls> {
    let old = Vec::from_slice(alloc, b"old").expect(rt, "memory");
    CallLog::new(alloc, MemoryCalls::new(alloc, Some(old), Some(fails_at)))
}

/// Reads the file and lets other bytes take the place of those in it, and tells whether both were done.
fn is_replaced(alloc: Global, file: &mut CallLog<MemoryCalls>) -> bool {
    begin(alloc, file).is_ok() && replace(file, b"new").is_ok()
}

/// The call that fails, and the calls that are made; where none fails all of them are.
const CALLS: [(usize, &str); 7] = [
    (0, "x"),
    (1, "rx"),
    (2, "rfx"),
    (3, "rfwx"),
    (4, "rfwsx"),
    (5, "rfwsnx"),
    (6, "rfwsnf"),
];

/// A call that fails is the last one.
fn check_row(rt: &impl Abort, alloc: Global, row: &(usize, &str)) {
    let mut file = traced(rt, alloc, row.0);
    check_same(rt, is_replaced(alloc, &mut file), row.0 == 6, row.1);
    check_calls(rt, alloc, file.calls(), row.1);
}

#[test]
fn makes_the_calls_in_their_order(rt: HostRuntime) {
    for row in &CALLS {
        check_row(&rt, rt.alloc(), row);
    }
}

/// No call has this number.
const NEVER: usize = usize::MAX;

/// So many calls of a replacement are made, and no more.
fn check_part(rt: &impl Abort, alloc: Global, calls: usize, wanted: &str) {
    let mut file = traced(rt, alloc, NEVER);
    check_same(rt, begin(alloc, &mut file).is_ok(), true, "a start");
    let done = replace_in_part(&mut file, b"new", calls);
    check_same(rt, done, calls == 4, wanted);
    check_calls(rt, alloc, file.calls(), wanted);
}

#[test]
fn makes_so_many_calls(rt: HostRuntime) {
    for (calls, wanted) in [
        (0, "rf"),
        (1, "rfw"),
        (2, "rfws"),
        (3, "rfwsn"),
        (4, "rfwsnf"),
    ] {
        check_part(&rt, rt.alloc(), calls, wanted);
    }
}

/// The calls of a file that are made by a start.
fn check_start(rt: &impl Abort, alloc: Global, file: CallLog<MemoryCalls>, wanted: &str) {
    let mut file = file;
    check_same(rt, begin(alloc, &mut file).is_ok(), true, "a start");
    check_calls(rt, alloc, file.calls(), wanted);
}

/// Where nothing is kept.
fn absent(alloc: Global) -> CallLog<MemoryCalls> {
    CallLog::new(alloc, MemoryCalls::new(alloc, None, None))
}

/// A start reads the file and syncs its folder, and makes no other call, whether there is a file or not.
#[test]
fn a_start_writes_nothing(rt: HostRuntime) {
    let file = traced(&rt, rt.alloc(), NEVER);
    check_start(&rt, rt.alloc(), file, "rf");
    check_start(&rt, rt.alloc(), absent(rt.alloc()), "rf");
}

/// A disk with the bytes `old`, of which the fourth call comes out so, the first being that of a start.
fn disk(rt: &impl Abort, alloc: Global, outcome: Outcome) -> DiskFile {
    let old = Vec::from_slice(alloc, b"old").expect(rt, "memory");
    let mut outcomes = Vec::new(alloc);
    outcomes.push(outcome).expect(rt, "memory");
    outcomes.resize(5, Outcome::Good).expect(rt, "memory");
    DiskFile::new(alloc, Some(old), outcomes, false)
}

/// A disk on which a replacement failed at its last call, the sync of the folder, which came out so, and was then made again.
fn synced_again(rt: &impl Abort, alloc: Global, outcome: Outcome) -> DiskFile {
    let mut disk = disk(rt, alloc, outcome);
    check_same(rt, begin(alloc, &mut disk).is_ok(), true, "a start");
    check_same(
        rt,
        replace(&mut disk, b"new").is_err(),
        true,
        "a replacement",
    );
    check_same(rt, disk.sync_folder().is_ok(), true, "another sync");
    disk
}

/// A loss of power after which the earliest file has the name.
fn loss(alloc: Global) -> Crash {
    Crash::PowerLost {
        which: 0,
        bytes: Vec::new(alloc),
        beside: None,
    }
}

/// What is read after a loss of power.
fn check_left(rt: &impl Abort, alloc: Global, outcome: Outcome, wanted: &[u8]) {
    let read = read_after(alloc, synced_again(rt, alloc, outcome), loss(alloc));
    let read = read.ok().expect(rt, "what is read");
    check_same(rt, read.as_deref(), Some(wanted), "what is read");
}

/// Whether a start after a stop without a loss of power can't read the file.
fn is_stuck(rt: &impl Abort, alloc: Global, outcome: Outcome) -> bool {
    let disk = synced_again(rt, alloc, outcome);
    matches!(
        read_after(alloc, disk, Crash::StaysUp),
        Err(ReadFault::Unreadable)
    )
}

/// A sync of the folder that failed and lost the name isn't mended by a later one; one that failed before it did anything is.
#[test]
fn a_lost_name_stays_lost(rt: HostRuntime) {
    check_left(&rt, rt.alloc(), Outcome::Halfway(0), b"old");
    check_left(&rt, rt.alloc(), Outcome::Before, b"new");
    let stuck = is_stuck(&rt, rt.alloc(), Outcome::Halfway(0));
    check_same(&rt, stuck, true, "a lost name");
    let stuck = is_stuck(&rt, rt.alloc(), Outcome::Before);
    check_same(&rt, stuck, false, "a name that is synced later");
}

/// Whether the system's file at a path can be brought to the disk.
fn is_settled<R: Files<File = fs::File> + AllocGlobal + Abort>(rt: &R, path: &str) -> bool {
    let mut file = SystemFile::at(rt, rt.alloc(), sink(), path).expect(rt, "memory");
    file.settle().is_ok()
}

const FOLDER: &str = "/tmp/checks-test-calls";

/// A file that isn't there is settled; a folder in its place isn't, nor a file whose folder isn't there.
#[test]
fn settles_what_is_not_there(rt: HostRuntime) {
    let _left = fs::remove_dir_all(&rt, FOLDER).is_ok();
    fs::create_dir(&rt, FOLDER).expect(&rt, "a folder");
    let absent = is_settled(&rt, "/tmp/checks-test-calls/absent");
    check_same(&rt, absent, true, "a file that isn't there");
    check_same(&rt, is_settled(&rt, FOLDER), false, "a folder");
    let nowhere = is_settled(&rt, "/tmp/checks-test-calls/missing/kept");
    check_same(&rt, nowhere, false, "a file in no folder");
    fs::remove_dir_all(&rt, FOLDER).expect(&rt, "a folder");
}
