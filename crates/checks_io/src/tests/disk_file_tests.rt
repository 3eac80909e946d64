//! What a start finds in a file in memory, and a replacement of its bytes, on a disk that loses power.

use crate::tests::comparing::check_same;
use std::alloc::Global;
use std::process::Abort;
use system_fakes::{Crash, DiskFile, Outcome, read_after};
use system_io::{KeptFile, MOST_KEPT_BYTES, ReadFault, begin, replace};

/// A copy of bytes.
fn copy(rt: &impl Abort, alloc: Global, bytes: &[u8]) -> Vec<u8> {
    Vec::from_slice(alloc, bytes).expect(rt, "memory")
}

/// A copy of them, if there are any.
fn copied(rt: &impl Abort, alloc: Global, bytes: Option<&[u8]>) -> Option<Vec<u8>> {
    match bytes {
        Some(bytes) => Some(copy(rt, alloc, bytes)),
        None => None,
    }
}

/// How a call fails: nothing is done, some of it, or all.
#[derive(Clone, Copy)]
enum Way {
    Before,
    Halfway,
    After,
}

/// What comes of a call that fails so.
fn outcome_of(way: Way) -> Outcome {
    match way {
        Way::Before => Outcome::Before,
        Way::Halfway => Outcome::Halfway(2),
        Way::After => Outcome::After,
    }
}

/// The call of this number fails so, the first being 0; all others are good.
fn outcomes(rt: &impl Abort, alloc: Global, place: usize, way: Way) -> Vec<Outcome> {
    let mut all = Vec::new(alloc);
    all.push(outcome_of(way)).expect(rt, "memory");
    all.resize(place.saturating_add(1), Outcome::Good)
        .expect(rt, "memory");
    all
}

/// A disk on which these bytes have the name, or nothing has, whose call of this number fails so.
fn disk_of(
    rt: &impl Abort,
    alloc: Global,
    stands: Option<&[u8]>,
    place: usize,
    way: Way,
) -> DiskFile {
    let stands = copied(rt, alloc, stands);
    DiskFile::new(alloc, stands, outcomes(rt, alloc, place, way), false)
}

/// One whose first sixteen calls are good.
fn good_disk(rt: &impl Abort, alloc: Global, stands: Option<&[u8]>) -> DiskFile {
    disk_of(rt, alloc, stands, 16, Way::Before)
}

/// A start over a disk reads these bytes.
fn check_start(rt: &impl Abort, alloc: Global, disk: &mut DiskFile, wanted: &[u8]) {
    let got = begin(alloc, disk).ok().expect(rt, "a start");
    check_same(rt, got.as_deref(), Some(wanted), "what a start reads");
}

/// A loss of power after which the file of this number has the name, the earliest being 0, and these bytes stand where nothing
/// was synced.
fn loss(rt: &impl Abort, alloc: Global, which: usize) -> Crash {
    Crash::PowerLost {
        which,
        bytes: copy(rt, alloc, b"garbage"),
        beside: None,
    }
}

/// What a start over a disk finds after a loss of power.
fn check_found(rt: &impl Abort, alloc: Global, disk: DiskFile, which: usize, wanted: &[u8]) {
    check_start(rt, alloc, &mut disk.stop(loss(rt, alloc, which)), wanted);
}

/// The number of the call that fails while a replacement lets `new` take the place of `old`, how it fails, and what a start finds after
/// two losses of power: the one lets the earliest file have the name, the other the last.
type Row = (usize, Way, &'static [u8], &'static [u8]);

/// Each call of a replacement fails in turn, in each way; the call 0 is that of the start. What was written or synced beside is nothing
/// to a start. Where a rename is done it may find either, where the folder is synced the new bytes alone.
const FAILED: [Row; 12] = [
    (1, Way::Before, b"old", b"old"),
    (1, Way::Halfway, b"old", b"old"),
    (1, Way::After, b"old", b"old"),
    (2, Way::Before, b"old", b"old"),
    (2, Way::Halfway, b"old", b"old"),
    (2, Way::After, b"old", b"old"),
    (3, Way::Before, b"old", b"old"),
    (3, Way::Halfway, b"old", b"old"),
    (3, Way::After, b"old", b"new"),
    (4, Way::Before, b"old", b"new"),
    (4, Way::Halfway, b"old", b"new"),
    (4, Way::After, b"new", b"new"),
];

/// A start reads the bytes that are there, and a replacement of them is done, or it fails.
fn check_replaced(rt: &impl Abort, alloc: Global, disk: &mut DiskFile, is_done: bool) {
    check_start(rt, alloc, disk, b"old");
    let done = replace(disk, b"new").is_ok();
    check_same(rt, done, is_done, "a replacement");
}

/// The disk that a replacement leaves of which a call fails.
fn failed_disk(rt: &impl Abort, alloc: Global, row: &Row) -> DiskFile {
    let mut disk = disk_of(rt, alloc, Some(b"old"), row.0, row.1);
    check_replaced(rt, alloc, &mut disk, false);
    disk
}

/// The disk that a replacement leaves of which none fails.
fn replaced_disk(rt: &impl Abort, alloc: Global) -> DiskFile {
    let mut disk = good_disk(rt, alloc, Some(b"old"));
    check_replaced(rt, alloc, &mut disk, true);
    disk
}

/// What a start finds after a replacement of which a call fails.
fn check_row(rt: &impl Abort, alloc: Global, row: &Row) {
    check_found(rt, alloc, failed_disk(rt, alloc, row), 0, row.2);
    check_found(rt, alloc, failed_disk(rt, alloc, row), 1, row.3);
}

/// After a replacement that fails a start finds the old bytes or the new; after one that doesn't it finds those alone.
#[test]
fn keeps_what_has_come_to_the_name(rt: HostRuntime) {
    for row in &FAILED {
        check_row(&rt, rt.alloc(), row);
    }
    check_found(&rt, rt.alloc(), replaced_disk(&rt, rt.alloc()), 0, b"new");
}

/// Whether a start over a disk can't read the file.
fn is_unread(alloc: Global, disk: DiskFile) -> bool {
    let mut disk = disk;
    matches!(begin(alloc, &mut disk), Err(ReadFault::Unreadable))
}

/// A start whose sync fails so can't read the file.
fn check_unread(rt: &impl Abort, alloc: Global, way: Way) {
    let disk = disk_of(rt, alloc, Some(b"old"), 0, way);
    check_same(rt, is_unread(alloc, disk), true, "a start");
}

/// A disk that gives nothing.
fn silent_disk(rt: &impl Abort, alloc: Global) -> DiskFile {
    DiskFile::new(alloc, None, Vec::new(alloc), true)
}

/// So many bytes.
fn many_bytes(rt: &impl Abort, alloc: Global, count: usize) -> Vec<u8> {
    let mut bytes = Vec::new(alloc);
    bytes.resize(count, 1).expect(rt, "memory");
    bytes
}

/// A file with more bytes than may be kept.
fn long_disk(rt: &impl Abort, alloc: Global) -> DiskFile {
    good_disk(rt, alloc, Some(&many_bytes(rt, alloc, MOST_KEPT_BYTES + 1)))
}

/// A file of as many bytes as may be kept is read whole.
#[test]
fn reads_as_many_bytes_as_may_be_kept(rt: HostRuntime) {
    let most = many_bytes(&rt, rt.alloc(), MOST_KEPT_BYTES);
    let mut disk = good_disk(&rt, rt.alloc(), Some(&most));
    check_start(&rt, rt.alloc(), &mut disk, &most);
}

/// Where the sync at the start fails, the disk gives nothing or the file is too long a start can't read it.
#[test]
fn starts_over_nothing_that_it_cannot_read(rt: HostRuntime) {
    check_unread(&rt, rt.alloc(), Way::Before);
    check_unread(&rt, rt.alloc(), Way::Halfway);
    check_unread(&rt, rt.alloc(), Way::After);
    let disk = silent_disk(&rt, rt.alloc());
    check_same(&rt, is_unread(rt.alloc(), disk), true, "a silent disk");
    let disk = long_disk(&rt, rt.alloc());
    check_same(&rt, is_unread(rt.alloc(), disk), true, "a long file");
}

/// Writes bytes beside, lets a sync lose some of them and gives the file the name all the same.
fn rename_unsynced(rt: &impl Abort, disk: &mut DiskFile) {
    disk.write_beside(b"new").expect(rt, "a write");
    check_same(rt, disk.sync_beside().is_err(), true, "a sync");
    disk.rename().expect(rt, "a rename");
}

/// A disk on which a file has the name whose sync failed.
fn unsynced_disk(rt: &impl Abort, alloc: Global) -> DiskFile {
    let mut disk = disk_of(rt, alloc, Some(b"old"), 1, Way::Halfway);
    rename_unsynced(rt, &mut disk);
    disk
}

/// What is read after a loss of power.
fn check_read(rt: &impl Abort, alloc: Global, which: usize, wanted: &[u8]) {
    let read = read_after(alloc, unsynced_disk(rt, alloc), loss(rt, alloc, which));
    let read = read.ok().expect(rt, "what is read");
    check_same(rt, read.as_deref(), Some(wanted), "what is read");
}

/// Of a file whose sync failed a loss of power leaves anything, or the old file; without one it can't be brought to the disk.
#[test]
fn loses_what_is_not_synced(rt: HostRuntime) {
    check_read(&rt, rt.alloc(), 0, b"old");
    check_read(&rt, rt.alloc(), 1, b"garbage");
    let disk = unsynced_disk(&rt, rt.alloc());
    check_same(&rt, is_unread(rt.alloc(), disk), true, "an unsynced file");
}
