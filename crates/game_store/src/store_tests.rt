//! Stores of records over two files in memory that stop and lose power: what is read of what they left.

ghost use Rattle.std.specs.Prelude.{IsTrue};

use crate::{AnyFiles, SqliteStores, Store};
use sqlite::{FileStore, Files, Leftover, Options};
use sqlite_disk::{Crash, Disk, Fuse, Memory};
use std::alloc::Global;
use std::process::Abort;
use system_io::{Entry, StoreFault, Stores};

/// The record of a game in the batch of this number, which is its count.
fn entry(rt: &impl Abort, alloc: Global, game: u8, count: u32) -> Entry {
    Entry {
        stamp: [game; 16],
        count,
        record: Vec::from_slice(alloc, &[game, 7]).expect(rt, "memory"),
    }
}

/// The batch of this number, with two games.
fn two_games(rt: &impl Abort, alloc: Global, count: u32) -> Vec<Entry> {
    let mut batch = Vec::new(alloc);
    batch.push(entry(rt, alloc, 1, count)).expect(rt, "memory");
    batch.push(entry(rt, alloc, 2, count)).expect(rt, "memory");
    batch
}

/// The store that two files hold. None where it can't be opened.
fn open<D: Disk + Drop>(
    alloc: Global,
    files: Files<D>,
    options: Options,
) -> Option<Store<FileStore<D>>>
    requires log { IsTrue (D.Disk.is_usable files.log) }
    requires db { IsTrue (D.Disk.is_usable files.db) }
{
    match Store::open(alloc, files, options) {
        Ok(store) => Some(store),
        Err(_) => None,
    }
}

/// Whether a batch is put.
fn puts<D: Disk + Drop>(store: &mut Store<FileStore<D>>, batch: Vec<Entry>) -> bool {
    store.put_batch(batch).is_ok()
}

/// The files of a store that stops.
fn stop<D: Disk + Drop>(store: Store<FileStore<D>>) -> Files<D> {
    Leftover::Store(store.stop()).into_files()
}

/// The files of a store that stopped after two batches.
fn two_batches(rt: &impl Abort, alloc: Global) -> Files<Memory> {
    let files = Files {
        log: Memory::new(alloc),
        db: Memory::new(alloc),
    };
    let mut store = open(alloc, files, Options::new(7)).expect(rt, "a store");
    for count in 1..=2u32 {
        assert!(rt; puts(&mut store, two_games(rt, alloc, count)));
    }
    stop(store)
}

/// A copy of bytes.
fn copy(rt: &impl Abort, alloc: Global, bytes: &[u8]) -> Vec<u8> {
    Vec::from_slice(alloc, bytes).expect(rt, "memory")
}

/// The stores whose files are read.
type AllStores<'r> = SqliteStores<'r, AnyFiles>;

/// The records that two files hold.
fn read(
    stores: &AllStores<'_>,
    alloc: Global,
    db: Vec<u8>,
    log: Vec<u8>,
) -> Result<Vec<Entry>, StoreFault> {
    stores.read(alloc, db, log)
}

/// The counts of the games that two files hold.
fn counts(
    rt: &impl Abort,
    stores: &AllStores<'_>,
    alloc: Global,
    db: &[u8],
    log: &[u8],
) -> Result<Vec<u32>, StoreFault> {
    let entries = read(stores, alloc, copy(rt, alloc, db), copy(rt, alloc, log))?;
    let mut counts = Vec::new(alloc);
    for entry in entries {
        counts.push(entry.count).expect(rt, "memory");
    }
    Ok(counts)
}

/// How many batches of two games these counts show.
fn batches(rt: &impl Abort, counts: &[u32]) -> u32 {
    match counts {
        [] => 0,
        [first, second] => {
            assert_eq!(rt; first, second);
            *first
        }
        _ => panic!(rt; "other games"),
    }
}

#[test]
fn a_log_that_is_cut_has_the_first_batches(rt: HostRuntime) {
    let alloc = rt.alloc();
    let stores = SqliteStores::new(&rt, AnyFiles);
    let files = two_batches(&rt, alloc);
    let log = files.log.bytes();
    let mut whole = 0;
    for cut in (0..=log.len()).step_by(2060) {
        let first = log.get(..cut).expect(&rt, "a part of the log");
        let found = counts(&rt, &stores, alloc, files.db.bytes(), first).expect(&rt, "a store");
        let more = batches(&rt, &found);
        assert!(rt; more == whole || more == whole.saturating_add(1));
        whole = more;
    }
    assert_eq!(rt; whole, 2);
    let found = counts(&rt, &stores, alloc, files.db.bytes(), log).expect(&rt, "a store");
    assert_eq!(rt; found.as_slice(), [2, 2].as_slice());
}

#[test]
fn two_empty_files_hold_no_game(rt: HostRuntime) {
    let stores = SqliteStores::new(&rt, AnyFiles);
    let found = counts(&rt, &stores, rt.alloc(), b"", b"").expect(&rt, "a store");
    assert_eq!(rt; found.len(), 0);
}

#[test]
fn other_bytes_hold_no_store(rt: HostRuntime) {
    let stores = SqliteStores::new(&rt, AnyFiles);
    let found = counts(&rt, &stores, rt.alloc(), &[b'x'; 5000], b"");
    assert_eq!(rt; found.err(), Some(StoreFault::Unreadable));
}

/// Numbers that look random.
#[derive(Drop)]
struct Random {
    state: u64,
}

impl Random {
    /// A number below this one.
    fn below(&mut self, most: u64) -> u64 {
        self.state ^= self.state << 13;
        self.state ^= self.state >> 7;
        self.state ^= self.state << 17;
        self.state.checked_rem(most).unwrap_or(0)
    }
}

/// The last batch of each of four games, 0 before its first.
type Lasts = [u32; 4];

/// Sets the last batch of a game.
fn set(rt: &impl Abort, lasts: &mut Lasts, game: u8, count: u32) {
    *lasts
        .get_mut(usize::from(game))
        .expect(rt, "one of four games") = count;
}

/// A batch of this number for some of the games.
fn some_games(
    rt: &impl Abort,
    alloc: Global,
    random: &mut Random,
    lasts: &mut Lasts,
    count: u32,
) -> Vec<Entry> {
    let mut batch = Vec::new(alloc);
    for _ in 0..=random.below(3) {
        let game = u8::try_from(random.below(4)).unwrap_or(0);
        set(rt, lasts, game, count);
        batch
            .push(entry(rt, alloc, game, count))
            .expect(rt, "memory");
    }
    batch
}

/// What a store over files whose disk stops at some call came to: the games after the last batch that it acknowledged, those after the
/// next one, and what it left.
#[derive(Drop)]
struct Stopped {
    acked: Lasts,
    next: Lasts,
    files: Files<Fuse<Memory>>,
}

/// Puts eight batches at most. None where the disk stops while the store is opened.
fn put_until_stopped(rt: &impl Abort, alloc: Global, random: &mut Random) -> Option<Stopped> {
    let files = Files {
        log: Fuse::new(Memory::new(alloc), random.below(60)),
        db: Fuse::new(Memory::new(alloc), random.below(60)),
    };
    let mut store = open(alloc, files, Options::new(random.below(1000)))?;
    let mut acked = [0; 4];
    let mut next = acked;
    for count in 1..=8u32 {
        let batch = some_games(rt, alloc, random, &mut next, count);
        if !puts(&mut store, batch) {
            break;
        }
        acked = next;
    }
    Some(Stopped {
        acked,
        next,
        files: stop(store),
    })
}

/// What a loss of power leaves of a file: what was synced and some of what was appended since, or all of it.
fn left_of(
    rt: &impl Abort,
    alloc: Global,
    random: &mut Random,
    file: &mut Fuse<Memory>,
) -> Vec<u8> {
    let mut bytes = copy(rt, alloc, file.inner().bytes());
    if random.below(3) == 0 {
        return bytes;
    }
    file.crash();
    let synced = file.inner().bytes();
    if bytes.starts_with(synced) {
        let appended = u64::try_from(bytes.len().saturating_sub(synced.len())).unwrap_or(0);
        let more = usize::try_from(random.below(appended.saturating_add(1))).unwrap_or(0);
        bytes.truncate(synced.len().saturating_add(more));
        return bytes;
    }
    copy(rt, alloc, synced)
}

/// The last batch of each game by these entries.
fn lasts_of(rt: &impl Abort, entries: &[Entry]) -> Lasts {
    let mut lasts = [0; 4];
    for entry in entries {
        assert_eq!(rt; entry.record.as_slice(), [entry.stamp[0], 7].as_slice());
        set(rt, &mut lasts, entry.stamp[0], entry.count);
    }
    lasts
}

/// The last batch of each game after a loss of power.
fn lasts_after(
    rt: &impl Abort,
    stores: &AllStores<'_>,
    alloc: Global,
    random: &mut Random,
    files: &mut Files<Fuse<Memory>>,
) -> Lasts {
    let db = left_of(rt, alloc, random, &mut files.db);
    let log = left_of(rt, alloc, random, &mut files.log);
    lasts_of(rt, &read(stores, alloc, db, log).expect(rt, "a store"))
}

#[test]
fn stops_and_losses_of_power_leave_whole_batches(rt: HostRuntime) {
    let alloc = rt.alloc();
    let stores = SqliteStores::new(&rt, AnyFiles);
    let mut random = Random {
        state: 88172645463325252,
    };
    let mut stops = 0u32;
    for _ in 0..400 {
        if let Some(mut stopped) = put_until_stopped(&rt, alloc, &mut random) {
            let found = lasts_after(&rt, &stores, alloc, &mut random, &mut stopped.files);
            assert!(rt; found == stopped.acked || found == stopped.next);
            stops = stops.saturating_add(1);
        }
    }
    assert!(rt; stops > 100);
}
