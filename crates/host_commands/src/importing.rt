//! Records that go over from their files into the store of their folder.

ghost use Rattle.std.specs.Prelude.{◌≡◌, ◌++◌, ◌∷◌, [], map, string_bytes, IfOk, IsErrOf, OnOk};
ghost use Rattle.host_commands.specs.Imports.{AreListed};
ghost use Rattle.host_commands.specs.Inside.Importing.{AddsSeen, ImportsIn, ListsKept, LooksAtThese, PutsIn};
ghost use Rattle.system_io.specs.Records.{IsSettled};
ghost use Rattle.timeline.specs.Outsides.{AddsSome};

use crate::arriving::{Seen, look_at};
use answer_parts::Refusal;
use game_status::{add_stamps, rising};
use move_msg::Stamp;
use std::alloc::{AllocError, Global};
use std::collections::BTreeSet;
use system_io::{Entry, PutFault};
use timeline::System;

/// What goes over, and the games whose files hold no record of them: these stay where they are.
#[derive(Drop)]
struct Arrivals {
    entries: Vec<Entry>,
    left: Vec<Stamp>,
}

/// The stamps of the records that names tell, in rising order.
fn stamps_in(alloc: Global, names: &[String]) -> Result<Vec<Stamp>, AllocError>
    ensures { IfOk result (λ stamps. AreListed (map string_bytes names.now) stamps.items) }
{
    let mut kept = BTreeSet::new(alloc);
    add_stamps(names, b".kept", &mut kept)?;
    rising(alloc, &kept)
}

/// The stamps of the records that a folder lists as files, in rising order.
fn list_kept<S: System>(
    alloc: Global,
    system: &S,
    timeline: &mut S::Timeline,
    folder: &str,
) -> Result<Vec<Stamp>, Refusal>
    ensures { AddsSome (S.outside system.now) timeline.old timeline.new (ListsKept (S.outside system.now).disk folder.now result) }
{
    let names = match system.names(timeline, alloc, folder) {
        Ok(names) => names,
        Err(fault) => return Err(Refusal::unread(fault)),
    };
    match stamps_in(alloc, &names) {
        Ok(stamps) => Ok(stamps),
        Err(_) => Err(Refusal::Memory),
    }
}

/// Puts an item behind others. The error comes only where memory is refused.
fn add<T: Drop>(items: &mut Vec<T>, item: T) -> Result<(), AllocError>
    ensures { OnOk result (items.new.items ≡ items.old.items ++ item ∷ []) }
{
    match items.push(item) {
        Ok(()) => Ok(()),
        Err(_) => Err(AllocError),
    }
}

/// Adds what is found of one more game. The error comes only where memory is refused.
fn add_seen(coming: &mut Arrivals, stamp: Stamp, seen: Seen) -> Result<(), AllocError>
    ensures { OnOk result (AddsSeen stamp seen coming.old.entries.items coming.old.left.items coming.new.entries.items coming.new.left.items) }
{
    match seen {
        Seen::InStore => Ok(()),
        Seen::InFile(entry) => add(&mut coming.entries, entry),
        Seen::InNeither => add(&mut coming.left, stamp),
    }
}

/// Looks at games, and finds what goes over into a store.
fn look_at_all<S: System>(
    alloc: Global,
    system: &S,
    timeline: &mut S::Timeline,
    folder: &str,
    store: &S::Store,
    stamps: &[Stamp],
) -> Result<Arrivals, Refusal>
    ensures { AddsSome (S.outside system.now) timeline.old timeline.new (LooksAtThese (S.outside system.now) folder.now store.now stamps.now result) }
{
    let mut coming = Arrivals {
        entries: Vec::new(alloc),
        left: Vec::new(alloc),
    };
    for stamp in stamps {
        let seen = match look_at(alloc, system, timeline, folder, store, *stamp) {
            Ok(seen) => seen,
            Err(refusal) => return Err(refusal),
        };
        let Ok(()) = add_seen(&mut coming, *stamp, seen) else {
            return Err(Refusal::Memory);
        };
    }
    Ok(coming)
}

/// Puts records into a store, all at once, if there are any.
fn put_coming<S: System>(
    system: &S,
    timeline: &mut S::Timeline,
    store: &mut S::Store,
    entries: Vec<Entry>,
) -> Result<(), Refusal>
    requires settled { IsSettled ((S.outside system.now).store store.old) }
    ensures made { PutsIn (S.outside system.now) store.old store.new entries.items timeline.old timeline.new result }
    ensures memory { IsErrOf result Refusal.Memory → IsSettled ((S.outside system.now).store store.new) }
    ensures settled { OnOk result (IsSettled ((S.outside system.now).store store.new)) }
{
    if entries.is_empty() {
        return Ok(());
    }
    match system.commit(timeline, store, entries) {
        Ok(()) => Ok(()),
        Err(PutFault::OutOfMemory(_)) => Err(Refusal::Memory),
        Err(PutFault::Failed) => Err(Refusal::Store),
    }
}

/// Puts into a store, at once, the record of each file `STAMP.kept` that a folder lists, of those games that the store has no record of.
/// The files stay. A file that holds no record of its game doesn't go over: the stamps of such games are returned, in rising order.
///
/// `Files` where the folder can't be listed, `Keeper` where the file of a record can't be read or has more than 8217 bytes, `Store` where the
/// store can't be written, `Memory` where memory is refused. After an error nothing was put, unless the store failed.
pub(crate) fn import_records<S: System>(
    alloc: Global,
    system: &S,
    timeline: &mut S::Timeline,
    folder: &str,
    store: &mut S::Store,
) -> Result<Vec<Stamp>, Refusal>
    requires settled { IsSettled ((S.outside system.now).store store.old) }
    ensures made { ImportsIn (S.outside system.now) folder.now store.old store.new timeline.old timeline.new result }
    ensures settled { OnOk result (IsSettled ((S.outside system.now).store store.new)) }
{
    let stamps = match list_kept(alloc, system, timeline, folder) {
        Ok(stamps) => stamps,
        Err(refusal) => return Err(refusal),
    };
    let Arrivals { entries, left } = match look_at_all(
        alloc, system, timeline, folder, store, &stamps,
    ) {
        Ok(coming) => coming,
        Err(refusal) => return Err(refusal),
    };
    match put_coming(system, timeline, store, entries) {
        Ok(()) => Ok(left),
        Err(refusal) => Err(refusal),
    }
}
