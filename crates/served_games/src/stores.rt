//! A call at a store of records, as a step of the store's history.

ghost use Rattle.std.specs.Prelude.{IfOk, Ok};
ghost use Rattle.timeline.specs.Events.{StoreOpened, bytes_found};
ghost use Rattle.served_games.specs.StoreHistories.{CommitsTo, LooksIn, OpensStore};

use std::alloc::Global;
use system_io::{Entry, Key, PutFault, StoreFault};
use timeline::System;

/// What `System` promises of a store that it opens is what its history has of one.
pub fn open<S: System>(
    system: &S,
    timeline: &mut S::Timeline,
    alloc: Global,
    path: &str,
) -> Result<S::Store, StoreFault>
    ensures { IfOk result (λ store. OpensStore (S.outside system.now) path.now store (StoreOpened path.now (Ok tt))) }
{
    system.store(timeline, alloc, path)
}

/// So is what it promises of a look.
pub fn find<'s, S: System>(
    system: &S,
    timeline: &mut S::Timeline,
    store: &'s S::Store,
    stamp: &Key,
) -> Option<&'s [u8]>
    ensures { LooksIn (S.outside system.now) store.now stamp.now (bytes_found result) }
{
    system.find(timeline, store, stamp)
}

/// So is what it promises of a commit.
pub fn commit<S: System>(
    system: &S,
    timeline: &mut S::Timeline,
    store: &mut S::Store,
    entries: Vec<Entry>,
) -> Result<(), PutFault>
    ensures { CommitsTo (S.outside system.now) store.old store.new entries.items result }
{
    system.commit(timeline, store, entries)
}
