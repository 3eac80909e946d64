//! A host without stores.

use std::alloc::Global;
use system_io::{Entry, Key, PutFault, RecordStore, StoreFault, Stores};

/// A place at which no store can be opened.
#[derive(Drop)]
pub(crate) struct NoStores;

/// A store that has nothing and takes nothing.
#[derive(Drop)]
pub(crate) struct NoStore;

impl RecordStore for NoStore {
    ghost use Rattle.std.specs.Prelude.{None};

    ghost facts = { λ _. record { has = λ _. None; starts = λ _. Unit {0}; trusted = ⊥; works = ⊥ } };

    fn find(&self, _stamp: &Key) -> Option<&[u8]> {
        None
    }

    fn put_all(&mut self, _entries: Vec<Entry>) -> Result<(), PutFault> {
        Err(PutFault::Failed)
    }
}

impl Stores for NoStores {
    type Store = NoStore;

    ghost facts = { λ _. record { is_at = λ _ _. Unit {0}; refuses = λ _ _. Unit {0}; holds = λ _ _ _. Unit {0}; withholds = λ _ _ _. Unit {0} } };

    fn open(&self, _alloc: Global, _path: &str) -> Result<NoStore, StoreFault> {
        Err(StoreFault::Unreadable)
    }

    fn read(&self, _alloc: Global, _db: Vec<u8>, _log: Vec<u8>) -> Result<Vec<Entry>, StoreFault> {
        Err(StoreFault::Unreadable)
    }
}
