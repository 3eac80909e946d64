//! A store in memory.

ghost use Rattle.std.specs.Prelude.{◌≡◌, option_map, IfOk};
ghost use Rattle.system_io.specs.Records.{Records, with_all};
ghost use Rattle.timeline.specs.Events.{bytes_found};
ghost use Rattle.timeline_fakes.specs.Memories.{bytes_at, has_in, store_path};

use std::alloc::{AllocError, Global};
use system_io::{Entry, Key};

/// A store at a path, and the batches that were put in it, in order.
#[derive(Drop)]
pub struct MemoryStore {
    pub(crate) path: Vec<u8>,
    pub(crate) batches: Vec<Vec<Entry>>,
}

/// What is found of a game after some entries, where this was found before.
fn found_in<'a>(before: Option<&'a [u8]>, entries: &'a [Entry], stamp: &Key) -> Option<&'a [u8]>
    ensures { (records : Records) → bytes_found before.entry ≡ bytes_at records stamp.now → bytes_found result ≡ bytes_at (with_all records entries.now) stamp.now }
{
    let mut found = before;
    for entry in entries {
        if entry.stamp == *stamp {
            found = Some(entry.record.as_slice());
        }
    }
    found
}

impl MemoryStore {
    /// An empty store at a path.
    pub(crate) fn new(alloc: Global, path: &str) -> Result<MemoryStore, AllocError>
        ensures { IfOk result (λ store. store_path store ≡ path.now) }
    {
        let path = Vec::from_slice(alloc, path.as_bytes())?;
        Ok(MemoryStore {
            path,
            batches: Vec::new(alloc),
        })
    }

    /// The bytes of the record of a game, if it has one.
    pub(crate) fn find(&self, stamp: &Key) -> Option<&[u8]>
        ensures { bytes_found result ≡ bytes_at (has_in self.now) stamp.now }
    {
        let mut found = None;
        for batch in self.batches.as_slice() {
            found = found_in(found, batch.as_slice(), stamp);
        }
        found
    }
}
