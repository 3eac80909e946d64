//! Stores of records.

ghost use Rattle.std.specs.Prelude.{◌≡◌, option_map, IfErr, IfOk, OnErr, OnOk};
ghost use Rattle.system_io.specs.Records.{AreSame, FindsBatchOrNot, GivesBack, IsSettled, StoreFacts, StorePlaces, records_of, with_all};

use std::alloc::Global;

/// The key of a record: the 16 bytes of its game's stamp.
pub type Key = [u8; 16];

/// The record of a game, as it is put in a store.
#[derive(Drop)]
pub struct Entry {
    /// The stamp of the game.
    pub stamp: Key,
    /// How many moves the record has.
    pub count: u32,
    /// The bytes of the record.
    pub record: Vec<u8>,
}

/// Why a store could not put a batch.
#[derive(Drop)]
pub enum PutFault {
    /// The store failed. It may be of no use from then on; one that is opened again finds what stood there, or all with the whole batch.
    Failed,
    /// Memory was refused, and nothing else failed: the store goes on as it was. The batch comes back.
    OutOfMemory(Vec<Entry>),
}

/// A store of records, each under the stamp of its game.
pub trait RecordStore {
    /// What it has, what a start may find after a stop now, and whether its disk has returned what was written so far.
    ghost facts: { Self → StoreFacts };

    /// The bytes of the record of a game, if it has one.
    fn find(&self, stamp: &Key) -> Option<&[u8]>
        ensures { option_map (λ b. b.now) result ≡ option_map (λ r. r.bytes) ((facts self.now).has stamp.now) };

    /// Puts all records or none. The record of a game stands in place of the one before, and of two in one batch the later one.
    fn put_all(&mut self, entries: Vec<Entry>) -> Result<(), PutFault>
        // At `Ok` it has each entry, put in turn, and what it has of all other games is as before; a start finds just that,
        ensures all { OnOk result (AreSame (facts self.new).has (with_all (facts self.old).has entries.items)) }
        ensures kept { OnOk result (IsSettled (facts self.new)) }
        // and after an error it has what it had, and a start finds that, or all with the whole batch.
        ensures same { OnErr result (AreSame (facts self.new).has (facts self.old).has) }
        ensures stops { OnErr result (IsSettled (facts self.old) → FindsBatchOrNot (facts self.new) (facts self.old).has entries.items) }
        // Where memory alone was refused, a start finds just what it had, and the batch comes back.
        ensures refused { IfErr result (GivesBack (facts self.new) entries.items) };
}

/// Why a store can't be had, or what its files hold can't be told.
#[derive(Clone, Copy, Debug, PartialEq, Eq)]
pub enum StoreFault {
    /// It can't be opened or read, or it is none of records.
    Unreadable,
    /// Memory was refused.
    OutOfMemory,
}

/// Where stores of records are opened, and how the files of one are read.
pub trait Stores {
    /// A store.
    type Store: RecordStore + Drop;

    /// Which store is at a path, and which records the files of a store hold.
    ghost facts: { Self → StorePlaces Self.Store };

    /// The store at a path. It is made where nothing stands.
    fn open(&self, alloc: Global, path: &str) -> Result<Self::Store, StoreFault>
        ensures at { IfOk result ((facts self.now).is_at path.now) }
        ensures settled { IfOk result (λ store. IsSettled (Self.Store.facts store)) }
        ensures cause { IfErr result ((facts self.now).refuses path.now) };

    /// The records that the two files of a store hold: what it would have, were it opened over them after a stop. The second one is
    /// empty where there is none. Neither is changed.
    fn read(&self, alloc: Global, db: Vec<u8>, log: Vec<u8>) -> Result<Vec<Entry>, StoreFault>
        ensures held { IfOk result (λ entries. (facts self.now).holds db.items log.items (records_of entries.items)) }
        ensures cause { IfErr result ((facts self.now).withholds db.items log.items) };
}
