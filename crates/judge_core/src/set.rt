//! Sets of tables.

ghost use Rattle.std.specs.Prelude.{◌≡◌, ◌≢◌, ◌↔◌, ◌≤◌, length, IfOk, IsSome, is_some, OnOk, OnErr, None, Some, Err, replicate, slice_set};
ghost use Rattle.judge_core.specs.declared.fault.SetFault.TheVariants.{Duplicate, OutOfMemory};
ghost use Rattle.judge_core.specs.Tables.{AreFiled, largest_of, slot, table_at};

use crate::blocks::Blocks;
use crate::fault::SetFault;
use crate::table_slots::TableSlots;
use place_index::Material;
use std::alloc::{AllocError, Global};
use std::marker::Model;
use table_file::{Table, TableKind};

/// Opened tables, each found by its kind and its material without a search, and some of their blocks, decoded. Of long blocks of DTZ
/// tables it has bookmarks in their place. It borrows the bytes of their files.
///
/// Contracts see a list of 290 slots and the number of decoded blocks that the set may keep. The slots hold the WDL
/// tables by the keys of their materials and then the DTZ tables. Which blocks are kept changes no answer. A block is
/// decoded after repeated requests, and kept until it is the least recently used one when another needs its place.
#[derive(Drop)]
pub struct Set<'a> {
    pub(crate) table_slots: TableSlots<'a>,
    pub(crate) blocks: Blocks,
}

impl<'a> Model for Set<'a> {
    ghost use Rattle.judge_core.specs.Tables.{Holding};
    ghost use Rattle.judge_core.specs.Blocks.{AreRight};

    ghost Value = { Holding };

    ghost view = { λ s. s.table_slots };

    ghost invariant = { λ s. AreRight s.table_slots s.blocks };
}

impl<'a> Set<'a> {
    /// A set without tables that may keep this many decoded blocks, 1 to 4096. The error comes where memory is refused
    /// for its slots, or for the list of requested keys, 64 of them.
    pub fn new(alloc: Global, cache: usize) -> Result<Set<'a>, AllocError>
        requires some { 1 ≤ cache }
        requires most { cache ≤ 4096 }
        ensures { IfOk result (λ set. set ≡ record { tables = replicate 290 None; cache = cache }) }
    {
        let table_slots = TableSlots::new(alloc, cache)?;
        let blocks = Blocks::new(alloc, cache)?;
        Ok(Set {
            table_slots,
            blocks,
        })
    }

    /// How many decoded blocks the set may keep, 1 to 4096. Its contract also says that there are 290 slots, and that each table is
    /// in the slot of its kind and its material.
    pub fn cache(&self) -> usize
        ensures is { result ≡ self.now.cache }
        ensures some { 1 ≤ result }
        ensures most { result ≤ 4096 }
        ensures slots { length self.now.tables ≡ 290 }
        ensures filed { AreFiled self.now.tables }
    {
        self.table_slots.cache()
    }

    /// The number of decoded blocks that the set keeps now, never more than it was made for.
    pub fn kept_blocks(&self) -> usize
        ensures { result ≤ self.now.cache }
    {
        self.blocks.len()
    }

    /// Whether the set has a table of this kind for the material.
    pub fn has(&self, kind: TableKind, material: Material) -> bool
        ensures { result ≡ is_some (table_at self.now.tables kind material) }
    {
        self.table_slots.has(kind, material)
    }

    /// The largest number of men of a table in the set, kings included, 0 without a table.
    pub fn largest(&self) -> usize
        ensures is { result ≡ largest_of self.now.tables }
        ensures few { result ≤ 5 }
    {
        self.table_slots.largest()
    }

    /// Adds a table. One that is refused is dropped, and the set stays as it was.
    ///
    /// `Duplicate` where there is a table of its kind for its material. The set has a slot for each table, so the call
    /// takes no memory and never returns `OutOfMemory`.
    pub fn add(&mut self, table: Table<'a>) -> Result<(), SetFault>
        ensures added { OnOk result (self.new ≡ record self.old { tables = slice_set self.old.tables (slot table.entry.kind table.entry.material) (Some table.entry) }) }
        ensures refused { OnErr result (self.new ≡ self.old) }
        ensures duplicate { (result ≡ Err Duplicate) ↔ IsSome (table_at self.old.tables table.entry.kind table.entry.material) }
        ensures no_memory { result ≢ Err OutOfMemory }
    {
        self.table_slots.add(table)
    }
    /// A second set with the tables that this one has now, and a cache of its own for this many decoded blocks, 1 to 4096.
    ///
    /// Neither set has a block of the other. A table that one of them gets later isn't one of the other, and a table is freed with
    /// the last set that has it. No file is looked at again. The error comes where memory is refused. The set stays as it was.
    pub fn share(&mut self, alloc: Global, cache: usize) -> Result<Set<'a>, AllocError>
        requires some { 1 ≤ cache }
        requires most { cache ≤ 4096 }
        ensures shared { IfOk result (λ set. set ≡ record { tables = self.old.tables; cache = cache }) }
        ensures unchanged { self.new ≡ self.old }
    {
        let blocks = Blocks::new(alloc, cache)?;
        let table_slots = self.table_slots.share(alloc, cache)?;
        Ok(Set {
            table_slots,
            blocks,
        })
    }
}
