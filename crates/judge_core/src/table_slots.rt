//! Tables in their slots.

ghost use Rattle.std.specs.Prelude.{◌≡◌, ◌≢◌, ◌↔◌, ◌<◌, ◌≤◌, length, IfNone, IfOk, IfSome, IsSome, is_some, OnOk, OnErr, None, Some, Err, replicate, get_or, slice_set};
ghost use Rattle.judge_core.specs.declared.fault.SetFault.TheVariants.{Duplicate, OutOfMemory};
ghost use Rattle.judge_core.specs.Inside.Kept.{table_in};
ghost use Rattle.judge_core.specs.Inside.Placing.{IsPartFor};
ghost use Rattle.judge_core.specs.Tables.{AreFiled, largest_of, men_count, men_of_slot, slot, table_at};

use crate::fault::SetFault;
use crate::table_slot::{SlotPair, TableSlot};
use place_index::{Material, Placed, tables_are_numbered};
use std::alloc::{AllocError, Global};
use std::marker::Model;
use table_file::{Table, TableKind, TablePart};

/// How many materials there are.
const MATERIALS: usize = 145;

/// Opened tables, each found by its kind and its material without a search, and how many decoded blocks of them may be kept. It
/// borrows the bytes of their files.
///
/// Contracts see a list of 290 slots, the WDL tables by the keys of their materials and then the DTZ tables, and that number.
#[derive(Drop)]
pub(crate) struct TableSlots<'a> {
    tables: Vec<TableSlot<'a>>,
    cache: usize,
}

impl<'a> Model for TableSlots<'a> {
    ghost use Rattle.judge_core.specs.Tables.{Holding};

    ghost Value = { Holding };

    ghost use Rattle.judge_core.specs.Inside.Kept.{holding_of, IsSoundSet};

    ghost view = { holding_of };

    ghost invariant = { IsSoundSet };
}

/// The slot of a kind and a material.
pub(crate) fn slot(kind: TableKind, material: Material) -> usize
    ensures is { result ≡ slot kind material }
    ensures below { result < 290 }
    ensures known { material < 145 }
{
    let key = material.key() as usize;
    match kind {
        TableKind::Wdl => key,
        TableKind::Dtz => MATERIALS + key,
    }
}

/// The number of men of a table with this material.
fn men_of(material: &Material) -> usize
    ensures is { result ≡ men_count material.now }
    ensures few { result ≤ 5 }
{
    tables_are_numbered();
    let _key = material.key();
    material.name().len() - 1
}

/// The number of men of the table in a slot, 0 for an empty one.
fn men_in(slot: &TableSlot<'_>) -> usize
    ensures is { result ≡ men_of_slot (table_in slot.now) }
    ensures few { result ≤ 5 }
{
    match slot.table() {
        Some(table) => men_of(table.material()),
        None => 0,
    }
}

impl<'a> TableSlots<'a> {
    /// Slots without tables, for this many decoded blocks, 1 to 4096. The error comes where memory for its slots is
    /// refused.
    pub(crate) fn new(alloc: Global, cache: usize) -> Result<TableSlots<'a>, AllocError>
        requires some { 1 ≤ cache }
        requires most { cache ≤ 4096 }
        ensures { IfOk result (λ table_slots. table_slots ≡ record { tables = replicate 290 None; cache = cache }) }
    {
        let mut tables = Vec::with_capacity(alloc, 2 * MATERIALS)?;
        for _ in 0..2 * MATERIALS {
            tables.push(TableSlot::Empty)?;
        }
        Ok(TableSlots { tables, cache })
    }

    /// How many decoded blocks may be kept, 1 to 4096. Its contract also says that there are 290 slots, and that each table is in the
    /// slot of its kind and its material.
    pub(crate) fn cache(&self) -> usize
        ensures is { result ≡ self.now.cache }
        ensures some { 1 ≤ result }
        ensures most { result ≤ 4096 }
        ensures slots { length self.now.tables ≡ 290 }
        ensures filed { AreFiled self.now.tables }
    {
        self.cache
    }

    /// Whether there is a table of this kind for the material.
    pub(crate) fn has(&self, kind: TableKind, material: Material) -> bool
        ensures { result ≡ is_some (table_at self.now.tables kind material) }
    {
        self.tables[slot(kind, material)].is_some()
    }

    /// The largest number of men of a table, 0 without one.
    pub(crate) fn largest(&self) -> usize
        ensures is { result ≡ largest_of self.now.tables }
        ensures few { result ≤ 5 }
    {
        let mut largest: usize = 0;
        for table in &self.tables {
            largest = largest.max(men_in(table));
        }
        largest
    }

    /// Puts a table into its slot.
    fn put(&mut self, own: usize, table: Table<'a>)
        requires own { own ≡ slot table.kind table.material }
        requires below { own < 290 }
        requires known { table.material < 145 }
        ensures { self.new ≡ record self.old { tables = slice_set self.old.tables own (Some table.entry) } }
    {
        self.tables[own] = TableSlot::Own(table);
    }

    /// Adds a table. One that is refused, since there is a table of its kind for its material, is dropped, and the slots stay
    /// as they were. It takes no memory.
    pub(crate) fn add(&mut self, table: Table<'a>) -> Result<(), SetFault>
        ensures added { OnOk result (self.new ≡ record self.old { tables = slice_set self.old.tables (slot table.entry.kind table.entry.material) (Some table.entry) }) }
        ensures refused { OnErr result (self.new ≡ self.old) }
        ensures duplicate { (result ≡ Err Duplicate) ↔ IsSome (table_at self.old.tables table.entry.kind table.entry.material) }
        ensures no_memory { result ≢ Err OutOfMemory }
    {
        let slot = slot(table.kind(), *table.material());
        if self.tables[slot].is_some() {
            return Err(SetFault::Duplicate);
        }
        self.put(slot, table);
        Ok(())
    }

    /// Another slot with the table in this place.
    fn share_slot(&mut self, alloc: Global, place: usize) -> Result<TableSlot<'a>, AllocError>
        requires { place < 290 }
        ensures given { IfOk result (λ slot. table_in slot ≡ get_or self.old.tables place None) }
        ensures unchanged { self.new ≡ self.old }
    {
        let slot = std::mem::replace(&mut self.tables[place], TableSlot::Empty);
        let SlotPair { kept, given } = slot.twice(alloc);
        self.tables[place] = kept;
        match given {
            Some(given) => Ok(given),
            None => Err(AllocError),
        }
    }

    /// Other slots with the tables of these, for this many decoded blocks, 1 to 4096. The error comes where memory is refused.
    pub(crate) fn share(
        &mut self,
        alloc: Global,
        cache: usize,
    ) -> Result<TableSlots<'a>, AllocError>
        requires some { 1 ≤ cache }
        requires most { cache ≤ 4096 }
        ensures shared { IfOk result (λ table_slots. table_slots ≡ record { tables = self.old.tables; cache = cache }) }
        ensures unchanged { self.new ≡ self.old }
    {
        // The condition that there are 290 slots serves the proof alone.
        let _slots = &self.tables;
        let mut tables = Vec::with_capacity(alloc, 2 * MATERIALS)?;
        for place in 0..2 * MATERIALS {
            tables.push(self.share_slot(alloc, place)?)?;
        }
        Ok(TableSlots { tables, cache })
    }

    /// The part of the table of this kind for placed men: that for their side to move and the file of their leading pawn.
    pub(crate) fn part(&self, kind: TableKind, placed: &Placed) -> Option<TablePart<'_, 'a>>
        ensures found { IfSome result (IsPartFor self.now.tables kind placed.now) }
        ensures none { IfNone result (table_at self.now.tables kind placed.now.material ≡ None) }
    {
        match self.tables[slot(kind, placed.material())].table() {
            Some(table) => Some(table.part(placed.side(), placed.file())),
            None => None,
        }
    }
}
