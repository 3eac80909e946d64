//! Until no table of a folder is missing at a position.

ghost use Rattle.std.specs.Prelude.{◌≡◌, ◌↔◌, ◌<◌, ◌≤◌, ℕ, length, replicate, OnErr, None, Some, IfOk, IfErr, IfSome, IfNone, IsTrue, Ok, Err};
ghost use Rattle.judge_core.specs.ProbeResult.{IsProbed};
ghost use Rattle.judge_core.specs.MoreTables.{HasAll};
ghost use Rattle.judge_core.specs.Ruling.{ruling};
ghost use Rattle.judge_core.specs.Tables.{table_at};
ghost use Rattle.table_file.specs.declared.kind.TableKind.{TableKind};
ghost use Rattle.table_folder.specs.Folders.{AreOf, HasTable};
ghost use Rattle.table_folder.specs.Settled.{AddsOnlyMissed, ComesInTurn, IsAlone, IsRefusedAt, IsSettled};
ghost use Rattle.table_folder.specs.Inside.{AddsTable, IsLook, IsRefusalOf, MissesBy, looked};
ghost use Rattle.table_folder.specs.Reads.{OpensThere, refusal_of};

use crate::fault::FileRefusal;
use crate::files::TableFiles;
use crate::folder::TableFolder;
use board_core::Position;
use judge_core::laws::adding_keeps_the_rest;
use judge_core::{Columns, ProbeFault, ProbeResult, Set};
use place_index::Material;
use std::alloc::{AllocError, Global};
use table_file::{TableKind, file_name, names_differ, reads_what_is_laid_out};

/// What a look at a position comes to.
enum Look {
    /// No table of the folder is missing: both probes and the verdict.
    Settled(Columns),
    /// A table was missing and is open now.
    Opened,
    /// The file of a table that is missing is refused.
    Refused(FileRefusal),
}

/// A table that is missing.
#[derive(Clone, Copy)]
struct MissingTable {
    kind: TableKind,
    material: Material,
}

impl<'r, F: TableFiles> TableFolder<'r, F> {
    /// An empty set for the folder's tables that may keep this many decoded blocks, 1 to 4096. No file is read. The error comes where
    /// memory is refused.
    pub fn new_set(&self, alloc: Global, cache: usize) -> Result<Set<'r>, AllocError>
        requires some { 1 ≤ cache }
        requires most { cache ≤ 4096 }
        ensures opened { IfOk result (λ set. AreOf (F.facts self.now.disk) self.now.folder set.tables) }
        ensures empty { IfOk result (λ set. set.tables ≡ replicate 290 None) }
        ensures cache { IfOk result (λ set. set.cache ≡ cache) }
    {
        Set::new(alloc, cache)
    }

    /// Whether a set lacks a table that the folder has.
    fn lacks(&self, set: &Set<'_>, kind: TableKind, material: &Material) -> bool
        ensures { IsTrue result ↔ ((table_at set.now.tables kind material.now ≡ None) × HasTable self.now.folder kind material.now) }
    {
        !set.has(kind, *material) && self.has(kind, material)
    }

    /// The kind of the table that a distance misses, where the folder has one for the material and the set lacks it.
    fn missing_kind(&self, set: &Set<'_>, material: &Material) -> Option<TableKind>
        ensures some { IfSome result (λ kind. (table_at set.now.tables kind material.now ≡ None) × HasTable self.now.folder kind material.now) }
        ensures in_turn { IfSome result (λ kind. ComesInTurn self.now.folder set.now.tables kind material.now) }
        ensures none { IfNone result ((kind : TableKind) → table_at set.now.tables kind material.now ≡ None → HasTable self.now.folder kind material.now → ⊥) }
    {
        if self.lacks(set, TableKind::Wdl, material) {
            return Some(TableKind::Wdl);
        }
        if self.lacks(set, TableKind::Dtz, material) {
            return Some(TableKind::Dtz);
        }
        None
    }

    /// The table that both probes miss by what they tell, where the folder has it and the set lacks it.
    fn missing(&self, set: &Set<'_>, probed: &ProbeResult) -> Option<MissingTable>
        ensures some { IfSome result (λ found. MissesBy set.now.tables probed.now found.kind found.material × HasTable self.now.folder found.kind found.material) }
        ensures in_turn { IfSome result (λ found. ComesInTurn self.now.folder set.now.tables found.kind found.material) }
        ensures none { IfNone result ((kind : TableKind) (key : ℕ) → MissesBy set.now.tables probed.now kind key → HasTable self.now.folder kind key → ⊥) }
    {
        if let Err(ProbeFault::NotCovered(material)) = probed.wdl {
            if self.lacks(set, TableKind::Wdl, &material) {
                let kind = TableKind::Wdl;
                return Some(MissingTable { kind, material });
            }
        }
        let Err(ProbeFault::NotCovered(material)) = probed.dtz else {
            return None;
        };
        match self.missing_kind(set, &material) {
            Some(kind) => Some(MissingTable { kind, material }),
            None => None,
        }
    }

    /// Adds a table to a set that lacks it; a file at fault is refused.
    fn add(
        &self,
        log: &mut F::Log,
        alloc: Global,
        set: &mut Set<'r>,
        missing: MissingTable,
    ) -> Result<Result<(), FileRefusal>, AllocError>
        requires lacks { table_at set.old.tables missing.kind missing.material ≡ None }
        requires slots { length set.old.tables ≡ 290 }
        ensures known { missing.material < 145 }
        ensures added { IfOk result (λ a. IfOk a (λ _. AddsTable (F.facts self.now.disk) self.now.folder set.old.tables set.new.tables missing.kind missing.material)) }
        ensures refused { IfOk result (λ added. IfErr added (IsRefusalOf (F.facts self.now.disk) self.now.folder missing.kind missing.material)) }
        ensures unchanged { IfOk result (λ added. IfErr added (λ _. set.new ≡ set.old)) }
        ensures memory { OnErr result (set.new ≡ set.old) }
        ensures made { OpensThere F.events F.facts self.now log.old log.new set.old.tables set.new.tables (refusal_of result) }
        ensures cache { set.new.cache ≡ set.old.cache }
    {
        names_differ();
        reads_what_is_laid_out();
        let MissingTable { kind, material } = missing;
        let _key = material.key();
        let table = match self.table(log, alloc, kind, &material)? {
            Ok(table) => table,
            Err(fault) => {
                let name = file_name(kind, &material);
                return Ok(Err(FileRefusal { name, fault }));
            }
        };
        // The set lacks the table, so it isn't refused.
        let _ = set.add(table);
        Ok(Ok(()))
    }

    /// Looks at a position: opens the table of the folder that is missing, if one is.
    fn look(
        &self,
        log: &mut F::Log,
        alloc: Global,
        set: &mut Set<'r>,
        position: &Position,
    ) -> Result<Look, AllocError>
        requires { AreOf (F.facts self.now.disk) self.now.folder set.old.tables }
        ensures look { IfOk result (IsLook (F.facts self.now.disk) self.now.folder set.old.tables set.new.tables position.now) }
        ensures memory { OnErr result (set.new ≡ set.old) }
        ensures made { OpensThere F.events F.facts self.now log.old log.new set.old.tables set.new.tables (looked result) }
        ensures cache { set.new.cache ≡ set.old.cache }
    {
        adding_keeps_the_rest();
        let columns = set.answers(alloc, position)?;
        let Some(missing) = self.missing(set, &columns.probed) else {
            return Ok(Look::Settled(columns));
        };
        match self.add(log, alloc, set, missing)? {
            Ok(()) => Ok(Look::Opened),
            Err(refusal) => Ok(Look::Refused(refusal)),
        }
    }

    /// Opens the tables that a position misses and the folder has, one after another, until none is missing. The result is what
    /// `Set::answers` gives then, or the refusal of the first file at fault: the next call looks at that file anew.
    ///
    /// The error comes where memory is refused. Tables that are open stay open whatever the result is.
    pub fn settle(
        &self,
        log: &mut F::Log,
        alloc: Global,
        set: &mut Set<'r>,
        position: &Position,
    ) -> Result<Result<Columns, FileRefusal>, AllocError>
        requires { AreOf (F.facts self.now.disk) self.now.folder set.old.tables }
        ensures opened { AreOf (F.facts self.now.disk) self.now.folder set.new.tables }
        ensures kept { HasAll set.old.tables set.new.tables }
        ensures only { AddsOnlyMissed (F.facts self.now.disk) self.now.folder (IsAlone position.now) set.old.tables set.new.tables }
        ensures probed { IfOk result (λ settled. IfOk settled (λ columns. IsProbed set.new.tables position.now columns.probed)) }
        ensures verdict { IfOk result (λ settled. IfOk settled (λ columns. columns.verdict ≡ ruling set.new.tables position.now)) }
        ensures settled { IfOk result (λ settled. IfOk settled (λ _. IsSettled self.now.folder set.new.tables position.now)) }
        ensures refused { IfOk result (λ settled. IfErr settled (IsRefusedAt (F.facts self.now.disk) self.now.folder position.now)) }
        ensures made { OpensThere F.events F.facts self.now log.old log.new set.old.tables set.new.tables (refusal_of result) }
        ensures cache { set.new.cache ≡ set.old.cache }
    {
        loop {
            match self.look(log, alloc, set, position)? {
                Look::Settled(columns) => return Ok(Ok(columns)),
                Look::Refused(refusal) => return Ok(Err(refusal)),
                Look::Opened => {}
            }
        }
    }
}
