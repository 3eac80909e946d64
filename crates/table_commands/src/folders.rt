//! The tables of a folder that are read when a position asks for them.

ghost use Rattle.std.specs.Prelude.{◌≡◌, IfOk, IfErr, false};
ghost use Rattle.table_folder.specs.Folders.{AreOf};
ghost use Rattle.move_msg.specs.ToldBy.{told_by};
ghost use Rattle.table_commands.specs.FolderAnswers.{IsOpenAt};
ghost use Rattle.table_commands.specs.FolderReads.{FindsOpen, OpensAt, OpensToAsk, no_tables};
ghost use Rattle.table_folder.specs.Reads.{PassesSome};
ghost use Rattle.table_commands.specs.Inside.Asking.{FindsAt, FindsLine};
ghost use Rattle.table_commands.specs.Inside.LookingUp.{LacksFolder, folder_opened, opened_to_ask, OpensKept};

use crate::questions::{ColumnsOf, FolderQuestion, JsonOf};
use answer_parts::Refusal;
use board_core::Position;
use bumpalo::Bump;
use command_line::{CacheSize, Megabytes};
use json_lines::{JsonLine, PositionTold};
use judge_core::Set;
use move_msg::Manifest;
use std::alloc::{AllocError, Global};
use std::marker::Model;
use system_io::ReadFault;
use table_folder::{FileRefusal, SystemFiles, TableFiles, TableFolder};
use timeline::System;

/// An arena for the tables that a command keeps: of so many megabytes at most, where a number is given.
pub fn arena_for(alloc: Global, memory: Option<Megabytes>) -> Bump {
    let arena = Bump::new(alloc);
    if let Some(most) = memory {
        arena.set_allocation_limit(Some(most.bytes()));
    }
    arena
}

/// Where a folder of tables is, and the manifest that it is held to.
#[derive(Drop)]
pub(crate) struct FolderPlace<'r, D> {
    /// The disk.
    pub(crate) disk: &'r D,
    /// The folder's path.
    pub(crate) path: &'r str,
    /// The manifest.
    pub(crate) manifest: &'r Manifest,
}

/// Opens a folder; no table is read. The refusal is that of a malformed manifest, then of the folder.
pub(crate) fn folder_at<'r, F: TableFiles>(
    alloc: Global,
    disk: &'r F,
    log: &mut F::Log,
    path: &'r str,
    manifest: &'r Manifest,
    arena: &'r Bump,
) -> Result<Result<TableFolder<'r, F>, Refusal>, AllocError>
    ensures disk { IfOk result (λ found. IfOk found (λ folder. folder.disk ≡ disk.now)) }
    ensures folder { IfOk result (λ found. IfOk found (λ folder. IsOpenAt (F.facts disk.now) path.now (told_by manifest.now) folder.folder)) }
    ensures refused { IfOk result (λ found. IfErr found (LacksFolder (F.facts disk.now) path.now (told_by manifest.now))) }
    ensures made { PassesSome (F.events disk.now log.old) (F.events disk.now log.new) (OpensAt (F.facts disk.now) path.now manifest.now (folder_opened result)) }
{
    if let Manifest::BadLine(line) = manifest {
        return Ok(Err(Refusal::Manifest(*line)));
    }
    match TableFolder::open(alloc, disk, log, path, manifest, arena) {
        Ok(folder) => Ok(Ok(folder)),
        Err(ReadFault::Unreadable) => Ok(Err(Refusal::Files)),
        Err(ReadFault::OutOfMemory) => Err(AllocError),
    }
}

/// Opens a folder, with an empty set for its tables; no table is read. The refusal is that of a malformed manifest, then of the folder.
pub(crate) fn opened_at<'r, F: TableFiles>(
    alloc: Global,
    disk: &'r F,
    log: &mut F::Log,
    path: &'r str,
    manifest: &'r Manifest,
    arena: &'r Bump,
) -> Result<Result<(TableFolder<'r, F>, Set<'r>), Refusal>, AllocError>
    ensures disk { IfOk result (λ found. IfOk found (λ o. o.0.disk ≡ disk.now)) }
    ensures opened { IfOk result (λ found. IfOk found (λ o. AreOf (F.facts disk.now) o.0.folder o.1.tables)) }
    ensures empty { IfOk result (λ found. IfOk found (λ o. o.1.tables ≡ no_tables)) }
    ensures made { PassesSome (F.events disk.now log.old) (F.events disk.now log.new) (OpensToAsk (F.facts disk.now) path.now manifest.now (opened_to_ask result)) }
{
    let folder = match folder_at(alloc, disk, log, path, manifest, arena) {
        Ok(Ok(folder)) => folder,
        Ok(Err(refusal)) => return Ok(Err(refusal)),
        Err(fault) => return Err(fault),
    };
    match folder.new_set(alloc, CacheSize::usual().blocks()) {
        Ok(set) => Ok(Ok((folder, set))),
        Err(fault) => Err(fault),
    }
}

/// A folder whose tables are read when a position asks for them, and those of them that are open.
///
/// Contracts see where its files are, the folder and the tables that are open. What is found is found by tables of the folder, of which none
/// is missing at the positions that it needs; or the file of one of these is refused. Tables stay open while the arena has room; where memory
/// is refused, as where it has none, all that the question needs are read for it alone, and go after the answer.
#[derive(Drop)]
pub struct OpenFolder<'r, 's, S: System> {
    alloc: Global,
    folder: TableFolder<'r, SystemFiles<'s, S>>,
    set: Set<'r>,
}

impl<'r, 's, S: System> Model for OpenFolder<'r, 's, S> {
    ghost use Rattle.table_commands.specs.FolderAnswers.{TablesOn};
    ghost use Rattle.table_folder.specs.Folders.{AreOf};
    ghost use Rattle.table_folder.specs.declared.files.SystemFiles.{SystemFiles};

    ghost Value = { TablesOn (SystemFiles S) };

    ghost view = { λ o. record { on = o.folder; tables = o.set.tables } };

    ghost invariant = { λ o. AreOf (S.outside o.folder.disk.system.now).disk o.folder.folder o.set.tables };
}

impl<'r, 's, S: System> OpenFolder<'r, 's, S> {
    /// Opens a folder; no table is read. The refusal is that of a malformed manifest, then of the folder.
    pub(crate) fn at(
        alloc: Global,
        files: &'r SystemFiles<'s, S>,
        timeline: &mut S::Timeline,
        path: &'r str,
        manifest: &'r Manifest,
        arena: &'r Bump,
    ) -> Result<Result<OpenFolder<'r, 's, S>, Refusal>, AllocError>
        ensures files { IfOk result (λ found. IfOk found (λ o. o.on.disk ≡ files.now)) }
        ensures empty { IfOk result (λ found. IfOk found (λ o. o.tables ≡ no_tables)) }
        ensures made { OpensKept (S.outside files.now.system.now) timeline.old timeline.new path.now manifest.now result }
    {
        match opened_at(alloc, files, timeline, path, manifest, arena) {
            Ok(Ok((folder, set))) => Ok(Ok(OpenFolder { alloc, folder, set })),
            Ok(Err(refusal)) => Ok(Err(refusal)),
            Err(fault) => Err(fault),
        }
    }

    /// What is found by the tables that stay open, or by tables that are read for it alone; or the refusal of the file of one of them.
    pub(crate) fn ask<Q: FolderQuestion>(
        &mut self,
        timeline: &mut S::Timeline,
        asked: &Q,
    ) -> Result<Result<Q::Found, FileRefusal>, AllocError>
        ensures made { FindsOpen (S.outside self.old.on.disk.system.now) self.old self.new timeline.old timeline.new (Q.needed asked.now) (Q.finds asked.now) result }
        ensures on { self.new.on ≡ self.old.on }
    {
        match asked.ask(self.alloc, timeline, &self.folder, &mut self.set) {
            Ok(found) => return Ok(found),
            Err(_) => {}
        }
        let arena = Bump::new(self.alloc);
        let folder = match self.folder.apart(&arena) {
            Ok(folder) => folder,
            Err(fault) => return Err(fault),
        };
        let mut set = match folder.new_set(self.alloc, CacheSize::usual().blocks()) {
            Ok(set) => set,
            Err(fault) => return Err(fault),
        };
        asked.ask(self.alloc, timeline, &folder, &mut set)
    }

    /// What is told of a position, to be written as JSON.
    fn json_alone(
        &mut self,
        timeline: &mut S::Timeline,
        position: &Position,
    ) -> Result<Result<JsonLine, FileRefusal>, AllocError>
        ensures made { FindsLine (S.outside self.old.on.disk.system.now) self.old self.new timeline.old timeline.new false position.now result }
        ensures on { self.new.on ≡ self.old.on }
    {
        match self.ask(timeline, &ColumnsOf { position }) {
            Ok(Ok(columns)) => Ok(Ok(JsonLine::Position(PositionTold {
                position: *position,
                columns,
            }))),
            Ok(Err(refusal)) => Ok(Err(refusal)),
            Err(fault) => Err(fault),
        }
    }

    /// What is told of a position, and of its legal moves if they are wanted, to be written as JSON.
    pub(crate) fn json_line(
        &mut self,
        timeline: &mut S::Timeline,
        position: &Position,
        with_moves: bool,
    ) -> Result<Result<JsonLine, FileRefusal>, AllocError>
        ensures made { FindsLine (S.outside self.old.on.disk.system.now) self.old self.new timeline.old timeline.new with_moves position.now result }
        ensures on { self.new.on ≡ self.old.on }
    {
        if with_moves {
            self.ask(timeline, &JsonOf { position })
        } else {
            self.json_alone(timeline, position)
        }
    }
}

/// What is found by the folder at a place, of whose tables those are read that the question needs. Or the refusal: of a malformed manifest,
/// then of the folder, then of the first file that is needed and at fault.
pub(crate) fn ask_at<F: TableFiles, Q: FolderQuestion>(
    alloc: Global,
    log: &mut F::Log,
    place: &FolderPlace<'_, F>,
    asked: &Q,
) -> Result<Result<Q::Found, Refusal>, AllocError>
    ensures { FindsAt F.facts F.events place.now log.old log.new (Q.needed asked.now) (Q.finds asked.now) result }
{
    let arena = Bump::new(alloc);
    let (folder, mut set) = match opened_at(
        alloc,
        place.disk,
        log,
        place.path,
        place.manifest,
        &arena,
    ) {
        Ok(Ok(opened)) => opened,
        Ok(Err(refusal)) => return Ok(Err(refusal)),
        Err(fault) => return Err(fault),
    };
    match asked.ask(alloc, log, &folder, &mut set) {
        Ok(Ok(found)) => Ok(Ok(found)),
        Ok(Err(refused)) => Ok(Err(Refusal::File(refused.name, refused.fault))),
        Err(fault) => Err(fault),
    }
}
