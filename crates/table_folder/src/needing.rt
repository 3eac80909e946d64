//! A position, and those after its moves, until no table of a folder is missing at any.

ghost use Rattle.std.specs.Prelude.{◌≡◌, IfOk, IfErr};
ghost use Rattle.judge_core.specs.MoreTables.{HasAll};
ghost use Rattle.table_folder.specs.Folders.{AreOf};
ghost use Rattle.table_folder.specs.Settled.{AddsOnlyMissed, AreSettled, IsAlone, IsRefusedAt, IsRefusedFor, IsSettled, IsWithMoves};
ghost use Rattle.table_folder.specs.Reads.{OpensThere, refusal_of};

use crate::fault::FileRefusal;
use crate::files::TableFiles;
use crate::folder::TableFolder;
use board_core::Position;
use judge_core::laws::{more_tables_answer_the_same, what_is_missing_stays_missing};
use judge_core::{Set, is_out_of_scope};
use std::alloc::{AllocError, Global};

impl<'r, F: TableFiles> TableFolder<'r, F> {
    /// Opens the tables that a position misses and the folder has. A position out of scope needs none. The result says whether they are
    /// open, or is the refusal of the first file at fault.
    ///
    /// The error comes where memory is refused. Tables that are open stay open whatever the result is.
    pub fn settle_one(
        &self,
        log: &mut F::Log,
        alloc: Global,
        set: &mut Set<'r>,
        position: &Position,
    ) -> Result<Result<(), FileRefusal>, AllocError>
        requires { AreOf (F.facts self.now.disk) self.now.folder set.old.tables }
        ensures opened { AreOf (F.facts self.now.disk) self.now.folder set.new.tables }
        ensures kept { HasAll set.old.tables set.new.tables }
        ensures only { AddsOnlyMissed (F.facts self.now.disk) self.now.folder (IsAlone position.now) set.old.tables set.new.tables }
        ensures settled { IfOk result (λ settled. IfOk settled (λ _. IsSettled self.now.folder set.new.tables position.now)) }
        ensures refused { IfOk result (λ settled. IfErr settled (IsRefusedAt (F.facts self.now.disk) self.now.folder position.now)) }
        ensures made { OpensThere F.events F.facts self.now log.old log.new set.old.tables set.new.tables (refusal_of result) }
        ensures cache { set.new.cache ≡ set.old.cache }
    {
        if is_out_of_scope(position) {
            return Ok(Ok(()));
        }
        match self.settle(log, alloc, set, position)? {
            Ok(_) => Ok(Ok(())),
            Err(refusal) => Ok(Err(refusal)),
        }
    }

    /// Opens the tables that a position and those after its legal moves miss and the folder has, as `settle_one` does.
    pub fn settle_moves(
        &self,
        log: &mut F::Log,
        alloc: Global,
        set: &mut Set<'r>,
        position: &Position,
    ) -> Result<Result<(), FileRefusal>, AllocError>
        requires { AreOf (F.facts self.now.disk) self.now.folder set.old.tables }
        ensures opened { AreOf (F.facts self.now.disk) self.now.folder set.new.tables }
        ensures kept { HasAll set.old.tables set.new.tables }
        ensures only { AddsOnlyMissed (F.facts self.now.disk) self.now.folder (IsWithMoves position.now) set.old.tables set.new.tables }
        ensures settled { IfOk result (λ settled. IfOk settled (λ _. AreSettled self.now.folder set.new.tables (IsWithMoves position.now))) }
        ensures refused { IfOk result (λ settled. IfErr settled (IsRefusedFor (F.facts self.now.disk) self.now.folder (IsWithMoves position.now))) }
        ensures made { OpensThere F.events F.facts self.now log.old log.new set.old.tables set.new.tables (refusal_of result) }
        ensures cache { set.new.cache ≡ set.old.cache }
    {
        more_tables_answer_the_same();
        what_is_missing_stays_missing();
        if let Err(refusal) = self.settle_one(log, alloc, set, position)? {
            return Ok(Err(refusal));
        }
        for m in &position.legal(alloc)? {
            let Some(next) = position.play(*m) else {
                continue;
            };
            if let Err(refusal) = self.settle_one(log, alloc, set, &next)? {
                return Ok(Err(refusal));
            }
        }
        Ok(Ok(()))
    }
}
