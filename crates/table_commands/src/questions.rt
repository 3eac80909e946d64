//! What is asked of the tables of a folder.

ghost use Rattle.board_core.specs.declared.parts.Parts.{Parts};
ghost use Rattle.judge_core.specs.Tables.{Tables};
ghost use Rattle.table_folder.specs.Folders.{AreOf};
ghost use Rattle.table_commands.specs.FolderReads.{FindsFrom};

use crate::root::told_by;
use answer_parts::Answer;
use board_core::Position;
use json_lines::JsonLine;
use judge_core::{Ask, Columns, Set};
use std::alloc::{AllocError, Global};
use table_folder::{FileRefusal, TableFiles, TableFolder};

/// A question that the tables of a folder answer, of which those are read that it needs.
pub(crate) trait FolderQuestion {
    /// What is found.
    type Found;

    /// By these tables it needs this position.
    ghost needed: { Self → Tables → Parts → Type 0 };

    /// By these tables this is found.
    ghost finds: { Self → Tables → Self.Found → Type 0 };

    /// What is found by the tables of a folder, of which those are opened that are missed; or the refusal of the file of one of these.
    fn ask<'r, F: TableFiles>(
        &self,
        alloc: Global,
        log: &mut F::Log,
        folder: &TableFolder<'r, F>,
        set: &mut Set<'r>,
    ) -> Result<Result<Self::Found, FileRefusal>, AllocError>
        requires { AreOf (F.facts folder.now.disk) folder.now.folder set.old.tables }
        ensures opened { AreOf (F.facts folder.now.disk) folder.now.folder set.new.tables }
        ensures made { FindsFrom F.facts F.events folder.now log.old log.new (needed self.now) (finds self.now) set.old.tables set.new.tables result };
}

/// Both probes of a position, and the verdict on it.
#[derive(Drop)]
pub(crate) struct ColumnsOf<'p> {
    pub(crate) position: &'p Position,
}

impl<'p> FolderQuestion for ColumnsOf<'p> {
    ghost use Rattle.table_folder.specs.Settled.{IsAlone};
    ghost use Rattle.table_commands.specs.Inside.LookingUp.{AreColumns};

    type Found = Columns;

    ghost needed = { λ q. IsAlone q.position.now };

    ghost finds = { λ q. AreColumns q.position.now };

    fn ask<'r, F: TableFiles>(
        &self,
        alloc: Global,
        log: &mut F::Log,
        folder: &TableFolder<'r, F>,
        set: &mut Set<'r>,
    ) -> Result<Result<Columns, FileRefusal>, AllocError> {
        folder.settle(log, alloc, set, self.position)
    }
}

/// What is told of the legal moves of a position, and of the position, in lines.
#[derive(Drop)]
pub(crate) struct MovesOf<'p> {
    pub(crate) position: &'p Position,
}

impl<'p> FolderQuestion for MovesOf<'p> {
    ghost use Rattle.answer_parts.specs.Asked.{reply_of};
    ghost use Rattle.judge_core.specs.declared.ask.Ask.TheVariants.{Strict};
    ghost use Rattle.table_folder.specs.Settled.{IsWithMoves};
    ghost use Rattle.table_commands.specs.Root.{IsRootReply};

    type Found = Answer;

    ghost needed = { λ q. IsWithMoves q.position.now };

    ghost finds = { λ q tables a. IsRootReply Strict tables q.position.now (reply_of a) };

    fn ask<'r, F: TableFiles>(
        &self,
        alloc: Global,
        log: &mut F::Log,
        folder: &TableFolder<'r, F>,
        set: &mut Set<'r>,
    ) -> Result<Result<Answer, FileRefusal>, AllocError> {
        match folder.settle_moves(log, alloc, set, self.position) {
            Ok(Ok(())) => match told_by(Ask::Strict, alloc, set, self.position) {
                Ok(answer) => Ok(Ok(answer)),
                Err(fault) => Err(fault),
            },
            Ok(Err(refusal)) => Ok(Err(refusal)),
            Err(fault) => Err(fault),
        }
    }
}

/// The same, to be written as JSON.
#[derive(Drop)]
pub(crate) struct JsonOf<'p> {
    pub(crate) position: &'p Position,
}

impl<'p> FolderQuestion for JsonOf<'p> {
    ghost use Rattle.std.specs.Prelude.{true};
    ghost use Rattle.json_lines.specs.Told.{IsLineOf};
    ghost use Rattle.judge_core.specs.declared.ask.Ask.TheVariants.{Strict};
    ghost use Rattle.table_folder.specs.Settled.{IsWithMoves};

    type Found = JsonLine;

    ghost needed = { λ q. IsWithMoves q.position.now };

    ghost finds = { λ q tables l. IsLineOf Strict true tables q.position.now l };

    fn ask<'r, F: TableFiles>(
        &self,
        alloc: Global,
        log: &mut F::Log,
        folder: &TableFolder<'r, F>,
        set: &mut Set<'r>,
    ) -> Result<Result<JsonLine, FileRefusal>, AllocError> {
        match folder.settle_moves(log, alloc, set, self.position) {
            Ok(Ok(())) => {
                match JsonLine::of_position(alloc, set, self.position, Ask::Strict, true) {
                    Ok(line) => Ok(Ok(line)),
                    Err(fault) => Err(fault),
                }
            }
            Ok(Err(refusal)) => Ok(Err(refusal)),
            Err(fault) => Err(fault),
        }
    }
}
