//! Games judged by the tables of a folder, of which those are read that a ply asks for.

ghost use Rattle.std.specs.Prelude.{[], IfErr, IfOk};
ghost use Rattle.game_teller.specs.Judges.{IsLater, StandsBy};
ghost use Rattle.table_folder.specs.Folders.{AreOf};
ghost use Rattle.table_folder.specs.Reads.{refusal_of};
ghost use Rattle.table_folder.specs.Settled.{IsAlone, IsRefusedAt};
ghost use Rattle.table_commands.specs.Inside.Judging.{GoesOn, OpensFrom, judged_on};

use crate::questions::FolderQuestion;
use board_core::{Delay, Move, Position};
use judge_core::{GameOutcome, Set, Standing};
use std::alloc::{AllocError, Global};
use table_folder::laws::{positions_in_play_are_played, settled_games_stay};
use table_folder::{FileRefusal, TableFiles, TableFolder};

/// Where a game stands before its first move, by the tables of a folder that the start asks for.
pub(crate) fn begin<'r, F: TableFiles>(
    alloc: Global,
    log: &mut F::Log,
    folder: &TableFolder<'r, F>,
    set: &mut Set<'r>,
    start: &Position,
) -> Result<Result<Standing, FileRefusal>, AllocError>
    requires { AreOf (F.facts folder.now.disk) folder.now.folder set.old.tables }
    ensures opened { AreOf (F.facts folder.now.disk) folder.now.folder set.new.tables }
    ensures begun { IfOk result (λ found. IfOk found (StandsBy (judged_on F.facts folder.now set.new.tables) start.now [])) }
    ensures refused { IfOk result (λ found. IfErr found (IsRefusedAt (F.facts folder.now.disk) folder.now.folder start.now)) }
    ensures later { IsLater (judged_on F.facts folder.now set.old.tables) (judged_on F.facts folder.now set.new.tables) }
    ensures made { OpensFrom F.facts F.events folder.now log.old log.new (IsAlone start.now) set.old.tables set.new.tables (refusal_of result) }
{
    settled_games_stay(folder);
    if let Err(refusal) = folder.settle_one(log, alloc, set, start)? {
        return Ok(Err(refusal));
    }
    match set.begin(alloc, start) {
        Ok(standing) => Ok(Ok(standing)),
        Err(fault) => Err(fault),
    }
}

/// Where a game stands one legal move later, which led to this position, by the tables of a folder that the position asks for.
pub(crate) fn move_on<'r, F: TableFiles>(
    alloc: Global,
    log: &mut F::Log,
    folder: &TableFolder<'r, F>,
    set: &mut Set<'r>,
    standing: &Standing,
    position: Position,
) -> Result<Result<Standing, FileRefusal>, AllocError>
    requires { AreOf (F.facts folder.now.disk) folder.now.folder set.old.tables }
    ensures opened { AreOf (F.facts folder.now.disk) folder.now.folder set.new.tables }
    ensures on { IfOk result (λ found. IfOk found (GoesOn F.facts folder.now set.old.tables set.new.tables standing.now position)) }
    ensures refused { IfOk result (λ found. IfErr found (IsRefusedAt (F.facts folder.now.disk) folder.now.folder position)) }
    ensures later { IsLater (judged_on F.facts folder.now set.old.tables) (judged_on F.facts folder.now set.new.tables) }
    ensures made { OpensFrom F.facts F.events folder.now log.old log.new (IsAlone position) set.old.tables set.new.tables (refusal_of result) }
{
    settled_games_stay(folder);
    if let Err(refusal) = folder.settle_one(log, alloc, set, &position)? {
        return Ok(Err(refusal));
    }
    match set.move_on(alloc, standing, position) {
        Ok(standing) => Ok(Ok(standing)),
        Err(fault) => Err(fault),
    }
}

/// A start, moves from there, and for how many further plies a verdict by tables must hold.
#[derive(Drop)]
pub(crate) struct Course<'g> {
    /// The start.
    pub(crate) start: &'g Position,
    /// The moves.
    pub(crate) moves: &'g [Move],
    /// For how many further plies a verdict by tables must hold.
    pub(crate) delay: Delay,
}

/// What a game comes to, or the refusal of the file of a table that a position needs before which no ply has a verdict. Each ply is judged
/// before the move from it is played, so nothing is asked of the positions behind the first verdict.
impl<'g> FolderQuestion for Course<'g> {
    ghost use Rattle.table_commands.specs.Courses.{IsOutcomeOf, in_play_of};
    ghost use Rattle.table_commands.specs.Inside.Courses.{course_of};

    type Found = GameOutcome;

    ghost needed = { λ g. in_play_of (course_of g) };

    ghost finds = { λ g. IsOutcomeOf (course_of g) };

    fn ask<'r, F: TableFiles>(
        &self,
        alloc: Global,
        log: &mut F::Log,
        folder: &TableFolder<'r, F>,
        set: &mut Set<'r>,
    ) -> Result<Result<GameOutcome, FileRefusal>, AllocError> {
        positions_in_play_are_played();
        let moves = self.moves;
        let delay = self.delay;
        let mut standing = match begin(alloc, log, folder, set, self.start) {
            Ok(Ok(standing)) => standing,
            Ok(Err(refusal)) => return Ok(Err(refusal)),
            Err(fault) => return Err(fault),
        };
        for ply in 0..moves.len() {
            if let Some(verdict) = standing.verdict(delay) {
                return Ok(Ok(GameOutcome::Ruled { ply, verdict }));
            }
            let Some(position) = standing.position().play(moves[ply]) else {
                return Ok(Ok(GameOutcome::Illegal { place: ply }));
            };
            standing = match move_on(alloc, log, folder, set, &standing, position) {
                Ok(Ok(next)) => next,
                Ok(Err(refusal)) => return Ok(Err(refusal)),
                Err(fault) => return Err(fault),
            };
        }
        match standing.verdict(delay) {
            Some(verdict) => Ok(Ok(GameOutcome::Ruled {
                ply: moves.len(),
                verdict,
            })),
            None => Ok(Ok(GameOutcome::Going)),
        }
    }
}
