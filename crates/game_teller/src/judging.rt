//! What judges the plies of a game.

ghost use Rattle.std.specs.Prelude.{[], IfErr, IfOk, OnErr};
ghost use Rattle.game_teller.specs.Judges.{IsLater, JudgeFacts, JudgesOn, ReadsAt, StandsBy};

use board_core::Position;
use judge_core::{Set, Standing};
use std::alloc::{AllocError, Global};
use table_folder::FileRefusal;
use timeline::System;

/// Judges the plies of a game, one after another, over a system.
pub trait PlyJudge<S: System> {
    /// This is the system from which it reads.
    ghost reads_from: { Self → S → Type 0 };

    /// What is known of it.
    ghost facts: { Self → JudgeFacts };

    /// Where a game stands before its first move; or the refusal of the file of a table that the start needs. What it reads for that are
    /// tables that the start asks for. The error comes only where memory is refused.
    fn begin(
        &mut self,
        alloc: Global,
        system: &S,
        timeline: &mut S::Timeline,
        start: &Position,
    ) -> Result<Result<Standing, FileRefusal>, AllocError>
        requires { reads_from self.old system.now }
        ensures begun { IfOk result (λ found. IfOk found (StandsBy (facts self.new) start.now [])) }
        ensures refused { IfOk result (λ found. IfErr found ((facts self.old).refuses start.now)) }
        ensures memory { OnErr result ((facts self.old).takes_memory start.now) }
        ensures later { IsLater (facts self.old) (facts self.new) }
        ensures made { ReadsAt (S.outside system.now) (facts self.old) (facts self.new) start.now timeline.old timeline.new result }
        ensures still { reads_from self.new system.now };

    /// Where a game stands one legal move later, which led to this position; or the refusal of the file of a table that the position
    /// needs. What it reads for that are tables that the position asks for. The error comes only where memory is refused.
    fn move_on(
        &mut self,
        alloc: Global,
        system: &S,
        timeline: &mut S::Timeline,
        standing: &Standing,
        position: Position,
    ) -> Result<Result<Standing, FileRefusal>, AllocError>
        requires { reads_from self.old system.now }
        ensures on { IfOk result (λ found. IfOk found (JudgesOn (facts self.old) (facts self.new) standing.now position)) }
        ensures refused { IfOk result (λ found. IfErr found ((facts self.old).refuses position)) }
        ensures memory { OnErr result ((facts self.old).takes_memory position) }
        ensures later { IsLater (facts self.old) (facts self.new) }
        ensures made { ReadsAt (S.outside system.now) (facts self.old) (facts self.new) position timeline.old timeline.new result }
        ensures still { reads_from self.new system.now };
}

/// Judges by a set of tables. Nothing is read, and no file is refused.
#[derive(Drop)]
pub struct SetJudge<'a> {
    /// The tables.
    pub set: Set<'a>,
}

impl<'a, S: System> PlyJudge<S> for SetJudge<'a> {
    ghost use Rattle.game_teller.specs.Judges.{by_set};

    ghost reads_from = { λ _ _. Unit {0} };

    ghost facts = { λ j. by_set j.set.tables };

    fn begin(
        &mut self,
        alloc: Global,
        _system: &S,
        _timeline: &mut S::Timeline,
        start: &Position,
    ) -> Result<Result<Standing, FileRefusal>, AllocError> {
        match self.set.begin(alloc, start) {
            Ok(standing) => Ok(Ok(standing)),
            Err(fault) => Err(fault),
        }
    }

    fn move_on(
        &mut self,
        alloc: Global,
        _system: &S,
        _timeline: &mut S::Timeline,
        standing: &Standing,
        position: Position,
    ) -> Result<Result<Standing, FileRefusal>, AllocError> {
        match self.set.move_on(alloc, standing, position) {
            Ok(standing) => Ok(Ok(standing)),
            Err(fault) => Err(fault),
        }
    }
}
