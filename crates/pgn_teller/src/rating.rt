//! What tables say of a game of a file.

ghost use Rattle.std.specs.Prelude.{◌≡◌, IfOk};
ghost use Rattle.pgn_games.specs.Shown.{game_of};
ghost use Rattle.pgn_teller.specs.Ratings.{IsFirstRuled, Ruling, RulesNoMore, ruled_by};
ghost use Rattle.timeline.specs.Outsides.{AddsSome};

use board_core::{Delay, Verdict};
use judge_core::{GameOutcome, Set};
use pgn_games::Game;
use std::alloc::{AllocError, Global};
use table_folder::FileRefusal;
use timeline::System;

/// The first verdict of a game.
#[derive(Clone, Copy, PartialEq, Eq, Debug)]
pub struct Ruled {
    /// The ply at which it comes, 0 to 4096; ply 0 is the start.
    pub ply: usize,
    /// The verdict.
    pub verdict: Verdict,
}

/// Rules the games of files over a system.
pub trait GameRuler<S: System> {
    /// What it may know, such as the tables that are open.
    ghost Known: { Type 0 };

    /// This is the system from which it reads.
    ghost reads_from: { Self → S → Type 0 };

    /// What it knows, which may grow from game to game.
    ghost known: { Self → Known };

    /// What a game is ruled as by what is known, behind what is read for that; or, behind that, memory is refused.
    ghost rules: { Self → Ruling Known };

    /// The first verdict of a game, or none where it goes on; or the refusal of the file of a table that it needs. Whatever a game is ruled as
    /// later it could have been ruled as before. The error comes only where memory is refused.
    fn rule(
        &mut self,
        alloc: Global,
        system: &S,
        timeline: &mut S::Timeline,
        game: &Game,
    ) -> Result<Result<Option<Ruled>, FileRefusal>, AllocError>
        requires { reads_from self.old system.now }
        ensures made { AddsSome (S.outside system.now) timeline.old timeline.new (rules self.old (known self.old) (known self.new) (game_of game.now) result) }
        ensures same { RulesNoMore (rules self.old) (rules self.new) }
        ensures still { reads_from self.new system.now };
}

/// The first verdict of an outcome, if it has one.
pub fn ruled_by(outcome: GameOutcome) -> Option<Ruled>
    ensures { result ≡ ruled_by outcome }
{
    match outcome {
        GameOutcome::Ruled { ply, verdict } => Some(Ruled { ply, verdict }),
        GameOutcome::Illegal { .. } | GameOutcome::Going => None,
    }
}

/// Rules games by a set of tables, where a verdict by tables must hold for `delay` further plies. No file is refused.
#[derive(Drop)]
pub struct SetRuler<'a> {
    /// The tables.
    pub set: Set<'a>,
    /// For how many further plies a verdict by tables must hold.
    pub delay: Delay,
}

impl<'a> SetRuler<'a> {
    /// The first verdict of a game, or none where it goes on.
    fn first_ruled(&mut self, alloc: Global, game: &Game) -> Result<Option<Ruled>, AllocError>
        ensures ruled { IfOk result (IsFirstRuled self.old.delay self.old.set.tables (game_of game.now)) }
        ensures delay { self.new.delay ≡ self.old.delay }
        ensures tables { self.new.set.tables ≡ self.old.set.tables }
    {
        let outcome = self
            .set
            .judge_game(alloc, &game.start, &game.moves, self.delay.plies())?;
        Ok(ruled_by(outcome))
    }
}

impl<'a, S: System> GameRuler<S> for SetRuler<'a> {
    ghost use Rattle.pgn_teller.specs.Ratings.{RulesBy};

    ghost Known = { Unit {0} };

    ghost reads_from = { λ _ _. Unit {0} };

    ghost known = { λ _. tt };

    ghost rules = { λ r. RulesBy r.delay r.set.tables };

    fn rule(
        &mut self,
        alloc: Global,
        _system: &S,
        _timeline: &mut S::Timeline,
        game: &Game,
    ) -> Result<Result<Option<Ruled>, FileRefusal>, AllocError> {
        match self.first_ruled(alloc, game) {
            Ok(ruled) => Ok(Ok(ruled)),
            Err(e) => Err(e),
        }
    }
}
