//! The first verdict of a game.

ghost use Rattle.std.specs.Prelude.{◌≡◌, ◌<◌, ◌≤◌, length, take, IfOk, OnErr};
ghost use Rattle.judge_core.specs.Tables.{AreFiled};
ghost use Rattle.board_core.specs.Delays.{most_delay};
ghost use Rattle.judge_core.specs.Games.{Rules, IsUnruled, IsOutcome, plies_to};
ghost use Rattle.judge_core.specs.Inside.Following.{FollowsPly};
ghost use Rattle.judge_core.specs.Standings.{IsAt, ListsMovesInGame};

use crate::set::Set;
use crate::standing::Standing;
use board_core::{Delay, Move, Position, Verdict};
use std::alloc::{AllocError, Global};

/// The outcome of a list of moves. Plies and moves are counted from 0: ply 0 is the start, ply k the position after k
/// moves.
#[derive(Clone, Copy, PartialEq, Eq, Debug)]
pub enum GameOutcome {
    /// This is the first ply at which the rule gives a verdict.
    Ruled {
        /// The ply.
        ply: usize,
        /// Its verdict.
        verdict: Verdict,
    },
    /// A move isn't legal in its turn, and no ply before it has a verdict.
    Illegal {
        /// The place of the move in the list.
        place: usize,
    },
    /// All moves are legal in turn, and no ply has a verdict.
    Going,
}

/// The outcome of a list of moves, and where the game stands there.
#[derive(Drop)]
pub struct Followed {
    /// The outcome of the moves.
    pub outcome: GameOutcome,
    /// Where the game stands at the ply that is ruled, before the move that isn't legal, or after all moves.
    pub standing: Standing,
}

/// The outcome of a game that has no earlier verdict and stands so after all of its moves.
fn end_of(standing: &Standing, moves: &[Move], delay: Delay) -> GameOutcome
    ensures value { (rules : Rules) → rules.delay ≡ delay → IsAt rules moves.now standing.now → IsUnruled rules moves.now (length moves.now) → IsOutcome rules moves.now result }
    ensures plies { plies_to moves.now result ≡ length moves.now }
{
    match standing.verdict(delay) {
        Some(verdict) => GameOutcome::Ruled {
            ply: moves.len(),
            verdict,
        },
        None => GameOutcome::Going,
    }
}

impl<'a> Set<'a> {
    /// The outcome of a game at a ply before its last one, where that ply has a verdict or the move from it isn't
    /// legal. Otherwise none, and the game stands after that move.
    fn follow_ply(
        &mut self,
        alloc: Global,
        standing: &mut Standing,
        moves: &[Move],
        ply: usize,
        delay: Delay,
    ) -> Result<Option<GameOutcome>, AllocError>
        requires { ply < length moves.now }
        ensures value { FollowsPly self.old.tables delay moves.now ply standing.old standing.new result }
        ensures memory { (rules : Rules) → rules.tables ≡ self.old.tables → IsAt rules (take ply moves.now) standing.old → OnErr result (ListsMovesInGame rules moves.now) }
        ensures unchanged { self.new ≡ self.old }
    {
        if let Some(verdict) = standing.verdict(delay) {
            return Ok(Some(GameOutcome::Ruled { ply, verdict }));
        }
        let Some(position) = standing.position().play(moves[ply]) else {
            return Ok(Some(GameOutcome::Illegal { place: ply }));
        };
        *standing = self.move_on(alloc, standing, position)?;
        Ok(None)
    }

    /// The first verdict of the game of these moves from this start, and where the game stands at that ply, before an
    /// illegal move or at the end. Each ply is judged as by `judge`, ply 0 among them, before the move from it is
    /// played. Checkmate and stalemate end the game at once. A verdict by tables must hold for `delay` further plies.
    ///
    /// The error comes only where memory for a list of moves is refused. The set stays as it was but for its cache.
    pub fn follow(
        &mut self,
        alloc: Global,
        start: &Position,
        moves: &[Move],
        delay: Delay,
    ) -> Result<Followed, AllocError>
        ensures value { IfOk result (λ f. IsOutcome (record { start = start.now; tables = self.old.tables; delay = delay }) moves.now f.outcome) }
        ensures standing { IfOk result (λ f. IsAt (record { start = start.now; tables = self.old.tables; delay = delay }) (take (plies_to moves.now f.outcome) moves.now) f.standing) }
        ensures memory { OnErr result (ListsMovesInGame (record { start = start.now; tables = self.old.tables; delay = delay }) moves.now) }
        ensures filed { AreFiled self.old.tables }
        ensures unchanged { self.new ≡ self.old }
    {
        let mut standing = self.begin(alloc, start)?;
        for ply in 0..moves.len() {
            if let Some(outcome) = self.follow_ply(alloc, &mut standing, moves, ply, delay)? {
                return Ok(Followed { outcome, standing });
            }
        }
        let outcome = end_of(&standing, moves, delay);
        Ok(Followed { outcome, standing })
    }

    /// What `follow` returns, without where the game stands. That the delay is at most 8 plies is the caller's condition.
    pub fn judge_game(
        &mut self,
        alloc: Global,
        start: &Position,
        moves: &[Move],
        delay: u8,
    ) -> Result<GameOutcome, AllocError>
        requires { delay ≤ most_delay }
        ensures value { IfOk result (λ outcome. IsOutcome (record { start = start.now; tables = self.old.tables; delay = delay }) moves.now outcome) }
        ensures memory { OnErr result (ListsMovesInGame (record { start = start.now; tables = self.old.tables; delay = delay }) moves.now) }
        ensures filed { AreFiled self.old.tables }
        ensures unchanged { self.new ≡ self.old }
    {
        let Some(delay) = Delay::new(delay) else {
            unreachable!();
        };
        let followed = self.follow(alloc, start, moves, delay)?;
        Ok(followed.outcome)
    }
}
