//! Games that are told move by move.

ghost use Rattle.std.specs.Prelude.{◌≡◌, List, length, Err, IfOk, OnErr, pos};
ghost use Rattle.board_core.specs.declared.moves.Move.{Move};
ghost use Rattle.fen_text.specs.Written.{fen_of};
ghost use Rattle.judge_core.specs.Answers.{ListsMovesForVerdict};
ghost use Rattle.judge_core.specs.Games.{Rules, IsUnruled};
ghost use Rattle.judge_core.specs.Standings.{IsAt};
ghost use Rattle.probe_api.specs.Plays.{Begins, IsBegun, IsPlayed, TellsMove, TellsMoveNumbers, TellsMoveText};
ghost use Rattle.probe_api.specs.Replies.{told, verdict_number};
ghost use Rattle.probe_api.specs.Texts.{PutsText};

use crate::plain_move::PlainMove;
use crate::reply::{Reply, fen_status, verdict_number};
use crate::text::put_text;
use board_core::{Delay, Move, Position, Verdict};
use fen_text::{read, read_move, write};
use judge_core::{Set, Standing};
use std::alloc::Global;
use std::marker::Model;

/// A game in play: where it stands, for how many further plies a verdict by tables must hold, and its first verdict.
#[derive(Drop)]
pub struct Game {
    standing: Standing,
    delay: Delay,
    verdict: Option<Verdict>,
}

impl Model for Game {
    ghost use Rattle.probe_api.specs.Plays.{Play};

    ghost Value = { Play };

    ghost view = { λ g. record { standing = g.standing; delay = g.delay; verdict = g.verdict } };
}

impl Game {
    /// A game that has no verdict before this ply.
    fn at(standing: Standing, delay: Delay) -> Game
        ensures { (rules : Rules) (moves : List Move) → rules.delay ≡ delay → IsAt rules moves standing → IsUnruled rules moves (length moves) → IsPlayed rules moves result }
    {
        let verdict = standing.verdict(delay);
        Game {
            standing,
            delay,
            verdict,
        }
    }

    /// Puts the FEN text of the position that the game has reached at the front of the room, with a byte 0 after it. Where both
    /// don't fit, nothing is written. The result is the length of the text, at most 91.
    pub fn put_fen(&self, room: &mut [u8]) -> usize
        ensures { PutsText (fen_of self.now.standing.position) room.old result room.new }
    {
        let text = write(self.standing.position());
        put_text(text.as_str().as_bytes(), room)
    }

    /// The number of the game's first verdict, 1 to 7; 0 where it goes on.
    pub fn verdict(&self) -> Reply
        ensures { result ≡ told (pos (verdict_number self.now.verdict)) }
    {
        Reply::ok(verdict_number(self.verdict))
    }
}

/// A game that is begun at this position; its status is 5 where memory for a list of moves is refused.
fn begin_at(alloc: Global, set: &mut Set<'_>, start: &Position, delay: Delay) -> Result<Game, u32>
    ensures game { IfOk result (IsBegun set.old.tables start.now delay) }
    ensures memory { OnErr result ((result ≡ Err 5) × ListsMovesForVerdict set.old.tables start.now) }
    ensures kept { set.new ≡ set.old }
{
    match set.begin(alloc, start) {
        Ok(standing) => Ok(Game::at(standing, delay)),
        Err(_) => Err(5),
    }
}

/// Begins a game at the position that a text spells, whose verdicts by tables must hold for `delay` further plies.
///
/// The error is a status: 87 where the delay is above 8, else the first fault of the text, else 5 where memory for a list of moves
/// is refused. The set stays as it was but for its cache.
pub fn begin_game(alloc: Global, set: &mut Set<'_>, text: &[u8], delay: u8) -> Result<Game, u32>
    ensures is { Begins set.old.tables text.now delay result }
    ensures kept { set.new ≡ set.old }
{
    let Some(delay) = Delay::new(delay) else {
        return Err(87);
    };
    match read(text) {
        Ok(position) => begin_at(alloc, set, &position, delay),
        Err(fault) => Err(fen_status(fault)),
    }
}

/// Tells a game its next move.
fn tell(alloc: Global, set: &mut Set<'_>, game: &mut Game, m: &Move) -> Reply
    ensures is { TellsMove set.old.tables m.now game.old result game.new }
    ensures kept { set.new ≡ set.old }
{
    if game.verdict.is_some() {
        return Reply::refused(84);
    }
    let Some(position) = game.standing.position().play(*m) else {
        return Reply::refused(86);
    };
    let Ok(standing) = set.move_on(alloc, &game.standing, position) else {
        return Reply::refused(5);
    };
    *game = Game::at(standing, game.delay);
    game.verdict()
}

/// Tells a game its next move as text, in coordinates (`e2e4`, `e7e8q`), and answers its first verdict so far, 0 where it goes on.
///
/// The status is 85 where the text is no move, and 84 where the game has a verdict already. It is 86 where the move isn't legal, and
/// 5 where memory for a list of moves is refused. Each leaves the game as it was. The set stays as it was but for its cache.
pub fn tell_text(alloc: Global, set: &mut Set<'_>, game: &mut Game, text: &[u8]) -> Reply
    ensures is { TellsMoveText set.old.tables text.now game.old result game.new }
    ensures kept { set.new ≡ set.old }
{
    match read_move(text) {
        Some(m) => tell(alloc, set, game, &m),
        None => Reply::refused(85),
    }
}

/// Tells a game its next move, as numbers; the status is 85 where a square is above 63 or the promotion above 4.
pub fn tell_numbers(alloc: Global, set: &mut Set<'_>, game: &mut Game, numbers: PlainMove) -> Reply
    ensures is { TellsMoveNumbers set.old.tables numbers game.old result game.new }
    ensures kept { set.new ≡ set.old }
{
    match numbers.to_move() {
        Some(m) => tell(alloc, set, game, &m),
        None => Reply::refused(85),
    }
}
