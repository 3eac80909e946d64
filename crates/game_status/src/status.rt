//! How far the games of folders have come.

ghost use Rattle.std.specs.Prelude.{◌≡◌, ◌↔◌, IsTrue};
ghost use Rattle.game_status.specs.Entries.{game_told};
ghost use Rattle.game_status.specs.Statuses.{IsLookAtBoth};

use crate::comparing::compare_kept;
use crate::entry::EntryFault;
use crate::side::Side;
use crate::status_lines::Look;
use arbiter_server::Game;
use board_core::Position;
use fen_text::laws::one_position;
use fen_text::write;

/// Whether two texts are one.
fn is_same_text(one: &[u8], other: &[u8]) -> bool
    ensures { IsTrue result ↔ (one.now ≡ other.now) }
{
    one == other
}

/// Whether two games have one start.
fn is_same_start(one: &Position, other: &Position) -> bool
    ensures { IsTrue result ↔ (one.now ≡ other.now) }
{
    one_position();
    let text = write(one);
    let its = write(other);
    is_same_text(text.as_str().as_bytes(), its.as_str().as_bytes())
}

/// Whether two files tell one game.
fn is_same_game(one: &Game, other: &Game) -> bool
    ensures { IsTrue result ↔ (game_told one.now ≡ game_told other.now) }
{
    if !is_same_text(one.name.as_slice(), other.name.as_slice()) {
        return false;
    }
    if one.delay != other.delay {
        return false;
    }
    is_same_start(&one.start, &other.start)
}

/// What is told of a game of which both folders have this.
pub fn look_at_both(one: Side, other: Side) -> Look
    ensures { IsLookAtBoth one other result }
{
    if !is_same_game(&one.game, &other.game) {
        return Look::OtherAtFault(EntryFault::OtherGame);
    }
    let compared = compare_kept(&one.kept, &other.kept);
    Look::Both(one, other, compared)
}
