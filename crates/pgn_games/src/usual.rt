//! The position of a new game.

ghost use Rattle.std.specs.Prelude.{◌≡◌};
ghost use Rattle.board_core.specs.Position.{IsPosition};
ghost use Rattle.fen_text.specs.Written.{fen_of};
ghost use Rattle.pgn_games.specs.Games.{usual_start};

use board_core::Position;
use board_core::laws::check_is_computed;

/// The position of a new game (FIDE article 2.3), as FEN text.
const USUAL_START: &[u8; 56] = b"rnbqkbnr/pppppppp/8/8/8/8/PPPPPPPP/RNBQKBNR w KQkq - 0 1";

/// The position of a new game.
pub(crate) fn usual_position() -> Position
    ensures spelled { usual_start ≡ fen_of result }
    ensures position { IsPosition result }
{
    check_is_computed();
    match fen_text::read(USUAL_START) {
        Ok(position) => position,
        Err(_) => unreachable!(),
    }
}
