//! The move of a line, and how a run ends.

ghost use Rattle.std.specs.Prelude.{◌≡◌, IfOk, IfErr};
ghost use Rattle.source_core.specs.Sendings.{IsRefusedLine};
ghost use Rattle.source_core.specs.Inside.Steps.{IsPlayedLine, StandsAtInputEnd, end_by};

use crate::board::Board;
use crate::known::{Known, Standing};
use crate::lines::End;
use crate::origin::Origin;
use crate::turn::Turn;
use board_core::{Move, Position};
use move_msg::{Count, MOST_MOVES};
use move_notation::Notation;

/// A line as a legal move of a position, and the position after it. The error is the end of the run.
pub(crate) fn move_of(
    notation: Notation,
    line: &[u8],
    position: &Position,
    number: Count,
) -> Result<(Move, Position), End>
    ensures ok { IfOk result (λ t. IsPlayedLine notation position.now number line.now t.0 t.1) }
    ensures err { IfErr result (IsRefusedLine notation position.now number line.now) }
{
    let number = number.number();
    if number >= MOST_MOVES {
        return Err(End::TooLong);
    }
    let read = notation.read(position, line);
    let Some(m) = &read else {
        return Err(End::NotAMove(number));
    };
    match position.play(*m) {
        Some(next) => Ok((*m, next)),
        None => Err(End::Illegal(number)),
    }
}

/// The end of a run after a turn; none where it goes on.
pub(crate) fn end_of(turn: Turn) -> Option<End>
    ensures { result ≡ end_by turn }
{
    match turn {
        Turn::Acked => None,
        Turn::Ruled(ruling) => Some(End::Ruled(ruling)),
        Turn::Clashed(clash) => Some(End::Clashed(clash)),
        Turn::Started(started) => Some(End::Started(started)),
        Turn::Belied(ruling) => Some(End::Belied(ruling)),
        Turn::Lost => Some(End::Lost),
        Turn::PortLost => Some(End::PortLost),
    }
}

/// The end of a run by an arbiter that has more moves of a new game, by a verdict that the board belies, or by the one that both have
/// reported; otherwise the game is open after this many moves.
pub(crate) fn end_at(origin: Origin, known: &Known, number: u32, position: &Position) -> End
    ensures { StandsAtInputEnd origin number position.now known.now result }
{
    if let Some(started) = origin.started_in(known, number) {
        return End::Started(started);
    }
    let board = Board {
        plies: number,
        position,
    };
    if let Some(ruling) = board.belied_in(known) {
        return End::Belied(ruling);
    }
    match known.standing(number) {
        Standing::Ruled(ruling) => End::Ruled(ruling),
        Standing::Acked | Standing::Open => End::Open(number),
    }
}
