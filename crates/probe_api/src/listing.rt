//! The legal moves of a position, put into a caller's room.

ghost use Rattle.std.specs.Prelude.{◌≡◌, ◌<◌, ◌≤◌, ◌++◌, length, map, drop, slice_index_or};
ghost use Rattle.board_core.specs.declared.moves.Move.{Move};
ghost use Rattle.board_core.specs.ComputedMoves.{legal_moves};
ghost use Rattle.probe_api.specs.Moves.{PutsMoves, PutsMovesOfText, PutsMovesOfBoard, plain_of};

use crate::board::{Board, position_on};
use crate::plain_move::PlainMove;
use crate::reply::{Reply, fen_status, position_status};
use board_core::{Move, Position};
use fen_text::read;
use std::alloc::Global;

fn move_at(moves: &[Move], place: usize) -> &Move
    requires { place < length moves.now }
    ensures { (other : Move) → slice_index_or moves.now place other ≡ result.now }
{
    &moves[place]
}

/// Puts the numbers of each move in its place.
fn put_each(moves: &[Move], room: &mut [PlainMove])
    requires { length moves.now ≤ length room.old }
    ensures { room.new ≡ map plain_of moves.now ++ drop (length moves.now) room.old }
{
    for place in 0..moves.len() {
        let numbers = PlainMove::of(move_at(moves, place));
        room[place] = numbers;
    }
}

/// Puts the legal moves at the front of the room.
fn put_moves(alloc: Global, position: &Position, room: &mut [PlainMove]) -> Reply
    ensures { PutsMoves position.now room.old result room.new }
{
    let Ok(moves) = position.legal(alloc) else {
        return Reply::refused(5);
    };
    let count = moves.len();
    if 65535 < count {
        return Reply::refused(5);
    }
    if room.len() < count {
        return Reply::no_room(count as i32);
    }
    put_each(&moves, room);
    Reply::ok(count as i32)
}

/// Puts the legal moves of the position that a text spells at the front of the room, in order of from, to and promotion, and tells
/// how many there are. Where the room is too short nothing is written, and the status is 83 with that number. The other statuses
/// are the first fault of the text, and 5 where memory for a list is refused.
pub fn moves_of_text(alloc: Global, text: &[u8], room: &mut [PlainMove]) -> Reply
    ensures { PutsMovesOfText text.now room.old result room.new }
{
    match read(text) {
        Ok(position) => put_moves(alloc, &position, room),
        Err(fault) => Reply::refused(fen_status(fault)),
    }
}

/// The legal moves of the position that a board shows, as `moves_of_text` writes them; where it shows none, the status is the first
/// fault of what it shows.
pub fn moves_of_board(alloc: Global, board: &Board, room: &mut [PlainMove]) -> Reply
    ensures { PutsMovesOfBoard board.now room.old result room.new }
{
    match position_on(board) {
        Ok(position) => put_moves(alloc, &position, room),
        Err(fault) => Reply::refused(position_status(fault)),
    }
}
