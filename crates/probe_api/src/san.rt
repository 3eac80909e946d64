//! Moves in standard algebraic notation, put into a caller's room and read.

ghost use Rattle.std.specs.Prelude.{◌≡◌, ◌≤◌, length};
ghost use Rattle.probe_api.specs.Sans.{PutsSan, PutsSanOfMove, PutsSanOfText, PutsSanText, TellsSan, TellsSanOfText, san_status};

use crate::plain_move::PlainMove;
use crate::reply::{Reply, fen_status};
use crate::text::put_text;
use board_core::{Move, Position};
use fen_text::read;
use san_text::{SanFault, read_san, write_san};

/// Puts the text of a move and a byte 0 after it at the front of the room, where both fit.
fn put_san_text(text: &[u8], room: &mut [u8]) -> Reply
    requires { length text.now ≤ 8 }
    ensures { PutsSanText text.now room.old result room.new }
{
    let space = room.len();
    let length = put_text(text, room);
    if length < space {
        Reply::ok(length as i32)
    } else {
        Reply::no_room(length as i32 + 1)
    }
}

/// Puts the text of a move that is legal in the position. The status is 86 where it isn't.
fn put_san_of_move(position: &Position, m: Move, room: &mut [u8]) -> Reply
    ensures { PutsSanOfMove position.now m room.old result room.new }
{
    match write_san(position, m) {
        Some(text) => put_san_text(text.as_str().as_bytes(), room),
        None => Reply::refused(86),
    }
}

/// Puts the text of the move that numbers are. The status is 85 where they are none.
fn put_san_in(position: &Position, numbers: PlainMove, room: &mut [u8]) -> Reply
    ensures { PutsSan position.now numbers room.old result room.new }
{
    match numbers.to_move() {
        Some(m) => put_san_of_move(position, m, room),
        None => Reply::refused(85),
    }
}

/// Puts the text of a move in standard algebraic notation, as `Nf3`, `exd8=Q+` or `O-O`, and a byte 0 after it at the front of the
/// room, and tells its length, at most 8. The position is that of a FEN text.
///
/// Where the room is too short nothing is written, and the status is 83 with the room that is needed. The other statuses are the first
/// fault of the FEN text, 85 where the numbers are no move, and 86 where it isn't legal; each leaves the room as it was.
pub fn put_san(fen: &[u8], numbers: PlainMove, room: &mut [u8]) -> Reply
    ensures { PutsSanOfText fen.now numbers room.old result room.new }
{
    match read(fen) {
        Ok(position) => put_san_in(&position, numbers, room),
        Err(fault) => Reply::refused(fen_status(fault)),
    }
}

/// The status that tells this fault of the text of a move.
fn san_status(fault: SanFault) -> u32
    ensures { result ≡ san_status fault }
{
    match fault {
        SanFault::BadText => 85,
        SanFault::NoMove => 86,
        SanFault::Ambiguous => 88,
    }
}

/// Puts the move that a text tells in a position.
fn tell_san_in(position: &Position, san: &[u8], room: &mut PlainMove) -> u32
    ensures { TellsSan position.now san.now room.old result room.new }
{
    match read_san(position, san) {
        Ok(m) => {
            *room = PlainMove::of(&m);
            0
        }
        Err(fault) => san_status(fault),
    }
}

/// Puts the move that a text in standard algebraic notation tells in the position of a FEN text into the caller's room.
///
/// The status is 0. Or it is the first fault of the FEN text, else 85 where the text is none of a move, 86 where no legal move is as it
/// tells, or 88 where two are; and the room stays as it was.
pub fn tell_san(fen: &[u8], san: &[u8], room: &mut PlainMove) -> u32
    ensures { TellsSanOfText fen.now san.now room.old result room.new }
{
    match read(fen) {
        Ok(position) => tell_san_in(&position, san, room),
        Err(fault) => fen_status(fault),
    }
}
