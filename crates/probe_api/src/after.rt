//! Boards of positions: that of a FEN text, and that after a move.

ghost use Rattle.std.specs.Prelude.{◌≡◌, ◌≢◌};
ghost use Rattle.board_core.specs.Sides.{squares_where};
ghost use Rattle.probe_api.specs.Afters.{BoardShowsItsPosition, IsAfterMove, PutsBoardOfText, TellsAfter, board_of, passed_number, rights_number, side_number};
ghost use Rattle.probe_api.specs.Inside.{shows};

use crate::board::{Board, position_on};
use crate::plain_move::PlainMove;
use crate::reply::{fen_status, position_status};
use board_core::{Kind, Move, Piece, Position, Rights, Side, Square};
use fen_text::read;

/// Which men are asked for.
#[derive(Clone, Copy)]
enum Sought {
    /// Those of a side.
    Side(Side),
    /// Those of a kind.
    Kind(Kind),
}

/// Whether a man who is sought stands there.
fn shows(sought: Sought, man: Option<Piece>) -> bool
    ensures { result ≡ shows sought man }
{
    match (sought, man) {
        (_, None) => false,
        (Sought::Side(side), Some(man)) => man.is_of(side),
        (Sought::Kind(kind), Some(man)) => man.kind == kind,
    }
}

/// The squares of the men who are sought: a bit for each, that of h8 first.
fn squares(position: &Position, sought: Sought) -> u64
    ensures { result ≡ squares_where (shows sought) position.now.men }
{
    // The condition that it is a position serves the proof alone.
    let _parts = position.parts();
    let mut bits = 0u64;
    for place in 0..64u8 {
        let man = position.piece_at(Square::at(63 - place));
        bits = 2 * bits + u64::from(shows(sought, man));
    }
    bits
}

fn side_number(side: Side) -> u8
    ensures { result ≡ side_number side }
{
    match side {
        Side::White => 0,
        Side::Black => 1,
    }
}

fn rights_number(rights: Rights) -> u8
    ensures { result ≡ rights_number rights }
{
    u8::from(rights.white_king)
        + 2 * u8::from(rights.white_queen)
        + 4 * u8::from(rights.black_king)
        + 8 * u8::from(rights.black_queen)
}

fn passed_number(square: Option<Square>) -> u8
    ensures { result ≡ passed_number square }
{
    match square {
        None => 64,
        Some(square) => square.number(),
    }
}

impl Board {
    /// The board of a position.
    fn of(position: &Position) -> Board
        ensures { result ≡ board_of position.now }
    {
        Board {
            white: squares(position, Sought::Side(Side::White)),
            black: squares(position, Sought::Side(Side::Black)),
            kings: squares(position, Sought::Kind(Kind::King)),
            queens: squares(position, Sought::Kind(Kind::Queen)),
            rooks: squares(position, Sought::Kind(Kind::Rook)),
            bishops: squares(position, Sought::Kind(Kind::Bishop)),
            knights: squares(position, Sought::Kind(Kind::Knight)),
            pawns: squares(position, Sought::Kind(Kind::Pawn)),
            halfmove: position.halfmove(),
            fullmove: position.fullmove(),
            side: side_number(position.side()),
            rights: rights_number(position.rights()),
            passed: passed_number(position.en_passant()),
        }
    }
}

/// Puts the board of the position that a FEN text spells into the caller's room. The status is 0; or it is the first fault of the text,
/// and the room stays as it was.
pub fn put_board(fen: &[u8], room: &mut Board) -> u32
    ensures { PutsBoardOfText fen.now room.old result room.new }
{
    match read(fen) {
        Ok(position) => {
            *room = Board::of(&position);
            0
        }
        Err(fault) => fen_status(fault),
    }
}

/// The board after a move that is legal in the position. The status is 86 where it isn't, and the room stays as it was.
fn after_move(position: &Position, m: &Move, room: &mut Board) -> u32
    ensures is { IsAfterMove position.now m.now result room.new }
    ensures kept { result ≢ 0 → room.new ≡ room.old }
{
    match position.play(*m) {
        Some(after) => {
            *room = Board::of(&after);
            0
        }
        None => 86,
    }
}

/// Puts the board after a move into the caller's room. The status is 0; or it is the first fault of what the board shows, 85 where the
/// numbers are no move, or 86 where the move isn't legal, in this order, and the room stays as it was.
pub fn board_after(board: &Board, numbers: PlainMove, room: &mut Board) -> u32
    ensures { TellsAfter board.now numbers room.old result room.new }
{
    match position_on(board) {
        Ok(position) => match numbers.to_move() {
            Some(m) => after_move(&position, &m, room),
            None => 85,
        },
        Err(fault) => position_status(fault),
    }
}

/// The board of a position shows that position, so what `board_after` puts is taken by each call on boards as the position after the
/// move.
pub fn board_shows_its_position()
    ensures { BoardShowsItsPosition }
{}
