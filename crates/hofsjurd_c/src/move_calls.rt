//! Calls about the moves of a position: what each is worth, the board after one, and its text.

ghost use Rattle.std.specs.Prelude.{◌≡◌, None, Some};
ghost use Rattle.hofsjurd_c.specs.declared.held.Held.{Held};
ghost use Rattle.judge_core.specs.declared.ask.Ask.TheVariants.{Strict};
ghost use Rattle.probe_api.specs.Afters.{PutsBoardOfText, TellsAfter};
ghost use Rattle.probe_api.specs.Missing.{PutsDtzMissing, PutsMissing};
ghost use Rattle.probe_api.specs.Replies.{refused};
ghost use Rattle.probe_api.specs.Roots.{PutsRootOfBoard, PutsRootOfText, TellsState};
ghost use Rattle.probe_api.specs.Sans.{PutsSanOfText, TellsSanOfText};

use crate::asking::{ask_root_of_board, ask_root_of_text};
use crate::handle::Handle;
use judge_core::Ask;
use probe_api::{Board, PlainMove, PlainRootMove, Reply};
use std::alloc::Global;

/// Puts the legal moves of the position that a FEN text spells into the caller's room, the best first, with what each does and what
/// it is worth, and tells how many there are.
#[unsafe(no_mangle)]
pub extern "C" fn hofsjurd_root(
    alloc: Global,
    handle: &mut Handle,
    fen: &[u8],
    room: &mut [PlainRootMove],
) -> Reply
    ensures closed { handle.old.seat.value ≡ None → (result ≡ refused 1) × (room.new ≡ room.old) }
    ensures is { (held : Held) → handle.old.seat.value ≡ Some held → PutsRootOfText Strict held.set.tables fen.now room.old result room.new }
    ensures kept { handle.new.seat.value ≡ handle.old.seat.value }
{
    ask_root_of_text(alloc, handle, Ask::Strict, fen, room)
}

/// The legal moves of the position that a board shows, the best first.
#[unsafe(no_mangle)]
pub extern "C" fn hofsjurd_board_root(
    alloc: Global,
    handle: &mut Handle,
    board: &Board,
    room: &mut [PlainRootMove],
) -> Reply
    ensures closed { handle.old.seat.value ≡ None → (result ≡ refused 1) × (room.new ≡ room.old) }
    ensures is { (held : Held) → handle.old.seat.value ≡ Some held → PutsRootOfBoard Strict held.set.tables board.now room.old result room.new }
    ensures kept { handle.new.seat.value ≡ handle.old.seat.value }
{
    ask_root_of_board(alloc, handle, Ask::Strict, board, room)
}

/// Puts the board of the position that a FEN text spells into the caller's room. A text with a fault is refused, and the room stays as
/// it was.
#[unsafe(no_mangle)]
pub extern "C" fn hofsjurd_read_fen(fen: &[u8], room: &mut Board) -> u32
    ensures { PutsBoardOfText fen.now room.old result room.new }
{
    probe_api::put_board(fen, room)
}

/// Puts the board after a move into the caller's room. A move that isn't legal is refused, and the room stays as it was.
#[unsafe(no_mangle)]
pub extern "C" fn hofsjurd_board_after(board: &Board, m: &PlainMove, room: &mut Board) -> u32
    ensures { TellsAfter board.now m.now room.old result room.new }
{
    probe_api::board_after(board, *m, room)
}

/// How the position that a board shows stands for its side to move: 0 open, 1 check, 2 checkmate, 3 stalemate.
#[unsafe(no_mangle)]
pub extern "C" fn hofsjurd_board_state(board: &Board) -> Reply
    ensures { TellsState board.now result }
{
    probe_api::state_of_board(board)
}

/// Puts the text of a legal move of the position that a FEN text spells, in standard algebraic notation, as `Nf3` or `exd8=Q+`, and a
/// byte 0 after it into the caller's room, where both fit, and tells the length of the text; else how much room is needed.
#[unsafe(no_mangle)]
pub extern "C" fn hofsjurd_move_san(fen: &[u8], m: &PlainMove, room: &mut [u8]) -> Reply
    ensures { PutsSanOfText fen.now m.now room.old result room.new }
{
    probe_api::put_san(fen, *m, room)
}

/// Puts the move that a text in standard algebraic notation tells in the position of a FEN text into the caller's room. A text that is
/// none, or that no legal move or more than one is as it tells, is refused, and the room stays as it was.
#[unsafe(no_mangle)]
pub extern "C" fn hofsjurd_read_san(fen: &[u8], san: &[u8], room: &mut PlainMove) -> u32
    ensures { TellsSanOfText fen.now san.now room.old result room.new }
{
    probe_api::tell_san(fen, san, room)
}

/// Puts the name of the table that the WDL probe of a board misses, as `KQvK`, and a byte 0 after it into the caller's room, where both
/// fit, and tells the length of the name; the name is empty where the probe misses none, and nothing is told of a closed handle.
#[unsafe(no_mangle)]
pub extern "C" fn hofsjurd_board_missing(
    alloc: Global,
    handle: &mut Handle,
    board: &Board,
    room: &mut [u8],
) -> usize
    ensures closed { handle.old.seat.value ≡ None → (result ≡ 0) × (room.new ≡ room.old) }
    ensures is { (held : Held) → handle.old.seat.value ≡ Some held → PutsMissing held.set.tables board.now room.old result room.new }
    ensures kept { handle.new.seat.value ≡ handle.old.seat.value }
{
    let Some(mut held) = handle.take(alloc) else {
        return 0;
    };
    let length = probe_api::put_missing(alloc, &mut held.set, board, room);
    *handle = Handle::open(held);
    length
}

/// Puts the name of the material of which the DTZ probe of a board misses a table, its WDL table or its DTZ table, as `KQvK`, and a byte
/// 0 after it into the caller's room, where both fit; else as `hofsjurd_board_missing`.
#[unsafe(no_mangle)]
pub extern "C" fn hofsjurd_board_dtz_missing(
    alloc: Global,
    handle: &mut Handle,
    board: &Board,
    room: &mut [u8],
) -> usize
    ensures closed { handle.old.seat.value ≡ None → (result ≡ 0) × (room.new ≡ room.old) }
    ensures is { (held : Held) → handle.old.seat.value ≡ Some held → PutsDtzMissing held.set.tables board.now room.old result room.new }
    ensures kept { handle.new.seat.value ≡ handle.old.seat.value }
{
    let Some(mut held) = handle.take(alloc) else {
        return 0;
    };
    let length = probe_api::put_dtz_missing(alloc, &mut held.set, board, room);
    *handle = Handle::open(held);
    length
}
