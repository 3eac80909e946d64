//! Calls that tell a value as soon as it is known: a capture that wins ends them, whatever is missing or damaged elsewhere.

ghost use Rattle.std.specs.Prelude.{◌≡◌, ◌≢◌, None, Some, length};
ghost use Rattle.hofsjurd_c.specs.declared.held.Held.{Held};
ghost use Rattle.probe_api.specs.declared.asking.Question.TheVariants.{KnownWdl};
ghost use Rattle.probe_api.specs.Batches.{TellsBoards};
ghost use Rattle.probe_api.specs.Missing.{PutsKnownMissing};
ghost use Rattle.probe_api.specs.Replies.{TellsBoard, TellsText, refused};

use crate::asking::{ask_board, ask_boards, ask_text};
use crate::handle::Handle;
use probe_api::{Board, Question, Reply};
use std::alloc::Global;

/// The WDL value of the position that a FEN text spells, as soon as it is known.
#[unsafe(no_mangle)]
pub extern "C" fn hofsjurd_known_wdl(alloc: Global, handle: &mut Handle, fen: &[u8]) -> Reply
    ensures closed { handle.old.seat.value ≡ None → result ≡ refused 1 }
    ensures is { (held : Held) → handle.old.seat.value ≡ Some held → TellsText KnownWdl held.set.tables fen.now result }
    ensures kept { handle.new.seat.value ≡ handle.old.seat.value }
{
    ask_text(alloc, handle, Question::KnownWdl, fen)
}

/// The WDL value of the position that a board shows, as soon as it is known.
#[unsafe(no_mangle)]
pub extern "C" fn hofsjurd_board_known_wdl(
    alloc: Global,
    handle: &mut Handle,
    board: &Board,
) -> Reply
    ensures closed { handle.old.seat.value ≡ None → result ≡ refused 1 }
    ensures is { (held : Held) → handle.old.seat.value ≡ Some held → TellsBoard KnownWdl held.set.tables board.now result }
    ensures kept { handle.new.seat.value ≡ handle.old.seat.value }
{
    ask_board(alloc, handle, Question::KnownWdl, board)
}

/// These values of many boards, each reply in its board's place. The two lengths are to be equal.
#[unsafe(no_mangle)]
pub extern "C" fn hofsjurd_boards_known_wdl(
    alloc: Global,
    handle: &mut Handle,
    boards: &[Board],
    replies: &mut [Reply],
) -> u32
    ensures closed { handle.old.seat.value ≡ None → result ≡ 1 }
    ensures is { (held : Held) → handle.old.seat.value ≡ Some held → result ≡ 0 → TellsBoards KnownWdl held.set.tables boards.now replies.new }
    ensures lengths { (held : Held) → handle.old.seat.value ≡ Some held → length boards.now ≡ length replies.old → result ≡ 0 }
    ensures other { (held : Held) → handle.old.seat.value ≡ Some held → length boards.now ≢ length replies.old → result ≡ 82 }
    ensures refused { result ≢ 0 → replies.new ≡ replies.old }
    ensures kept { handle.new.seat.value ≡ handle.old.seat.value }
{
    ask_boards(alloc, handle, Question::KnownWdl, boards, replies)
}

/// Puts the name of the table that this value of a board misses, as `hofsjurd_board_missing` does for its WDL probe.
#[unsafe(no_mangle)]
pub extern "C" fn hofsjurd_board_known_missing(
    alloc: Global,
    handle: &mut Handle,
    board: &Board,
    room: &mut [u8],
) -> usize
    ensures closed { handle.old.seat.value ≡ None → (result ≡ 0) × (room.new ≡ room.old) }
    ensures is { (held : Held) → handle.old.seat.value ≡ Some held → PutsKnownMissing held.set.tables board.now room.old result room.new }
    ensures kept { handle.new.seat.value ≡ handle.old.seat.value }
{
    let Some(mut held) = handle.take(alloc) else {
        return 0;
    };
    let length = probe_api::put_known_missing(alloc, &mut held.set, board, room);
    *handle = Handle::open(held);
    length
}
