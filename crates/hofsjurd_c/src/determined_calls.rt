//! Calls that answer where every table that is missing could only lead to one answer.

ghost use Rattle.std.specs.Prelude.{◌≡◌, None, Some};
ghost use Rattle.hofsjurd_c.specs.declared.held.Held.{Held};
ghost use Rattle.probe_api.specs.declared.asking.Question.TheVariants.{DeterminedWdl, DeterminedDtz};
ghost use Rattle.judge_core.specs.declared.ask.Ask.TheVariants.{Determined};
ghost use Rattle.probe_api.specs.Replies.{TellsBoard, TellsText, refused};
ghost use Rattle.probe_api.specs.Roots.{PutsRootOfBoard, PutsRootOfText};

use crate::asking::{ask_board, ask_root_of_board, ask_root_of_text, ask_text};
use crate::handle::Handle;
use judge_core::Ask;
use probe_api::{Board, PlainRootMove, Question, Reply};
use std::alloc::Global;

/// The WDL value of the position that a FEN text spells, where it is the same whatever the missing tables hold.
#[unsafe(no_mangle)]
pub extern "C" fn hofsjurd_determined_wdl(alloc: Global, handle: &mut Handle, fen: &[u8]) -> Reply
    ensures closed { handle.old.seat.value ≡ None → result ≡ refused 1 }
    ensures is { (held : Held) → handle.old.seat.value ≡ Some held → TellsText DeterminedWdl held.set.tables fen.now result }
    ensures kept { handle.new.seat.value ≡ handle.old.seat.value }
{
    ask_text(alloc, handle, Question::DeterminedWdl, fen)
}

/// The determined WDL value of the position that a board shows.
#[unsafe(no_mangle)]
pub extern "C" fn hofsjurd_board_determined_wdl(
    alloc: Global,
    handle: &mut Handle,
    board: &Board,
) -> Reply
    ensures closed { handle.old.seat.value ≡ None → result ≡ refused 1 }
    ensures is { (held : Held) → handle.old.seat.value ≡ Some held → TellsBoard DeterminedWdl held.set.tables board.now result }
    ensures kept { handle.new.seat.value ≡ handle.old.seat.value }
{
    ask_board(alloc, handle, Question::DeterminedWdl, board)
}

/// The DTZ value, in plies, of the position that a FEN text spells, where it is the same whatever the missing tables hold.
#[unsafe(no_mangle)]
pub extern "C" fn hofsjurd_determined_dtz(alloc: Global, handle: &mut Handle, fen: &[u8]) -> Reply
    ensures closed { handle.old.seat.value ≡ None → result ≡ refused 1 }
    ensures is { (held : Held) → handle.old.seat.value ≡ Some held → TellsText DeterminedDtz held.set.tables fen.now result }
    ensures kept { handle.new.seat.value ≡ handle.old.seat.value }
{
    ask_text(alloc, handle, Question::DeterminedDtz, fen)
}

/// The determined distance of the position that a board shows, in plies.
#[unsafe(no_mangle)]
pub extern "C" fn hofsjurd_board_determined_dtz(
    alloc: Global,
    handle: &mut Handle,
    board: &Board,
) -> Reply
    ensures closed { handle.old.seat.value ≡ None → result ≡ refused 1 }
    ensures is { (held : Held) → handle.old.seat.value ≡ Some held → TellsBoard DeterminedDtz held.set.tables board.now result }
    ensures kept { handle.new.seat.value ≡ handle.old.seat.value }
{
    ask_board(alloc, handle, Question::DeterminedDtz, board)
}

/// Puts the legal moves of the position that a FEN text spells into the caller's room, the best first, with what each does and
/// what it is worth whatever the missing tables hold, and tells how many there are.
#[unsafe(no_mangle)]
pub extern "C" fn hofsjurd_determined_root(
    alloc: Global,
    handle: &mut Handle,
    fen: &[u8],
    room: &mut [PlainRootMove],
) -> Reply
    ensures closed { handle.old.seat.value ≡ None → (result ≡ refused 1) × (room.new ≡ room.old) }
    ensures is { (held : Held) → handle.old.seat.value ≡ Some held → PutsRootOfText Determined held.set.tables fen.now room.old result room.new }
    ensures kept { handle.new.seat.value ≡ handle.old.seat.value }
{
    ask_root_of_text(alloc, handle, Ask::Determined, fen, room)
}

/// The legal moves of the position that a board shows, by determined values, the best first.
#[unsafe(no_mangle)]
pub extern "C" fn hofsjurd_board_determined_root(
    alloc: Global,
    handle: &mut Handle,
    board: &Board,
    room: &mut [PlainRootMove],
) -> Reply
    ensures closed { handle.old.seat.value ≡ None → (result ≡ refused 1) × (room.new ≡ room.old) }
    ensures is { (held : Held) → handle.old.seat.value ≡ Some held → PutsRootOfBoard Determined held.set.tables board.now room.old result room.new }
    ensures kept { handle.new.seat.value ≡ handle.old.seat.value }
{
    ask_root_of_board(alloc, handle, Ask::Determined, board, room)
}
