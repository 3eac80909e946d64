//! Questions to the tables of a handle.

ghost use Rattle.std.specs.Prelude.{◌≡◌, ◌≢◌, None, Some, length};
ghost use Rattle.hofsjurd_c.specs.declared.held.Held.{Held};
ghost use Rattle.probe_api.specs.Batches.{TellsBoards};
ghost use Rattle.probe_api.specs.Replies.{TellsBoard, TellsText, refused};
ghost use Rattle.probe_api.specs.Roots.{PutsRootOfBoard, PutsRootOfText};

use crate::handle::Handle;
use judge_core::Ask;
use probe_api::{
    Board, PlainRootMove, Question, Reply, answer_board, answer_boards, answer_text, root_of_board,
    root_of_text,
};
use std::alloc::Global;

/// What is asked of the position that a text spells, by the tables of the handle.
pub(crate) fn ask_text(alloc: Global, handle: &mut Handle, question: Question, text: &[u8]) -> Reply
    ensures closed { handle.old.seat.value ≡ None → result ≡ refused 1 }
    ensures is { (held : Held) → handle.old.seat.value ≡ Some held → TellsText question held.set.tables text.now result }
    ensures kept { handle.new.seat.value ≡ handle.old.seat.value }
{
    let Some(mut held) = handle.take(alloc) else {
        return Reply::refused(1);
    };
    let reply = answer_text(alloc, &mut held.set, question, text);
    *handle = Handle::open(held);
    reply
}

/// What is asked of the position that a board shows, by the tables of the handle.
pub(crate) fn ask_board(
    alloc: Global,
    handle: &mut Handle,
    question: Question,
    board: &Board,
) -> Reply
    ensures closed { handle.old.seat.value ≡ None → result ≡ refused 1 }
    ensures is { (held : Held) → handle.old.seat.value ≡ Some held → TellsBoard question held.set.tables board.now result }
    ensures kept { handle.new.seat.value ≡ handle.old.seat.value }
{
    let Some(mut held) = handle.take(alloc) else {
        return Reply::refused(1);
    };
    let reply = answer_board(alloc, &mut held.set, question, board);
    *handle = Handle::open(held);
    reply
}

/// What is asked of each board, by the tables of the handle.
pub(crate) fn ask_boards(
    alloc: Global,
    handle: &mut Handle,
    question: Question,
    boards: &[Board],
    replies: &mut [Reply],
) -> u32
    ensures closed { handle.old.seat.value ≡ None → result ≡ 1 }
    ensures is { (held : Held) → handle.old.seat.value ≡ Some held → result ≡ 0 → TellsBoards question held.set.tables boards.now replies.new }
    ensures lengths { (held : Held) → handle.old.seat.value ≡ Some held → length boards.now ≡ length replies.old → result ≡ 0 }
    ensures other { (held : Held) → handle.old.seat.value ≡ Some held → length boards.now ≢ length replies.old → result ≡ 82 }
    ensures refused { result ≢ 0 → replies.new ≡ replies.old }
    ensures kept { handle.new.seat.value ≡ handle.old.seat.value }
{
    let Some(mut held) = handle.take(alloc) else {
        return 1;
    };
    let status = answer_boards(alloc, &mut held.set, question, boards, replies);
    *handle = Handle::open(held);
    status
}

/// Puts the root moves of the position that a text spells into the room, by the tables of the handle.
pub(crate) fn ask_root_of_text(
    alloc: Global,
    handle: &mut Handle,
    ask: Ask,
    text: &[u8],
    room: &mut [PlainRootMove],
) -> Reply
    ensures closed { handle.old.seat.value ≡ None → (result ≡ refused 1) × (room.new ≡ room.old) }
    ensures is { (held : Held) → handle.old.seat.value ≡ Some held → PutsRootOfText ask held.set.tables text.now room.old result room.new }
    ensures kept { handle.new.seat.value ≡ handle.old.seat.value }
{
    let Some(mut held) = handle.take(alloc) else {
        return Reply::refused(1);
    };
    let reply = root_of_text(alloc, &mut held.set, ask, text, room);
    *handle = Handle::open(held);
    reply
}

/// Puts the root moves of the position that a board shows into the room, by the tables of the handle.
pub(crate) fn ask_root_of_board(
    alloc: Global,
    handle: &mut Handle,
    ask: Ask,
    board: &Board,
    room: &mut [PlainRootMove],
) -> Reply
    ensures closed { handle.old.seat.value ≡ None → (result ≡ refused 1) × (room.new ≡ room.old) }
    ensures is { (held : Held) → handle.old.seat.value ≡ Some held → PutsRootOfBoard ask held.set.tables board.now room.old result room.new }
    ensures kept { handle.new.seat.value ≡ handle.old.seat.value }
{
    let Some(mut held) = handle.take(alloc) else {
        return Reply::refused(1);
    };
    let reply = root_of_board(alloc, &mut held.set, ask, board, room);
    *handle = Handle::open(held);
    reply
}
