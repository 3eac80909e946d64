//! The tables for programs in C: a static library over `probe_api`, with the header `include/hofsjurd.h`.
//!
//! What C passes goes in: handles, pointers with lengths, numbers. A status and a value come out, and what is written into the caller's
//! room. Each export takes what the handle owns out, calls one function of `probe_api`, and puts it back. A caller keeps a handle for a
//! set of tables, and one for each game that it tells move by move. The header says what the caller owes; `docs/C_LIBRARY.md` is the
//! guide, "What is proved" there has the exports one by one. `tools/build_c` builds the library, and `contrib/` has C files over it. No
//! call is undefined for any bytes and numbers, and each returns, given what the caller owes.
//!
//! Inside: `handle`, `game_handle` and `held` (what they own), `owned_pointer`, `owned_game` (a pointer as C keeps it), `raw_box` (a box
//! as its pointer), `asking`, `move_calls`, `known_calls`, `determined_calls`, `holding_calls`, `sharing` (a second handle with the tables of a first;
//! that handles may pass to another thread), `call_tests` (each export called once). This is the only crate with `extern` functions and
//! unsafe code.
//!
//! Definitions, in reading order: `Beginning`, `Owned` (which box a handle's pointer owns). It is tried by `tools/c_harness/run`: values
//! beside libfathom's, cut and changed files, each allocation refused in turn.
//!
//! - CLAIM: `hofsjurd_open`, clauses `opened`, `refused`, `memory`; `hofsjurd_close`; `hofsjurd_game_end`: a handle holds one set
//!   of tables or none, a game's handle one game or none. Closing leaves it empty, and opening replaces what it held; that this
//!   is freed is no clause.
//! - CLAIM: `hofsjurd_add`, clauses `closed`, `is`, `open`; `hofsjurd_wdl`, clauses `closed`, `is`, `kept`;
//!   `hofsjurd_boards_wdl`, clauses `lengths`, `refused`: these exports, and the others as `docs/C_LIBRARY.md` lists them, answer
//!   as `probe_api` does for what the handle holds. A closed handle is status 1, no game status 6 (for `hofsjurd_game_fen` the
//!   length 0). A probe leaves the handle as it was.
//! - CLAIM: `hofsjurd_add`, clause `memory`; `hofsjurd_game_begin`, clause `memory`: refused memory, status 5, is told of a file only
//!   where its name, size, magic and flags are good, and of a game only where it can begin. `hofsjurd_open` and `hofsjurd_share` tell
//!   it without a cause, since `Set::new` and `Set::share` below them have none.
//! - CLAIM: `hofsjurd_game_begin`, clause `is`; `hofsjurd_game_move`, clauses `no_game`, `closed`, `is`, `open`, `kept`;
//!   `hofsjurd_game_move_text`, clauses `no_game`, `closed`, `is`, `open`, `kept`: after a move a game's handle holds the game
//!   after it, or the same game where the status isn't 0.
#![tactic(auto)]

ghost use Rattle.std.specs.Prelude.{◌≡◌, ◌≢◌, ◌<◌, ◌≤◌, None, Some, IsOk, length, replicate, pos};
ghost use Rattle.judge_core.specs.Tables.{Holding};
ghost use Rattle.fen_text.specs.Written.{fen_of};
ghost use Rattle.table_file.specs.Tables.{head_at};
ghost use Rattle.probe_api.specs.declared.asking.Question.TheVariants.{Wdl, Dtz, Verdict};
ghost use Rattle.probe_api.specs.Adding.{Adds};
ghost use Rattle.probe_api.specs.Batches.{TellsBoards};
ghost use Rattle.probe_api.specs.Moves.{PutsMovesOfBoard, PutsMovesOfText};
ghost use Rattle.probe_api.specs.Names.{numbered_verdict_name, status_name};
ghost use Rattle.probe_api.specs.Plays.{TellsMoveNumbers, TellsMoveText};
ghost use Rattle.probe_api.specs.Replies.{TellsBoard, TellsText, refused, told, verdict_number};
ghost use Rattle.probe_api.specs.Texts.{PutsText};
ghost use Rattle.probe_api.specs.Version.{version};
ghost use Rattle.hofsjurd_c.specs.declared.held.Held.{Held};
ghost use Rattle.hofsjurd_c.specs.declared.held.HeldGame.{HeldGame};
ghost use Rattle.hofsjurd_c.specs.Beginning.{BeginsIn, CanBegin, WhereOpen};

mod asking;
#[cfg(test)]
mod call_tests;
mod determined_calls;
mod game_handle;
mod handle;
mod held;
mod holding_calls;
mod known_calls;
mod move_calls;
mod owned_game;
mod owned_pointer;
mod raw_box;
mod sharing;

use asking::{ask_board, ask_boards, ask_text};
pub use game_handle::GameHandle;
pub use handle::Handle;
use held::{Held, HeldGame};
use judge_core::Set;
use probe_api::{Board, PlainMove, Question, Reply};
use std::alloc::Global;

/// Begins a game in a closed handle, and tells its first verdict.
#[tactic(auto, using(crate::proofs::Begun::from_game, crate::proofs::Begun::from_refusal))]
fn begin_in(
    alloc: Global,
    game: &mut GameHandle,
    set: &mut Set<'static>,
    fen: &[u8],
    delay: u8,
) -> Reply
    requires { game.old.seat.value ≡ None }
    ensures is { BeginsIn set.old.tables fen.now delay result game.new.seat.value }
    ensures memory { result ≡ refused 5 → CanBegin fen.now delay }
    ensures kept { set.new ≡ set.old }
{
    let begun = match probe_api::begin_game(alloc, set, fen, delay) {
        Ok(begun) => begun,
        Err(status) => return Reply::refused(status),
    };
    let reply = begun.verdict();
    let Ok(held) = Box::new(alloc, HeldGame { game: begun }) else {
        return Reply::refused(5);
    };
    *game = GameHandle::open(held);
    reply
}

/// Makes the handle hold a set without tables, with a cache of so many decoded blocks, 1 to 4096. What it held is freed.
#[unsafe(no_mangle)]
pub extern "C" fn hofsjurd_open(alloc: Global, handle: &mut Handle, cache: usize) -> u32
    ensures opened { result ≡ 0 → handle.new.seat.value ≡ Some (record { set = record { tables = replicate 290 None; cache = cache } }) }
    ensures refused { result ≢ 0 → handle.new.seat.value ≡ None }
    ensures memory { 1 ≤ cache → cache ≤ 4096 → result ≢ 0 → result ≡ 5 }
    ensures small { cache < 1 → result ≡ 81 }
    ensures great { 4096 < cache → result ≡ 81 }
{
    let _old = handle.take(alloc);
    if cache < 1 || 4096 < cache {
        return 81;
    }
    let Ok(set) = Set::new(alloc, cache) else {
        return 5;
    };
    let Ok(held) = Box::new(alloc, Held { set }) else {
        return 5;
    };
    *handle = Handle::open(held);
    0
}

/// Adds the table that a file is, by its name and its bytes. One that is refused leaves all as it was.
#[unsafe(no_mangle)]
pub extern "C" fn hofsjurd_add(
    alloc: Global,
    handle: &mut Handle,
    name: &[u8],
    bytes: &'static [u8],
) -> u32
    ensures closed { handle.old.seat.value ≡ None → (result ≡ 1) × (handle.new.seat.value ≡ None) }
    ensures is { (old : Held) → handle.old.seat.value ≡ Some old → (new : Held) → handle.new.seat.value ≡ Some new → Adds name.now bytes.now old.set result new.set }
    ensures open { (old : Held) → handle.old.seat.value ≡ Some old → handle.new.seat.value ≢ None }
    ensures memory { result ≡ 5 → IsOk (head_at name.now bytes.now) }
{
    let Some(mut held) = handle.take(alloc) else {
        return 1;
    };
    let status = probe_api::add(alloc, &mut held.set, name, bytes);
    *handle = Handle::open(held);
    status
}

/// The WDL value of the position that a FEN text spells.
#[unsafe(no_mangle)]
pub extern "C" fn hofsjurd_wdl(alloc: Global, handle: &mut Handle, fen: &[u8]) -> Reply
    ensures closed { handle.old.seat.value ≡ None → result ≡ refused 1 }
    ensures is { (held : Held) → handle.old.seat.value ≡ Some held → TellsText Wdl held.set.tables fen.now result }
    ensures kept { handle.new.seat.value ≡ handle.old.seat.value }
{
    ask_text(alloc, handle, Question::Wdl, fen)
}

/// The DTZ value, in plies, of the position that a FEN text spells.
#[unsafe(no_mangle)]
pub extern "C" fn hofsjurd_dtz(alloc: Global, handle: &mut Handle, fen: &[u8]) -> Reply
    ensures closed { handle.old.seat.value ≡ None → result ≡ refused 1 }
    ensures is { (held : Held) → handle.old.seat.value ≡ Some held → TellsText Dtz held.set.tables fen.now result }
    ensures kept { handle.new.seat.value ≡ handle.old.seat.value }
{
    ask_text(alloc, handle, Question::Dtz, fen)
}

/// The verdict on the position that a FEN text spells, by its number, 1 to 7; 0 where the game goes on.
#[unsafe(no_mangle)]
pub extern "C" fn hofsjurd_judge(alloc: Global, handle: &mut Handle, fen: &[u8]) -> Reply
    ensures closed { handle.old.seat.value ≡ None → result ≡ refused 1 }
    ensures is { (held : Held) → handle.old.seat.value ≡ Some held → TellsText Verdict held.set.tables fen.now result }
    ensures kept { handle.new.seat.value ≡ handle.old.seat.value }
{
    ask_text(alloc, handle, Question::Verdict, fen)
}

/// The WDL value of the position that a board shows.
#[unsafe(no_mangle)]
pub extern "C" fn hofsjurd_board_wdl(alloc: Global, handle: &mut Handle, board: &Board) -> Reply
    ensures closed { handle.old.seat.value ≡ None → result ≡ refused 1 }
    ensures is { (held : Held) → handle.old.seat.value ≡ Some held → TellsBoard Wdl held.set.tables board.now result }
    ensures kept { handle.new.seat.value ≡ handle.old.seat.value }
{
    ask_board(alloc, handle, Question::Wdl, board)
}

/// The DTZ value, in plies, of the position that a board shows.
#[unsafe(no_mangle)]
pub extern "C" fn hofsjurd_board_dtz(alloc: Global, handle: &mut Handle, board: &Board) -> Reply
    ensures closed { handle.old.seat.value ≡ None → result ≡ refused 1 }
    ensures is { (held : Held) → handle.old.seat.value ≡ Some held → TellsBoard Dtz held.set.tables board.now result }
    ensures kept { handle.new.seat.value ≡ handle.old.seat.value }
{
    ask_board(alloc, handle, Question::Dtz, board)
}

/// The verdict on the position that a board shows.
#[unsafe(no_mangle)]
pub extern "C" fn hofsjurd_board_judge(alloc: Global, handle: &mut Handle, board: &Board) -> Reply
    ensures closed { handle.old.seat.value ≡ None → result ≡ refused 1 }
    ensures is { (held : Held) → handle.old.seat.value ≡ Some held → TellsBoard Verdict held.set.tables board.now result }
    ensures kept { handle.new.seat.value ≡ handle.old.seat.value }
{
    ask_board(alloc, handle, Question::Verdict, board)
}

/// The WDL values of many boards, each reply in its board's place. The two lengths are to be equal.
#[unsafe(no_mangle)]
pub extern "C" fn hofsjurd_boards_wdl(
    alloc: Global,
    handle: &mut Handle,
    boards: &[Board],
    replies: &mut [Reply],
) -> u32
    ensures closed { handle.old.seat.value ≡ None → result ≡ 1 }
    ensures is { (held : Held) → handle.old.seat.value ≡ Some held → result ≡ 0 → TellsBoards Wdl held.set.tables boards.now replies.new }
    ensures lengths { (held : Held) → handle.old.seat.value ≡ Some held → length boards.now ≡ length replies.old → result ≡ 0 }
    ensures other { (held : Held) → handle.old.seat.value ≡ Some held → length boards.now ≢ length replies.old → result ≡ 82 }
    ensures refused { result ≢ 0 → replies.new ≡ replies.old }
    ensures kept { handle.new.seat.value ≡ handle.old.seat.value }
{
    ask_boards(alloc, handle, Question::Wdl, boards, replies)
}

/// The DTZ values of many boards, each reply in its board's place. The two lengths are to be equal.
#[unsafe(no_mangle)]
pub extern "C" fn hofsjurd_boards_dtz(
    alloc: Global,
    handle: &mut Handle,
    boards: &[Board],
    replies: &mut [Reply],
) -> u32
    ensures closed { handle.old.seat.value ≡ None → result ≡ 1 }
    ensures is { (held : Held) → handle.old.seat.value ≡ Some held → result ≡ 0 → TellsBoards Dtz held.set.tables boards.now replies.new }
    ensures lengths { (held : Held) → handle.old.seat.value ≡ Some held → length boards.now ≡ length replies.old → result ≡ 0 }
    ensures other { (held : Held) → handle.old.seat.value ≡ Some held → length boards.now ≢ length replies.old → result ≡ 82 }
    ensures refused { result ≢ 0 → replies.new ≡ replies.old }
    ensures kept { handle.new.seat.value ≡ handle.old.seat.value }
{
    ask_boards(alloc, handle, Question::Dtz, boards, replies)
}

/// The verdicts on many boards, each reply in its board's place. The two lengths are to be equal.
#[unsafe(no_mangle)]
pub extern "C" fn hofsjurd_boards_judge(
    alloc: Global,
    handle: &mut Handle,
    boards: &[Board],
    replies: &mut [Reply],
) -> u32
    ensures closed { handle.old.seat.value ≡ None → result ≡ 1 }
    ensures is { (held : Held) → handle.old.seat.value ≡ Some held → result ≡ 0 → TellsBoards Verdict held.set.tables boards.now replies.new }
    ensures lengths { (held : Held) → handle.old.seat.value ≡ Some held → length boards.now ≡ length replies.old → result ≡ 0 }
    ensures other { (held : Held) → handle.old.seat.value ≡ Some held → length boards.now ≢ length replies.old → result ≡ 82 }
    ensures refused { result ≢ 0 → replies.new ≡ replies.old }
    ensures kept { handle.new.seat.value ≡ handle.old.seat.value }
{
    ask_boards(alloc, handle, Question::Verdict, boards, replies)
}

/// Closes the handle, and frees what it holds. A closed one stays closed.
#[unsafe(no_mangle)]
pub extern "C" fn hofsjurd_close(alloc: Global, handle: &mut Handle)
    ensures { handle.new.seat.value ≡ None }
{
    let _held = handle.take(alloc);
}

/// Puts the legal moves of the position that a FEN text spells into the caller's room, in order of from, to and promotion, and
/// tells how many there are.
#[unsafe(no_mangle)]
pub extern "C" fn hofsjurd_moves(alloc: Global, fen: &[u8], room: &mut [PlainMove]) -> Reply
    ensures { PutsMovesOfText fen.now room.old result room.new }
{
    probe_api::moves_of_text(alloc, fen, room)
}

/// Writes the legal moves of the position that a board shows.
#[unsafe(no_mangle)]
pub extern "C" fn hofsjurd_board_moves(
    alloc: Global,
    board: &Board,
    room: &mut [PlainMove],
) -> Reply
    ensures { PutsMovesOfBoard board.now room.old result room.new }
{
    probe_api::moves_of_board(alloc, board, room)
}

/// Begins a game at the position that a FEN text spells, and tells its first verdict there. What the game's handle held is freed.
#[unsafe(no_mangle)]
pub extern "C" fn hofsjurd_game_begin(
    alloc: Global,
    game: &mut GameHandle,
    handle: &mut Handle,
    fen: &[u8],
    delay: u8,
) -> Reply
    ensures closed { handle.old.seat.value ≡ None → (result ≡ refused 1) × (game.new.seat.value ≡ None) }
    ensures is { (held : Held) → handle.old.seat.value ≡ Some held → BeginsIn held.set.tables fen.now delay result game.new.seat.value }
    ensures memory { result ≡ refused 5 → CanBegin fen.now delay }
    ensures kept { handle.new.seat.value ≡ handle.old.seat.value }
{
    let _old = game.take(alloc);
    let Some(mut held) = handle.take(alloc) else {
        return Reply::refused(1);
    };
    let reply = begin_in(alloc, game, &mut held.set, fen, delay);
    *handle = Handle::open(held);
    reply
}

/// Tells a game its next move as text, in coordinates, and answers its first verdict so far.
#[unsafe(no_mangle)]
pub extern "C" fn hofsjurd_game_move_text(
    alloc: Global,
    game: &mut GameHandle,
    handle: &mut Handle,
    text: &[u8],
) -> Reply
    ensures no_game { game.old.seat.value ≡ None → (result ≡ refused 6) × (game.new.seat.value ≡ None) }
    ensures closed { (old : HeldGame) → game.old.seat.value ≡ Some old → handle.old.seat.value ≡ None → (result ≡ refused 1) × (game.new.seat.value ≡ Some old) }
    ensures is { WhereOpen game.old.seat.value game.new.seat.value handle.old.seat.value (λ old new h. TellsMoveText h.set.tables text.now old.game result new.game) }
    ensures open { (old : HeldGame) → game.old.seat.value ≡ Some old → game.new.seat.value ≢ None }
    ensures kept { handle.new.seat.value ≡ handle.old.seat.value }
{
    let Some(mut played) = game.take(alloc) else {
        return Reply::refused(6);
    };
    let Some(mut held) = handle.take(alloc) else {
        *game = GameHandle::open(played);
        return Reply::refused(1);
    };
    let reply = probe_api::tell_text(alloc, &mut held.set, &mut played.game, text);
    *game = GameHandle::open(played);
    *handle = Handle::open(held);
    reply
}

/// Tells a game its next move as numbers, and answers its first verdict so far.
#[unsafe(no_mangle)]
pub extern "C" fn hofsjurd_game_move(
    alloc: Global,
    game: &mut GameHandle,
    handle: &mut Handle,
    m: &PlainMove,
) -> Reply
    ensures no_game { game.old.seat.value ≡ None → (result ≡ refused 6) × (game.new.seat.value ≡ None) }
    ensures closed { (old : HeldGame) → game.old.seat.value ≡ Some old → handle.old.seat.value ≡ None → (result ≡ refused 1) × (game.new.seat.value ≡ Some old) }
    ensures is { WhereOpen game.old.seat.value game.new.seat.value handle.old.seat.value (λ old new h. TellsMoveNumbers h.set.tables m.now old.game result new.game) }
    ensures open { (old : HeldGame) → game.old.seat.value ≡ Some old → game.new.seat.value ≢ None }
    ensures kept { handle.new.seat.value ≡ handle.old.seat.value }
{
    let Some(mut played) = game.take(alloc) else {
        return Reply::refused(6);
    };
    let Some(mut held) = handle.take(alloc) else {
        *game = GameHandle::open(played);
        return Reply::refused(1);
    };
    let reply = probe_api::tell_numbers(alloc, &mut held.set, &mut played.game, *m);
    *game = GameHandle::open(played);
    *handle = Handle::open(held);
    reply
}

/// The number of a game's first verdict so far, 0 where it goes on.
#[unsafe(no_mangle)]
pub extern "C" fn hofsjurd_game_verdict(alloc: Global, game: &mut GameHandle) -> Reply
    ensures no_game { game.old.seat.value ≡ None → result ≡ refused 6 }
    ensures is { (old : HeldGame) → game.old.seat.value ≡ Some old → result ≡ told (pos (verdict_number old.game.verdict)) }
    ensures kept { game.new.seat.value ≡ game.old.seat.value }
{
    let Some(played) = game.take(alloc) else {
        return Reply::refused(6);
    };
    let reply = played.game.verdict();
    *game = GameHandle::open(played);
    reply
}

/// Puts the FEN text of the position that a game has reached, and a byte 0 after it, into the caller's room, where both fit. It
/// tells the length of the text, 0 where there is no game.
#[unsafe(no_mangle)]
pub extern "C" fn hofsjurd_game_fen(alloc: Global, game: &mut GameHandle, room: &mut [u8]) -> usize
    ensures no_game { game.old.seat.value ≡ None → (result ≡ 0) × (room.new ≡ room.old) }
    ensures is { (old : HeldGame) → game.old.seat.value ≡ Some old → PutsText (fen_of old.game.standing.position) room.old result room.new }
    ensures kept { game.new.seat.value ≡ game.old.seat.value }
{
    let Some(played) = game.take(alloc) else {
        return 0;
    };
    let length = played.game.put_fen(room);
    *game = GameHandle::open(played);
    length
}

/// Ends a game, and frees what its handle holds. A closed one stays closed.
#[unsafe(no_mangle)]
pub extern "C" fn hofsjurd_game_end(alloc: Global, game: &mut GameHandle)
    ensures { game.new.seat.value ≡ None }
{
    let _played = game.take(alloc);
}

/// Puts the name of a status and a byte 0 after it into the caller's room, where both fit, and tells the length of the name. A
/// status that this library doesn't tell has the empty name.
#[unsafe(no_mangle)]
pub extern "C" fn hofsjurd_status_name(status: u32, room: &mut [u8]) -> usize
    ensures { PutsText (status_name status) room.old result room.new }
{
    probe_api::put_text(probe_api::status_name(status).as_bytes(), room)
}

/// Writes the name of a verdict by its number, 1 to 7, and `open` for 0.
#[unsafe(no_mangle)]
pub extern "C" fn hofsjurd_verdict_name(number: u32, room: &mut [u8]) -> usize
    ensures { PutsText (numbered_verdict_name number) room.old result room.new }
{
    probe_api::put_text(probe_api::verdict_name(number).as_bytes(), room)
}

/// Writes the library's name and version.
#[unsafe(no_mangle)]
pub extern "C" fn hofsjurd_version(room: &mut [u8]) -> usize
    ensures { PutsText version room.old result room.new }
{
    probe_api::put_text(probe_api::version().as_bytes(), room)
}
