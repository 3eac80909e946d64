//! Legal moves with what each does and what it is worth, put into a caller's room.

ghost use Rattle.std.specs.Prelude.{◌≡◌, ◌≢◌, ◌<◌, ◌≤◌, ◌++◌, length, map, drop, slice_index_or};
ghost use Rattle.judge_core.specs.declared.root_move.RootMove.{RootMove};
ghost use Rattle.probe_api.specs.Roots.{ArePutFirst, PutsRoot, PutsRootOfBoard, PutsRootOfText, TellsState, effect_number, plain_root, state_number};

use crate::board::{Board, position_on};
use crate::plain_move::PlainMove;
use crate::reply::{Reply, fen_status, position_status, probed};
use board_core::Position;
use fen_text::read;
use judge_core::{Ask, BoardState, Effect, RootMove, Set};
use std::alloc::Global;

/// A legal move of a position with what it does and what it is worth to the side that makes it, as plain numbers.
#[repr(C)]
#[derive(Clone, Copy)]
pub struct PlainRootMove {
    /// The move.
    pub played: PlainMove,
    /// 0 it neither takes a man nor moves a pawn, 1 a pawn moves and takes nothing, 2 it takes a man, 3 en passant.
    pub effect: u8,
    /// How the position after it stands for the other side: 0 open, 1 check, 2 checkmate, 3 stalemate.
    pub state: u8,
    /// Its value, -2 to 2: that of the position after it, as the side that moved sees it. A mating move wins.
    pub wdl: Reply,
    /// Its distance from before the move in plies, above 0 where the side that moves wins. A mating move has 1. Any other capture
    /// or pawn move has 1, 101, 0, -101 or -1 by its value. Any other move is one ply further from 0 than the position after it.
    pub dtz: Reply,
}

fn effect_number(effect: Effect) -> u8
    ensures { result ≡ effect_number effect }
{
    match effect {
        Effect::Quiet => 0,
        Effect::PawnMove => 1,
        Effect::Capture => 2,
        Effect::EnPassant => 3,
    }
}

fn state_number(state: BoardState) -> u8
    ensures { result ≡ state_number state }
{
    match state {
        BoardState::Open => 0,
        BoardState::Check => 1,
        BoardState::Checkmate => 2,
        BoardState::Stalemate => 3,
    }
}

impl PlainRootMove {
    /// The numbers of a root move.
    fn of(m: &RootMove) -> PlainRootMove
        ensures { result ≡ plain_root m.now }
    {
        let answers = m.probed();
        PlainRootMove {
            played: PlainMove::of(&m.played),
            effect: effect_number(m.effect),
            state: state_number(m.state),
            wdl: probed(answers.wdl),
            dtz: probed(answers.dtz),
        }
    }
}

fn root_move_at(moves: &[RootMove], place: usize) -> &RootMove
    requires { place < length moves.now }
    ensures { (other : RootMove) → slice_index_or moves.now place other ≡ result.now }
{
    &moves[place]
}

/// Puts the numbers of each move in its place.
fn put_each(moves: &[RootMove], room: &mut [PlainRootMove])
    requires { length moves.now ≤ length room.old }
    ensures { room.new ≡ map plain_root moves.now ++ drop (length moves.now) room.old }
{
    for place in 0..moves.len() {
        let numbers = PlainRootMove::of(root_move_at(moves, place));
        room[place] = numbers;
    }
}

/// Puts the moves at the front of the room, where it has a place for each.
fn put_first(moves: &[RootMove], room: &mut [PlainRootMove]) -> Reply
    requires { length moves.now ≤ 65535 }
    ensures put { ArePutFirst moves.now room.old result room.new }
    ensures kept { result.status ≢ 0 → room.new ≡ room.old }
{
    let count = moves.len();
    if room.len() < count {
        return Reply::no_room(count as i32);
    }
    put_each(moves, room);
    Reply::ok(count as i32)
}

/// Puts the root moves at the front of the room.
fn put_root(
    alloc: Global,
    set: &mut Set<'_>,
    ask: Ask,
    position: &Position,
    room: &mut [PlainRootMove],
) -> Reply
    ensures is { PutsRoot ask set.old.tables position.now room.old result room.new }
    ensures kept { set.new ≡ set.old }
{
    match ask.root(alloc, set, position) {
        Ok(Some(moves)) => {
            if moves.len() <= 65535 {
                put_first(&moves, room)
            } else {
                Reply::refused(5)
            }
        }
        Ok(None) => Reply::refused(2),
        Err(_) => Reply::refused(5),
    }
}

/// Puts the legal moves of the position that a text spells at the front of the room, the best first, and tells how many there are.
///
/// A better value comes first; of one value the nearer win and the farther loss. A move whose table is missing or damaged has the
/// status of that; without a value it comes last, without a distance after those of its value. Where the room is too short nothing is
/// written, and the status is 83 with the number that is needed. The other statuses are the first fault of the text, 2 where the
/// position is out of scope, and 5 where memory for a list is refused. The set stays as it was but for its cache.
pub fn root_of_text(
    alloc: Global,
    set: &mut Set<'_>,
    ask: Ask,
    text: &[u8],
    room: &mut [PlainRootMove],
) -> Reply
    ensures is { PutsRootOfText ask set.old.tables text.now room.old result room.new }
    ensures kept { set.new ≡ set.old }
{
    match read(text) {
        Ok(position) => put_root(alloc, set, ask, &position, room),
        Err(fault) => Reply::refused(fen_status(fault)),
    }
}

/// The root moves of the position that a board shows, as `root_of_text` puts them; where it shows none, the status is the first fault
/// of what it shows.
pub fn root_of_board(
    alloc: Global,
    set: &mut Set<'_>,
    ask: Ask,
    board: &Board,
    room: &mut [PlainRootMove],
) -> Reply
    ensures is { PutsRootOfBoard ask set.old.tables board.now room.old result room.new }
    ensures kept { set.new ≡ set.old }
{
    match position_on(board) {
        Ok(position) => put_root(alloc, set, ask, &position, room),
        Err(fault) => Reply::refused(position_status(fault)),
    }
}

/// How the position that a board shows stands for its side to move: 0 open, 1 check, 2 checkmate, 3 stalemate. It needs no tables.
/// The status is the first fault of what the board shows.
pub fn state_of_board(board: &Board) -> Reply
    ensures { TellsState board.now result }
{
    match position_on(board) {
        Ok(position) => Reply::ok(i32::from(state_number(BoardState::of(&position)))),
        Err(fault) => Reply::refused(position_status(fault)),
    }
}
