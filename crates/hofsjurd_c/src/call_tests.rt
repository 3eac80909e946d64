//! Each export is called once as C calls it, over two forged tables of a queen against a bare king.

use super::*;
use crate::determined_calls::*;
use crate::holding_calls::{hofsjurd_has, hofsjurd_largest};
use crate::known_calls::*;
use crate::move_calls::*;
use crate::sharing::hofsjurd_share;
use probe_api::PlainRootMove;
use std::process::Abort;

/// A table file with single values: a win for the queen, a loss for the other side.
static QUEEN: [u8; 80] = [
    0x71, 0xE8, 0x23, 0x5D, 0x01, 0x00, 0x66, 0x55, 0xEE, 0x00, 0x80, 0x04, 0x80, 0x00, 0, 0, 0, 0,
    0, 0, 0, 0, 0, 0, 0, 0, 0, 0, 0, 0, 0, 0, 0, 0, 0, 0, 0, 0, 0, 0, 0, 0, 0, 0, 0, 0, 0, 0, 0, 0,
    0, 0, 0, 0, 0, 0, 0, 0, 0, 0, 0, 0, 0, 0, 0, 0, 0, 0, 0, 0, 0, 0, 0, 0, 0, 0, 0, 0, 0, 0,
];

/// One of distances: a queen wins in ten plies.
static QUEEN_PLIES: [u8; 80] = [
    0xD7, 0x66, 0x0C, 0xA5, 0x01, 0x00, 0x06, 0x05, 0x0E, 0x00, 0x86, 0x00, 0x01, 0x09, 0x00, 0x00,
    0x00, 0, 0, 0, 0, 0, 0, 0, 0, 0, 0, 0, 0, 0, 0, 0, 0, 0, 0, 0, 0, 0, 0, 0, 0, 0, 0, 0, 0, 0, 0,
    0, 0, 0, 0, 0, 0, 0, 0, 0, 0, 0, 0, 0, 0, 0, 0, 0, 0, 0, 0, 0, 0, 0, 0, 0, 0, 0, 0, 0, 0, 0, 0,
    0,
];

/// The queen mates on b8.
const MATE: &[u8] = b"7k/8/6K1/8/8/8/8/1Q6 w - - 0 1";

/// That position.
const MATE_BOARD: Board = Board {
    white: 0x4000_0000_0002,
    black: 0x8000_0000_0000_0000,
    kings: 0x8000_4000_0000_0000,
    queens: 2,
    rooks: 0,
    bishops: 0,
    knights: 0,
    pawns: 0,
    halfmove: 0,
    fullmove: 1,
    side: 0,
    rights: 0,
    passed: 64,
};

/// The queen takes the knight, which wins whatever the missing table holds.
const TAKES: &[u8] = b"8/7n/8/4k3/8/8/K7/1Q6 w - - 0 1";

/// That position.
const TAKES_BOARD: Board = Board {
    white: 0x102,
    black: 0x80_0010_0000_0000,
    kings: 0x10_0000_0100,
    knights: 0x80_0000_0000_0000,
    ..MATE_BOARD
};

/// These men where none can take another.
const QUIET: &[u8] = b"8/7n/8/4k3/8/8/K7/2Q5 w - - 0 1";

/// That position.
const QUIET_BOARD: Board = Board {
    white: 0x104,
    queens: 4,
    ..TAKES_BOARD
};

const NO_MOVE: PlainMove = PlainMove {
    from: 0,
    to: 0,
    promotion: 0,
};

const NO_REPLY: Reply = Reply {
    status: 0,
    value: 0,
};

const NO_ROOT_MOVE: PlainRootMove = PlainRootMove {
    played: NO_MOVE,
    effect: 0,
    state: 0,
    wdl: NO_REPLY,
    dtz: NO_REPLY,
};

/// A status and a value are those that were wanted.
fn check(rt: &impl Abort, told: Reply, status: u32, value: i32, call: &str) {
    assert_eq!(rt; (told.status, told.value), (status, value), "{call}");
}

fn check_status(rt: &impl Abort, told: u32, wanted: u32, call: &str) {
    assert_eq!(rt; told, wanted, "{call}");
}

/// A text of this length was put into a room, with a byte 0 after it.
fn check_text(rt: &impl Abort, length: usize, room: &[u8], wanted: &[u8], call: &str) {
    assert_eq!(rt; room.get(..length), Some(wanted), "{call}");
    assert_eq!(rt; room.get(length), Some(&0), "{call}");
}

/// A handle with the queen's tables.
fn open_handle(rt: &impl Abort, alloc: Global) -> Handle {
    let mut handle = Handle::closed(alloc);
    check_status(rt, hofsjurd_open(alloc, &mut handle, 1), 0, "open");
    let added = hofsjurd_add(alloc, &mut handle, b"KQvK.rtbw", &QUEEN);
    check_status(rt, added, 0, "add");
    let added = hofsjurd_add(alloc, &mut handle, b"KQvK.rtbz", &QUEEN_PLIES);
    check_status(rt, added, 0, "add");
    handle
}

/// The queen wins, in ten plies by her table, whatever she mates with.
fn check_texts(rt: &impl Abort, alloc: Global, handle: &mut Handle) {
    check(rt, hofsjurd_wdl(alloc, handle, MATE), 0, 2, "wdl");
    check(rt, hofsjurd_dtz(alloc, handle, MATE), 0, 10, "dtz");
    check(rt, hofsjurd_judge(alloc, handle, MATE), 0, 5, "judge");
}

fn check_board(rt: &impl Abort, alloc: Global, handle: &mut Handle) {
    let told = hofsjurd_board_wdl(alloc, handle, &MATE_BOARD);
    check(rt, told, 0, 2, "board_wdl");
    let told = hofsjurd_board_dtz(alloc, handle, &MATE_BOARD);
    check(rt, told, 0, 10, "board_dtz");
    let told = hofsjurd_board_judge(alloc, handle, &MATE_BOARD);
    check(rt, told, 0, 5, "board_judge");
}

/// Of two boards of which the second misses its table.
const BOARDS: [Board; 2] = [MATE_BOARD, TAKES_BOARD];

fn check_replies(rt: &impl Abort, status: u32, replies: &[Reply; 2], wanted: [(u32, i32); 2]) {
    check_status(rt, status, 0, "boards");
    check(rt, replies[0], wanted[0].0, wanted[0].1, "the first board");
    check(rt, replies[1], wanted[1].0, wanted[1].1, "the second board");
}

fn check_boards(rt: &impl Abort, alloc: Global, handle: &mut Handle) {
    let mut replies = [NO_REPLY; 2];
    let status = hofsjurd_boards_wdl(alloc, handle, &BOARDS, &mut replies);
    check_replies(rt, status, &replies, [(0, 2), (3, 0)]);
    let status = hofsjurd_boards_dtz(alloc, handle, &BOARDS, &mut replies);
    check_replies(rt, status, &replies, [(0, 10), (3, 0)]);
    let status = hofsjurd_boards_judge(alloc, handle, &BOARDS, &mut replies);
    check_replies(rt, status, &replies, [(0, 5), (0, 0)]);
}

/// The queen takes the knight, which wins though the table of both is missing.
fn check_known(rt: &impl Abort, alloc: Global, handle: &mut Handle) {
    let told = hofsjurd_known_wdl(alloc, handle, TAKES);
    check(rt, told, 0, 2, "known_wdl");
    let told = hofsjurd_board_known_wdl(alloc, handle, &TAKES_BOARD);
    check(rt, told, 0, 2, "board_known_wdl");
    let mut replies = [NO_REPLY; 2];
    let status = hofsjurd_boards_known_wdl(alloc, handle, &BOARDS, &mut replies);
    check_replies(rt, status, &replies, [(0, 2), (0, 2)]);
    let mut room = [1u8; 8];
    let length = hofsjurd_board_known_missing(alloc, handle, &TAKES_BOARD, &mut room);
    check_text(rt, length, &room, b"", "board_known_missing");
}

/// Where no capture wins, the missing table is told.
fn check_unknown(rt: &impl Abort, alloc: Global, handle: &mut Handle) {
    let told = hofsjurd_known_wdl(alloc, handle, QUIET);
    check(rt, told, 3, 0, "known_wdl");
    let told = hofsjurd_board_known_wdl(alloc, handle, &QUIET_BOARD);
    check(rt, told, 3, 0, "board_known_wdl");
    let mut room = [1u8; 8];
    let length = hofsjurd_board_known_missing(alloc, handle, &QUIET_BOARD, &mut room);
    check_text(rt, length, &room, b"KQvKN", "board_known_missing");
}

fn check_determined(rt: &impl Abort, alloc: Global, handle: &mut Handle) {
    let told = hofsjurd_determined_wdl(alloc, handle, TAKES);
    check(rt, told, 0, 2, "determined_wdl");
    let told = hofsjurd_determined_dtz(alloc, handle, TAKES);
    check(rt, told, 0, 1, "determined_dtz");
}

fn check_board_determined(rt: &impl Abort, alloc: Global, handle: &mut Handle) {
    let told = hofsjurd_board_determined_wdl(alloc, handle, &TAKES_BOARD);
    check(rt, told, 0, 2, "board_determined_wdl");
    let told = hofsjurd_board_determined_dtz(alloc, handle, &TAKES_BOARD);
    check(rt, told, 0, 1, "board_determined_dtz");
}

/// The first of so many root moves goes there and wins in one ply.
fn check_first(rt: &impl Abort, told: Reply, count: i32, first: PlainRootMove, to: u8, call: &str) {
    check(rt, told, 0, count, call);
    check(rt, first.wdl, 0, 2, call);
    check(rt, first.dtz, 0, 1, call);
    assert_eq!(rt; (first.played.from, first.played.to), (1, to), "{call}");
}

fn check_root(rt: &impl Abort, alloc: Global, handle: &mut Handle) {
    let mut room = [NO_ROOT_MOVE; 32];
    let told = hofsjurd_root(alloc, handle, MATE, &mut room);
    check_first(rt, told, 25, room[0], 57, "root");
    let told = hofsjurd_board_root(alloc, handle, &MATE_BOARD, &mut room);
    check_first(rt, told, 25, room[0], 57, "board_root");
}

fn check_determined_root(rt: &impl Abort, alloc: Global, handle: &mut Handle) {
    let mut room = [NO_ROOT_MOVE; 32];
    let told = hofsjurd_determined_root(alloc, handle, TAKES, &mut room);
    check_first(rt, told, 24, room[0], 55, "determined_root");
    let told = hofsjurd_board_determined_root(alloc, handle, &TAKES_BOARD, &mut room);
    check_first(rt, told, 24, room[0], 55, "board_determined_root");
}

/// The legal moves need no table. One room is too short.
fn check_moves(rt: &impl Abort, alloc: Global) {
    let mut room = [NO_MOVE; 32];
    let told = hofsjurd_moves(alloc, MATE, &mut room[..1]);
    check(rt, told, 83, 25, "moves");
    let told = hofsjurd_board_moves(alloc, &MATE_BOARD, &mut room);
    check(rt, told, 0, 25, "board_moves");
    assert_eq!(rt; (room[0].from, room[0].to), (1, 0), "board_moves");
}

/// The queen's mate as a board.
fn check_read_fen(rt: &impl Abort) {
    let mut read = TAKES_BOARD;
    let status = hofsjurd_read_fen(b"x", &mut read);
    check_status(rt, status, 16, "read_fen");
    let status = hofsjurd_read_fen(MATE, &mut read);
    check_status(rt, status, 0, "read_fen");
    assert_eq!(rt;
        (read.white, read.black),
        (MATE_BOARD.white, MATE_BOARD.black),
        "read_fen"
    );
    assert_eq!(rt; (read.queens, read.passed), (2, 64), "read_fen");
}

fn check_after(rt: &impl Abort) {
    let mut after = MATE_BOARD;
    let mate = PlainMove {
        from: 1,
        to: 57,
        promotion: 0,
    };
    let status = hofsjurd_board_after(&MATE_BOARD, &mate, &mut after);
    check_status(rt, status, 0, "board_after");
    check(rt, hofsjurd_board_state(&after), 0, 2, "board_state");
}

/// The queen's mate as text, both ways. One room is too short.
fn check_san(rt: &impl Abort) {
    let mate = PlainMove {
        from: 1,
        to: 57,
        promotion: 0,
    };
    let mut room = [1u8; 8];
    let told = hofsjurd_move_san(MATE, &mate, &mut room[..4]);
    check(rt, told, 83, 5, "move_san");
    let told = hofsjurd_move_san(MATE, &mate, &mut room);
    check(rt, told, 0, 4, "move_san");
    check_text(rt, 4, &room, b"Qb8#", "move_san");
    let mut read = NO_MOVE;
    let status = hofsjurd_read_san(MATE, b"Nb8", &mut read);
    check_status(rt, status, 86, "read_san");
    let status = hofsjurd_read_san(MATE, b"Qb8", &mut read);
    check_status(rt, status, 0, "read_san");
    assert_eq!(rt; (read.from, read.to), (1, 57), "read_san");
}

/// What the handle holds, and a second one that shares it.
fn check_holding(rt: &impl Abort, alloc: Global, handle: &mut Handle) {
    let mut room = [1u8; 8];
    let length = hofsjurd_board_missing(alloc, handle, &TAKES_BOARD, &mut room);
    check_text(rt, length, &room, b"KQvKN", "board_missing");
    let length = hofsjurd_board_dtz_missing(alloc, handle, &TAKES_BOARD, &mut room);
    check_text(rt, length, &room, b"KQvKN", "board_dtz_missing");
    let told = hofsjurd_has(alloc, handle, b"KQvK", 0);
    check(rt, told, 0, 1, "has");
    check(rt, hofsjurd_largest(alloc, handle), 0, 3, "largest");
}

fn check_shared(rt: &impl Abort, alloc: Global, handle: &mut Handle) {
    let mut second = Handle::closed(alloc);
    let status = hofsjurd_share(alloc, handle, &mut second, 1);
    check_status(rt, status, 0, "share");
    check(
        rt,
        hofsjurd_wdl(alloc, handle, MATE),
        0,
        2,
        "the first handle",
    );
    hofsjurd_close(alloc, handle);
    check(
        rt,
        hofsjurd_wdl(alloc, handle, MATE),
        1,
        0,
        "a closed handle",
    );
    check(
        rt,
        hofsjurd_wdl(alloc, &mut second, MATE),
        0,
        2,
        "a second handle",
    );
    hofsjurd_close(alloc, &mut second);
}

/// A game in which a verdict by the table has to hold for eight plies more.
fn check_game(rt: &impl Abort, alloc: Global, game: &mut GameHandle, handle: &mut Handle) {
    let told = hofsjurd_game_begin(alloc, game, handle, MATE, 8);
    check(rt, told, 0, 0, "game_begin");
    let told = hofsjurd_game_move_text(alloc, game, handle, b"b1c1");
    check(rt, told, 0, 0, "game_move_text");
    let answer = PlainMove {
        from: 63,
        to: 62,
        promotion: 0,
    };
    let told = hofsjurd_game_move(alloc, game, handle, &answer);
    check(rt, told, 0, 0, "game_move");
}

fn check_played(rt: &impl Abort, alloc: Global, game: &mut GameHandle) {
    let mut room = [1u8; 100];
    let length = hofsjurd_game_fen(alloc, game, &mut room);
    check_text(
        rt,
        length,
        &room,
        b"6k1/8/6K1/8/8/8/8/2Q5 w - - 2 2",
        "game_fen",
    );
    check(rt, hofsjurd_game_verdict(alloc, game), 0, 0, "game_verdict");
    hofsjurd_game_end(alloc, game);
    check(rt, hofsjurd_game_verdict(alloc, game), 6, 0, "no game");
}

fn check_names(rt: &impl Abort) {
    let mut room = [1u8; 32];
    let length = hofsjurd_status_name(3, &mut room);
    check_text(rt, length, &room, b"NotCovered", "status_name");
    let length = hofsjurd_verdict_name(5, &mut room);
    check_text(rt, length, &room, b"TableWhite", "verdict_name");
    let length = hofsjurd_version(&mut room);
    assert_eq!(rt; room.get(length), Some(&0), "version");
}

#[test]
fn exports_answer(rt: HostRuntime) {
    let alloc = rt.alloc();
    let mut handle = open_handle(&rt, alloc);
    check_texts(&rt, alloc, &mut handle);
    check_board(&rt, alloc, &mut handle);
    check_boards(&rt, alloc, &mut handle);
    check_known(&rt, alloc, &mut handle);
    check_unknown(&rt, alloc, &mut handle);
    check_determined(&rt, alloc, &mut handle);
    check_board_determined(&rt, alloc, &mut handle);
    check_root(&rt, alloc, &mut handle);
    check_determined_root(&rt, alloc, &mut handle);
    check_holding(&rt, alloc, &mut handle);
    check_shared(&rt, alloc, &mut handle);
}

#[test]
fn exports_tell_games_and_moves(rt: HostRuntime) {
    let alloc = rt.alloc();
    let mut handle = open_handle(&rt, alloc);
    let mut game = GameHandle::closed(alloc);
    check_game(&rt, alloc, &mut game, &mut handle);
    check_played(&rt, alloc, &mut game);
    hofsjurd_close(alloc, &mut handle);
    check_moves(&rt, alloc);
    check_read_fen(&rt);
    check_after(&rt);
    check_san(&rt);
    check_names(&rt);
}
