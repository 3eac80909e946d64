//! What is asked of a set of tables, of a game and of a position, answered in plain numbers, for callers in other languages.
//!
//! A question comes as a FEN text or as sets of squares (`Board`), a move as text or as three numbers (`PlainMove`); the answer
//! is a status and a value (`Reply`). Nothing here is a pointer, so that all is proved by the usual means; what crosses to C
//! stands in `hofsjurd_c`.
//!
//! Inside: `reply` and `naming` (statuses, their names, the version), `adding` (a table more), `asking` (values and verdicts),
//! `batch` (of many boards), `board` (a position by `Position::from_sets`), `listing` and `plain_move` (legal moves), `game`
//! (move by move, over `Standing`), `root` (legal moves by value), `after` (boards of positions), `missing` (names of tables),
//! `holding` (which tables a set has), `san` (moves in standard algebraic notation), `text` (a text and a byte 0 into a caller's array).
//!
//! Definitions, in reading order: `Replies`, `Boards`, `Batches`, `Adding`, `Moves`, `Plays`, `Roots`, `Afters`, `Missing`, `Holds`,
//! `Sans`, `Texts`, `Names`, `Version`. Its tests are those of the C library: `tools/c_harness/run` tries it beside libfathom.
//!
//! - CLAIM: `answer_text`, clauses `is`, `kept`; `answer_board`, clauses `is`, `kept`: of the position that a text spells or a
//!   board shows, the WDL value, the DTZ value or the verdict of `judge_core`, or else the first fault. Lack of memory is never
//!   reported of a WDL value, and of a distance or a verdict only where moves are listed for it. The set stays as it was.
//! - CLAIM: `answer_text`, clause `is`; `answer_board`, clause `is`; `root_of_text`, clause `is`; `root_of_board`, clause `is`: where
//!   determined values are asked for, the value, the distance and the root moves that are the same whatever the missing tables hold,
//!   the set's own where it has one.
//! - CLAIM: `answer_text`, clause `is`; `answer_board`, clause `is`: the value as soon as it is known, where this is asked for: a capture
//!   that leads to a lost position for the opponent wins, whatever is missing or damaged elsewhere.
//! - CLAIM: `answer_boards`, clauses `is`, `lengths`, `refused`, `kept`: of many boards each reply is that of its board. The
//!   status is 0 where there are as many replies as boards, and else 82, and none is written.
//! - CLAIM: `add`, clauses `is`, `memory`: a file is added as the table that it is, or refused by its first fault or as one that is
//!   there; a refusal changes nothing. Status 5 comes only where the file's name, size, magic and flags are good.
//! - CLAIM: `moves_of_text`; `moves_of_board`; `PlainMove::of`; `PlainMove::to_move`, clauses `some`, `only`: the legal moves go
//!   to the front of the caller's array, each once and in order, where all fit; else, and with status 5, which has no cause here,
//!   it stays as it was.
//! - CLAIM: `begin_game`, clauses `is`, `kept`; `tell_text`, clauses `is`, `kept`; `tell_numbers`, clauses `is`, `kept`;
//!   `Game::verdict`: a game goes on by its move, and its verdict is the first one of the whole game. A refusal leaves it as it
//!   was. Status 5 comes only where a verdict lists moves.
//! - CLAIM: `root_of_text`, clauses `is`, `kept`; `root_of_board`, clauses `is`, `kept`: the legal moves with value and distance, the
//!   best first, where all fit into the caller's array; else it stays as it was. Status 5 comes only at a position in scope.
//! - CLAIM: `put_board`; `board_after`; `board_shows_its_position`; `state_of_board`: the board of the position that a text spells, and
//!   that after a legal move, each of which shows its position, and how a board stands. A fault leaves the room as it was.
//! - CLAIM: `put_missing`, clauses `is`, `kept`; `put_known_missing`, clauses `is`, `kept`; `put_dtz_missing`, clauses `is`, `kept`: the
//!   name of the first table that the value of a board lacks, also as soon as it is known, and of the first material of which its
//!   distance lacks a table.
//! - CLAIM: `put_san`; `tell_san`: the text of a legal move in standard algebraic notation, and the one legal move that such a text
//!   tells. Otherwise the first fault is told, and the caller's room stays as it was.
//! - CLAIM: `has`; `largest`: whether a set has the table of a kind for a material that a text names, and the largest number of men
//!   of a table in it.
//! - CLAIM: `status_name`; `verdict_name`; `version`; `put_text`: names, the version, and a text in the caller's array.
#![tactic(auto)]

mod adding;
mod after;
mod asking;
mod batch;
mod board;
mod game;
mod holding;
mod listing;
mod missing;
mod naming;
mod plain_move;
mod reply;
mod root;
mod san;
mod text;

pub use adding::add;
pub use after::{board_after, board_shows_its_position, put_board};
pub use asking::{Question, answer_board, answer_text};
pub use batch::answer_boards;
pub use board::Board;
pub use game::{Game, begin_game, tell_numbers, tell_text};
pub use holding::{has, largest};
pub use listing::{moves_of_board, moves_of_text};
pub use missing::{put_dtz_missing, put_known_missing, put_missing};
pub use naming::{status_name, verdict_name, version};
pub use plain_move::PlainMove;
pub use reply::Reply;
pub use root::{PlainRootMove, root_of_board, root_of_text, state_of_board};
pub use san::{put_san, tell_san};
pub use text::put_text;
