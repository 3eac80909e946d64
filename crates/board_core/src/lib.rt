//! Chess positions and their legal moves.
//!
//! The parts of a position, or sets of squares by side and kind, go in; a position comes out, or the first of seven faults. It
//! gives its legal moves, its captures, check, checkmate, stalemate, and the position after a move. The rules are those of the FIDE
//! Laws of Chess, article 3, with castling, en passant and promotion, and 5.1.1, 5.2.1 and 5.2.2 for the ends of a game; `specs/`
//! states them as relations over a map from squares to men. Squares are numbered a1 = 0, b1 = 1, .. h1 = 7, a2 = 8, .. h8 = 63.
//! `Verdict` and `Delay` stand here, below rulings and messages.
//!
//! Inside: values (`square`, `piece`, `moves`, `parts`, `verdict`, `delay`); what stands where (`position`, `men`, `bitboard`, `sides`,
//! `sets`, `census`, `empty_board`); what attacks, and how a move is made (`attack`, `king`, `castling`, `rules`, `playing`); which
//! moves there are (`targets`, `generation` with a guard of the king, `mobility`, `capturing`); how a game ends (`ends`, `material`);
//! `laws`.
//!
//! Definitions, in reading order: `Square`, `Side`, `Attack`, `Castling`, `Moves` (`Legal`), `Position` (`IsPosition`, `IsFirstFault`),
//! `Sides`, `Sets`; the same computed, for the crates above: `Computed`, `ComputedMoves`, with `Laws`; `Ends`; `Verdicts`, `Delays`.
//! `proofs/WorkedRows.antt` computes some. Tests: `board_tests` of `checks`; cases: `rules.txt` and `positions.txt` of `rows`, with
//! whole lists of moves and the published counts.
//!
//! - CLAIM: `Position::new`, clauses `ok`, `only`, `err`, `only_fault`; `Position::from_sets`, clauses `ok`, `only`, `err`,
//!   `only_fault`; `Sets::man_on`: the parts of a position, listed or as sets, are accepted exactly where they meet the seven
//!   conditions. Otherwise the first one that fails is reported, exactly where it is the first. On a square of sets stands a man
//!   of the first side and of the first kind that have it, and nothing where no side or no kind has it.
//! - CLAIM: `Position::in_check`, clauses `relation`, `computed`; `Position::play`, clauses `legal`, `only`, `computed`;
//!   `Position::is_legal`, clauses `relation`, `computed`; `Position::play_legal`, clauses `legal`, `computed`: check is that some man
//!   of the other side attacks the mover's king, by steps and rays. A move is legal exactly where some next position is related to
//!   it, and `play` answers that position. So does `play_legal` for a move that is known to be legal.
//! - CLAIM: `Position::legal`, clauses `legal`, `computed`; `Position::captures`, clauses `legal`, `computed`, `memory`;
//!   `Position::pawn_moves`, clauses `legal`, `computed`, `memory`: the list has each legal move once, in order of from, to and
//!   promotion, and nothing else. The captures and the moves of pawns are that list filtered, and lack of memory for them is reported
//!   only where there is one.
//! - CLAIM: `Position::next_capture`, clauses `next`, `later`, `below`, `none`; `Position::may_capture`;
//!   `Position::capture_after`, clauses `next`, `after`, `none`: without memory, moves one after the other, in order, that
//!   include every legal capture (an illegal one may be among them); or the legal captures alone, each with the position after
//!   it.
//! - CLAIM: `Position::has_legal_move`, clause `relation`; `Position::has_move_besides_en_passant`, clause `relation`: whether
//!   some move is legal, and whether one besides en passant is.
//! - CLAIM: `Position::is_checkmate`, clauses `relation`, `computed`; `Position::is_stalemate`, clauses `relation`, `computed`;
//!   `Position::has_insufficient_material`: no move is legal, with check and without; and no mate can come by the kinds of the men.
//! - CLAIM: `Bitboard::with`, clauses `here`, `kept`, `others`; `Bitboard::without`, clauses `gone`, `kept`, `only`;
//!   `Position::parts`, clauses `value`, `position`; `Position::piece_at`; `Position::men`, clauses `by_side`, `computed`;
//!   `Position::occupied`: sets of squares hold what was put in; readers give the parts, how many men there are, and where.
//! - CLAIM: `laws::check_is_computed`; `laws::position_after_is_computed`; `laws::legal_is_computed`;
//!   `laws::legal_moves_are_listed`; `laws::position_after_is_a_position`; `laws::capture_takes_one_man`;
//!   `laws::other_move_keeps_the_men`; `laws::position_has_two_to_thirty_two_men`: the computed definitions are the relations.
//!   What follows a legal move is a position, a capture takes one man and no other move takes or adds one, and a position has 2
//!   to 32 men.
//! - CLAIM: `laws::are_squares_equal`; `laws::are_bitboards_equal`; `laws::are_pieces_equal`; `laws::are_rights_equal`;
//!   `laws::are_moves_equal`; `laws::is_square_before`; `laws::is_move_before`: `==` is equality, and `<` the order of squares
//!   and of listed moves.
//! - CLAIM: `Verdict::code`; `Verdict::from_code`, clauses `some`, `only`; `Verdict::name`; `PositionFault::name`; `Square::new`,
//!   clauses `on_board`, `number`; `Delay::new`, clauses `in_range`, `number`; `Side::other`; `Rights::has`: verdicts by code and
//!   name, faults by name; squares, delays, sides and rights.
#![tactic(auto)]

mod attack;
mod bitboard;
mod capturing;
mod castling;
mod census;
mod delay;
mod empty_board;
mod ends;
mod generation;
mod king;
pub mod laws;
mod material;
mod men;
mod mobility;
mod moves;
mod parts;
mod piece;
mod playing;
mod position;
mod rules;
mod sets;
mod sides;
mod square;
mod targets;
mod verdict;

pub use bitboard::Bitboard;
pub use delay::Delay;
pub use men::Men;
pub use moves::Move;
pub use parts::{Parts, Rights};
pub use piece::{Kind, Piece, Promotion, Side, Wing};
pub use position::{Position, PositionFault};
pub use sets::{Sets, State};
pub use square::Square;
pub use verdict::Verdict;
