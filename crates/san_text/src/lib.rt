//! Moves in standard algebraic notation (PGN standard of 1994, section 8.2.3), both ways.
//!
//! A position and bytes go in; the one legal move that they tell comes out, or the first of three faults. A position and a move
//! go in; the standard's one text of the move comes out, of two to seven bytes. No call takes memory. What is legal, check and
//! capture is `board_core`'s to say. Reading takes what files have besides the standard's text; `read_san` lists it.
//!
//! Inside: `told` (what a text tells), `scan`, `marks`, `spelling` (that, read off the bytes), `agreeing` (the moves that it may
//! mean), `reading`; `origin` (what tells a man apart), `answering` (whether check is mate), `writing`; `fault`, `laws`.
//!
//! Definitions, in reading order: `Told` (`SpellsTold`, `told_text`), `Agrees`, `San` (`ReadsSan`, `IsFirstSanFault`), `Written`
//! (`told_apart`, `san_told`, `san_of`), `Laws`.
//!
//! - CLAIM: `read_san`, clauses `ok`, `only`, `err`, `only_fault`: a move is answered exactly where it is legal and agrees with
//!   all that the text tells, and no other legal move does; otherwise the first fault in order: no form of the notation, no legal
//!   move that agrees, two of them.
//! - CLAIM: `write_san`, clauses `value`, `legal`; `read_san`, clause `written`: a legal move, and no other one, has the standard's
//!   text, which tells him apart by file, else by rank, else by both, among legal moves of his kind. It reads back as the move.
//! - CLAIM: `laws::is_read_back`; `laws::one_move`; `laws::one_thing`: what is written is read as this move, two legal moves have
//!   two texts, and a text tells one thing at most.
//! - CLAIM: `laws::castling_is_told`; `laws::marks_mate`; `laws::marks_check`: castling text is that of the moves that castle by
//!   the rules, `#` stands exactly for checkmate, and `+` exactly for another check.
//! - CLAIM: `SanFault::name`: the name of a fault.
#![tactic(auto)]

mod agreeing;
mod answering;
mod fault;
pub mod laws;
mod marks;
mod origin;
mod reading;
mod scan;
mod spelling;
mod told;
mod writing;

pub use fault::SanFault;
pub use reading::read_san;
pub use told::{ManTold, Told};
pub use writing::write_san;
