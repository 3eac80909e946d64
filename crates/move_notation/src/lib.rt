//! Moves as people write them: in coordinates, or in standard algebraic notation.
//!
//! A position and a text go in; the move comes out that the text names there. A text in coordinates, as `e2e4`, names a move whether or not
//! a position has it; one in algebraic notation, as `Nf3`, names one legal move of the position. `read_moves_in` reads the words of a text
//! in turn, each in the position after the moves before it.
//!
//! Inside: `notation`, `words_in_turn`, `laws`. Definitions, in reading order: `Notations` (`Spells`, `AreMovesIn`, `IsBadWordIn`), over
//! `SpellsMove` of fen_text and `ReadsSan` of san_text; `Laws`. Its cases stand in `san.txt` of `rows`.
//!
//! - CLAIM: `Notation::read`, clauses `some`, `only`: the move that a text names in a position, wherever it names one.
//! - CLAIM: `read_moves_in`, clauses `ok`, `err`, `memory`: the moves that the words of a text name in turn, or the place of the first word
//!   that names none; lack of memory is reported only where there is a word.
//! - CLAIM: `laws::one_move`: a text names one move at most in a position.
#![tactic(auto)]

pub mod laws;
mod notation;
mod words_in_turn;

pub use notation::Notation;
pub use words_in_turn::read_moves_in;
