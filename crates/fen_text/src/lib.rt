//! FEN text of positions (PGN standard, section 16.1), coordinate text of moves, and numbers in decimal digits, both ways.
//!
//! Bytes go in; a position or a move comes out, or the first fault of the text. A position or a move goes in; its one text comes
//! out. No call takes memory. Which positions are valid is for `board_core` to say; here is only what a text spells. Inside:
//! `cuts` (a text cut at each place of a byte), `placement`, `fields`, `counters`, `reading`, `writing`, `coordinates`, `fault`, `laws`.
//!
//! Definitions, in reading order: `Cuts`, `Numbers`, `Placement`, `Fields`, `Fen` (`SpellsPosition`, `IsFirstFenFault`),
//! `Written` (`fen_of`), `Coordinates` (`move_text`, `SpellsMove`), `Laws`. Its cases stand in `positions.txt` of `rows`; positions of
//! the tests of `checks` are read by it.
//!
//! - CLAIM: `read`, clauses `ok`, `position`, `only`, `err`, `only_fault`: a position is answered exactly where the text spells
//!   it, and otherwise the first fault in order.
//! - CLAIM: `write`, clause `text`; `read`, clauses `written`, `one_text`; `laws::one_text`; `laws::one_position`: a position has
//!   one text, which reads back as it; an accepted text is what is written again.
//! - CLAIM: `cut_first`, clauses `some`, `none`: a text is cut at the first place of a byte.
//! - CLAIM: `read_number`, clauses `some`, `none`: a number is read exactly from its decimal digits, without needless zeros and
//!   at most as great as is said.
//! - CLAIM: `read_move`, clauses `some`, `only`; `write_move`; `laws::one_move`: moves are read exactly where they are spelled,
//!   and written so.
//! - CLAIM: `FenFault::name`: the name of a fault.
#![tactic(auto)]

mod coordinates;
mod counters;
mod cuts;
mod fault;
mod fields;
pub mod laws;
mod placement;
mod reading;
mod writing;

pub use coordinates::{read_move, write_move};
pub use counters::read_number;
pub use cuts::cut_first;
pub use fault::FenFault;
pub use reading::read;
pub use writing::write;
