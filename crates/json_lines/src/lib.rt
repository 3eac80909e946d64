//! What tables tell of a position and of its legal moves, as one JSON object (RFC 8259).
//!
//! `JsonLine` is what a line tells: why a text is no position, or both probes of a position and the verdict on it, or these with all
//! legal moves, each with the values of the position after it: the best first, or in the order of moves where the position is out of
//! scope. `Ask` of judge_core says whether values are the strict ones, or also those that every completion of the missing tables gives.
//! `put_json_line` writes it. Names and meanings are those of the tablebase API of Lichess, where it has them (adjudicate-probes(1)).
//! `ApiLine` is what an object of that API itself tells (adjudicate-serve(1)), which also says which distances are precise.
//!
//! Inside: `told` and `api_told` (what is told), `writing`, `api`, `members` and `text` (objects, members, strings with their escapes).
//!
//! Definitions, in reading order: `Told`, `Objects` (`line_json`), `ApiTold`, `Api` (`api_json`). The text of a value is that of the
//! toolchain's `json` (`print`, `json_tokens`). Its cases stand in `probes.txt` and `root.txt` of `rows` (those with `--json`).
//!
//! - CLAIM: `put_json_line`, clauses `written`, `reads_back`: the text is that of the line's object, and a JSON parser reads it back.
//! - CLAIM: `JsonLine::of_text`, clauses `told`, `memory`, `lack`, `unchanged`; `JsonLine::of_position`, clauses `told`, `memory`,
//!   `unchanged`; `JsonLine::is_done`: the line tells what the set's calls tell of the position that the text spells, or the text's
//!   first fault. With moves it has each legal move once, in scope or not. Without them lack of memory is told only where its values
//!   list moves.
//! - CLAIM: `put_api_line`, clauses `written`, `reads_back`; `put_object`: likewise of an object of the tablebase API, and of one of
//!   flat members.
//! - CLAIM: `ApiLine::of_position`, `ApiPosition::of`, clauses `told`, `unchanged`; `ApiPosition::winner`: what the set's calls tell of a
//!   position and of each legal move, with which distances are precise, and which side wins by the distance.
//! - CLAIM: `ApiMove::best`, clauses `told`, `unchanged`; `ApiMove::ends_line`: the first root move of a position, or none where no move
//!   is legal, and whether a line of best play ends with it (`IsMainline`).
#![tactic(auto)]

mod api;
mod api_told;
mod by_root;
mod members;
mod object;
mod text;
mod told;
mod writing;

pub use api::put_api_line;
pub use api_told::{ApiLine, ApiMove, ApiPosition};
pub use judge_core::Ask;
pub use members::{Member, Value};
pub use object::put_object;
pub use told::{JsonLine, MoveTold, PositionTold};
pub use writing::put_json_line;
