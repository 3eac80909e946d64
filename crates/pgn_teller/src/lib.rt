//! What tables say of the games of a PGN file, a line each.
//!
//! The games that `pgn_games` reads go in, and what rules them; out comes for each its first verdict, and whether the result that stands in
//! the file is the verdict's, or the refusal of the file of a table that the game needs. A line is six words, or a JSON object; the last
//! line has the sums.
//!
//! Inside: `rating` (what a game is ruled as: the trait, and its instance by a set of tables), `finding` (the result beside it), `game_line` (the line of a game), `game_object` (its
//! object), `sums`, `reporting` (the run).
//!
//! Definitions, in reading order: `Ratings` (`IsFirstRuled`, `Ruling`, `finding_of`), `GameLines`, `GameObjects`, `Reports` (`IsPgnLine`, `ReadsNext`,
//! `AreReported`, `StopsAt`, `ReportsGames`, `ReportsPgn`, `ReportsPgnLines`). Its cases stand in `pgn.txt` of `rows`.
//!
//! - CLAIM: `GameRuler::rule`, clauses `made`, `same`, `still`; `SetRuler`; `ruled_by`: the first verdict of a game, or none, or the refusal of a
//!   file, as the ruler's relation has it, behind what is read for it; by a set of tables and a delay it is that of `judge_core`, nothing is read,
//!   and no file is refused.
//! - CLAIM: `report`, clause `made`: all that happens outside is one list of events. Game by game: the lines of the next game are read, where the
//!   bytes are known those of the next game of their tokens; what its ruling asks for is read; its line is written and goes out, with
//!   `only_differing` only where it differs. Behind the last game, where there is no other, the sums are one line. Or no more can be read, or
//!   memory is refused, which is written last, and no sums are. Where a write is refused, or what was written can't go out, it is a front of that
//!   list, and nothing more is read.
//! - CLAIM: `report`, clause `made`: the sums count the games of that list, each by its line; the result is whether all are reported and none is at
//!   fault, or false where memory for the sums is refused, which is written in their place.
//! - CLAIM: `report`, clause `cause`: an error comes only where a write might be refused, or what was written couldn't go out.
#![tactic(auto)]

mod finding;
mod game_line;
mod game_object;
mod rating;
mod reporting;
mod sums;

pub use finding::Finding;
pub use game_line::Form;
pub use rating::{GameRuler, Ruled, SetRuler, ruled_by};
pub use reporting::{GameReporter, report};
