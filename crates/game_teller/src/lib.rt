//! A game that is followed ply by ply, as its moves come, over a system with a timeline.
//!
//! `follow_game` takes a game (its notation, start and delay), a judge of plies, and a system on whose input the moves come, one a line.
//! It prints a line for ply 0 and then for the ply after each move: its number, its verdict or `open`, and its position. It goes on to the
//! first verdict. It carries the `Standing` of judge_core from ply to ply, so that each position is judged once.
//!
//! Inside: `lines` (the lines), `judging` (the judge: the trait, and its instance by a set of tables), `following` (the run), `laws`.
//!
//! Definitions, in reading order: `Judges`, `Plies`, `Followings` (`HasFollowed`, `StopsAfter`, `Follows`, `FollowsInput`, `FollowsInputMoves`), over
//! `IsOutcome` of judge_core and `AreLinesOf` of line_events; `Agreements`; over `Notations` of move_notation. Its cases stand in `follow.txt` and
//! `san.txt` of `rows`.
//!
//! - CLAIM: `PlyJudge::begin`, clauses `begun`, `refused`, `memory`, `later`; `PlyJudge::move_on`, clauses `on`, `refused`, `memory`, `later`: where a game stands by
//!   the tables that are open, and by whatever more are, or the refusal of a file that a position needs. Clauses `made`: it reads tables
//!   that this position asks for, and nothing else.
//! - CLAIM: `follow_game`, clause `made`: all that happens outside is one list of events. The lines of the input are opened. What the start
//!   asks for is read, the line of ply 0 is written, and goes out. Then, move by move: its line is read, the tables that its ply asks for
//!   are read, and the ply's line is written, and goes out. So it is to the first verdict, behind which nothing is read, to the input's end,
//!   or to the first line that gives no legal move in its position, whose refusal is written last, and nothing behind it. Each line is that
//!   of its ply by the tables that are open at last, and by all that have more. Where the output fails, it is a front of that list.
//! - CLAIM: `follow_game`, clause `cause`: an error comes only where a write might be refused, or what was written couldn't go out.
//! - CLAIM: `laws::followed_as_game`: where the input's bytes are known and its lines name moves in turn, the last line of a game that is
//!   followed is that of the outcome of the whole game, as `game` prints it, unless the input is cut short.
#![tactic(auto)]

mod following;
mod judging;
pub mod laws;
mod lines;

pub use following::{FollowedGame, follow_game};
pub use judging::{PlyJudge, SetJudge};
pub use lines::Stop;
