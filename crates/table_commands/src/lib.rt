//! The commands that answer once, from tables: `judge`, `probe`, `probes`, `root`, `game`, `games`, `pgn`, `follow`.
//!
//! `judge`, `probe`, `root::answer_text` and `game` take what was read for a task and make the answer, and read tables meanwhile. `follow`,
//! `pgn` and the tasks that answer lines (`answer_lines_of` of a `LineTask`) do all that their command does outside but the end of the
//! output, and return the status. All are over a system with a timeline; the contracts have each event, in order.
//!
//! Inside: a file for each command, with its definitions in the file of the same name in `specs/`; `json_answers`, answers as JSON;
//! `folders` reads a table when a position asks for it, `questions` has what is asked of one, `judging` what a game asks, ply by ply;
//! `line_tasks`, what is done around the answers to lines.
//!
//! Definitions, in reading order: `FolderReads`, `FolderAnswers`, `Courses`, `JsonAnswers`, `LineTasks`, then those of the commands. Its cases
//! stand in `rows`.
//!
//! - CLAIM: `judge::answer`, `probe::answer`: they answer as `Judges` and `Probes` say, with all that is read for it in order: with `--lazy`
//!   the folder is listed once, and then the file of each table that the position misses is read once, up to one that is refused; else
//!   nothing more is read.
//! - CLAIM: `root::answer_text`; `game::answer`: the same of `root FEN` and `game` (`RanksText`, `PlaysGame`). Of a game the tables of a ply
//!   are read when it is judged, and none behind the first ply with a verdict.
//! - CLAIM: `answer_lines_of`, clause `made`: each line of the input is answered before the next is taken from it; the tables that the line
//!   misses are read in between, and the file of one at fault is the answer of each line that needs it. With `--all-tables` all tables are
//!   read first, and the first file at fault is refused.
//! - CLAIM: `pgn::answer`, clause `made`: `pgn` refuses its tables first; then it tells the games of its file or of the input as
//!   `report` of pgn_teller has them, and last the sums.
//! - CLAIM: `follow::answer`, clause `made`: `follow` reads what it names, refuses the text of its start and its tables in this order; then the
//!   game is followed as `follow_game` of game_teller has it, with each table that a ply asks for read between the move's line and the ply's.
//! - CLAIM: `answer_lines_of`, clause `cause`; `pgn::answer`, clause `cause`; `follow::answer`, clause `cause`: an error comes only where the
//!   output failed.
#![tactic(auto)]

mod folders;
pub mod follow;
pub mod game;
mod games;
mod json_answers;
pub mod judge;
mod judging;
mod line_tasks;
pub mod pgn;
pub mod probe;
mod probes;
mod questions;
pub mod root;

pub use folders::{OpenFolder, arena_for};
pub use line_tasks::{LineTask, answer_lines_of};
