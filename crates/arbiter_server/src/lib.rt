//! What servers of games are told and tell: the file of a game, a folder of games, what is told of a datagram, and which lines are written.
//!
//! `game_server` is the server, `game_folder` has the places of its games, and `served_games` says what each game does in a run. What they
//! and the commands have in common stands here. The bytes of a game's file go in and its game comes out, or the line at fault; a game goes in
//! and its file's text comes out; and of what is told of a datagram its line comes out, where a log has it.
//!
//! As definitions alone there is what a host of games does, act by act (`Acts`), and what a game goes through by that (`Games`): an arbiter is
//! opened, answers and is closed, each act from where the one before it led. A host is what any server is of its games; that those of
//! `game_server` are such hosts is `played_are_hosted` of `served_games`, and what two of them come to stands in `theorems`.
//!
//! Inside: `config` (how a server is set up), `games` (what is told of a game), `fault` (why it isn't open); `folder`, `game_file`,
//! `game_lines`; `datagram_report`, `line`, `line_log` (which lines are written), `last_lines`; `laws`.
//!
//! Definitions, in reading order: `ServedLines`, `Serving`, `GameFiles`, `GameFolders`, `Told`, `LineLogs`, `Laws`; `Lives`, `Folders`, `Acts`,
//! `Games` for hosts; `Room`, of games that are open; `StoreGames`, of records in a store; for private clauses `Remembering`, `ValueLines`.
//! Cases stand in `listening.txt`, `hosting.txt` and `games.txt` of `rows`.
//!
//! - CLAIM: `LineLog::new`; `LineLog::pick`; `laws::changes_hide_nothing`: a log begins with nothing remembered (the error of `new` has no
//!   cause), and what is written of a line is as its form has it. Of changes it has each line that was told of a game that is open, so that each
//!   count and verdict stands in it.
//! - CLAIM: `read_game`, clauses `ok`, `err`, `only`; `write_game`, clauses `text`, `spells`; `GameFileFault::line`;
//!   `delay_of_digit`, clauses `some`, `none`: a game's file is read exactly where it spells a game, and otherwise the first line
//!   at fault is reported. A delay is one digit from 0 to 8.
//! - CLAIM: `game_path`; `kept_path`: the file of a game and its record stand in a folder under the game's stamp.
#![tactic(auto)]

mod config;
mod datagram_report;
mod fault;
mod folder;
mod game_file;
mod game_lines;
mod games;
mod last_lines;
pub mod laws;
mod line;
mod line_log;

pub use config::ServerConfig;
pub use datagram_report::{DatagramReport, ReportText, verdict_or_none};
pub use fault::{OpenGameError, Uncommitted};
pub use folder::{game_path, kept_path};
pub use game_file::{Game, MOST_GAME_BYTES, read_game, write_game};
pub use game_lines::{GameFileFault, delay_of_digit};
pub use games::GameConfig;
pub use last_lines::{LastLines, LoggedText};
pub use line::Line;
pub use line_log::{LineLog, LogForm};
