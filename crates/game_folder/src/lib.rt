//! Where the games of a server are, and their records: one game and its file, a folder with a file for each record, or a folder with one
//! store. What is done outside is a list of events over one timeline.
//!
//! The record of an arbiter is written down in memory (`Draft`, a keeper that never fails), and is put where it is kept after each
//! delivery, before anything is sent.
//!
//! `Games` finds a game by its stamp, takes its record, keeps what a delivery puts (a file at once; for a store it is noted) and commits
//! what was noted. It has three instances:
//!
//! - `FolderGames`: of each game the file `FOLDER/STAMP.game`, and beside it the file of its record, `FOLDER/STAMP.kept`.
//! - `OneGame`: one game, and the path of the file of its record.
//! - `StoreGames`: the files of games as in a folder, and all records in one store.
//!
//! Inside: `draft`, `games`; `record_file`, `folder_games`, `one_game`, `store_games`.
//!
//! Definitions, in reading order: `Drafts`, `Places` (`WasKept`), `Holdings` (`GamesFacts`); `RecordFiles`, `FolderGames`, `OneGame`,
//! `StoreGames`, each with all that is known of an instance (`folder_games_facts`, `one_game_facts`, `store_games_facts`).
//!
//! - CLAIM: `Draft`, clause `facts`: a put succeeds, and its bytes are to be put where the record is kept.
//! - CLAIM: `FolderGames`, `OneGame`, `StoreGames`, clauses `facts`: a game that is found stands in its file on the disk, or the cause why
//!   none does is there (`StandsOn`); what a start over a file gives is known of the file (`IsKnownOfFile`), what the store has of the store
//!   (`kept_bytes`, `Stores`).
//! - CLAIM: `FolderGames`, clauses `facts`, `told`, `lacks`: one look at `STAMP.game` tells the game that its bytes spell, or the first line
//!   at fault; `NoGame` is said only where it can't be read or has more than 192 bytes. A record is what a start found in `STAMP.kept`. What
//!   a game puts is put there at once, by one put, and whether that failed is told. A commit does nothing. Refused memory has no cause.
//! - CLAIM: `OneGame`, clauses `facts`, `same`, `lost`, `why`: the game is found by its stamp alone, without an event. A record is what a
//!   start found in its file, and what it puts is put there. No commit succeeds after a put that failed, and each does before.
//! - CLAIM: `StoreGames`, clauses `facts`, `told`, `lacks`, `same`, `gives`, `noted`, `why`, `left`, `stored`: a record is what was noted last of
//!   this game since the last commit, or else what the store has, and none of a game that is left. What a game puts is noted behind all
//!   else. A commit is of all that is noted, in that order, and of nothing else; at `Ok` the store has it. Where it is told that
//!   memory was refused for it all stays noted; after any other error no commit succeeds from then on. (That a lost store isn't told where
//!   memory alone was refused is no clause.)
#![tactic(auto)]

mod draft;
mod folder_games;
mod games;
mod one_game;
mod record_file;
mod store_games;

pub use draft::Draft;
pub use folder_games::FolderGames;
pub use games::{Games, KeptGame};
pub use one_game::OneGame;
pub use store_games::StoreGames;
