//! The commands `listen` and `host` over one timeline: arbiters that answer the datagrams that come to a port.
//!
//! Each does all that it does outside but the end of the output: it reads what its words name, locks what it keeps, binds its port, tells its
//! address and runs a server of games (`serve` of game_server), of one game or of many. The contract has every event, in order, and says
//! that there is no other one. Where the output fails, that is a front of them.
//!
//! A start is a list of steps, in one order for both: what is read; the text of the start of `listen`; the tables; the folder of games of
//! `host`, as it is listed; the address; the lock; what records are kept in. What can be opened is, up to the first that is refused
//! (`open_one`, `open_all`). Then the line of the refusal is written, or the address is told and the run begins.
//!
//! Inside: `noting` (lines that are noted), `binding` (a port at the addresses of two words, also for `send`), `locking`, `ready` (the line
//! that tells an address), `listening`; of `host` `listing` (its folder), `arriving` (the file of a record that goes over), `importing`
//! (all of them), `store_opening`, `hosting`; of both `tables` (what was read) and `serving` (a run).
//!
//! Definitions, in reading order: `Notes`, `Steps` (`AndThen`, `ThenOrRefused`), `Binds`, `Locks`, `Ready`, `ServerRuns` (`AnswersAll`),
//! `Listens` (`Listens`); `Listings`, `Imports` (`ImportsRecords`), `Hosts` (`Hosts`), `Outliving` (`PerformsOutliving`).
//!
//! - CLAIM: `listen`, clause `made`: what the words name is read first; then are refused in this order the text of the start, the tables, the
//!   address, the lock of the file in which the record is kept, and that file or what stands there. Where that is wanted, the line
//!   `ready ADDR` has gone out before the lock is taken. The game is opened before the first datagram is awaited, and its record put where
//!   there was none; with `--fetch` its request for moves is sent then.
//! - CLAIM: `host_games`, clause `made`: what the words name is read first; then are refused in this order the tables, the folder of the
//!   games, the address, the lock of the folder, its store and the records that go over into it. Each record of a file that the store hasn't
//!   is put there, all at once. Where the address can't be bound nothing is locked or put. The line `ready ADDR` has gone out behind all
//!   that, before a datagram is awaited.
//! - CLAIM: `listen`, `host_games`, clauses `made`: what follows is a run of `serve` of game_server, over the game's file, the folder's files
//!   or its store. Of `host` a run that goes on without lines, behind one that can't be written, is one whose words ask for that.
//! - CLAIM: `host_games`, clause `made`: where its words ask that the games outlive their log, an output that fails ends it only before a
//!   datagram is awaited.
//! - CLAIM: `listen`, `host_games`, clauses `made`: what is told of a game of a folder stands in its file there; what is taken of a record is what
//!   a start over its file gives, or what the store has and what waits to be committed; behind a commit the store has all of it
//!   (`folder_games_facts`, `one_game_facts`, `store_games_facts` of game_folder).
//! - CLAIM: `listen`, `host_games`, clauses `cause`: an error comes only where a write might be refused, or what was written couldn't go out.
//!
//! An import which memory was refused for leaves the store as it was (a private clause).
//!
//! Not said: that a line is noted where memory for it isn't refused, but that a lost log is; why memory was refused; how long a lock is held,
//! but that what serves borrows it; whether it was memory for which the store refused an import.
#![tactic(auto)]

mod arriving;
mod binding;
mod hosting;
mod importing;
mod listening;
mod listing;
mod locking;
mod noting;
mod ready;
mod serving;
mod store_opening;
mod tables;

pub use binding::bind;
pub use hosting::host_games;
pub use listening::listen;
pub use noting::note_line;
