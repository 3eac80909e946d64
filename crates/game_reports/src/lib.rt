//! `status`, `record --games` and `audit --games` over one system with a timeline.
//!
//! `report_status`, `print_game_record` and `print_audit` do all that these commands do outside but the end of the output: each opens its
//! folders, reads the games, writes lines or a report, and returns the status, 0 done or 1 refused. The contracts have every event, in order,
//! and say that there is no other one. A folder is listed once; its store, if it has one, is read with it, also while a host writes it. A
//! record that stands in a store is not read from a file. Where the output fails, the events are a front of the list.
//!
//! Inside: `store_reading` (a folder and the records of its store: `open_folder`), `folders` (what is known of one or two), `looking` (one
//! game: its file and its record in each), `telling` (games in turn, a line each, and sums), `report` (all games as metrics or as a JSON
//! object), `printing` (one text), `asked` (all games for a report, or one, for who serves them); `game_record`, `status` and `audit`, the commands. What a line, a sum or a report says is made by
//! `game_status`, as are what is found by the bytes of a file and what is judged; here it is read and written.
//!
//! Definitions, in reading order: `Writing` (`DoesEach`), `StoreReads` (`Opens`), `GameRecords` (`PrintsGameRecord`), `Folders` (`IsKnownBy`,
//! `ByFolders`), `GameLooks` (`ReadsSide`, `ReadsLook`), `GameLines` (`TellsGames`), `Statuses` (`ReportsStatus`), `Audits` (`AuditsGames`);
//! `Asked` (`ReadsReport`, `ReadsGame`).
//! `Performs` and `IsCutIn` stand in `Printing` of `answer_parts`, the lines, sums and forms in `game_status`.
//!
//! - CLAIM: `open_folder`: the folder is listed once. Where it lists a whole store, the log is read, the database, the log again, and the log
//!   once more, until its head is the same each time, eight times at most: so all is of one moment. That a store can't be read is noted.
//! - CLAIM: `print_game_record`, clause `made`: the folder is opened, and then the record of the store is written; only where the store has
//!   none is the record's file read, once, and written.
//! - CLAIM: `report_status`, clause `made`: the folders are opened, one after the other, before any game is read. Then for each game that
//!   they list, in rising order of the stamps, its file is looked for in the first folder, and where that tells a game its record, unless that
//!   stands in the store; where nothing is at fault, the same in the second folder; and its line is written before the next game is read. Then
//!   the sums are. A report is written at once after all games are read. What is found is by the bytes that were read, and none is read twice.
//! - CLAIM: `print_audit`, clause `made`: the tables and their manifest are read first, and refused; then the same is done as for `status`, with
//!   a line of the audit for each game.
//! - CLAIM: `print_game_record`, `report_status`, `print_audit`, clauses `made`, `cause`: where memory is refused, `refused memory` follows the
//!   lines before, and nothing more; a folder that isn't opened is refused alone. An error comes only where a write might be refused.
//! - CLAIM: `read_report`, `read_game`: the folders are opened as by `report_status`, and then each game is read, or the one game if a folder lists
//!   it, first in the first folder alone and then in both. Nothing is written.
#![tactic(auto)]

mod asked;
mod audit;
mod folders;
mod game_record;
mod looking;
mod printing;
mod report;
mod status;
mod store_reading;
mod telling;

pub use asked::{GameFound, read_game, read_report};
pub use audit::print_audit;
pub use game_record::print_game_record;
pub use status::report_status;
pub use store_reading::{OpenFolder, found_in, open_folder};
