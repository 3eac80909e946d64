//! How far the games of a folder have come, or those of two folders: what is made of the bytes and names that were read of them.
//!
//! A game is one whose file a folder lists as `STAMP.game`; its record is `STAMP.kept`, where that is listed too. From both comes how far a
//! folder has come with a game (`side_of`), and from two folders what comes of comparing them (`look_at_both`). What is found of a game
//! is told in a line (`told_by`), as sums in metrics (`metrics_text`), or as a member of a JSON object (`add_game`). No move is judged and
//! no table is read there; `audit_of` also judges each record by a set of tables. The reads, and what `status` and `audit --games` do, are
//! in `game_reports`.
//!
//! Inside: `listing` (the stamps that names tell), `entry` (a game's file and the bytes of its record), `side` (the record),
//! `comparing` (two records), `status` (two folders), `status_lines`, `telling` (sums); `totals`, `metrics`, `objects`, `report`;
//! `audit_lines`, `game_audit`.
//! Where a host keeps the records of a folder in a store, `store_reading` has the names of its files, and `stored_records` keeps what was
//! read of it by the stamps of the games.
//! `add_moves`, `add_refused_record` and `add_finding` are for lines of the crate above too.
//!
//! Definitions, in reading order: `Listings` (`AddsStamps`), `Entries` (`game_told`, `fault_words`), `Sides` (`IsRecorded`),
//! `Comparisons` (`IsComparedAs`), `Tellings` (`sums_of`), `Statuses` (`IsLookAtBoth`, `game_told_by`), `Totals` (`AreFound`, `totals_of`),
//! `Metrics` (`metrics_text`), `StatusObjects` (`status_json`), `Reports` (`Form`); `GameAudits` (`IsAuditOf`); `StoreReadings`
//! (`HasHalfStore`), `StoredDisks` (`bytes_in`), `Imports`. Its cases stand in `status.txt` and `game_audits.txt` of `rows`.
//!
//! - CLAIM: `told_by`: the line of a game says the moves and the verdict of its record, that none is listed, or the first fault. Of two
//!   folders it says whether the records agree, by how many moves one is behind, or the first ply at which they part; two files that tell
//!   two games are a fault. The sums count these lines, and nothing is well that is at fault or differs (`Sums`).
//! - CLAIM: `side_of`, clauses `side`, `fault`: the bytes of a record count only where they spell a record of the game's stamp and delay;
//!   else the fault is the first of them as a record, or that it is of another stamp or delay.
//! - CLAIM: `look_at_both`: two folders are compared only where their files tell one game.
//! - CLAIM: `add_stamps`; `rising`, clauses `all`, `rising`: the stamps are exactly those whose files the names tell, each once and in rising
//!   order.
//! - CLAIM: `metrics_text`, `add_game`, `add_sums`: the metrics and the members of the JSON object are those of what is found of the games,
//!   by the same definition as the lines (`Look`). `line_of`, clause `reads_back`: a lexer of JSON reads back what was written.
//! - CLAIM: `audit_of`, clause `told`: a game's file has to be that of its stamp by the tables; a game is well only where an arbiter of it
//!   resumes from each of its records; nothing kept is no fault.
//! - CLAIM: `has_half_store`: half of a store is the log without the database, or a journal.
//! - CLAIM: `keep`: of two records of a game the later one counts. `copy_within`, clauses `bytes`, `short`, `cause`: bytes are copied whole,
//!   or are too many.
#![tactic(auto)]

mod audit_lines;
mod comparing;
mod entry;
mod game_audit;
mod listing;
mod metrics;
mod objects;
mod report;
mod side;
mod status;
mod status_lines;
mod store_reading;
mod stored_records;
mod telling;
mod totals;

pub use audit_lines::{AuditLook, Unsound, add_finding, audit_told};
pub use comparing::Compared;
pub use entry::{Entry, EntryFault};
pub use game_audit::{AuditTables, audit_of};
pub use listing::{add_stamps, rising, stamp_of};
pub use metrics::metrics_text;
pub use objects::{
    add_count, add_first, add_game, add_second_if, add_stamp, add_sums, add_text, line_of,
};
pub use report::ReportForm;
pub use side::{Side, side_of};
pub use status::look_at_both;
pub use status_lines::{Look, add_moves, add_refused_record, told_by};
pub use store_reading::{
    MOST_TRIES, STORE_LOG_NAME, STORE_NAME, has_half_store, has_name, head_of, path_in,
};
pub use stored_records::{copy_within, keep};
pub use telling::{GameTold, Mark, Sums, sums_line};
pub use totals::Totals;
