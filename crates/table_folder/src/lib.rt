//! Tables of a folder, each read when a position first asks for it.
//!
//! A folder, a set and positions go in; answers by the folder's tables come out, or the refusal of a file that a position needs. The
//! folder's names are listed once. `TableFolder::settle` asks the set about a position, opens the table that is missed where the
//! folder has it, and asks again, until nothing is missed that is there. A table stays once it is opened. A file that is at fault is
//! refused where a position needs it, and looked at anew where the next one does.
//!
//! Inside: `files` (where names are listed and files are read), `folder` (names and files), `settling` (which table is missed, and until
//! when), `needing` (a position, and those after its moves), `fault`, `laws`.
//!
//! Definitions, in reading order: `Folders` (`Says`, `AreOf`), `Settled` (`IsSettled`, `AnswersBy`), `Reads` (`OpensFolder`, `OpensTables`), `Laws` (`IsWhole`), `Faults`. Its cases
//! stand in `many.txt` and `tables.txt` of `rows`.
//!
//! - CLAIM: `TableFolder::open`, clauses `disk`, `folder`, `cause`; `TableFolder::has`; `open_file`: the names are those of table files
//!   that the folder lists, with a manifest those that it names. The folder has a table where its manifest names the file, or without
//!   one where the file is listed. `open_file` gives the table that a file of this name and these bytes is, or why it is none.
//! - CLAIM: `TableFolder::apart`: the same folder, whose tables stay in another arena.
//! - CLAIM: `TableFolder::new_set`, clauses `opened`, `empty`, `cache`: an empty set for the tables of a folder.
//! - CLAIM: `TableFolder::settle`, clauses `opened`, `kept`, `only`, `probed`, `verdict`, `settled`, `refused`, `cache`: the set keeps its
//!   tables and gets tables of the folder alone, each as its file says it, and none that the position doesn't miss. Then the position misses no table of the folder, and the result
//!   is both probes and the verdict by the set. Or it is the refusal of a table's file: the position misses that table, and the file
//!   isn't listed, can't be read, has another digest or is no such table.
//! - CLAIM: `TableFolder::settle_one`, `TableFolder::settle_moves`, clauses `opened`, `kept`, `only`, `settled`, `refused`, `cache`: the
//!   same for a position that may be out of scope, and for a position and those after its legal moves.
//! - CLAIM: `TableFolder::open`, `TableFolder::settle`, `TableFolder::settle_one`, `TableFolder::settle_moves`, clause `made`: all that
//!   happens outside meanwhile, in order. Opening lists the folder once. Settling reads the file of each table that it opens once, and last
//!   the one that is refused, if it is listed; where memory is refused, last one file more or none.
//! - CLAIM: `laws::settled_is_as_whole`; `laws::settled_moves_are_as_whole`; `laws::settled_games_are_as_whole`; `laws::whole_is_one`;
//!   `laws::whole_is_there`: where no table of the folder is missing, value, distance, probes, verdict, root moves and the outcome of a
//!   game are those by the set of all tables of the folder; for a game at its positions in play, before which no ply has a verdict.
//!   There is one such set at most, and there is one where each file of a table says one thing.
//! - CLAIM: `laws::positions_in_play_are_played`: the positions in play are among those of the plies up to that of the outcome.
//! - CLAIM: `laws::settled_games_stay`: a game at whose plies no table is missing stays as it is while more tables of the folder are opened.
//! - CLAIM: `laws::refused_is_needed`: by the set of all tables of the folder the position misses the table of a file that is refused,
//!   where each file holds one thing. So no file is refused that no position needs.
//! - CLAIM: `FileFault::name`: as text.
#![tactic(auto)]

mod fault;
mod files;
mod folder;
pub mod laws;
mod needing;
mod settling;

pub use fault::{FileFault, FileRefusal};
pub use files::{SystemFiles, TableFiles};
pub use folder::{TableFolder, open_file};
