//! The commands over one timeline: `version`, `show`, `moves`, `run`, `record`, `audit`, `list`, `check`, `judge`, `probe`, `probes`, `root`,
//! `game`, `games`, `pgn`, `follow`, `status`, `enter`, `send`, `listen` and `host`.
//!
//! `answer` does all that such a command does outside: it reads what the task names, writes the answer, sees to it that all goes out, and
//! returns the status, 0 done or 1 refused. The contract has every event, in order, and says that there is no other one. Where the output
//! fails, that is a front of them; then it is noted, and the status is 1.
//!
//! Inside: a file for each command that is made here. The others are done elsewhere: `record` and `audit` reply by what `record_commands`
//! makes of what was read; `judge`, `probe`, `root FEN` and `game` by what `table_commands` makes of it, which may read tables meanwhile
//! (`replying`); the commands that answer lines, `pgn` and `follow` are done by `table_commands`, and `status` and what is asked of all games
//! by `game_reports`; `listen` and `host` by `host_commands`. `answers` has an answer before it is written, `printing` lines, refusals and the
//! output's end, `answering` all of them, `by_tables` those by tables.
//! Of `enter` there are `entries` (the lines of a list), `stamping` (the manifest), `keeping` (a game's file) and `earlier` (the note on a
//! game that was there before), and `entering` (the command); of `send` `sent_game` (the game) and `sending` (the run of
//! `send_moves` of source_core at its port, and who was silent). `keys` reads a file of keys, and `sealing` answers over ports that are sealed
//! by them.
//!
//! Definitions, in reading order: `Endings` (`Closes`, `Ends`), `Inputs`, `Version`, `Show`, `Moves`, `Run`,
//! `Replies` (`RepliesTo`), `Records`, `TableReplies`, `Listing`, `Check`; of `enter` `Stamping`, `Keeping` (`KeepsText`),
//! `Earlier` (`NotesEarlier`), `Entries`, `Enter` (`KeepsGame`, `EntersGames`); of `send` `SentGames`, `Sending` (`SendsInput`); `Answers`
//! (`Does`, `Answers`), `KeyReads` (`ReadsKeys`), `Sealed` (`AnswersByKey`).
//!
//! - CLAIM: `answer`: what a command names is read once, before anything is written to the output; but `enter`, `status` and what is asked of
//!   all games read file by file, and the commands that answer lines, and `send`, line by line. Nothing is written to the errors but progress,
//!   where it is wanted, and of `send` who was silent; nothing else happens outside. An error of the output leaves a front of these events.
//! - CLAIM: `answer`: `listen` and `host` do what `listen` and `host_games` of `host_commands` say.
//! - CLAIM: `answer`: `version` and `moves` read nothing. `show` answers want of memory only where reading the input takes some, `moves` and
//!   `audit` only for a text that is a position, `record` only for what is laid out as a record.
//! - CLAIM: `answer`: `run` reads its folder before the input. It refuses what can't be read first, then the first malformed line of the
//!   schedule, then the first file that is no table; else the lines are those of the last of its worlds, in each of which both records are
//!   true to the game.
//! - CLAIM: `answer`: `enter` opens the file of each game and reads what a start finds there, before it puts the game's text, which it does
//!   once, and only where another text or nothing was found, nothing where the game has to be new; and only then it writes the stamp. That
//!   a game was there before is noted, with the number of moves of its record, where the record can be read. No game of a line is opened
//!   after a line that can't be written or for whose game memory was refused.
//! - CLAIM: `answer`: `list` and `check` read their files one by one, in rising order of names. (That one is held at a time is code.)
//! - CLAIM: `answer`: `send` refuses its game before its address: the text of the start, then the manifest or the folder of the tables; or the
//!   game's file. Then its port is bound, and the moves of the input are sent as `send_moves` of source_core has it: a line goes out before
//!   the next line of the input is read. Where an arbiter doesn't answer, two lines on standard error say so, and the status is 1.
//! - CLAIM: `answer`: where a file of keys is named, it is read before all else, and what happens then is so as it is seen through ports that are
//!   sealed by them (`keyed_outside` of sealed_port); or why it has none is written, and may be noted, and nothing else is done. That is the first of:
//!   it can't be read as a regular file of at most 130 bytes; its group or others have some right; its first malformed line.
//! - CLAIM: `answer`: what is answered by tables reads what it names once, in order. Where tables are read when they are asked for, their
//!   folder is listed once after that, and then the file of each table that a position misses is read once; of no other.
#![tactic(auto)]

mod answering;
mod answers;
mod by_tables;
mod check;
mod earlier;
mod entering;
mod entries;
mod keeping;
mod keys;
mod list;
mod moves;
mod printing;
mod replying;
mod run;
mod sealing;
mod sending;
mod sent_game;
mod show;
mod stamping;
mod store_reading;
mod version;

pub use answering::AnswerTask;
pub use by_tables::TableTask;
pub use printing::end;
pub use sealing::answer;
