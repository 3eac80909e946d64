//! The words of the adjudicator's command line: the task that they name, or what is wrong with them.
//!
//! `parse` makes a task of the words. Where all that a task names is read before it is answered, its `places` has that. `tell_misuse` writes
//! what is wrong with the words, or the help that they ask for. Nothing is read here; the crates above answer.
//!
//! Inside: each command is a file in `commands/`, with the struct of its values, what help says of it, and its definitions in the file of
//! the same name in `specs/Commands/`; `options` has the values that several of them take. What the commands take is told once, in their
//! `VALUES`, and help is made from it. `words` reads the command line: `values`, `numbers`, `addresses`, `game_paths`, `lazy_folders` (the
//! folder of tables that is read at once, or when a position asks for it), `usage`; and writes about it: `uses`, `help`, `near`.
//!
//! Definitions, in reading order: `Numbers`, `Rules`, `Commands`, `Tasks`, `Misuses`, `Usage`, `Uses`, `Addresses`,
//! `GamePaths`, `LazyFolders`. Its cases stand in `rows` (`words.txt` and the files of the commands); `tools/words` makes the man pages and
//! the completions from the help that is printed.
//!
//! - CLAIM: `parse`, clauses `ok`, `misuse`, `named`: where the words name a task it is what they say, by the matches of `clap`.
//!   A misuse is reported only where the first word is missing, asks for help or names no command, where the one behind a request for
//!   help names none, where the command refuses the words, or where a value that the command needs is missing or out of its range, or
//!   one is there beside another that takes its place. Words that name no command are always a misuse.
//! - CLAIM: `tell_misuse`: for a misuse standard error gets one line of printing bytes, at most one line that asks for a near word, which is a
//!   command's or that of an option of the command, and the line that names help, of the command where there is one, and then all goes out;
//!   or a front of these, where a write is refused or they can't go out. Nothing else happens. Where there is no word the list of commands stands behind the line, and where help is asked for, it alone, or help of
//!   the command, which begins with its name: of that list, and of what stands behind the name, no clause speaks.
//! - CLAIM: `Judge::places`; `Listen::places`; `HostGames::places`: which places a task names; so is each other `places`.
//! - CLAIM: `CacheSize::of`, clauses `some`, `none`: the number of `--cache` is read exactly where it is decimal digits, perhaps after a
//!   plus, in its range. So is that of `--delay`, by the private `delay_of` of `numbers`.
#![tactic(auto)]

mod commands;
mod words;

pub use commands::{
    Audit, AuditGames, Check, Enter, Entries, Follow, FollowGame, FollowGames, Form, GameFile,
    GameRecord, HostGames, Judge, JudgePgn, List, Listen, Moves, Name, OneGame, Probe, Probes,
    Root, RunSchedule, Send, SentGame, Serve, Show, ShowRecord, ShowStatus, Stands, Task, ToldGame,
    Value, Version, parse,
};
pub use words::addresses::{addresses_in, is_one};
pub use words::lazy_folders::read_when_asked;
pub use words::numbers::{CacheSize, Megabytes, StoreForm};
pub use words::usage::{Instead, Misuse, Usage, ValueFault, Wanted, WordsFault};
pub use words::uses::tell_misuse;
