//! The adjudicator's program: words in, lines and a status out.
//!
//! `run_program` takes all words that a program was called with, lets `parse` of command_line make a task of them, and answers it over the
//! timeline: by `answer_commands`, or where it is `serve` by `serve_core`. The man page of a command has its lines; the statuses are 0 done,
//! 1 refused, 2 misuse.
//!
//! Inside: `program`, the words; `misusing`, words that are no task; `serving`, `serve` and the output's end. Requests of HTTP are answered by
//! `serve`, where they come (`Pages`), which is no part of the timeline.
//!
//! Definitions, in reading order: `Misusing` (`TellsAndEnds`), `Serving` (`ServesAndEnds`), `Program` (`Runs`). Its cases stand in `rows`,
//! nearly all of its files.
//!
//! - CLAIM: `run_program`: the words are those of one task, and the program does what the definition of its command says; or they are
//!   misused, which is said on standard error, and nothing else is written; or memory was refused, which is the one line. That is each event
//!   on the timeline, in order, and there is no other one. Of `serve` it stays open which files of tables its requests read.
//! - CLAIM: `run_program`: the status is that of the command, or 2 for a misuse, where all that was written to the output has gone out, and else
//!   1, which is noted.
#![tactic(auto)]

mod misusing;
mod program;
mod serving;

pub use program::{refuse_memory, run_program};
