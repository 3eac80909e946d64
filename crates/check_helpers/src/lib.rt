//! What the tests of several crates are made from: `checks`, `checks_games` and `checks_io` build on this crate, and no other may.
//!
//! - `failing_writer`: `Failing`, a writer and an output that takes 16 bytes at once and fails from the call of a number on
//! - `files`: `file_of` makes a table file of 80 bytes from its first ones; `QUEEN` and `QUEEN_PLIES` are two such fronts
//! - `positions`: `START`, the FEN text of the usual start; `moves_of`, the moves of a text such as "e2e4 e7e5"
//!
//! Disks, ports, files and others in memory are those of `system_fakes`.
//!
//! In go texts, fronts and numbers that stand in a test, and out come values of the libraries. No function here ends the process,
//! as an assertion does: what can fail is told by the result, since the gate refuses a library with the bound `Abort`. So
//! comparisons that end a test, and positions and moves of texts that must be good, stand in the test crates (`comparing`,
//! `positions`), and so does what one of them alone uses. No function has a contract beyond its trait's: a test is proved to be
//! safe, and no more. It has no definitions of its own, and no tests: those of the three crates use it.
//!
//! The test crates are crates of their own, since a crate is proved a second time for its tests, and use public calls alone. Their
//! modules stand in `src/tests/`. A row of words and results is a case of `rows` and not a test. `tools/planted` and the edits in
//! `must-fail/` show what the contracts refuse; tests show what no contract says. One of them: `rt test -- NAME` in its crate, where
//! NAME is a part of its name or of its file's.
#![tactic(auto)]

mod failing_writer;
mod files;
mod positions;

pub use failing_writer::Failing;
pub use files::{QUEEN, QUEEN_PLIES, file_of};
pub use positions::{START, moves_of};
