//! Tests of arbiters and of worlds by their public calls, of what no contract says and no case of `rows` shows.
//!
//! Games, schedules and keepers that fail go in; a test comes to its end, or it ends the process where a record or an answer is another one.
//! Random runs go by a seed that stands in the test.
//!
//! - `opening_tests`: keepers that fail, and delays
//! - `fetching_tests`: what is passed on of the longest game
//! - `world_tests`: schedules, and what is said of them
//! - `seeded_world_tests`: random schedules against a plain model
//!
//! `positions`, `arbiters` and `comparing` are what these tests share. All stand in `src/tests/`. What other crates' tests use
//! too stands in `check_helpers`, whose head says what is a test and how to run one. It has no definitions of its own.
//!
//! Tests of a server of games (`game_server`) stand in `tools/weather/rows`, and are run beside these without proof
//! (`tools/weather/run_rows`).
#![tactic(auto)]

#[cfg(test)]
mod tests;
