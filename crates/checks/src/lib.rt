//! Tests of the libraries below the arbiters by their public calls, of what no contract says and no case of `rows` shows.
//!
//! Texts, bytes and numbers that stand in a test go in; a test comes to its end, or it ends the process where a value is another one.
//! Expected values come from outside the code: the rules of chess, a script's plain count, known digests, the formats' worked rows.
//!
//! - `board_tests`: sets of squares, positions whose moves are known apart from the code, and each call of `board_core` once
//! - `seeded_tests`: a hundred indices of each material, folded to sums that `tools/count_placements` prints from a plain count
//! - `forge_tests`: the bytes of forged table files
//! - `root_tests`: root moves whose values the rules of chess decide, by a set without tables
//! - `determined_tests`: values and distances that are the same whatever a missing table holds
//! - `message_tests`: the worked messages, and streams in pieces
//! - `record_tests`, `manifest_tests`: the worked records; digests, stamps and manifests
//! - `refusal_tests`: that no refused memory changes an answer of a probe
//!
//! `positions`, `files` and `comparing` are what these tests share: positions by FEN texts, forged files, and comparisons that end
//! a test. All stand in `src/tests/`. What other crates' tests use too stands in `check_helpers`, whose head says what is a test and
//! how to run one. It has no definitions of its own.
#![tactic(auto)]

#[cfg(test)]
mod tests;
