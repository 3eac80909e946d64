//! Kept files held to the rules of a game, and two of them to one another.
//!
//! The bytes of a kept file and the rules of a game go in (`Auditor`: its stamp, start, delay and tables); a `Finding` comes out, by the
//! definitions of an arbiter's opening, with the record where the bytes spell one (`Audited`). `judge_moves` does so for a record that
//! has been read. `compare_records` and `compare_files` give the first ply at which two records part. No file is read and nothing is
//! written here: `game_status` and `record_commands` read the files and write the lines, so it stands below both.
//!
//! Inside: `auditing` has all of it.
//!
//! Definitions, in reading order: `Findings` (`IsFound`, `IsComparison`), over `Opens` of `arbiter_core`. Its cases stand in
//! `records.txt` and `game_audits.txt` of `rows`; `tools/audit_kept` compares what it accepts with what `listen` accepts.
//!
//! - CLAIM: `audit`, clauses `found`, `spelled`, `none`, `memory`: the finding is `Whole` exactly where an arbiter of the game
//!   resumes from the bytes, or else why it refuses them. Memory may be refused only where an opening may want it.
//! - CLAIM: `judge_moves`, clauses `found`, `own`, `memory`: the same of a record whose stamp and delay are the game's.
//! - CLAIM: `compare_files`; `are_whole_and_agree`: two files that both spell records part at the first ply at which their moves
//!   or verdicts do; records of different games part at ply 0.
#![tactic(auto)]

mod auditing;

pub use auditing::{
    Audited, Auditor, Finding, are_whole_and_agree, audit, compare_files, compare_records,
    judge_moves,
};
