//! What the answers of several commands share: lines and refusals, and what is made of files and folders before an answer.
//!
//! An `Answer` is a value, and `print_replied` writes it, with the status: 0 where all is done, 1 where something is refused. `gather` makes
//! a set of tables of the files that were read, `manifest_of_sources` the manifest by which a game is stamped.
//!
//! Inside: `answers` with `lines`, `refusals`, each line laid out by `LineWords` of `line_teller` (its parts in `line_parts`), which doesn't
//! fail, and written at once; `json_faults`, texts that are no position, as JSON;
//! `tables`, `manifests`; `printing`, lines and refusals that are written over a system with a timeline.
//!
//! Definitions, in reading order: `Lines`, `Reply`, `JsonAnswers`, `Asked` (what an `Answer` is) for answers;
//! `Printing` (`Performs`, `IsCutIn`: what a command does, or a front of it where the output fails);
//! `Looks`, `Refusals` for files. Its cases stand in `rows`.
//!
//! - CLAIM: `print_lines`, `print_refusal`, `print_unread`, `print_reply`, `print_replied`: lines, or the text of a reply in pieces, are written to
//!   the output of a system, each at once, and nothing else happens; an error comes only where a write may be refused, and leaves a front of them.
//! - CLAIM: `gather`, clause `tables`: without a manifest the set has the tables of all files, with one those that its lines name, in its
//!   order; or the first file at fault is refused.
#![tactic(auto)]

mod answers;
mod manifests;
mod printing;
mod tables;

pub use answers::json_faults::fault_line;
pub use answers::lines::{KeptCount, Line, RootLine};
pub use answers::refusals::{EntryFault, Refusal};
pub use answers::{Answer, status_if};
pub use manifests::manifest_of_sources;
pub use printing::{print_lines, print_refusal, print_replied, print_reply, print_unread};
pub use tables::gather;
