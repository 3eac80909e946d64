//! The replies of `record` and `audit` of kept files.
//!
//! Each is a module with a function `answer`, which takes the task that `parse` of command_line made, and what was read for it.
//!
//! Inside: a file for each command, with its definitions in the file of the same name in `specs/`; `laws`, what is true of several.
//!
//! Definitions, in reading order: `Audits`, those of the commands, `AuditAgreements`. Its cases stand in `rows`;
//! `tools/audit_kept` and `tools/audit_games` try the audits of the program as it is built.
//!
//! - CLAIM: `audit::answer`, clause `ok`: each kept file is judged as an arbiter of the game judges it at its opening; of two records the
//!   answer has the ply at which they part.
//! - CLAIM: `laws::games_are_audited_alike`: what `audit --games` tells of a game whose record a folder keeps is what `audit` tells of that
//!   record, behind the game's stamp.
//! - CLAIM: `record::answer`, clause `ok`: the contents of a kept record are told.
#![tactic(auto)]

pub mod audit;
pub mod laws;
pub mod record;
