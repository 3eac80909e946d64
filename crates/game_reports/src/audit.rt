//! `audit --games`: the audit of the games of a folder, or of two.

ghost use Rattle.std.specs.Prelude.{OnErr, option_map};
ghost use Rattle.answer_parts.specs.Printing.{OutputFails, Performs};
ghost use Rattle.game_reports.specs.Audits.{AuditsBy, AuditsGames, AuditsWith};
ghost use Rattle.timeline.specs.Outsides.{AddsSome};

use crate::folders::open_games;
use crate::telling::{LookTeller, print_games};
use answer_parts::{Refusal, gather, manifest_of_sources, print_refusal, print_unread};
use command_line::{AuditGames, CacheSize};
use game_status::{AuditTables, GameTold, Look, audit_of, audit_told};
use move_msg::Stamp;
use std::alloc::{AllocError, Global};
use system_io::WriteFault;
use task_files::{Inputs, read_inputs};
use timeline::System;

/// What audits games.
#[derive(Drop)]
struct AuditLines<'a> {
    tables: AuditTables<'a>,
}

impl<'a> LookTeller for AuditLines<'a> {
    ghost use Rattle.game_reports.specs.Audits.{IsAuditLine};

    ghost tells = { λ a. IsAuditLine a.tables.manifest.now a.tables.set.tables };

    fn tell(&mut self, alloc: Global, stamp: Stamp, look: Look) -> Result<GameTold, AllocError> {
        let audit = audit_of(alloc, &mut self.tables, stamp, look)?;
        Ok(audit_told(stamp, &audit))
    }
}

/// Audits the games of the folders by these tables, and returns the status.
fn audit_folders<S: System>(
    alloc: Global,
    task: &AuditGames<'_>,
    tables: AuditTables<'_>,
    system: &S,
    timeline: &mut S::Timeline,
) -> Result<u8, WriteFault>
    ensures made { let o = S.outside system.now in AddsSome o timeline.old timeline.new (Performs (AuditsWith o task.now tables.entry) result) }
    ensures cause { OnErr result (OutputFails (S.outside system.now)) }
{
    match open_games(alloc, system, timeline, task.games, task.other) {
        Ok(folders) => print_games(
            alloc,
            &folders,
            &mut AuditLines { tables },
            system,
            timeline,
        ),
        Err(refusal) => print_refusal(system, timeline, refusal),
    }
}

/// Audits the games of the folders by the tables of the files, or refuses these, and returns the status.
fn audit_by<S: System>(
    alloc: Global,
    task: &AuditGames<'_>,
    sources: &Inputs,
    system: &S,
    timeline: &mut S::Timeline,
) -> Result<u8, WriteFault>
    ensures made { AddsSome (S.outside system.now) timeline.old timeline.new (Performs (AuditsBy (S.outside system.now) task.now sources.now) result) }
    ensures cause { OnErr result (OutputFails (S.outside system.now)) }
{
    let set = match gather(alloc, sources, CacheSize::usual()) {
        Ok(Ok(set)) => set,
        Ok(Err(refusal)) => return print_refusal(system, timeline, refusal),
        Err(_) => return print_refusal(system, timeline, Refusal::Memory),
    };
    let manifest = match manifest_of_sources(alloc, sources) {
        Ok(manifest) => manifest,
        Err(_) => return print_refusal(system, timeline, Refusal::Memory),
    };
    let tables = AuditTables {
        set,
        manifest: &manifest,
    };
    audit_folders(alloc, task, tables, system, timeline)
}

/// Audits the games of a folder, or of two, by the tables that the task names and the stores of the folders: a line each, in rising order of
/// their stamps, and then their sums. Returns the status, 0 where nothing is at fault and nothing differs, else 1.
///
/// The tables are read and refused first. Games, their faults and the refusals of their folders are those of `report_status`. Then a game's
/// file has to be that of its stamp, and each record is judged as `record_audit::audit` judges it. A game of which nothing is kept is no
/// fault. The error comes only where the output may fail.
pub fn print_audit<S: System>(
    alloc: Global,
    task: &AuditGames<'_>,
    system: &S,
    timeline: &mut S::Timeline,
) -> Result<u8, WriteFault>
    ensures made { AddsSome (S.outside system.now) timeline.old timeline.new (Performs (AuditsGames (S.outside system.now) task.now) result) }
    ensures cause { OnErr result (OutputFails (S.outside system.now)) }
{
    let names = task.places();
    match read_inputs(alloc, system, timeline, &names) {
        Ok(sources) => audit_by(alloc, task, &sources, system, timeline),
        Err(fault) => print_unread(system, timeline, fault, 1),
    }
}
