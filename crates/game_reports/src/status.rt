//! `status`: how far the games of a folder have come, or those of two, as lines, as metrics or as JSON.

ghost use Rattle.std.specs.Prelude.{OnErr};
ghost use Rattle.answer_parts.specs.Printing.{OutputFails, Performs};
ghost use Rattle.game_reports.specs.Inside.Reporting.{ReportsIn};
ghost use Rattle.game_reports.specs.Statuses.{ReportsStatus};
ghost use Rattle.timeline.specs.Outsides.{AddsSome};

use crate::folders::{GameFolders, open_games};
use crate::report::print_report;
use crate::telling::{LookTeller, print_games};
use answer_parts::print_refusal;
use command_line::ShowStatus;
use game_status::{GameTold, Look, ReportForm, told_by};
use move_msg::Stamp;
use std::alloc::{AllocError, Global};
use system_io::WriteFault;
use timeline::System;

/// What tells how far games have come.
#[derive(Drop)]
struct StatusLines;

impl LookTeller for StatusLines {
    ghost use Rattle.game_reports.specs.Statuses.{IsStatusLine};

    ghost tells = { λ _. IsStatusLine };

    fn tell(&mut self, _alloc: Global, stamp: Stamp, look: Look) -> Result<GameTold, AllocError> {
        Ok(told_by(stamp, &look))
    }
}

/// Reports how far the games of folders have come, and returns the status.
fn report_games<S: System>(
    alloc: Global,
    folders: &GameFolders<'_>,
    report: Option<ReportForm>,
    system: &S,
    timeline: &mut S::Timeline,
) -> Result<u8, WriteFault>
    ensures made { AddsSome (S.outside system.now) timeline.old timeline.new (Performs (ReportsIn (S.outside system.now) report folders.now) result) }
    ensures cause { OnErr result (OutputFails (S.outside system.now)) }
{
    match report {
        None => print_games(alloc, folders, &mut StatusLines, system, timeline),
        Some(form) => print_report(alloc, folders, form, system, timeline),
    }
}

/// Reports how far the games of a folder have come, or those of two and whether they agree, by the stores of the folders. Returns the
/// status, 0 where nothing is at fault and nothing differs, else 1; of a report 0 where it is written.
///
/// In lines: one for each game, in rising order of their stamps, and then their sums. A game is one whose file a folder lists as
/// `STAMP.game`; its record is that of the folder's store, or else the file `STAMP.kept`, where that is listed. No move is judged. Memory is
/// that of the names of a folder, of the records of the stores and of one game. As a report: all games are read before its text is written.
///
/// `refused files` comes alone where a folder can't be listed, `refused store` where its store can't be read, `refused memory` where memory
/// is refused, after the whole lines before it. The error comes only where the output may fail.
pub fn report_status<S: System>(
    alloc: Global,
    task: &ShowStatus<'_>,
    system: &S,
    timeline: &mut S::Timeline,
) -> Result<u8, WriteFault>
    ensures made { AddsSome (S.outside system.now) timeline.old timeline.new (Performs (ReportsStatus (S.outside system.now) task.now) result) }
    ensures cause { OnErr result (OutputFails (S.outside system.now)) }
{
    match open_games(alloc, system, timeline, task.games, task.other) {
        Ok(folders) => report_games(alloc, &folders, task.report, system, timeline),
        Err(refusal) => print_refusal(system, timeline, refusal),
    }
}
