//! `pgn`: what tables say of the games of a PGN file, a line each.

ghost use Rattle.std.specs.Prelude.{◌≡◌, OnErr, option_map};
ghost use Rattle.answer_parts.specs.Printing.{OutputFails, Performs};
ghost use Rattle.pgn_teller.specs.Ratings.{ruled_by};
ghost use Rattle.pgn_teller.specs.Reports.{terms_of};
ghost use Rattle.answer_parts.specs.Looks.{gathered};
ghost use Rattle.table_commands.specs.FolderReads.{DoesOfGiven, DoesOver};
ghost use Rattle.table_commands.specs.Pgn.{JudgesBy, JudgesOf, JudgesPgn, OpensLines, ReportsFile, form_by, found_as, terms_by};
ghost use Rattle.timeline.specs.Outsides.{AddsSome};
ghost use Rattle.table_commands.specs.Inside.Asking.{JudgesAtPlace};

use crate::folders::{FolderPlace, OpenFolder, arena_for};
use crate::judging::Course;
use answer_parts::{Refusal, gather, print_refusal, print_unread, status_if};
use board_core::Delay;
use command_line::{CacheSize, JudgePgn, read_when_asked};
use judge_core::GameOutcome;
use pgn_games::Game;
use pgn_teller::{Form as LineForm, GameReporter, GameRuler, Ruled, SetRuler, report, ruled_by};
use std::alloc::{AllocError, Global};
use system_io::{ReadFault, WriteFault};
use table_folder::{FileRefusal, SystemFiles};
use task_files::{Inputs, read_inputs};
use timeline::System;

/// How lines are written.
fn form_by(json: bool) -> LineForm
    ensures { result ≡ form_by json }
{
    if json {
        LineForm::Json
    } else {
        LineForm::Words
    }
}

/// By what rules the games.
fn reporter_by<R>(alloc: Global, task: &JudgePgn<'_>, ruler: R) -> GameReporter<R>
    ensures terms { terms_of result ≡ terms_by task.now }
    ensures ruler { result.ruler ≡ ruler }
{
    GameReporter {
        alloc,
        ruler,
        form: form_by(task.json),
        only_differing: task.differ,
    }
}

/// What a game is ruled as by what it comes to.
fn ruling_by(
    found: Result<Result<GameOutcome, FileRefusal>, AllocError>,
) -> Result<Result<Option<Ruled>, FileRefusal>, AllocError>
    ensures { result ≡ found_as ruled_by found }
{
    match found {
        Ok(Ok(outcome)) => Ok(Ok(ruled_by(outcome))),
        Ok(Err(refusal)) => Ok(Err(refusal)),
        Err(e) => Err(e),
    }
}

/// Rules games by the tables of a folder, of which those are read that a game asks for.
#[derive(Drop)]
struct FolderRuler<'r, 's, S: System> {
    /// The folder.
    folder: OpenFolder<'r, 's, S>,
    /// For how many further plies a verdict by tables must hold.
    delay: Delay,
}

impl<'r, 's, S: System> GameRuler<S> for FolderRuler<'r, 's, S> {
    ghost use Rattle.std.specs.Prelude.{◌≡◌};
    ghost use Rattle.judge_core.specs.Tables.{Tables};
    ghost use Rattle.table_commands.specs.Pgn.{RulesIn};

    ghost Known = { Tables };

    ghost reads_from = { λ r system. r.folder.on.disk.system.now ≡ system };

    ghost known = { λ r. r.folder.tables };

    ghost rules = { λ r. RulesIn r.delay (S.outside r.folder.on.disk.system.now).disk r.folder.on.folder };

    fn rule(
        &mut self,
        _alloc: Global,
        _system: &S,
        timeline: &mut S::Timeline,
        game: &Game,
    ) -> Result<Result<Option<Ruled>, FileRefusal>, AllocError> {
        let course = Course {
            start: &game.start,
            moves: &game.moves,
            delay: self.delay,
        };
        let found = self.folder.ask(timeline, &course);
        ruling_by(found)
    }
}

/// The lines of the file that is named, or else of the input, none of them read yet.
fn open_lines<S: System>(
    alloc: Global,
    file: Option<&str>,
    system: &S,
    timeline: &mut S::Timeline,
) -> Result<S::Lines, ReadFault>
    ensures { AddsSome (S.outside system.now) timeline.old timeline.new (OpensLines (S.outside system.now) (option_map (λ s. s.now) file.entry) result) }
{
    match file {
        Some(path) => system.file_lines(timeline, alloc, path),
        None => match system.input_lines(timeline, alloc) {
            Ok(lines) => Ok(lines),
            Err(_) => Err(ReadFault::OutOfMemory),
        },
    }
}

/// Reports the games of the file that is named, or else of the input, as they are ruled. Returns the status.
fn report_file<S: System, R: GameRuler<S> + Drop>(
    alloc: Global,
    task: &JudgePgn<'_>,
    ruler: R,
    system: &S,
    timeline: &mut S::Timeline,
) -> Result<u8, WriteFault>
    requires { R.reads_from ruler system.now }
    ensures made { DoesOver (S.outside system.now) timeline.old timeline.new (λ d input. ReportsFile d input task.now (R.rules ruler) (R.known ruler)) result }
    ensures cause { OnErr result (OutputFails (S.outside system.now)) }
{
    let mut lines = match open_lines(alloc, task.file, system, timeline) {
        Ok(lines) => lines,
        Err(fault) => return print_unread(system, timeline, fault, 1),
    };
    let mut reporter = reporter_by(alloc, task, ruler);
    match report(&mut reporter, system, timeline, &mut lines) {
        Ok(well) => Ok(status_if(well)),
        Err(fault) => Err(fault),
    }
}

/// Reports the games by the tables of files, or writes the refusal of the first file at fault.
fn judge_by_all<S: System>(
    alloc: Global,
    task: &JudgePgn<'_>,
    given: &Inputs,
    system: &S,
    timeline: &mut S::Timeline,
) -> Result<u8, WriteFault>
    ensures made { DoesOver (S.outside system.now) timeline.old timeline.new (λ d input. DoesOfGiven (gathered given.now) (JudgesOf d input task.now)) result }
    ensures cause { OnErr result (OutputFails (S.outside system.now)) }
{
    match gather(alloc, given, CacheSize::usual()) {
        Ok(Ok(set)) => {
            let delay = task.delay;
            report_file(alloc, task, SetRuler { set, delay }, system, timeline)
        }
        Ok(Err(refusal)) => print_refusal(system, timeline, refusal),
        Err(_) => print_refusal(system, timeline, Refusal::Memory),
    }
}

/// Reports the games by the folder at a path, or writes the refusal of its manifest or of the folder.
fn judge_in_folder<S: System>(
    alloc: Global,
    task: &JudgePgn<'_>,
    place: &FolderPlace<'_, SystemFiles<'_, S>>,
    timeline: &mut S::Timeline,
) -> Result<u8, WriteFault>
    ensures made { DoesOver (S.outside place.now.disk.now.system.now) timeline.old timeline.new (JudgesAtPlace place.now task.now) result }
    ensures cause { OnErr result (OutputFails (S.outside place.now.disk.now.system.now)) }
{
    let system = place.disk.system;
    let arena = arena_for(alloc, task.memory);
    match OpenFolder::at(
        alloc,
        place.disk,
        timeline,
        place.path,
        place.manifest,
        &arena,
    ) {
        Ok(Ok(folder)) => {
            let delay = task.delay;
            report_file(alloc, task, FolderRuler { folder, delay }, system, timeline)
        }
        Ok(Err(refusal)) => print_refusal(system, timeline, refusal),
        Err(_) => print_refusal(system, timeline, Refusal::Memory),
    }
}

/// Reports the games by what was read before: the tables, or their manifest alone.
fn judge_by<S: System>(
    alloc: Global,
    task: &JudgePgn<'_>,
    given: &Inputs,
    system: &S,
    timeline: &mut S::Timeline,
) -> Result<u8, WriteFault>
    ensures made { DoesOver (S.outside system.now) timeline.old timeline.new (λ disk input. JudgesBy disk input task.now given.now) result }
    ensures cause { OnErr result (OutputFails (S.outside system.now)) }
{
    match read_when_asked(!task.all_tables, Some(task.tables)) {
        Some(path) => {
            let files = SystemFiles { system };
            let manifest = given.manifest();
            let place = FolderPlace {
                disk: &files,
                path,
                manifest,
            };
            judge_in_folder(alloc, task, &place, timeline)
        }
        None => judge_by_all(alloc, task, given, system, timeline),
    }
}

/// Writes a line for each game of the file, or of the input, as it is read, and last the sums; or the refusal of the tables. Returns the
/// status, 0 where no game was at fault, else 1.
///
/// A game's line is its number, its plies, the ply of its first verdict or `-`, the verdict or `open`, the result that stands in the
/// file, and `agree`, `differ` or `-`; with `--json` an object (RFC 8259). A game at fault has its line and its plies, and the
/// next one goes on. With `--differ` only the lines of games are written that differ. Each line has gone out before more is read. Memory is
/// that of one game. Where it is refused, `refused memory` is the last line, and where the file or the input can't be read on, `refused files`.
///
/// A table is read when a position of a game asks for it. A game that needs one whose file is at fault is reported by its number, the
/// file's name and the fault; it counts as a game at fault, and the next one goes on. With `--all-tables` all are read before, and the
/// first file at fault is refused.
///
/// What the task names is read first, then the folder is listed, and then the file or the input is opened. The error comes only where the
/// output failed; nothing is done behind that.
pub fn answer<S: System>(
    alloc: Global,
    task: &JudgePgn<'_>,
    system: &S,
    timeline: &mut S::Timeline,
) -> Result<u8, WriteFault>
    ensures made { AddsSome (S.outside system.now) timeline.old timeline.new (Performs (JudgesPgn (S.outside system.now) task.now) result) }
    ensures cause { OnErr result (OutputFails (S.outside system.now)) }
{
    let names = task.places();
    match read_inputs(alloc, system, timeline, &names) {
        Ok(given) => judge_by(alloc, task, &given, system, timeline),
        Err(fault) => print_unread(system, timeline, fault, 1),
    }
}
