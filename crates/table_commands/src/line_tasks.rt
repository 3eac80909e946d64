//! Commands that answer the lines of the input by tables.

ghost use Rattle.std.specs.Prelude.{◌≡◌, OnErr};
ghost use Rattle.answer_parts.specs.Printing.{OutputFails, Performs};
ghost use Rattle.move_msg.specs.ToldBy.{told_by};
ghost use Rattle.table_commands.specs.FolderReads.{no_tables, DoesOver};
ghost use Rattle.table_commands.specs.LineTasks.{AnswersLinesOf, DoesGiven, LineAsking, AnswersInFolder, AnswersOfGiven};
ghost use Rattle.task_files.specs.Sources.{named_by};
ghost use Rattle.timeline.specs.Outsides.{AddsSome};

use crate::folders::{OpenFolder, arena_for};
use answer_parts::{Refusal, gather, print_refusal, print_unread};
use command_line::{CacheSize, Megabytes};
use judge_core::Set;
use move_msg::Manifest;
use std::alloc::Global;
use system_io::WriteFault;
use table_folder::SystemFiles;
use task_files::{InputPaths, Inputs, read_inputs};
use timeline::System;

/// A task that answers each line of the input by tables.
pub trait LineTask {
    /// What it names, and what is done by tables.
    ghost asking: { Self → LineAsking };

    /// What is read for it before it answers.
    fn names(&self) -> InputPaths<'_>
        ensures { named_by result ≡ (asking self.now).named };

    /// The folder whose tables are read when a line asks for them; none where all are read before.
    fn asked_folder(&self) -> Option<&str>
        ensures { result ≡ (asking self.now).path };

    /// How many megabytes the tables that stay open may take, where that is bounded.
    fn memory(&self) -> Option<Megabytes>;

    /// Answers the lines by a folder of which no table is open.
    fn answer_by_folder<S: System>(
        &self,
        alloc: Global,
        folder: OpenFolder<'_, '_, S>,
        system: &S,
        timeline: &mut S::Timeline,
    ) -> Result<u8, WriteFault>
        requires from { folder.on.disk.system.now ≡ system.now }
        requires empty { folder.tables ≡ no_tables }
        ensures made { DoesOver (S.outside system.now) timeline.old timeline.new (λ disk input. (asking self.now).InFolder disk input folder.entry.on.folder) result }
        ensures cause { OnErr result (OutputFails (S.outside system.now)) };

    /// Answers the lines by tables that were read.
    fn answer_by_tables<S: System>(
        &self,
        alloc: Global,
        set: Set<'_>,
        system: &S,
        timeline: &mut S::Timeline,
    ) -> Result<u8, WriteFault>
        ensures made { DoesOver (S.outside system.now) timeline.old timeline.new (λ _ input. (asking self.now).ByTables input set.entry.tables) result }
        ensures cause { OnErr result (OutputFails (S.outside system.now)) };
}

/// Answers the lines by the folder at a path, or writes the refusal of its manifest or of the folder.
fn answer_in<L: LineTask, S: System>(
    alloc: Global,
    task: &L,
    path: &str,
    manifest: &Manifest,
    system: &S,
    timeline: &mut S::Timeline,
) -> Result<u8, WriteFault>
    ensures made { DoesOver (S.outside system.now) timeline.old timeline.new (AnswersInFolder (L.asking task.now) path.now (told_by manifest.now)) result }
    ensures cause { OnErr result (OutputFails (S.outside system.now)) }
{
    let files = SystemFiles { system };
    let arena = arena_for(alloc, task.memory());
    match OpenFolder::at(alloc, &files, timeline, path, manifest, &arena) {
        Ok(Ok(folder)) => task.answer_by_folder(alloc, folder, system, timeline),
        Ok(Err(refusal)) => print_refusal(system, timeline, refusal),
        Err(_) => print_refusal(system, timeline, Refusal::Memory),
    }
}

/// Answers the lines by the tables of files, or writes the refusal of the first one at fault.
fn answer_of<L: LineTask, S: System>(
    alloc: Global,
    task: &L,
    sources: &Inputs,
    system: &S,
    timeline: &mut S::Timeline,
) -> Result<u8, WriteFault>
    ensures made { DoesOver (S.outside system.now) timeline.old timeline.new (λ _. AnswersOfGiven (L.asking task.now) sources.now) result }
    ensures cause { OnErr result (OutputFails (S.outside system.now)) }
{
    match gather(alloc, sources, CacheSize::usual()) {
        Ok(Ok(set)) => task.answer_by_tables(alloc, set, system, timeline),
        Ok(Err(refusal)) => print_refusal(system, timeline, refusal),
        Err(_) => print_refusal(system, timeline, Refusal::Memory),
    }
}

/// Answers the lines by the tables that they ask for, or by those that were read.
fn answer_given<L: LineTask, S: System>(
    alloc: Global,
    task: &L,
    sources: &Inputs,
    system: &S,
    timeline: &mut S::Timeline,
) -> Result<u8, WriteFault>
    ensures made { DoesOver (S.outside system.now) timeline.old timeline.new (λ disk input. DoesGiven disk input (L.asking task.now) sources.now) result }
    ensures cause { OnErr result (OutputFails (S.outside system.now)) }
{
    match task.asked_folder() {
        Some(path) => answer_in(alloc, task, path, sources.manifest(), system, timeline),
        None => answer_of(alloc, task, sources, system, timeline),
    }
}

/// Reads what a task names, and then answers each line of the input as it comes, by the tables of a folder, or writes the refusal of these.
/// Returns the status, 0 where all answers are complete, else 1.
///
/// Each line is answered before the next one has to arrive, and memory is that of the longest line. Where memory is
/// refused, the line `refused memory` follows the whole lines before it; where the input fails, `refused files`.
/// With `--progress` the number of lines done goes to standard error after every 10,000; without it nothing is written
/// there. The error comes only where the output failed.
///
/// A table is read when a line asks for it, and the file of one that is at fault is refused as the answer of each line that needs it. Where
/// all are read before, the first file at fault is refused.
pub fn answer_lines_of<L: LineTask, S: System>(
    alloc: Global,
    task: &L,
    system: &S,
    timeline: &mut S::Timeline,
) -> Result<u8, WriteFault>
    ensures made { AddsSome (S.outside system.now) timeline.old timeline.new (Performs (AnswersLinesOf (S.outside system.now) (L.asking task.now)) result) }
    ensures cause { OnErr result (OutputFails (S.outside system.now)) }
{
    let names = task.names();
    match read_inputs(alloc, system, timeline, &names) {
        Ok(sources) => answer_given(alloc, task, &sources, system, timeline),
        Err(fault) => print_unread(system, timeline, fault, 1),
    }
}
