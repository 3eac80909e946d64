//! `check`: whether the tables in a folder are those of a manifest.

ghost use Rattle.std.specs.Prelude.{◌≡◌, List, map, IfOk, OnErr};
ghost use Rattle.answer_commands.specs.Check.{ChecksFolder, check_reply, checked_by};
ghost use Rattle.answer_commands.specs.Inside.Looking.{IsSeenOf, fault_seen, reply_seen, sight_of};
ghost use Rattle.answer_parts.specs.Printing.{OutputFails, Performs};
ghost use Rattle.answer_commands.specs.Replies.{RepliesTo};
ghost use Rattle.answer_parts.specs.Asked.{reply_of};
ghost use Rattle.move_msg.specs.Files.{File};
ghost use Rattle.move_msg.specs.Manifests.{entry_of};
ghost use Rattle.move_msg.specs.ToldBy.{told_by};
ghost use Rattle.task_files.specs.Made.{AreMadeOf};
ghost use Rattle.timeline.specs.Outsides.{AddsSome};

use answer_parts::{Answer, Line, Refusal, print_replied, print_unread};
use command_line::Check;
use move_msg::{Line as Entry, Manifest, NamedFile};
use std::alloc::{AllocError, Global};
use system_io::{ReadFault, WriteFault};
use table_folder::{FileFault, open_file};
use task_files::{TableRequest, look_at_tables, manifest_at};
use timeline::System;

/// What is found of a file: its line in a manifest, and why it is no table, if it isn't one.
#[derive(Clone, Copy)]
pub(crate) struct FileCheck {
    /// Its line.
    pub(crate) entry: Entry,
    /// Why it is no table.
    pub(crate) fault: Option<FileFault>,
}

impl TableRequest for FileCheck {
    ghost use Rattle.answer_commands.specs.Inside.Looking.{IsSeenOf};

    ghost made_of = { IsSeenOf };

    fn of(alloc: Global, file: NamedFile) -> Result<FileCheck, AllocError> {
        let found = open_file(alloc, file.name.as_str(), &file.bytes)?;
        Ok(FileCheck {
            entry: Entry::of(file.name, &file.bytes),
            fault: found.err(),
        })
    }
}

/// Why the looks don't meet a line of a manifest; none where they do.
fn fault_in(seen: &[FileCheck], line: &Entry) -> Option<FileFault>
    ensures { result ≡ fault_seen (map sight_of seen.now) (entry_of line.now) }
{
    for file in seen {
        if file.entry.name.as_str() == line.name.as_str() {
            return if file.entry.digest == line.digest {
                file.fault
            } else {
                Some(FileFault::Changed)
            };
        }
    }
    Some(FileFault::Missing)
}

/// The findings for the lines of a manifest, a line each, and whether all are `ok`.
fn check_lines(alloc: Global, seen: &[FileCheck], entries: &[Entry]) -> Result<Answer, AllocError>
    ensures { IfOk result (λ a. reply_of a ≡ reply_seen (map sight_of seen.now) (map entry_of entries.now)) }
{
    let mut lines = Vec::new(alloc);
    let mut done = true;
    for entry in entries {
        let fault = fault_in(seen, entry);
        lines.push(Line::Look(entry.name, fault))?;
        done &= fault.is_none();
    }
    Ok(Answer::Lines(lines, done))
}

/// The findings for a manifest, or its refusal.
fn check_manifest(
    alloc: Global,
    seen: &[FileCheck],
    manifest: &Manifest,
) -> Result<Answer, AllocError>
    ensures { IfOk result (λ a. (files : List File) → AreMadeOf IsSeenOf seen.now files → reply_of a ≡ checked_by files (told_by manifest.now)) }
{
    match manifest {
        Manifest::Unnamed => Ok(Answer::Lines(Vec::new(alloc), true)),
        Manifest::Lines(lines) => check_lines(alloc, seen, lines),
        Manifest::BadLine(number) => Ok(Answer::Refused(Refusal::Manifest(*number))),
    }
}

/// Reads the files of a folder that a manifest names one by one, writes what is found of each, or the refusal of the manifest, and returns
/// the status.
fn check_folder<S: System>(
    alloc: Global,
    task: &Check<'_>,
    manifest: &Manifest,
    system: &S,
    timeline: &mut S::Timeline,
) -> Result<u8, WriteFault>
    ensures made { AddsSome (S.outside system.now) timeline.old timeline.new (Performs (ChecksFolder (S.outside system.now) task.now manifest.now) result) }
    ensures cause { OnErr result (OutputFails (S.outside system.now)) }
{
    let looked: Result<Vec<FileCheck>, ReadFault> = look_at_tables(
        alloc,
        system,
        timeline,
        task.folder,
        manifest,
        task.progress,
    );
    match looked {
        Ok(seen) => print_replied(system, timeline, check_manifest(alloc, &seen, manifest)),
        Err(fault) => print_unread(system, timeline, fault, 1),
    }
}

/// Reads a manifest, and then the files of a folder that it names one by one, writes a line for each line of the manifest, or its refusal,
/// and returns the status.
pub(crate) fn print_check<S: System>(
    alloc: Global,
    task: &Check<'_>,
    system: &S,
    timeline: &mut S::Timeline,
) -> Result<u8, WriteFault>
    ensures made { AddsSome (S.outside system.now) timeline.old timeline.new (Performs (RepliesTo (check_reply (S.outside system.now).disk task.now)) result) }
    ensures cause { OnErr result (OutputFails (S.outside system.now)) }
{
    match manifest_at(alloc, system, timeline, Some(task.manifest)) {
        Ok(manifest) => check_folder(alloc, task, &manifest, system, timeline),
        Err(fault) => print_unread(system, timeline, fault, 1),
    }
}
