//! `list`: the manifest of the tables in a folder.

ghost use Rattle.std.specs.Prelude.{map, IfOk, OnErr};
ghost use Rattle.answer_commands.specs.Inside.Looking.{IsManifestOf};
ghost use Rattle.answer_commands.specs.Listing.{list_reply};
ghost use Rattle.answer_parts.specs.Printing.{OutputFails, Performs};
ghost use Rattle.answer_commands.specs.Replies.{RepliesTo};
ghost use Rattle.answer_parts.specs.Asked.{reply_of};
ghost use Rattle.move_msg.specs.Manifests.{AreEntries, entry_of};
ghost use Rattle.timeline.specs.Outsides.{AddsSome};

use answer_parts::{Answer, print_replied, print_unread};
use command_line::List;
use move_msg::{Line, Manifest, manifest_write};
use std::alloc::{AllocError, Global};
use system_io::{ReadFault, WriteFault};
use task_files::look_at_tables;
use timeline::System;

/// The manifest with these lines, as an answer.
fn manifest_of(alloc: Global, lines: &[Line]) -> Result<Answer, AllocError>
    requires { AreEntries (map entry_of lines.now) }
    ensures { IfOk result (λ a. IsManifestOf (map entry_of lines.now) (reply_of a)) }
{
    match manifest_write(alloc, lines) {
        Ok(text) => Ok(Answer::Text(text, true)),
        Err(refused) => Err(refused),
    }
}

/// Reads the files of a folder one by one, writes their manifest, and returns the status.
pub(crate) fn print_manifest<S: System>(
    alloc: Global,
    task: &List<'_>,
    system: &S,
    timeline: &mut S::Timeline,
) -> Result<u8, WriteFault>
    ensures made { AddsSome (S.outside system.now) timeline.old timeline.new (Performs (RepliesTo (list_reply (S.outside system.now).disk task.now)) result) }
    ensures cause { OnErr result (OutputFails (S.outside system.now)) }
{
    let listed: Result<Vec<Line>, ReadFault> = look_at_tables(
        alloc,
        system,
        timeline,
        task.folder,
        &Manifest::Unnamed,
        task.progress,
    );
    match listed {
        Ok(lines) => print_replied(system, timeline, manifest_of(alloc, &lines)),
        Err(fault) => print_unread(system, timeline, fault, 1),
    }
}
