//! Commands that write one reply by what they read.

ghost use Rattle.std.specs.Prelude.{◌≡◌, IfOk, OnErr};
ghost use Rattle.answer_parts.specs.Printing.{OutputFails, Performs};
ghost use Rattle.answer_commands.specs.Records.{audit_asking, record_asking};
ghost use Rattle.answer_commands.specs.Replies.{Asking, MakesReply, Making, RepliesBy};
ghost use Rattle.answer_commands.specs.TableReplies.{game_making, judge_making, probe_making, root_making};
ghost use Rattle.answer_parts.specs.Asked.{reply_of};
ghost use Rattle.table_commands.specs.FolderReads.{made_reply};
ghost use Rattle.table_folder.specs.Reads.{PassesSome};
ghost use Rattle.task_files.specs.Sources.{named_by};
ghost use Rattle.timeline.specs.Outsides.{AddsSome};

use answer_parts::{Answer, print_replied, print_unread};
use command_line::{Audit, FollowGame, Judge, Probe, Root, ShowRecord};
use record_commands::{audit, record};
use std::alloc::{AllocError, Global};
use system_io::WriteFault;
use table_commands::{game, judge, probe, root};
use table_folder::{SystemFiles, TableFiles};
use task_files::{InputPaths, Inputs, read_inputs};
use timeline::System;

/// A task that is answered by one reply.
pub(crate) trait ReplyTask {
    /// What it names, its reply by what was read, and when that takes memory.
    ghost asking: { Self → Asking };

    /// What is read for it.
    fn names(&self) -> InputPaths<'_>
        ensures { named_by result ≡ (asking self.now).named };

    /// Its reply by what was read. The error comes only where memory is refused.
    fn reply(&self, alloc: Global, given: &Inputs) -> Result<Answer, AllocError>
        ensures is { IfOk result (λ a. (asking self.now).IsReply given.now (reply_of a)) }
        ensures memory { OnErr result ((asking self.now).TakesMemory given.now) };
}

impl<'a> ReplyTask for ShowRecord<'a> {
    ghost asking = { record_asking };

    fn names(&self) -> InputPaths<'_> {
        self.places()
    }

    fn reply(&self, alloc: Global, given: &Inputs) -> Result<Answer, AllocError> {
        record::answer(alloc, self, given)
    }
}

impl<'a> ReplyTask for Audit<'a> {
    ghost asking = { audit_asking };

    fn names(&self) -> InputPaths<'_> {
        self.places()
    }

    fn reply(&self, alloc: Global, given: &Inputs) -> Result<Answer, AllocError> {
        audit::answer(alloc, self, given)
    }
}

/// Reads what a task names, writes its reply, and returns the status.
pub(crate) fn reply_to<R: ReplyTask, S: System>(
    alloc: Global,
    task: &R,
    system: &S,
    timeline: &mut S::Timeline,
) -> Result<u8, WriteFault>
    ensures made { AddsSome (S.outside system.now) timeline.old timeline.new (Performs (RepliesBy (S.outside system.now) (R.asking task.now)) result) }
    ensures cause { OnErr result (OutputFails (S.outside system.now)) }
{
    let names = task.names();
    match read_inputs(alloc, system, timeline, &names) {
        Ok(given) => print_replied(system, timeline, task.reply(alloc, &given)),
        Err(fault) => print_unread(system, timeline, fault, 1),
    }
}

/// A task whose reply is made while more is read.
pub(crate) trait MakingTask {
    /// What it names, and its reply by what was read, with what is read for the reply.
    ghost making: { Self → Making };

    /// What is read for it first.
    fn names(&self) -> InputPaths<'_>
        ensures { named_by result ≡ (making self.now).named };

    /// Its reply by what was read, and by what is read for it now. The error comes only where memory is refused.
    fn make<F: TableFiles>(
        &self,
        alloc: Global,
        log: &mut F::Log,
        given: &Inputs,
        files: &F,
    ) -> Result<Answer, AllocError>
        ensures { PassesSome (F.events files.now log.old) (F.events files.now log.new) ((making self.now).Makes (F.facts files.now) given.now (made_reply result)) };
}

impl<'a> MakingTask for Judge<'a> {
    ghost making = { judge_making };

    fn names(&self) -> InputPaths<'_> {
        self.places()
    }

    fn make<F: TableFiles>(
        &self,
        alloc: Global,
        log: &mut F::Log,
        given: &Inputs,
        files: &F,
    ) -> Result<Answer, AllocError> {
        judge::answer(alloc, log, self, given, files)
    }
}

impl<'a> MakingTask for Probe<'a> {
    ghost making = { probe_making };

    fn names(&self) -> InputPaths<'_> {
        self.places()
    }

    fn make<F: TableFiles>(
        &self,
        alloc: Global,
        log: &mut F::Log,
        given: &Inputs,
        files: &F,
    ) -> Result<Answer, AllocError> {
        probe::answer(alloc, log, self, given, files)
    }
}

impl<'a> MakingTask for FollowGame<'a> {
    ghost making = { game_making };

    fn names(&self) -> InputPaths<'_> {
        self.places()
    }

    fn make<F: TableFiles>(
        &self,
        alloc: Global,
        log: &mut F::Log,
        given: &Inputs,
        files: &F,
    ) -> Result<Answer, AllocError> {
        game::answer(alloc, log, self, given, files)
    }
}

/// The legal moves of the position of a text.
#[derive(Drop)]
pub(crate) struct RootText<'t, 'a> {
    /// The task.
    pub(crate) task: &'t Root<'a>,
    /// The text.
    pub(crate) text: &'t str,
}

impl<'t, 'a> MakingTask for RootText<'t, 'a> {
    ghost making = { λ t. root_making t.task.now t.text.now };

    fn names(&self) -> InputPaths<'_> {
        self.task.places()
    }

    fn make<F: TableFiles>(
        &self,
        alloc: Global,
        log: &mut F::Log,
        given: &Inputs,
        files: &F,
    ) -> Result<Answer, AllocError> {
        root::answer_text(alloc, log, self.task, given, files, self.text)
    }
}

/// Reads what a task names, makes its reply while more is read, writes that, and returns the status.
pub(crate) fn make_reply<M: MakingTask, S: System>(
    alloc: Global,
    task: &M,
    system: &S,
    timeline: &mut S::Timeline,
) -> Result<u8, WriteFault>
    ensures made { AddsSome (S.outside system.now) timeline.old timeline.new (Performs (MakesReply (S.outside system.now) (M.making task.now)) result) }
    ensures cause { OnErr result (OutputFails (S.outside system.now)) }
{
    let names = task.names();
    match read_inputs(alloc, system, timeline, &names) {
        Ok(given) => {
            let files = SystemFiles { system };
            let answered = task.make(alloc, timeline, &given, &files);
            print_replied(system, timeline, answered)
        }
        Err(fault) => print_unread(system, timeline, fault, 1),
    }
}
