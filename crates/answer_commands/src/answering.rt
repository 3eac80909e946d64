//! Tasks that are answered over the timeline: all but `serve`.

ghost use Rattle.std.specs.Prelude.{◌≡◌, option_map, OnErr};
ghost use Rattle.answer_commands.specs.Answers.{Answers, Does, IsOverTimeline, key_of};
ghost use Rattle.answer_parts.specs.Printing.{OutputFails, Performs};
ghost use Rattle.timeline.specs.Outsides.{AddsSome};

use crate::by_tables::{TableTask, answer_by_tables};
use crate::check::print_check;
use crate::entering::enter_games;
use crate::list::print_manifest;
use crate::moves::print_moves;
use crate::printing::end;
use crate::replying::reply_to;
use crate::run::run_schedule;
use crate::sending::send;
use crate::show::show_input;
use crate::version::print_version;
use command_line::{
    Audit, AuditGames, Check, Enter, GameRecord, HostGames, List, Listen, Moves, RunSchedule, Send,
    Serve, ShowRecord, ShowStatus, Task,
};
use game_reports::{print_audit, print_game_record, report_status};
use host_commands::{host_games, listen};
use std::alloc::Global;
use system_io::WriteFault;
use timeline::System;

/// A task that is answered over the timeline.
#[derive(Drop)]
pub enum AnswerTask<'a> {
    /// The program's version.
    Version,
    /// The messages of the input.
    Show,
    /// The legal moves of a position.
    Moves(Moves<'a>),
    /// Two arbiters under the schedule of the input.
    Run(RunSchedule<'a>),
    /// What a kept file says.
    Record(ShowRecord<'a>),
    /// Whether kept files are records of a game, and whether they agree.
    Audit(Audit<'a>),
    /// The manifest of the tables in a folder.
    List(List<'a>),
    /// Whether the tables in a folder are those of a manifest.
    Check(Check<'a>),
    /// What is answered by tables.
    Table(TableTask<'a>),
    /// Games that are entered in a folder.
    Enter(Enter<'a>),
    /// How far the games of a folder have come, or those of two.
    Status(ShowStatus<'a>),
    /// The record of a game in a folder.
    GameRecord(GameRecord<'a>),
    /// Whether the records of a folder's games, or of two, are sound and agree.
    AuditGames(AuditGames<'a>),
    /// The moves of the input, which are sent.
    Send(Send<'a>),
    /// An arbiter of one game, at a port.
    Listen(Listen<'a>),
    /// Arbiters of the games of a folder, at a port.
    Host(HostGames<'a>),
}

impl<'a> AnswerTask<'a> {
    /// The task, if it is one that is answered here; else it is that of `serve`.
    pub fn of(task: Task<'a>) -> Result<AnswerTask<'a>, Serve<'a>>
        ensures { IsOverTimeline task.entry result }
    {
        match task {
            Task::Version(_) => Ok(AnswerTask::Version),
            Task::Show(_) => Ok(AnswerTask::Show),
            Task::Moves(moves) => Ok(AnswerTask::Moves(moves)),
            Task::Run(run) => Ok(AnswerTask::Run(run)),
            Task::Record(record) => Ok(AnswerTask::Record(record)),
            Task::Audit(audit) => Ok(AnswerTask::Audit(audit)),
            Task::List(list) => Ok(AnswerTask::List(list)),
            Task::Check(check) => Ok(AnswerTask::Check(check)),
            Task::Judge(judge) => Ok(AnswerTask::Table(TableTask::Judge(judge))),
            Task::Probe(probe) => Ok(AnswerTask::Table(TableTask::Probe(probe))),
            Task::Enter(enter) => Ok(AnswerTask::Enter(enter)),
            Task::Probes(probes) => Ok(AnswerTask::Table(TableTask::Probes(probes))),
            Task::Root(root) => Ok(AnswerTask::Table(TableTask::Root(root))),
            Task::Game(game) => Ok(AnswerTask::Table(TableTask::Game(game))),
            Task::Games(games) => Ok(AnswerTask::Table(TableTask::Games(games))),
            Task::Pgn(pgn) => Ok(AnswerTask::Table(TableTask::Pgn(pgn))),
            Task::Follow(follow) => Ok(AnswerTask::Table(TableTask::Follow(follow))),
            Task::Status(status) => Ok(AnswerTask::Status(status)),
            Task::GameRecord(record) => Ok(AnswerTask::GameRecord(record)),
            Task::AuditGames(audit) => Ok(AnswerTask::AuditGames(audit)),
            Task::Send(send) => Ok(AnswerTask::Send(send)),
            Task::Listen(listen) => Ok(AnswerTask::Listen(listen)),
            Task::Host(host) => Ok(AnswerTask::Host(host)),
            Task::Serve(serve) => Err(serve),
        }
    }

    /// The file of keys by which its ports are sealed, if it names one.
    pub(crate) fn key(&self) -> Option<&'a str>
        ensures { option_map (λ s. s.now) result ≡ key_of self.now }
    {
        match self {
            AnswerTask::Send(task) => task.key,
            AnswerTask::Listen(task) => task.key,
            AnswerTask::Host(task) => task.key,
            _ => None,
        }
    }
}

/// Answers a task, but for the output's end, and returns the status. The error comes only where the output may fail.
fn answer_task<S: System>(
    alloc: Global,
    task: &AnswerTask,
    system: &S,
    timeline: &mut S::Timeline,
) -> Result<u8, WriteFault>
    ensures made { AddsSome (S.outside system.now) timeline.old timeline.new (Performs (Does (S.outside system.now) task.now) result) }
    ensures cause { OnErr result (OutputFails (S.outside system.now)) }
{
    match task {
        AnswerTask::Version => print_version(system, timeline),
        AnswerTask::Show => show_input(alloc, system, timeline),
        AnswerTask::Moves(task) => print_moves(alloc, task, system, timeline),
        AnswerTask::Run(task) => run_schedule(alloc, task, system, timeline),
        AnswerTask::Record(task) => reply_to(alloc, task, system, timeline),
        AnswerTask::Audit(task) => reply_to(alloc, task, system, timeline),
        AnswerTask::List(task) => print_manifest(alloc, task, system, timeline),
        AnswerTask::Check(task) => print_check(alloc, task, system, timeline),
        AnswerTask::Table(task) => answer_by_tables(alloc, task, system, timeline),
        AnswerTask::Enter(task) => enter_games(alloc, task, system, timeline),
        AnswerTask::Status(task) => report_status(alloc, task, system, timeline),
        AnswerTask::GameRecord(task) => print_game_record(alloc, task, system, timeline),
        AnswerTask::AuditGames(task) => print_audit(alloc, task, system, timeline),
        AnswerTask::Send(task) => send(alloc, task, system, timeline),
        AnswerTask::Listen(task) => listen(alloc, task, system, timeline),
        AnswerTask::Host(task) => host_games(alloc, task, system, timeline),
    }
}

/// Answers a task over this system, lets all go out that was written, and returns the status: 1 also where the output can't be written, which
/// is noted.
pub(crate) fn answer_bare<S: System>(
    alloc: Global,
    task: &AnswerTask,
    system: &S,
    timeline: &mut S::Timeline,
) -> u8
    ensures { Answers task.now (S.outside system.now) timeline.old timeline.new result }
{
    let answered = answer_task(alloc, task, system, timeline);
    end(system, timeline, answered)
}
