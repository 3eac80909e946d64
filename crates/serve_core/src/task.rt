//! Requests that are answered over the streams of a listener, as the words of `serve` say.

ghost use Rattle.std.specs.Prelude.{◌≡◌, ◌++◌, ℕ, List, None, IfOk, OnErr, string_bytes};
ghost use Rattle.std.specs.IoError.{error_kind};
ghost use Rattle.answer_parts.specs.Printing.{OutputFails, Performs};
ghost use Rattle.http_answer.specs.Games.{AreOfOne};
ghost use Rattle.http_answer.specs.Reads.{paths_of};
ghost use Rattle.serve_core.specs.GamesNamed.{games_for};
ghost use Rattle.serve_core.specs.Inside.{GoesOut, ReadsSound};
ghost use Rattle.serve_core.specs.Refusals.{unbound_in, unbound_of};
ghost use Rattle.serve_core.specs.Serve.{MayNote, ServesFolder, ServesIf, TellsLost, lost_front, paths_named, ready_line};
ghost use Rattle.serve_core.specs.Tasks.{IfBound, MayRoute, MayServe, RepliesToTask};
ghost use Rattle.system_io.specs.Reading.{read_fault_of};
ghost use Rattle.timeline.specs.Outsides.{AddsSome};

use crate::answering::{Asked, answer_requests};
use crate::logging::line_why;
use crate::pages::Bound;
use crate::refusals::Unbound;
use answer_parts::{Refusal, print_refusal};
use command_line::Serve;
use http_answer::{Answerer, GameFolders, Games, Router, Times};
use http_loop::Listener;
use move_msg::Manifest;
use std::alloc::{AllocError, Global};
use std::io;
use std::net::SocketAddr;
use std::time::Clock;
use system_io::WriteFault;
use table_commands::arena_for;
use table_folder::{SystemFiles, TableFolder};
use task_files::manifest_at;
use timeline::{Stream, System};

/// How many decoded blocks of tables are kept, at most.
const BLOCKS: usize = 4096;

/// What a task is answered by.
#[derive(Clone, Copy)]
pub struct Serving<'r, T, S> {
    /// Where memory comes from.
    pub alloc: Global,
    /// What says the time by which the age of reports is counted.
    pub times: &'r T,
    /// Where the folders are, and where is written and noted.
    pub system: &'r S,
}

/// The manifest that the words name, of which no line is malformed.
fn sound_manifest<T: Times, S: System>(
    by: &Serving<'_, T, S>,
    timeline: &mut S::Timeline,
    task: &Serve<'_>,
) -> Result<Manifest, Refusal>
    ensures { AddsSome (S.outside by.now.system.now) timeline.old timeline.new (ReadsSound (S.outside by.now.system.now).disk task.now result) }
{
    let manifest = match manifest_at(by.alloc, by.system, timeline, task.manifest) {
        Ok(manifest) => manifest,
        Err(fault) => return Err(Refusal::unread(fault)),
    };
    if let Manifest::BadLine(line) = &manifest {
        return Err(Refusal::Manifest(*line));
    }
    Ok(manifest)
}

/// The folders of games that the words name, if they do.
fn games_of<'r, T: Times, S: System>(
    by: &Serving<'r, T, S>,
    task: &Serve<'r>,
) -> Option<Games<'r, S, T>>
    ensures { result ≡ games_for by.now task.now }
{
    let games = task.games?;
    let folders = GameFolders {
        system: by.system,
        games,
        other: task.other,
    };
    Some(Games::of(by.alloc, folders, by.times))
}

/// The line that says at which address requests come.
fn ready_text(alloc: Global, own: SocketAddr) -> Result<String, AllocError>
    ensures { IfOk result (λ text. (address : List ℕ) × (string_bytes text ≡ ready_line address)) }
{
    format!(in alloc; "ready {own}\n")
}

/// Writes a text, and lets it go out.
fn put_out<S: System>(system: &S, timeline: &mut S::Timeline, text: &str) -> Result<u8, WriteFault>
    ensures made { AddsSome (S.outside system.now) timeline.old timeline.new (Performs (GoesOut text.now) result) }
    ensures cause { OnErr result (OutputFails (S.outside system.now)) }
{
    match system.write(timeline, Stream::Output, text.as_bytes()) {
        Ok(()) => match system.flush(timeline, Stream::Output) {
            Ok(()) => Ok(0),
            Err(fault) => Err(fault),
        },
        Err(fault) => Err(fault),
    }
}

/// The line that says why the system can't wait for requests any more.
fn lost_line(alloc: Global, error: &io::Error) -> Result<String, AllocError>
    ensures { IfOk result (λ line. (why : List ℕ) × (string_bytes line ≡ lost_front ++ why)) }
{
    match format!(in alloc; "{error}") {
        Ok(why) => line_why(alloc, "requests", " can't be awaited: ", why.as_str()),
        Err(refused) => Err(refused),
    }
}

/// Notes why the system can't wait for requests any more.
fn note_lost<S: System>(alloc: Global, system: &S, timeline: &mut S::Timeline, error: &io::Error)
    ensures { AddsSome (S.outside system.now) timeline.old timeline.new (MayNote lost_front) }
{
    match lost_line(alloc, error) {
        Ok(line) => system.note(timeline, &[line.as_str()]),
        Err(_) => {}
    }
}

/// Writes why requests can't be awaited any more, and notes the system's reason.
fn print_lost<S: System>(
    alloc: Global,
    system: &S,
    timeline: &mut S::Timeline,
    error: io::Error,
) -> Result<u8, WriteFault>
    ensures made { AddsSome (S.outside system.now) timeline.old timeline.new (Performs (TellsLost (unbound_of (read_fault_of (error_kind error)))) result) }
    ensures cause { OnErr result (OutputFails (S.outside system.now)) }
{
    note_lost(alloc, system, timeline, &error);
    print_refusal(system, timeline, Unbound::by(error).refusal())
}

/// Writes at which address requests come, and answers them.
fn serve_at<'r, C: Clock, L: Listener + Drop, T: Times, S: System>(
    by: &Serving<'r, T, S>,
    timeline: &mut S::Timeline,
    router: Router<'r, '_, S, T>,
    task: &Serve<'_>,
    bound: &mut Bound<'_, C, L>,
) -> Result<u8, WriteFault>
    requires one { AreOfOne router.answerer router.games }
    requires same { by.now.system.now ≡ router.answerer.disk.system.now }
    requires named { paths_of router.games ≡ paths_named task.now }
    ensures made { ServesFolder (S.outside by.now.system.now) task.now router.entry.answerer.folder None timeline.old timeline.new result }
    ensures cause { OnErr result (OutputFails (S.outside by.now.system.now)) }
    ensures replied { MayRoute S.outside T.says L.streams L.Reader.remaining L.Writer.contents router.entry.answerer router.entry.games bound.old bound.new result }
{
    let Ok(text) = ready_text(by.alloc, bound.own) else {
        return print_refusal(by.system, timeline, Refusal::Memory);
    };
    match put_out(by.system, timeline, text.as_str()) {
        Ok(_) => {}
        Err(fault) => return Err(fault),
    }
    let asked = Asked {
        alloc: by.alloc,
        is_logged: task.log,
        requests: task.requests,
    };
    match answer_requests(&mut bound.server, router, by.system, timeline, asked) {
        Ok(()) => Ok(0),
        Err(error) => print_lost(by.alloc, by.system, timeline, error),
    }
}

/// Answers requests by a folder of tables, and by the folders of games that the words name.
fn serve_folder<'r, C: Clock, L: Listener + Drop, T: Times, S: System>(
    by: &Serving<'r, T, S>,
    timeline: &mut S::Timeline,
    folder: TableFolder<'r, SystemFiles<'_, S>>,
    task: &Serve<'r>,
    bound: &mut Bound<'_, C, L>,
) -> Result<u8, WriteFault>
    requires { folder.disk.system.now ≡ by.now.system.now }
    ensures made { ServesFolder (S.outside by.now.system.now) task.now folder.entry.folder None timeline.old timeline.new result }
    ensures cause { OnErr result (OutputFails (S.outside by.now.system.now)) }
    ensures replied { MayServe S.outside T.says L.streams L.Reader.remaining L.Writer.contents by.now task.now folder.entry bound.old bound.new result }
{
    let Ok(answerer) = Answerer::over(by.alloc, folder, BLOCKS) else {
        return print_refusal(by.system, timeline, Refusal::Memory);
    };
    let router = Router {
        answerer,
        games: games_of(by, task),
    };
    serve_at(by, timeline, router, task, bound)
}

/// Answers requests at the address that is bound, as `serve_folder` does; or writes why none is bound.
fn serve_folder_if<'r, C: Clock, L: Listener + Drop, T: Times, S: System>(
    by: &Serving<'r, T, S>,
    timeline: &mut S::Timeline,
    folder: TableFolder<'r, SystemFiles<'_, S>>,
    task: &Serve<'r>,
    bound: &mut Result<Bound<'_, C, L>, Unbound>,
) -> Result<u8, WriteFault>
    requires { folder.disk.system.now ≡ by.now.system.now }
    ensures made { ServesFolder (S.outside by.now.system.now) task.now folder.entry.folder (unbound_in bound.old) timeline.old timeline.new result }
    ensures cause { OnErr result (OutputFails (S.outside by.now.system.now)) }
    ensures replied { IfBound S.outside T.says L.streams L.Reader.remaining L.Writer.contents by.now task.now folder.entry bound.old bound.new result }
{
    match bound {
        Ok(bound) => serve_folder(by, timeline, folder, task, bound),
        Err(unbound) => print_refusal(by.system, timeline, unbound.refusal()),
    }
}

/// Answers requests over the streams of a server, by the folders that the words name: after as many as they say it closes all streams, and
/// returns the status 0. Before that the line `ready` and its own address come out; or one line that refuses, with the status 1, in this
/// order: the manifest, the folder of the tables, and the address. `refused port` comes behind `ready` where the listener can't wait any
/// more, and `refused memory` where it lacks memory for that; the reason is noted. `refused memory` may come in place of any. The error
/// comes only where the output may fail.
pub fn serve_task<C: Clock, L: Listener + Drop, T: Times, S: System>(
    by: &Serving<'_, T, S>,
    timeline: &mut S::Timeline,
    task: &Serve<'_>,
    bound: &mut Result<Bound<'_, C, L>, Unbound>,
) -> Result<u8, WriteFault>
    ensures made { ServesIf (S.outside by.now.system.now) task.now (unbound_in bound.old) timeline.old timeline.new result }
    ensures cause { OnErr result (OutputFails (S.outside by.now.system.now)) }
    ensures replied { RepliesToTask S.outside T.says L.streams L.Reader.remaining L.Writer.contents by.now task.now bound.old bound.new result }
{
    let manifest = match sound_manifest(by, timeline, task) {
        Ok(manifest) => manifest,
        Err(refusal) => return print_refusal(by.system, timeline, refusal),
    };
    let files = SystemFiles { system: by.system };
    let arena = arena_for(by.alloc, task.memory);
    match TableFolder::open(by.alloc, &files, timeline, task.tables, &manifest, &arena) {
        Ok(folder) => serve_folder_if(by, timeline, folder, task, bound),
        Err(fault) => print_refusal(by.system, timeline, Refusal::unread(fault)),
    }
}
