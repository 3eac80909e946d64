//! `listen`: an arbiter of one game, at a port.

ghost use Rattle.std.specs.Prelude.{◌≡◌, [], OnErr};
ghost use Rattle.answer_parts.specs.Lines.{refusal_words};
ghost use Rattle.answer_parts.specs.Printing.{OutputFails, Performs};
ghost use Rattle.game_server.specs.Seats.{AreSeats};
ghost use Rattle.host_commands.specs.Inside.Parts.{AsksIfIn, DoesIn, LocksIn, OpensAndAnswersIn, RunsIn, one_opened, served_one};
ghost use Rattle.host_commands.specs.Listens.{IsStart, Listens, ListensBy, StartsOne, game_of, served_of, unopened_refusal};
ghost use Rattle.host_commands.specs.Notes.{in_words};
ghost use Rattle.timeline.specs.Outsides.{AddsSome, HeardNothing};

use crate::binding::bind;
use crate::locking::{BESIDE_KEPT, lock};
use crate::ready::{print_line, ready_if};
use crate::serving::serve_all;
use crate::tables::{make_manifest, tables_of};
use answer_parts::{Refusal, print_refusal, print_unread};
use arbiter_core::name_of;
use arbiter_server::{OpenGameError, ServerConfig};
use board_core::Position;
use command_line::{CacheSize, Listen};
use fen_text::read;
use game_folder::{Games, OneGame};
use game_server::{Lines, PortServer, ask, open_game};
use judge_core::Set;
use move_msg::Stamp;
use std::alloc::Global;
use std::num::NonZeroUsize;
use system_io::WriteFault;
use task_files::{Inputs, read_inputs};
use timeline::System;

/// What a start opens: the position of the text, the tables and their manifest, a port, and the line that tells its address, where that is
/// wanted.
#[derive(Drop)]
struct Opened<'a, P: Drop> {
    start: Position,
    tables: Set<'a>,
    manifest: Vec<u8>,
    port: P,
    line: Option<String>,
}

/// What a server of one game is made of.
#[derive(Drop)]
pub(crate) struct OneServed<'a, G: Drop> {
    alloc: Global,
    config: ServerConfig<'a>,
    tables: Set<'a>,
    games: G,
    stamp: Stamp,
}

/// Why a game isn't opened, as it is refused.
fn unopened_refusal(why: OpenGameError) -> Refusal
    ensures { refusal_words result ≡ unopened_refusal why }
{
    match why {
        OpenGameError::OutOfMemory => Refusal::Memory,
        OpenGameError::NotOpen
        | OpenGameError::NoGame
        | OpenGameError::OtherGame
        | OpenGameError::BadGame(_)
        | OpenGameError::Keeper => Refusal::Keeper,
    }
}

/// Sends the request for moves of the game, where that is wanted and it has one.
fn ask_if<'a, S: System, G: Games<S> + Drop>(
    at: &PortServer<'a, G, S::File>,
    is_wanted: bool,
    stamp: Stamp,
    port: &mut S::Port,
    system: &S,
    timeline: &mut S::Timeline,
)
    ensures same { HeardNothing ((S.outside system.now).port port.old) ((S.outside system.now).port port.new) }
    ensures made { AsksIfIn (S.outside system.now) is_wanted at.now port.old stamp timeline.old timeline.new }
{
    if is_wanted {
        ask(at, system, timeline, port, stamp);
    }
}

/// Opens the game and answers the datagrams of a port, after its request for moves, where that is wanted. Where the game isn't opened the
/// line is `refused keeper`, or `refused memory`.
fn open_and_serve<'a, S: System, G: Games<S> + Drop>(
    at: &mut PortServer<'a, G, S::File>,
    task: &Listen<'_>,
    stamp: Stamp,
    port: &mut S::Port,
    system: &S,
    timeline: &mut S::Timeline,
) -> Result<u8, WriteFault>
    requires seats { AreSeats (S.outside system.now) (G.facts system.now) at.old.server }
    requires lines { at.old.lines ≡ Lines.OfOne stamp }
    ensures made { OpensAndAnswersIn (S.outside system.now) (G.facts system.now) task.now stamp at.old port.old timeline.old timeline.new result }
    ensures cause { OnErr result (OutputFails (S.outside system.now)) }
{
    match open_game(at, system, timeline, stamp) {
        Ok(()) => {
            ask_if(at, task.fetch, stamp, port, system, timeline);
            serve_all(at, task.datagrams, port, system, timeline)
        }
        Err(why) => print_refusal(system, timeline, unopened_refusal(why)),
    }
}

/// Makes a server, and serves the game at a port. The lock of the file of its record is lent, so that it is held meanwhile.
fn serve_one<'a, S: System, G: Games<S> + Drop>(
    task: &Listen<'_>,
    served: OneServed<'a, G>,
    _held: &S::Lock,
    port: &mut S::Port,
    system: &S,
    timeline: &mut S::Timeline,
) -> Result<u8, WriteFault>
    ensures made { RunsIn (S.outside system.now) (G.facts system.now) task.now served.entry port.old timeline.old timeline.new result }
    ensures cause { OnErr result (OutputFails (S.outside system.now)) }
{
    let OneServed {
        alloc,
        config,
        tables,
        games,
        stamp,
    } = served;
    match PortServer::open(alloc, config, tables, games, Lines::OfOne(stamp)) {
        Ok(mut at) => open_and_serve(&mut at, task, stamp, port, system, timeline),
        Err(_) => print_refusal(system, timeline, Refusal::Memory),
    }
}

/// The game that the words tell from this start, by tables with this manifest.
fn one_game<'t>(task: &Listen<'t>, start: Position, manifest: &[u8]) -> OneGame<'t>
    ensures { result ≡ game_of task.now start manifest.now }
{
    OneGame::new(
        task.name.stamp(&start, manifest, task.delay),
        name_of(task.name.as_bytes()),
        start,
        task.delay,
        task.kept,
    )
}

/// What is served of the game from this start, by these tables.
fn served_from<'a, 't>(
    alloc: Global,
    task: &Listen<'t>,
    start: Position,
    tables: Set<'a>,
    manifest: &'a [u8],
) -> OneServed<'a, OneGame<'t>>
    ensures { served_one result ≡ served_of task.now start tables.entry manifest.now }
{
    OneServed {
        alloc,
        config: ServerConfig {
            manifest,
            me: task.me,
            at_once: NonZeroUsize::MIN,
            together: NonZeroUsize::MIN,
        },
        tables,
        games: one_game(task, start, manifest),
        stamp: task.name.stamp(&start, manifest, task.delay),
    }
}

/// The position that the text of the start spells, or why it spells none.
fn start_of(task: &Listen<'_>) -> Result<Position, Refusal>
    ensures { IsStart task.now.start.now (in_words result) [] }
{
    match read(task.start.as_bytes()) {
        Ok(start) => Ok(start),
        Err(fault) => Err(Refusal::Fen(fault)),
    }
}

/// Opens what the game is served with, up to its port, one after the other, or tells what of it is refused.
fn open_one<'a, S: System>(
    alloc: Global,
    task: &Listen<'_>,
    sources: &'a Inputs,
    system: &S,
    timeline: &mut S::Timeline,
) -> Result<Opened<'a, S::Port>, Refusal>
    ensures { AddsSome (S.outside system.now) timeline.old timeline.new (StartsOne (S.outside system.now) task.now sources.now (one_opened task.now result)) }
{
    let start = start_of(task)?;
    let tables = tables_of(alloc, sources, CacheSize::usual())?;
    let manifest = make_manifest(alloc, sources)?;
    let port = bind(alloc, system, timeline, task.bind, task.to)?;
    let line = ready_if(alloc, system, &port, task.ready)?;
    Ok(Opened {
        start,
        tables,
        manifest,
        port,
        line,
    })
}

/// Locks the file in which the record is kept, and serves the game at a port as long as it is locked.
fn lock_and_serve<S: System>(
    alloc: Global,
    task: &Listen<'_>,
    served: OneServed<'_, OneGame<'_>>,
    port: &mut S::Port,
    system: &S,
    timeline: &mut S::Timeline,
) -> Result<u8, WriteFault>
    ensures made { LocksIn (S.outside system.now) task.now served.entry port.old timeline.old timeline.new result }
    ensures cause { OnErr result (OutputFails (S.outside system.now)) }
{
    match lock(alloc, system, timeline, task.kept, BESIDE_KEPT) {
        Ok(held) => serve_one(task, served, &held, port, system, timeline),
        Err(refusal) => print_refusal(system, timeline, refusal),
    }
}

/// Serves the game that the words tell by what was read, when its port is open and the line that tells its address, where that is wanted,
/// has gone out.
fn listen_by<S: System>(
    alloc: Global,
    task: &Listen<'_>,
    sources: &Inputs,
    system: &S,
    timeline: &mut S::Timeline,
) -> Result<u8, WriteFault>
    ensures made { DoesIn (S.outside system.now) (ListensBy (S.outside system.now) task.now sources.now) timeline.old timeline.new result }
    ensures cause { OnErr result (OutputFails (S.outside system.now)) }
{
    let opened = match open_one(alloc, task, sources, system, timeline) {
        Ok(opened) => opened,
        Err(refusal) => return print_refusal(system, timeline, refusal),
    };
    let Opened {
        start,
        tables,
        manifest,
        mut port,
        line,
    } = opened;
    match print_line(system, timeline, &line) {
        Ok(()) => {}
        Err(fault) => return Err(fault),
    }
    let served = served_from(alloc, task, start, tables, &manifest);
    lock_and_serve(alloc, task, served, &mut port, system, timeline)
}

/// Opens an arbiter as its words say, answers datagrams, and returns the status.
///
/// The files of its tables are read first. Where that is wanted, the first line is `ready` and the address at which datagrams come, when
/// that is bound. What is refused is written in one line, in this order: the text of its start, the tables, the address, the lock of the
/// file in which the record is kept, and that file or what stands there. Where memory is refused the line is `refused memory`. The game is
/// opened before the first datagram is awaited, and its request for moves is sent then, where that is wanted. Then a line is written for
/// each datagram, as `game_server::serve` has it. The error comes only where the output may fail.
pub fn listen<S: System>(
    alloc: Global,
    task: &Listen<'_>,
    system: &S,
    timeline: &mut S::Timeline,
) -> Result<u8, WriteFault>
    ensures made { AddsSome (S.outside system.now) timeline.old timeline.new (Performs (Listens (S.outside system.now) task.now) result) }
    ensures cause { OnErr result (OutputFails (S.outside system.now)) }
{
    let places = task.places();
    match read_inputs(alloc, system, timeline, &places) {
        Ok(sources) => listen_by(alloc, task, &sources, system, timeline),
        Err(fault) => print_unread(system, timeline, fault, 1),
    }
}
