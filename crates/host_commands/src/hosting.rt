//! `host`: arbiters of the games of a folder, at one port.

ghost use Rattle.std.specs.Prelude.{◌≡◌, [], string_bytes, IfOk, IsOk, OnErr};
ghost use Rattle.std.specs.NonZero.{non_zero_usize_get};
ghost use Rattle.answer_parts.specs.Printing.{OutputFails};
ghost use Rattle.arbiter_server.specs.Games.{common_with};
ghost use Rattle.game_server.specs.Printing.{KnowsLines, OfGames, form_in};
ghost use Rattle.game_server.specs.Seats.{AreSeats};
ghost use Rattle.host_commands.specs.Hosts.{Hosts, HostsBy, StartsHost, common_for, tables_line, together_of};
ghost use Rattle.host_commands.specs.Inside.HostParts.{AnswersIn, GoesOnIn, HostDoes, KeptIn, RunsIn, all_opened};
ghost use Rattle.host_commands.specs.Notes.{MayNote};
ghost use Rattle.host_commands.specs.Outliving.{PerformsOutliving};
ghost use Rattle.judge_core.specs.Tables.{Holding};
ghost use Rattle.timeline.specs.Outsides.{AddsSome};

use crate::binding::bind;
use crate::listing::list_games;
use crate::locking::{IN_GAMES, lock};
use crate::noting::note_line;
use crate::ready::{print_out, ready_line};
use crate::store_opening::open_kept;
use crate::tables::{make_manifest, tables_of};
use answer_parts::{Refusal, print_refusal, print_unread};
use arbiter_server::{LineLog, ServerConfig};
use command_line::{HostGames, StoreForm};
use game_folder::{FolderGames, Games, StoreGames};
use game_server::{Lines, PortServer, serve};
use judge_core::Set;
use std::alloc::{AllocError, Global};
use std::num::NonZeroUsize;
use system_io::WriteFault;
use task_files::{Inputs, read_inputs};
use timeline::System;

/// What a start opens: the tables and their manifest; a port, and the line that tells its address; the lock of the folder, and its store,
/// where records are kept in one.
#[derive(Drop)]
struct Opened<'a, P: Drop, K: Drop, G: Drop> {
    tables: Set<'a>,
    manifest: Vec<u8>,
    port: P,
    line: String,
    held: K,
    store: Option<G>,
}

/// What a server of games is made of.
#[derive(Drop)]
pub(crate) struct GamesServed<'a, G: Drop> {
    alloc: Global,
    config: ServerConfig<'a>,
    tables: Set<'a>,
    games: G,
}

/// What is noted where the log can't be written and the games go on.
const LOG_LOST: &str = "the log can't be written: the games go on without it";

/// How many datagrams are answered together, at most.
fn most_together(form: StoreForm) -> NonZeroUsize
    ensures { non_zero_usize_get result ≡ together_of form }
{
    match form {
        StoreForm::Sqlite => NonZeroUsize::new(256).unwrap_or(NonZeroUsize::MIN),
        StoreForm::Files => NonZeroUsize::MIN,
    }
}

/// Notes that the log is lost, and answers so many datagrams without it. No line is written, so that the output can't end this.
fn go_on_unlogged<'a, S: System, G: Games<S> + Drop>(
    at: &mut PortServer<'a, G, S::File>,
    n: u64,
    port: &mut S::Port,
    system: &S,
    timeline: &mut S::Timeline,
) -> Result<u8, WriteFault>
    requires seats { AreSeats (S.outside system.now) (G.facts system.now) at.old.server }
    ensures made { GoesOnIn (S.outside system.now) (G.facts system.now) n at.old port.old timeline.old timeline.new result }
    ensures done { IsOk result }
{
    system.note(timeline, &[LOG_LOST]);
    at.silence();
    serve(at, system, timeline, port, n)
}

/// Serves games at a port, with the lines of a log. Where that can't be written, the games go on without it, if the words say so: then no
/// error comes.
fn serve_logged<'a, S: System, G: Games<S> + Drop>(
    at: &mut PortServer<'a, G, S::File>,
    task: &HostGames<'_>,
    port: &mut S::Port,
    system: &S,
    timeline: &mut S::Timeline,
) -> Result<u8, WriteFault>
    requires seats { AreSeats (S.outside system.now) (G.facts system.now) at.old.server }
    requires lines { form_in at.old.lines ≡ OfGames task.now.log }
    requires none { KnowsLines at.old.lines [] }
    ensures made { AnswersIn (S.outside system.now) (G.facts system.now) task.now at.old port.old timeline.old timeline.new result }
    ensures cause { OnErr result (OutputFails (S.outside system.now)) }
{
    match serve(at, system, timeline, port, task.datagrams) {
        Ok(status) => Ok(status),
        Err(fault) => {
            if !task.outlives_log {
                return Err(fault);
            }
            go_on_unlogged(at, task.datagrams, port, system, timeline)
        }
    }
}

/// Makes a server with a log of the form that the words name, and serves the games at a port.
fn serve_games<'a, S: System, G: Games<S> + Drop>(
    task: &HostGames<'_>,
    served: GamesServed<'a, G>,
    port: &mut S::Port,
    system: &S,
    timeline: &mut S::Timeline,
) -> Result<u8, WriteFault>
    ensures made { RunsIn (S.outside system.now) (G.facts system.now) task.now served.entry port.old timeline.old timeline.new result }
    ensures cause { OnErr result (OutputFails (S.outside system.now)) }
{
    let GamesServed {
        alloc,
        config,
        tables,
        games,
    } = served;
    let Ok(log) = LineLog::new(alloc, task.log) else {
        return print_refusal(system, timeline, Refusal::Memory);
    };
    match PortServer::open(alloc, config, tables, games, Lines::OfGames(log)) {
        Ok(mut at) => serve_logged(&mut at, task, port, system, timeline),
        Err(_) => print_refusal(system, timeline, Refusal::Memory),
    }
}

/// The line that tells of how many files tables were read. The error comes only where memory is refused.
fn tables_words(alloc: Global, read: usize) -> Result<String, AllocError>
    ensures { IfOk result (λ line. string_bytes line ≡ tables_line read) }
{
    format!(in alloc; "tables {read}")
}

/// Notes of how many files tables were read.
fn note_tables<S: System>(alloc: Global, system: &S, timeline: &mut S::Timeline, read: usize)
    ensures { AddsSome (S.outside system.now) timeline.old timeline.new (MayNote (tables_line read)) }
{
    note_line(system, timeline, tables_words(alloc, read));
}

/// How the server is set up, by the manifest of its tables.
fn config_for<'a>(task: &HostGames<'_>, manifest: &'a [u8]) -> ServerConfig<'a>
    ensures { (set : Holding) → common_with result set ≡ common_for task.now set manifest.entry.now }
{
    ServerConfig {
        manifest,
        me: task.me,
        at_once: task.at_once,
        together: most_together(task.store),
    }
}

/// Opens all that the games of the folder are served with, one after the other, or tells what of it is refused.
fn open_all<'a, 'f, S: System>(
    alloc: Global,
    task: &HostGames<'f>,
    sources: &'a Inputs,
    system: &S,
    timeline: &mut S::Timeline,
) -> Result<Opened<'a, S::Port, S::Lock, StoreGames<'f, S>>, Refusal>
    ensures { AddsSome (S.outside system.now) timeline.old timeline.new (StartsHost (S.outside system.now) task.now sources.now (all_opened task.now result)) }
{
    let tables = tables_of(alloc, sources, task.cache)?;
    list_games(alloc, system, timeline, task.games, task.store)?;
    let manifest = make_manifest(alloc, sources)?;
    let port = bind(alloc, system, timeline, task.bind, task.to)?;
    let line = ready_line(alloc, system, &port)?;
    let held = lock(alloc, system, timeline, task.games, IN_GAMES)?;
    let store = open_kept(alloc, system, timeline, task.games, task.store)?;
    Ok(Opened {
        tables,
        manifest,
        port,
        line,
        held,
        store,
    })
}

/// Serves the games of the folder at a port, each with a file for its record, or all with the store, where there is one. The lock of the
/// folder is lent, so that it is held meanwhile.
fn serve_kept<'a, 'f, S: System>(
    task: &HostGames<'_>,
    served: GamesServed<'a, Option<StoreGames<'f, S>>>,
    _held: &S::Lock,
    port: &mut S::Port,
    system: &S,
    timeline: &mut S::Timeline,
) -> Result<u8, WriteFault>
    ensures made { KeptIn (S.outside system.now) task.now served.entry port.old timeline.old timeline.new result }
    ensures cause { OnErr result (OutputFails (S.outside system.now)) }
{
    let GamesServed {
        alloc,
        config,
        tables,
        games,
    } = served;
    match games {
        None => {
            let served = GamesServed {
                alloc,
                config,
                tables,
                games: FolderGames { folder: task.games },
            };
            serve_games(task, served, port, system, timeline)
        }
        Some(games) => {
            let served = GamesServed {
                alloc,
                config,
                tables,
                games,
            };
            serve_games(task, served, port, system, timeline)
        }
    }
}

/// Serves the games of the folder by what was read, when all is open and the line that tells the address has gone out.
fn host_by<S: System>(
    alloc: Global,
    task: &HostGames<'_>,
    sources: &Inputs,
    system: &S,
    timeline: &mut S::Timeline,
) -> Result<u8, WriteFault>
    ensures made { HostDoes (S.outside system.now) task.now (HostsBy (S.outside system.now) task.now sources.now) timeline.old timeline.new result }
    ensures cause { OnErr result (OutputFails (S.outside system.now)) }
{
    let opened = match open_all(alloc, task, sources, system, timeline) {
        Ok(opened) => opened,
        Err(refusal) => return print_refusal(system, timeline, refusal),
    };
    let Opened {
        tables,
        manifest,
        mut port,
        line,
        held,
        store,
    } = opened;
    match print_out(system, timeline, line.as_str()) {
        Ok(()) => {}
        Err(fault) => return Err(fault),
    }
    note_tables(alloc, system, timeline, sources.files().len());
    let served = GamesServed {
        alloc,
        config: config_for(task, &manifest),
        tables,
        games: store,
    };
    serve_kept(task, served, &held, &mut port, system, timeline)
}

/// Answers the datagrams of any number of games as the words say, each by the arbiter of its game, and returns the status.
///
/// The files of the tables are read first. What is refused is written in one line, in this order: the tables, the folder of games, a store
/// there that wouldn't be used or is half there, the address, the folder's lock, its store, and records that can't go over into that. Where
/// memory is refused the line is `refused memory`. Then the line `ready` with the address at which datagrams come goes out, and then a line
/// for each datagram, as `game_server::serve` has it. It is noted of how many files tables were read, why a store isn't opened, which files
/// hold no record of their games, and where a log is lost that the games outlive. The error comes only where the output may fail; where the
/// words say that the games outlive their log, only before a datagram is awaited.
pub fn host_games<S: System>(
    alloc: Global,
    task: &HostGames<'_>,
    system: &S,
    timeline: &mut S::Timeline,
) -> Result<u8, WriteFault>
    ensures made { AddsSome (S.outside system.now) timeline.old timeline.new (PerformsOutliving task.now (Hosts (S.outside system.now) task.now) result) }
    ensures cause { OnErr result (OutputFails (S.outside system.now)) }
{
    let places = task.places();
    match read_inputs(alloc, system, timeline, &places) {
        Ok(sources) => host_by(alloc, task, &sources, system, timeline),
        Err(fault) => print_unread(system, timeline, fault, 1),
    }
}
