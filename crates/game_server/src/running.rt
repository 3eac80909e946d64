//! A server at a port: a round of datagrams after another.

ghost use Rattle.std.specs.Prelude.{◌≡◌, ◌<◌, ◌≤◌, [], IfOk, OnErr};
ghost use Rattle.arbiter_server.specs.Games.{common_with};
ghost use Rattle.timeline.specs.Outsides.{SendsToSame};
ghost use Rattle.game_server.specs.Orders.{EarnsFrom};
ghost use Rattle.game_server.specs.Printing.{KnowsLines, OutputFails, form_in};
ghost use Rattle.game_server.specs.Runs.{ServesPort};
ghost use Rattle.game_server.specs.Seats.{AreKnown, AreSeats, IsNewServer};
ghost use Rattle.game_server.specs.Inside.Running.{ConcludesIn, EndsIn, IsNewPortServer, TurnsIn};

use crate::gathering::gather;
use crate::lines::Lines;
use crate::printing::{print_line, print_lines};
use crate::replies::Replies;
use crate::sending::send_if;
use crate::server::Server;
use arbiter_server::{Line, LineLog, ServerConfig, Uncommitted};
use game_folder::Games;
use judge_core::Set;
use std::alloc::{AllocError, Global};
use system_io::WriteFault;
use timeline::System;

/// Whether a run goes on after a round.
#[derive(Clone, Copy)]
pub(crate) enum AfterRound {
    /// So many datagrams came and were answered.
    GoesOn(usize),
    /// The port is lost, or no more can be committed.
    Stops,
}

/// A server of games with what it needs at a port: the replies of a round, and the lines that it writes.
#[derive(Drop)]
pub struct PortServer<'a, G: Drop, F: Drop> {
    pub(crate) server: Server<'a, G, F>,
    pub(crate) replies: Replies,
    pub(crate) lines: Lines,
}

impl<'a, G: Drop, F: Drop> PortServer<'a, G, F> {
    /// A server over places of games, which writes these lines. No game is open yet. The error comes where memory for those that are to
    /// be open, or for the replies of a round, is refused.
    pub fn open(
        alloc: Global,
        config: ServerConfig<'a>,
        tables: Set<'a>,
        games: G,
        lines: Lines,
    ) -> Result<PortServer<'a, G, F>, AllocError>
        ensures { IfOk result (IsNewPortServer (common_with config.entry tables.entry) games lines) }
    {
        let replies = Replies::new(alloc, config.together)?;
        let server = Server::open(alloc, config, tables, games)?;
        Ok(PortServer {
            server,
            replies,
            lines,
        })
    }

    /// From now on no line is written.
    pub fn silence(&mut self)
        ensures { self.new ≡ record self.old { lines = Lines.OfGames LineLog.Nothing } }
    {
        self.lines = Lines::OfGames(LineLog::Nothing);
    }
}

/// Writes the line by which a run ends, since the port is lost, or no more can be committed.
fn end<S: System>(
    system: &S,
    timeline: &mut S::Timeline,
    lines: &mut Lines,
    line: Line,
) -> Result<AfterRound, WriteFault>
    ensures made { EndsIn (S.outside system.now) lines.old lines.new line timeline.old timeline.new result }
    ensures cause { OnErr result (OutputFails (S.outside system.now)) }
{
    match print_line(system, timeline, lines, line) {
        Ok(()) => Ok(AfterRound::Stops),
        Err(fault) => Err(fault),
    }
}

/// Sends the replies of a round, or withholds them, and writes their lines.
fn conclude<S: System>(
    system: &S,
    timeline: &mut S::Timeline,
    port: &mut S::Port,
    replies: &Replies,
    lines: &mut Lines,
    are_sent: bool,
) -> Result<AfterRound, WriteFault>
    ensures same { SendsToSame ((S.outside system.now).port port.old) ((S.outside system.now).port port.new) }
    ensures made { ConcludesIn (S.outside system.now) port.old are_sent replies.now.held lines.old lines.new timeline.old timeline.new result }
    ensures cause { OnErr result (OutputFails (S.outside system.now)) }
{
    send_if(system, timeline, port, replies.held(), are_sent);
    match print_lines(system, timeline, lines, replies.held(), are_sent) {
        Ok(()) => Ok(AfterRound::GoesOn(replies.len())),
        Err(fault) => Err(fault),
    }
}

/// Answers the datagrams of a round, and writes their lines. What their games keep is committed before any reply goes out: where that fails
/// none does, and where memory alone was refused for it the run goes on.
fn round<'a, S: System, G: Games<S> + Drop>(
    at: &mut PortServer<'a, G, S::File>,
    system: &S,
    timeline: &mut S::Timeline,
    port: &mut S::Port,
    most: usize,
) -> Result<AfterRound, WriteFault>
    requires seats { AreSeats (S.outside system.now) (G.facts system.now) at.old.server }
    requires some { 0 < most }
    requires few { most ≤ at.old.replies.most }
    ensures seats { AreSeats (S.outside system.now) (G.facts system.now) at.new.server }
    ensures same { SendsToSame ((S.outside system.now).port port.old) ((S.outside system.now).port port.new) }
    ensures made { TurnsIn (S.outside system.now) (G.facts system.now) most at.old at.new port.old timeline.old timeline.new result }
    ensures most { at.new.replies.most ≡ at.old.replies.most }
    ensures cause { OnErr result (OutputFails (S.outside system.now)) }
{
    if !gather(
        &mut at.server,
        system,
        timeline,
        port,
        most,
        &mut at.replies,
    ) {
        return end(system, timeline, &mut at.lines, Line::PortLost);
    }
    match at.server.shared.games.commit(system, timeline) {
        Ok(()) => conclude(system, timeline, port, &at.replies, &mut at.lines, true),
        Err(Uncommitted::OutOfMemory) => {
            conclude(system, timeline, port, &at.replies, &mut at.lines, false)
        }
        Err(Uncommitted::StoreLost) => end(system, timeline, &mut at.lines, Line::StoreLost),
        Err(Uncommitted::NotNoted) => end(system, timeline, &mut at.lines, Line::MemoryLost),
    }
}

/// Answers so many datagrams of a port, each by the arbiter of its game. Returns the status, 0 where all came.
///
/// Datagrams are answered in rounds. One is awaited, and of those that have come by then so many are taken in all as may be answered
/// together. What their games keep is committed, then all replies are sent, each to who asked, and then a line is written for each of
/// them. Each goes out before the next datagram is awaited.
///
/// No refusal ends the run: a game whose record can't be kept is closed, and opened again over what is kept when its next move or request
/// comes. Where memory is refused to commit what the games of a round keep, no reply of it goes out, and of each of its messages `refused
/// memory` is written: what they keep is committed with a later round. Where no datagram can be received the line is `refused port`, and
/// where no more can be committed `refused store`, or `refused memory` where memory was refused to note it; the status is 1 then.
///
/// The error comes only where the output failed: each line before has gone out whole, and nothing is received behind it.
pub fn serve<'a, S: System, G: Games<S> + Drop>(
    at: &mut PortServer<'a, G, S::File>,
    system: &S,
    timeline: &mut S::Timeline,
    port: &mut S::Port,
    n: u64,
) -> Result<u8, WriteFault>
    requires seats { AreSeats (S.outside system.now) (G.facts system.now) at.old.server }
    requires none { KnowsLines at.old.lines [] }
    ensures run { ServesPort (S.outside system.now) (G.facts system.now) n at.old at.new port.old timeline.old timeline.new result }
    ensures same { SendsToSame ((S.outside system.now).port port.old) ((S.outside system.now).port port.new) }
    ensures most { at.new.replies.most ≡ at.old.replies.most }
    ensures form { form_in at.new.lines ≡ form_in at.old.lines }
    ensures earned { EarnsFrom (S.outside system.now) (G.facts system.now) at.old.server at.new.server timeline.old timeline.new }
    ensures seats { AreSeats (S.outside system.now) (G.facts system.now) at.new.server }
    ensures cause { OnErr result (OutputFails (S.outside system.now)) }
{
    let mut left = n;
    while left > 0 {
        let most = left.min(at.replies.most() as u64) as usize;
        match round(at, system, timeline, port, most) {
            Ok(AfterRound::GoesOn(came)) => left -= came as u64,
            Ok(AfterRound::Stops) => return Ok(1),
            Err(fault) => return Err(fault),
        }
    }
    Ok(0)
}
