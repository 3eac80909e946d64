//! A run of a server of games.

ghost use Rattle.std.specs.Prelude.{[], OnErr};
ghost use Rattle.answer_parts.specs.Printing.{OutputFails};
ghost use Rattle.game_server.specs.Printing.{KnowsLines};
ghost use Rattle.game_server.specs.Seats.{AreSeats};
ghost use Rattle.host_commands.specs.Inside.Parts.{AnswersIn};

use game_folder::Games;
use game_server::{PortServer, serve};
use system_io::WriteFault;
use timeline::System;

/// Answers so many datagrams of a port, and returns the status.
pub(crate) fn serve_all<'a, S: System, G: Games<S> + Drop>(
    at: &mut PortServer<'a, G, S::File>,
    n: u64,
    port: &mut S::Port,
    system: &S,
    timeline: &mut S::Timeline,
) -> Result<u8, WriteFault>
    requires seats { AreSeats (S.outside system.now) (G.facts system.now) at.old.server }
    requires none { KnowsLines at.old.lines [] }
    ensures made { AnswersIn (S.outside system.now) (G.facts system.now) n at.old port.old timeline.old timeline.new result }
    ensures cause { OnErr result (OutputFails (S.outside system.now)) }
{
    serve(at, system, timeline, port, n)
}
