//! A game that is opened before any message of it came, and its request for moves.

ghost use Rattle.std.specs.Prelude.{◌≡◌};
ghost use Rattle.timeline.specs.Outsides.{HeardNothing};
ghost use Rattle.game_server.specs.Seats.{AreSeats};
ghost use Rattle.game_server.specs.Sending.{IsRequestSpelled};
ghost use Rattle.game_server.specs.Starting.{AsksIn, OpensIn, opened_by, opener, request_at};

use crate::hearing::hear;
use crate::running::PortServer;
use crate::sending::send_one;
use crate::server::Server;
use arbiter_server::{DatagramReport, Line, OpenGameError};
use game_folder::Games;
use move_msg::{ArbiterId, Count, FetchCount, Message, Stamp};
use timeline::System;

/// A request for the first moves of a game.
fn opener(stamp: Stamp) -> Message
    ensures { result ≡ opener stamp }
{
    Message::Fetch {
        stamp,
        who: ArbiterId::A,
        number: Count::none(),
        wanted: FetchCount::most(),
    }
}

/// Why a line says that a game isn't open, if it does.
fn opened_by(line: Line) -> Result<(), OpenGameError>
    ensures { result ≡ opened_by line }
{
    match line {
        Line::Unopened(_, why) => Err(why),
        Line::Answered(_, DatagramReport::KeeperLost) => Err(OpenGameError::Keeper),
        Line::Answered(_, _)
        | Line::Unread(_)
        | Line::PortLost
        | Line::StoreLost
        | Line::MemoryLost => Ok(()),
    }
}

/// Opens the game with this stamp, as for a request for its moves, but nothing is sent. It is open then; the error says why it isn't.
pub fn open_game<'a, S: System, G: Games<S> + Drop>(
    at: &mut PortServer<'a, G, S::File>,
    system: &S,
    timeline: &mut S::Timeline,
    stamp: Stamp,
) -> Result<(), OpenGameError>
    requires { AreSeats (S.outside system.now) (G.facts system.now) at.old.server }
    ensures made { OpensIn (S.outside system.now) (G.facts system.now) at.old.server at.new.server stamp timeline.old timeline.new result }
    ensures replies { at.new.replies ≡ at.old.replies }
    ensures lines { at.new.lines ≡ at.old.lines }
{
    let reply = hear(&mut at.server, system, timeline, &opener(stamp).encode());
    opened_by(reply.line)
}

/// The request for moves of the game with this stamp, if it is open and has one.
fn request_at<'a, G: Drop, F: Drop>(server: &Server<'a, G, F>, stamp: Stamp) -> Option<Message>
    ensures { result ≡ request_at server.now stamp }
{
    match server.seats.peek(&stamp) {
        Some(seat) => seat.state.ask(),
        None => None,
    }
}

/// Sends the request for moves of the game with this stamp, if it is open and has one, to each recipient.
pub fn ask<'a, S: System, G: Games<S> + Drop>(
    at: &PortServer<'a, G, S::File>,
    system: &S,
    timeline: &mut S::Timeline,
    port: &mut S::Port,
    stamp: Stamp,
)
    ensures same { HeardNothing ((S.outside system.now).port port.old) ((S.outside system.now).port port.new) }
    ensures spelled { IsRequestSpelled (request_at at.now.server stamp) }
    ensures made { AsksIn (S.outside system.now) port.old at.now.server stamp timeline.old timeline.new }
{
    if let Some(message) = request_at(&at.server, stamp) {
        send_one(system, timeline, port, &message);
    }
}
