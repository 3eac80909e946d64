//! One datagram at a server of many games.

ghost use Rattle.std.specs.Prelude.{◌≡◌, IsSome};
ghost use Rattle.move_msg.specs.Messages.{stamp_in};
ghost use Rattle.game_server.specs.Seats.{AreSeats, open_at};
ghost use Rattle.game_server.specs.Datagrams.{HearsIn};
ghost use Rattle.game_server.specs.Inside.Seating.{AnswersAtIn, AnswersFromIn, AnswersMessageIn, BringsIn};

use crate::room::put_in;
use crate::seat::{Answer, Reply};
use crate::seating::{deliver, line_alone, open_for};
use crate::server::Server;
use arbiter_server::{Line, OpenGameError};
use game_folder::Games;
use move_msg::Message;
use timeline::System;

/// Opens the game that a message is of, where it isn't open. Where there is no room the one used least recently is closed.
fn bring<'a, S: System, G: Games<S> + Drop>(
    server: &mut Server<'a, G, S::File>,
    system: &S,
    timeline: &mut S::Timeline,
    message: &Message,
) -> Result<(), OpenGameError>
    requires { AreSeats (S.outside system.now) (G.facts system.now) server.old }
    ensures made { BringsIn (S.outside system.now) (G.facts system.now) server.old server.new message.now timeline.old timeline.new result }
{
    let stamp = message.stamp();
    // Called for its contract: it brings the map's invariant into the proof.
    let _valid = server.seats.len();
    if server.seats.contains(&stamp) {
        return Ok(());
    }
    match open_for(&mut server.shared, system, timeline, message) {
        Ok(seat) => put_in(&mut server.seats, stamp, seat),
        Err(why) => Err(why),
    }
}

/// Lets the arbiter of a game that is open answer a message. The game is the one used latest then.
fn answer_at<'a, S: System, G: Games<S> + Drop>(
    server: &mut Server<'a, G, S::File>,
    system: &S,
    timeline: &mut S::Timeline,
    message: &Message,
) -> Answer
    requires seats { AreSeats (S.outside system.now) (G.facts system.now) server.old }
    requires open { IsSome (open_at server.old (stamp_in message.now)) }
    ensures made { AnswersAtIn (S.outside system.now) (G.facts system.now) server.old server.new message.now timeline.old timeline.new result }
{
    // Called for its contract: it brings the map's invariant into the proof.
    let _valid = server.seats.len();
    let Some(seat) = server.seats.get_mut(&message.stamp()) else {
        unreachable!()
    };
    deliver(&mut server.shared, system, timeline, seat, message)
}

/// Lets the arbiter of a game that is open answer a message, and closes the game where its record couldn't be kept.
fn answer_or_close<'a, S: System, G: Games<S> + Drop>(
    server: &mut Server<'a, G, S::File>,
    system: &S,
    timeline: &mut S::Timeline,
    message: &Message,
) -> Reply
    requires seats { AreSeats (S.outside system.now) (G.facts system.now) server.old }
    requires open { IsSome (open_at server.old (stamp_in message.now)) }
    ensures made { AnswersFromIn (S.outside system.now) (G.facts system.now) server.old server.new message.now timeline.old timeline.new result }
{
    match answer_at(server, system, timeline, message) {
        Answer::Stays(reply) => reply,
        Answer::Closes(reply) => {
            let _closed = server.seats.pop(&message.stamp());
            reply
        }
    }
}

/// Lets the arbiter of the game that a message is of answer it, if there is one.
fn answer<'a, S: System, G: Games<S> + Drop>(
    server: &mut Server<'a, G, S::File>,
    system: &S,
    timeline: &mut S::Timeline,
    message: &Message,
) -> Reply
    requires { AreSeats (S.outside system.now) (G.facts system.now) server.old }
    ensures made { AnswersMessageIn (S.outside system.now) (G.facts system.now) server.old server.new message.now timeline.old timeline.new result }
{
    match bring(server, system, timeline, message) {
        Ok(()) => answer_or_close(server, system, timeline, message),
        Err(why) => line_alone(server.shared.alloc, Line::Unopened(message.stamp(), why)),
    }
}

/// Answers a datagram, but sends nothing: the reply is to be sent when what was noted is committed. A message is answered by the arbiter of
/// the game that its stamp names, which is opened for a move or a request where it isn't open. Where a record can't be kept, its game alone
/// is refused and closed.
pub fn hear<'a, S: System, G: Games<S> + Drop>(
    server: &mut Server<'a, G, S::File>,
    system: &S,
    timeline: &mut S::Timeline,
    bytes: &[u8],
) -> Reply
    requires { AreSeats (S.outside system.now) (G.facts system.now) server.old }
    ensures made { HearsIn (S.outside system.now) (G.facts system.now) server.old server.new bytes.now timeline.old timeline.new result }
{
    match Message::decode(bytes) {
        Ok(message) => answer(server, system, timeline, &message),
        Err(fault) => line_alone(server.shared.alloc, Line::Unread(fault)),
    }
}
