//! Datagrams that are answered together.

ghost use Rattle.std.specs.Prelude.{◌≡◌, ◌<◌, ◌≤◌, IfOk, IfSome, false, length, Ok, None};
ghost use Rattle.timeline.specs.Outsides.{SendsToSame};
ghost use Rattle.game_server.specs.Seats.{AreSeats};
ghost use Rattle.game_server.specs.Inside.Running.{GathersFrom, HearsOneIn, ReceivesNext};

use crate::hearing::hear;
use crate::replies::{Held, Replies};
use crate::server::Server;
use game_folder::Games;
use std::net::SocketAddr;
use std::time::Duration;
use system_io::PortFault;
use timeline::System;

/// Receives a datagram that is awaited, or one that has come already.
fn receive_next<S: System>(
    system: &S,
    timeline: &mut S::Timeline,
    port: &mut S::Port,
    is_awaited: bool,
    buffer: &mut [u8; 64],
) -> Result<Option<usize>, PortFault>
    ensures length { IfOk result (λ got. IfSome got (λ n. n ≤ 64)) }
    ensures same { SendsToSame ((S.outside system.now).port port.old) ((S.outside system.now).port port.new) }
    ensures awaited { result ≡ Ok None → is_awaited ≡ false }
    ensures made { ReceivesNext (S.outside system.now) port.new buffer.new result timeline.old timeline.new }
{
    if is_awaited {
        match system.receive(timeline, port, buffer) {
            Ok(length) => Ok(Some(length)),
            Err(fault) => Err(fault),
        }
    } else {
        system.receive_in_time(timeline, port, Duration::ZERO, buffer)
    }
}

/// Answers a datagram, behind those that were answered before.
fn hear_one<'a, S: System, G: Games<S> + Drop>(
    server: &mut Server<'a, G, S::File>,
    system: &S,
    timeline: &mut S::Timeline,
    bytes: &[u8],
    sender: Option<SocketAddr>,
    replies: &mut Replies,
)
    requires seats { AreSeats (S.outside system.now) (G.facts system.now) server.old }
    requires room { length replies.old.held < replies.old.most }
    ensures made { HearsOneIn (S.outside system.now) (G.facts system.now) server.old server.new bytes.now sender replies.old replies.new timeline.old timeline.new }
{
    let reply = hear(server, system, timeline, bytes);
    replies.add(Held { reply, sender });
}

/// Receives datagrams and answers each, but sends nothing: one is awaited, and of those that have come by then so many are taken in all
/// as may be answered together. Returns whether one came.
pub(crate) fn gather<'a, S: System, G: Games<S> + Drop>(
    server: &mut Server<'a, G, S::File>,
    system: &S,
    timeline: &mut S::Timeline,
    port: &mut S::Port,
    most: usize,
    replies: &mut Replies,
) -> bool
    requires seats { AreSeats (S.outside system.now) (G.facts system.now) server.old }
    requires some { 0 < most }
    requires room { most ≤ replies.old.most }
    ensures gathers { GathersFrom (S.outside system.now) (G.facts system.now) most server.old server.new replies.old replies.new timeline.old timeline.new result }
    ensures same { SendsToSame ((S.outside system.now).port port.old) ((S.outside system.now).port port.new) }
    ensures seats { AreSeats (S.outside system.now) (G.facts system.now) server.new }
{
    let mut buffer = [0u8; 64];
    replies.clear();
    while replies.len() < most {
        match receive_next(system, timeline, port, replies.is_empty(), &mut buffer) {
            Ok(Some(length)) => {
                let sender = system.sender(port);
                hear_one(server, system, timeline, &buffer[..length], sender, replies);
            }
            Ok(None) => return true,
            Err(_) => return !replies.is_empty(),
        }
    }
    true
}
