//! What a server sends at a port.

ghost use Rattle.std.specs.Prelude.{◌≡◌, [], cond, true};
ghost use Rattle.move_msg.specs.Messages.{SpellsMessage, message_text};
ghost use Rattle.timeline.specs.Outsides.{Adds, HeardNothing, SendsToSame};
ghost use Rattle.game_server.specs.Sending.{AllSpelled, address_of, message_sent, sent};
ghost use Rattle.game_server.specs.Inside.Running.{AreSpelled, all_sent};

use crate::replies::Held;
use move_msg::Message;
use timeline::System;

/// Sends a message. A send that fails is a loss, as on the way.
pub(crate) fn send_one<S: System>(
    system: &S,
    timeline: &mut S::Timeline,
    port: &mut S::Port,
    message: &Message,
)
    ensures same { HeardNothing ((S.outside system.now).port port.old) ((S.outside system.now).port port.new) }
    ensures spelled { SpellsMessage (message_text message.now) message.now }
    ensures made { Adds (S.outside system.now) timeline.old timeline.new (message_sent (address_of ((S.outside system.now).port port.old)) message.now) }
{
    let _sent = system.send(timeline, port, &message.encode());
}

/// Sends messages, each once and in their order.
fn send_all<S: System>(
    system: &S,
    timeline: &mut S::Timeline,
    port: &mut S::Port,
    messages: &[Message],
)
    ensures same { HeardNothing ((S.outside system.now).port port.old) ((S.outside system.now).port port.new) }
    ensures spelled { AllSpelled messages.now }
    ensures made { Adds (S.outside system.now) timeline.old timeline.new (sent (address_of ((S.outside system.now).port port.old)) messages.now) }
{
    for message in messages {
        send_one(system, timeline, port, message);
    }
}

/// Sends the messages of each reply, in order. Where a port sends to the sender of a datagram, each goes to that of its own.
fn send_replies<S: System>(
    system: &S,
    timeline: &mut S::Timeline,
    port: &mut S::Port,
    held: &[Held],
)
    ensures same { SendsToSame ((S.outside system.now).port port.old) ((S.outside system.now).port port.new) }
    ensures spelled { AreSpelled held.now }
    ensures made { Adds (S.outside system.now) timeline.old timeline.new (all_sent ((S.outside system.now).port port.old).to held.now) }
{
    for one in held {
        system.answer(port, one.sender);
        send_all(system, timeline, port, one.reply.outputs.as_slice());
    }
}

/// Sends the replies of a round, or withholds them.
pub(crate) fn send_if<S: System>(
    system: &S,
    timeline: &mut S::Timeline,
    port: &mut S::Port,
    held: &[Held],
    are_sent: bool,
)
    ensures same { SendsToSame ((S.outside system.now).port port.old) ((S.outside system.now).port port.new) }
    ensures spelled { are_sent ≡ true → AreSpelled held.now }
    ensures made { Adds (S.outside system.now) timeline.old timeline.new (cond are_sent (all_sent ((S.outside system.now).port port.old).to held.now) []) }
{
    if are_sent {
        send_replies(system, timeline, port, held);
    }
}
