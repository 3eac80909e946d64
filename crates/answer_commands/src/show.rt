//! `show`: the messages of the input as lines.

ghost use Rattle.std.specs.Prelude.{◌≡◌, OnErr};
ghost use Rattle.answer_commands.specs.Inside.Fronts.{IsFront};
ghost use Rattle.answer_commands.specs.Inside.Streaming.{ShowsStream};
ghost use Rattle.answer_parts.specs.Printing.{OutputFails, Performs};
ghost use Rattle.answer_commands.specs.Show.{ShowsMessages};
ghost use Rattle.move_msg.specs.Streams.{nothing_fed};
ghost use Rattle.timeline.specs.Outsides.{AddsSome};

use answer_parts::{Line, Refusal, print_refusal, print_unread};
use move_msg::{Feeder, Message, MessageFault};
use std::alloc::Global;
use system_io::WriteFault;
use timeline::{Stream, System};

/// What stands at the front of a stream.
enum Front<'a> {
    /// A message, and what follows it.
    Message(Message, &'a [u8]),
    /// As many bytes as a message has, which are none.
    Fault(MessageFault),
    /// The beginning of a message.
    Cut,
    /// Nothing.
    End,
}

/// What stands at the front of a stream, by a feeder that holds nothing.
fn read_front<'a>(feeder: &mut Feeder, stream: &'a [u8]) -> Front<'a>
    requires { feeder.old ≡ nothing_fed }
    ensures { IsFront stream.now result feeder.new }
{
    let (taken, answer) = feeder.feed(stream);
    match answer {
        Some(Ok(message)) => Front::Message(message, &stream[taken..]),
        Some(Err(fault)) => Front::Fault(fault),
        None if feeder.held() == 0 => Front::End,
        None => Front::Cut,
    }
}

/// Writes a line for each message of a stream, and a refusal where it doesn't end after one. Returns the status, 0 done
/// or 1 refused.
fn show_messages<S: System>(
    system: &S,
    timeline: &mut S::Timeline,
    stream: &[u8],
) -> Result<u8, WriteFault>
    ensures made { AddsSome (S.outside system.now) timeline.old timeline.new (Performs (ShowsStream stream.now) result) }
    ensures cause { OnErr result (OutputFails (S.outside system.now)) }
{
    let mut feeder = Feeder::new();
    let mut rest = stream;
    let mut number: usize = 1;
    loop {
        match read_front(&mut feeder, rest) {
            Front::Message(message, tail) => {
                let line = Line::Message(message);
                match line.words().write(system, timeline, Stream::Output) {
                    Ok(()) => {}
                    Err(fault) => return Err(fault),
                }
                rest = tail;
                number += 1;
            }
            Front::Fault(fault) => {
                return print_refusal(system, timeline, Refusal::Message(number, Some(fault)));
            }
            Front::Cut => return print_refusal(system, timeline, Refusal::Message(number, None)),
            Front::End => return Ok(0),
        }
    }
}

/// Reads the input, writes a line for each of its messages, and returns the status.
pub(crate) fn show_input<S: System>(
    alloc: Global,
    system: &S,
    timeline: &mut S::Timeline,
) -> Result<u8, WriteFault>
    ensures made { AddsSome (S.outside system.now) timeline.old timeline.new (Performs (ShowsMessages (S.outside system.now).input) result) }
    ensures cause { OnErr result (OutputFails (S.outside system.now)) }
{
    match system.read_input(timeline, alloc) {
        Ok(stream) => show_messages(system, timeline, &stream),
        Err(fault) => print_unread(system, timeline, fault, 1),
    }
}
