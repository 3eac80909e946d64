//! Answers that are written, and the output's end.

ghost use Rattle.std.specs.Prelude.{◌≡◌, ◌∷◌, [], OnErr};
ghost use Rattle.answer_commands.specs.Inside.Answering.{PrintsAnswered, answer_lines, answer_status};
ghost use Rattle.answer_commands.specs.Endings.{Closes, output_lost};
ghost use Rattle.answer_parts.specs.Printing.{OutputFails, Performs, Prints};
ghost use Rattle.timeline.specs.Events.{Noted};
ghost use Rattle.timeline.specs.Outsides.{Adds, AddsSome};

use crate::answers::Answer;
use answer_parts::{Refusal, print_lines, print_refusal};
use std::alloc::AllocError;
use system_io::WriteFault;
use timeline::{Stream, System};

/// Writes an answer, and returns its status.
fn print_answer<S: System>(
    system: &S,
    timeline: &mut S::Timeline,
    answer: &Answer,
) -> Result<u8, WriteFault>
    ensures made { AddsSome (S.outside system.now) timeline.old timeline.new (Performs (Prints (answer_lines answer.now) (answer_status answer.now)) result) }
    ensures cause { OnErr result (OutputFails (S.outside system.now)) }
{
    match answer {
        Answer::Lines(lines) => match print_lines(system, timeline, lines) {
            Ok(()) => Ok(0),
            Err(fault) => Err(fault),
        },
        Answer::Refused(refusal) => print_refusal(system, timeline, *refusal),
    }
}

/// Writes an answer, or the line `refused memory` where memory was refused for it, and returns the status.
pub(crate) fn print_answered<S: System>(
    system: &S,
    timeline: &mut S::Timeline,
    answered: Result<Answer, AllocError>,
) -> Result<u8, WriteFault>
    ensures made { AddsSome (S.outside system.now) timeline.old timeline.new (Performs (PrintsAnswered answered) result) }
    ensures cause { OnErr result (OutputFails (S.outside system.now)) }
{
    match answered {
        Ok(answer) => print_answer(system, timeline, &answer),
        Err(_) => print_refusal(system, timeline, Refusal::Memory),
    }
}

/// Notes that the output can't be written, and returns the status 1.
fn note_lost<S: System>(system: &S, timeline: &mut S::Timeline) -> u8
    ensures made { Adds (S.outside system.now) timeline.old timeline.new (Noted output_lost ∷ []) }
    ensures status { result ≡ 1 }
{
    system.note(timeline, &["the output can't be written"]);
    1
}

/// Lets all that was written go out, and returns the program's status: that of what was answered, or 1 where a write was refused or what
/// was written can't go out, which is noted.
pub fn end<S: System>(
    system: &S,
    timeline: &mut S::Timeline,
    answered: Result<u8, WriteFault>,
) -> u8
    ensures { AddsSome (S.outside system.now) timeline.old timeline.new (Closes (S.outside system.now) timeline.new answered result) }
{
    match system.flush(timeline, Stream::Output) {
        Ok(()) => match answered {
            Ok(status) => status,
            Err(_) => note_lost(system, timeline),
        },
        Err(_) => note_lost(system, timeline),
    }
}
