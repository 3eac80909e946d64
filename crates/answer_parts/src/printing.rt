//! Lines, refusals and replies that are written over a system.

ghost use Rattle.std.specs.Prelude.{◌∷◌, [], OnErr, map};
ghost use Rattle.answer_parts.specs.Asked.{reply_of};
ghost use Rattle.answer_parts.specs.Lines.{refusal_words, words_of};
ghost use Rattle.answer_parts.specs.Printing.{ArePrinted, OutputFails, Performs, Prints, PrintsReplied, PrintsReply, PrintsText};
ghost use Rattle.line_teller.specs.ToldLines.{cut_words};
ghost use Rattle.move_msg.specs.TextLines.{text_of};
ghost use Rattle.timeline.specs.Outsides.{AddsSome};

use crate::answers::json_faults::fault_line;
use crate::answers::lines::Line;
use crate::answers::refusals::Refusal;
use crate::answers::{Answer, status_if};
use std::alloc::AllocError;
use system_io::{ReadFault, WriteFault};
use timeline::{Stream, System};

/// Writes lines, each at once. Nothing more is written after one that is refused.
pub fn print_lines<S: System>(
    system: &S,
    timeline: &mut S::Timeline,
    lines: &[Line],
) -> Result<(), WriteFault>
    ensures made { AddsSome (S.outside system.now) timeline.old timeline.new (ArePrinted (map words_of lines.now) result) }
    ensures cause { OnErr result (OutputFails (S.outside system.now)) }
{
    for line in lines {
        match line.words().write(system, timeline, Stream::Output) {
            Ok(()) => {}
            Err(fault) => return Err(fault),
        }
    }
    Ok(())
}

/// Writes a refusal of all else, and returns the status 1.
pub fn print_refusal<S: System>(
    system: &S,
    timeline: &mut S::Timeline,
    refusal: Refusal,
) -> Result<u8, WriteFault>
    ensures made { AddsSome (S.outside system.now) timeline.old timeline.new (Performs (Prints (refusal_words refusal ∷ []) 1) result) }
    ensures cause { OnErr result (OutputFails (S.outside system.now)) }
{
    match refusal.words().write(system, timeline, Stream::Output) {
        Ok(()) => Ok(1),
        Err(fault) => Err(fault),
    }
}

/// Writes why something wasn't read, and returns what comes of that: of a command the status 1.
pub fn print_unread<S: System, X: Copy>(
    system: &S,
    timeline: &mut S::Timeline,
    fault: ReadFault,
    outcome: X,
) -> Result<X, WriteFault>
    ensures made { AddsSome (S.outside system.now) timeline.old timeline.new (Performs (Prints (cut_words fault ∷ []) outcome) result) }
    ensures cause { OnErr result (OutputFails (S.outside system.now)) }
{
    match print_refusal(system, timeline, Refusal::unread(fault)) {
        Ok(_) => Ok(outcome),
        Err(fault) => Err(fault),
    }
}

/// Writes a text, and returns this status.
fn print_text<S: System>(
    system: &S,
    timeline: &mut S::Timeline,
    text: &[u8],
    status: u8,
) -> Result<u8, WriteFault>
    ensures made { AddsSome (S.outside system.now) timeline.old timeline.new (Performs (PrintsReply (record { text = text.now; status = status })) result) }
    ensures cause { OnErr result (OutputFails (S.outside system.now)) }
{
    match system.write(timeline, Stream::Output, text) {
        Ok(()) => Ok(status),
        Err(fault) => Err(fault),
    }
}

/// Writes lines, each at once, and returns this status.
fn print_all<S: System>(
    system: &S,
    timeline: &mut S::Timeline,
    lines: &[Line],
    status: u8,
) -> Result<u8, WriteFault>
    ensures made { AddsSome (S.outside system.now) timeline.old timeline.new (Performs (PrintsText (text_of (map words_of lines.now)) status) result) }
    ensures cause { OnErr result (OutputFails (S.outside system.now)) }
{
    match print_lines(system, timeline, lines) {
        Ok(()) => Ok(status),
        Err(fault) => Err(fault),
    }
}

/// Writes an answer, and returns its status.
pub fn print_reply<S: System>(
    system: &S,
    timeline: &mut S::Timeline,
    answer: &Answer,
) -> Result<u8, WriteFault>
    ensures made { AddsSome (S.outside system.now) timeline.old timeline.new (Performs (PrintsReply (reply_of answer.now)) result) }
    ensures cause { OnErr result (OutputFails (S.outside system.now)) }
{
    match answer {
        Answer::Refused(refusal) => print_refusal(system, timeline, *refusal),
        Answer::One(line, done) => print_all(system, timeline, &[*line], status_if(*done)),
        Answer::Lines(lines, done) => print_all(system, timeline, lines, status_if(*done)),
        Answer::Text(text, done) => print_text(system, timeline, text, status_if(*done)),
        Answer::JsonFault(fault) => print_text(system, timeline, fault_line(*fault).as_bytes(), 1),
    }
}

/// Writes an answer, or the line `refused memory` where memory was refused for it, and returns the status.
pub fn print_replied<S: System>(
    system: &S,
    timeline: &mut S::Timeline,
    answered: Result<Answer, AllocError>,
) -> Result<u8, WriteFault>
    ensures made { AddsSome (S.outside system.now) timeline.old timeline.new (Performs (PrintsReplied answered) result) }
    ensures cause { OnErr result (OutputFails (S.outside system.now)) }
{
    match answered {
        Ok(answer) => print_reply(system, timeline, &answer),
        Err(_) => print_refusal(system, timeline, Refusal::Memory),
    }
}
