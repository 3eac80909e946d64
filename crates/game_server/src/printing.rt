//! The lines of a round are written, and go out.

ghost use Rattle.std.specs.Prelude.{◌≡◌, [], ◌∷◌, OnErr};
ghost use Rattle.timeline.specs.Events.{is_done};
ghost use Rattle.timeline.specs.Outsides.{AddsSome};
ghost use Rattle.game_server.specs.Printing.{OutputFails};
ghost use Rattle.game_server.specs.Rounds.{withheld_line};
ghost use Rattle.game_server.specs.Inside.Running.{IsTextEnd, PrintsIn, held_line, held_lines};

use crate::lines::Lines;
use crate::replies::Held;
use arbiter_server::{Line, OpenGameError};
use system_io::WriteFault;
use timeline::{Stream, System};

/// Writes a text, and lets it go out at once.
fn print_text<S: System>(
    system: &S,
    timeline: &mut S::Timeline,
    text: &[u8],
) -> Result<(), WriteFault>
    ensures made { AddsSome (S.outside system.now) timeline.old timeline.new (IsTextEnd (is_done result) text.now) }
    ensures cause { OnErr result (OutputFails (S.outside system.now)) }
{
    match system.write(timeline, Stream::Output, text) {
        Ok(()) => system.flush(timeline, Stream::Output),
        Err(fault) => Err(fault),
    }
}

/// Writes a line where it is one that is written, and lets it go out at once.
pub(crate) fn print_line<S: System>(
    system: &S,
    timeline: &mut S::Timeline,
    lines: &mut Lines,
    line: Line,
) -> Result<(), WriteFault>
    ensures made { PrintsIn (S.outside system.now) lines.old lines.new (line ∷ []) timeline.old timeline.new result }
    ensures cause { OnErr result (OutputFails (S.outside system.now)) }
{
    match lines.pick(line) {
        Some(text) => print_text(system, timeline, text.as_slice()),
        None => Ok(()),
    }
}

/// The line of a datagram whose answer is withheld, since memory was refused to commit what its game keeps.
fn withheld(line: Line) -> Line
    ensures { result ≡ withheld_line line }
{
    match line {
        Line::Answered(stamp, _) | Line::Unopened(stamp, _) => {
            Line::Unopened(stamp, OpenGameError::OutOfMemory)
        }
        Line::Unread(_) | Line::PortLost | Line::StoreLost | Line::MemoryLost => line,
    }
}

/// The line of a datagram, whose answer is sent or withheld.
fn line_of(held: &Held, is_sent: bool) -> Line
    ensures { result ≡ held_line is_sent held.now }
{
    if is_sent {
        held.reply.line
    } else {
        withheld(held.reply.line)
    }
}

/// Writes the line of each datagram of a round, whose answers are sent or withheld, where it is one that is written, in order, up to one
/// that can't go out.
pub(crate) fn print_lines<S: System>(
    system: &S,
    timeline: &mut S::Timeline,
    lines: &mut Lines,
    held: &[Held],
    are_sent: bool,
) -> Result<(), WriteFault>
    ensures made { PrintsIn (S.outside system.now) lines.old lines.new (held_lines are_sent held.now) timeline.old timeline.new result }
    ensures cause { OnErr result (OutputFails (S.outside system.now)) }
{
    for one in held {
        match print_line(system, timeline, lines, line_of(one, are_sent)) {
            Ok(()) => {}
            Err(fault) => return Err(fault),
        }
    }
    Ok(())
}
