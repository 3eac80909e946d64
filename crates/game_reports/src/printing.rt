//! A text that is written at once.

ghost use Rattle.std.specs.Prelude.{OnErr};
ghost use Rattle.answer_parts.specs.Printing.{OutputFails, Performs};
ghost use Rattle.game_reports.specs.Writing.{WritesText};
ghost use Rattle.timeline.specs.Outsides.{AddsSome};

use system_io::WriteFault;
use timeline::{Stream, System};

/// Writes a text, and returns the status 0.
pub(crate) fn print_text<S: System>(
    system: &S,
    timeline: &mut S::Timeline,
    text: &[u8],
) -> Result<u8, WriteFault>
    ensures made { AddsSome (S.outside system.now) timeline.old timeline.new (Performs (WritesText text.now) result) }
    ensures cause { OnErr result (OutputFails (S.outside system.now)) }
{
    match system.write(timeline, Stream::Output, text) {
        Ok(()) => Ok(0),
        Err(fault) => Err(fault),
    }
}
