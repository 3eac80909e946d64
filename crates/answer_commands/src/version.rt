//! `version`: the program's version.

ghost use Rattle.std.specs.Prelude.{OnErr};
ghost use Rattle.answer_parts.specs.Printing.{OutputFails, Performs};
ghost use Rattle.answer_commands.specs.Version.{PrintsVersion};
ghost use Rattle.timeline.specs.Outsides.{AddsSome};

use system_io::WriteFault;
use timeline::{Stream, System};

/// The program's version.
const TEXT: &str = "adjudicate 1.0.0
";

/// Writes the version as a line, and returns the status 0.
pub(crate) fn print_version<S: System>(
    system: &S,
    timeline: &mut S::Timeline,
) -> Result<u8, WriteFault>
    ensures made { AddsSome (S.outside system.now) timeline.old timeline.new (Performs PrintsVersion result) }
    ensures cause { OnErr result (OutputFails (S.outside system.now)) }
{
    match system.write(timeline, Stream::Output, TEXT.as_bytes()) {
        Ok(()) => Ok(0),
        Err(fault) => Err(fault),
    }
}
