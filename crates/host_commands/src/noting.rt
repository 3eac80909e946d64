//! Lines that are noted for whoever runs the program.

ghost use Rattle.host_commands.specs.Notes.{noted_if};
ghost use Rattle.timeline.specs.Outsides.{Adds};

use std::alloc::AllocError;
use timeline::System;

/// Notes a line, unless memory for it was refused.
pub fn note_line<S: System>(
    system: &S,
    timeline: &mut S::Timeline,
    line: Result<String, AllocError>,
)
    ensures { Adds (S.outside system.now) timeline.old timeline.new (noted_if line) }
{
    if let Ok(line) = line {
        system.note(timeline, &[line.as_str()]);
    }
}
