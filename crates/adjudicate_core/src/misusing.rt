//! Words that are no task, and memory that is refused before there is one.

ghost use Rattle.adjudicate_core.specs.Misusing.{RefusesMemory, TellsAndEnds};

use answer_commands::end;
use answer_parts::{Refusal, print_refusal};
use command_line::{Misuse, tell_misuse};
use std::alloc::Global;
use timeline::System;

/// Says what is wrong with the words, and returns the program's status.
pub(crate) fn refuse_misuse<S: System>(
    alloc: Global,
    misuse: &Misuse<'_>,
    system: &S,
    timeline: &mut S::Timeline,
) -> u8
    ensures { TellsAndEnds misuse.now (S.outside system.now) timeline.old timeline.new result }
{
    tell_misuse(alloc, system, timeline, misuse);
    end(system, timeline, Ok(2))
}

/// Writes that memory was refused before there was a task, and returns the program's status.
pub(crate) fn refuse_task<S: System>(system: &S, timeline: &mut S::Timeline) -> u8
    ensures { RefusesMemory (S.outside system.now) timeline.old timeline.new result }
{
    let answered = print_refusal(system, timeline, Refusal::Memory);
    end(system, timeline, answered)
}
