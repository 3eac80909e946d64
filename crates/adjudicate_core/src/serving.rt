//! Requests of HTTP that are answered, and the output's end.

ghost use Rattle.adjudicate_core.specs.Serving.{ServesAndEnds};

use answer_commands::end;
use command_line::Serve;
use serve_core::{Pages, serve};
use std::alloc::Global;
use timeline::System;

/// Answers requests as the words say, lets all go out that was written, and returns the program's status.
pub(crate) fn serve_and_end<S: System, G: Pages>(
    alloc: Global,
    task: &Serve<'_>,
    system: &S,
    timeline: &mut S::Timeline,
    pages: &G,
) -> u8
    ensures { ServesAndEnds (S.outside system.now) task.now timeline.old timeline.new result }
{
    let answered = serve(alloc, pages, task, system, timeline);
    end(system, timeline, answered)
}
