//! An answer to a line, written over a system.

ghost use Rattle.std.specs.Prelude.{◌==◌, IsErrOf};
ghost use Rattle.answer_parts.specs.Asked.{reply_of};
ghost use Rattle.answer_parts.specs.Printing.{OutputFails};
ghost use Rattle.line_events.specs.Writing.{WritesAnswer};
ghost use Rattle.timeline.specs.Outsides.{AddsSome};

use answer_parts::{Answer, print_reply};
use line_teller::TellFault;
use timeline::System;

/// Writes an answer, in one piece or in lines, and returns whether it is complete. The error comes only where the output failed; a front of
/// the answer is written then.
pub fn write_answer<S: System>(
    system: &S,
    timeline: &mut S::Timeline,
    answer: &Answer,
) -> Result<bool, TellFault>
    ensures made { AddsSome (S.outside system.now) timeline.old timeline.new (WritesAnswer (reply_of answer.now).text ((reply_of answer.now).status == 0) result) }
    ensures cause { IsErrOf result TellFault.Io → OutputFails (S.outside system.now) }
{
    match print_reply(system, timeline, answer) {
        Ok(status) => Ok(status == 0),
        Err(_) => Err(TellFault::Io),
    }
}
