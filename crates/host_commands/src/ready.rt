//! The line that tells the address of a port.

ghost use Rattle.std.specs.Prelude.{◌≡◌, [], string_bytes, IfOk, OnErr};
ghost use Rattle.answer_parts.specs.Lines.{ready_words};
ghost use Rattle.answer_parts.specs.Printing.{OutputFails, Performs};
ghost use Rattle.host_commands.specs.Inside.Parts.{GivesReadyLine, GoesOut, GoesOutIf, line_if_taken, line_in};
ghost use Rattle.host_commands.specs.Ready.{MakesLineIf};
ghost use Rattle.move_msg.specs.TextLines.{ended};
ghost use Rattle.timeline.specs.Outsides.{AddsSome};

use answer_parts::Refusal;
use std::alloc::{AllocError, Global};
use std::net::SocketAddr;
use system_io::WriteFault;
use timeline::{Stream, System};

/// The line that tells an address, with its line feed.
fn ready_text(alloc: Global, own: SocketAddr) -> Result<String, AllocError>
    ensures { IfOk result (λ text. string_bytes text ≡ ended (ready_words own)) }
{
    format!(in alloc; "ready {own}\n")
}

/// The line that tells the address at which a port listens, with its line feed. The error is `Port` where that isn't known, `Memory`
/// where memory for the line is refused.
pub(crate) fn ready_line<S: System>(
    alloc: Global,
    system: &S,
    port: &S::Port,
) -> Result<String, Refusal>
    ensures { GivesReadyLine ((S.outside system.now).port port.now).own result }
{
    let Some(own) = system.own_address(port) else {
        return Err(Refusal::Port);
    };
    match ready_text(alloc, own) {
        Ok(text) => Ok(text),
        Err(_) => Err(Refusal::Memory),
    }
}

/// The line that tells the address of a port, where it is wanted. The error comes where the address isn't known or memory is refused.
pub(crate) fn ready_if<S: System>(
    alloc: Global,
    system: &S,
    port: &S::Port,
    is_wanted: bool,
) -> Result<Option<String>, Refusal>
    ensures { MakesLineIf is_wanted ((S.outside system.now).port port.now).own (line_if_taken result) [] }
{
    if !is_wanted {
        return Ok(None);
    }
    match ready_line(alloc, system, port) {
        Ok(line) => Ok(Some(line)),
        Err(refusal) => Err(refusal),
    }
}

/// Writes a text, and lets it go out at once.
pub(crate) fn print_out<S: System>(
    system: &S,
    timeline: &mut S::Timeline,
    text: &str,
) -> Result<(), WriteFault>
    ensures made { AddsSome (S.outside system.now) timeline.old timeline.new (Performs (GoesOut text.now) result) }
    ensures cause { OnErr result (OutputFails (S.outside system.now)) }
{
    match system.write(timeline, Stream::Output, text.as_bytes()) {
        Ok(()) => system.flush(timeline, Stream::Output),
        Err(fault) => Err(fault),
    }
}

/// Writes a line, where there is one, and lets it go out at once.
pub(crate) fn print_line<S: System>(
    system: &S,
    timeline: &mut S::Timeline,
    line: &Option<String>,
) -> Result<(), WriteFault>
    ensures made { AddsSome (S.outside system.now) timeline.old timeline.new (Performs (GoesOutIf (line_in line.now)) result) }
    ensures cause { OnErr result (OutputFails (S.outside system.now)) }
{
    match line {
        Some(line) => print_out(system, timeline, line.as_str()),
        None => Ok(()),
    }
}
