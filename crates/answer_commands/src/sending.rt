//! `send`: the source of a game, which sends the moves of the input.

ghost use Rattle.std.specs.Prelude.{◌≡◌, ◌≤◌, ◌++◌, ◌*◌, length, OnErr};
ghost use Rattle.std.specs.Duration.{as_nanos};
ghost use Rattle.answer_commands.specs.Inside.Sending.{WritesSecond};
ghost use Rattle.answer_commands.specs.Sending.{SendsAt, SendsFrom, SendsInput, TellsSilent, WritesSilence, is_silent, silence_words};
ghost use Rattle.answer_parts.specs.Printing.{OutputFails, Performs};
ghost use Rattle.move_notation.specs.Notations.{notation_by};
ghost use Rattle.source_core.specs.Lines.{ended_status};
ghost use Rattle.source_core.specs.Origins.{origin_by};
ghost use Rattle.timeline.specs.Outsides.{AddsSome};

use crate::sent_game::{GameSent, game_of};
use answer_parts::{print_refusal, print_unread};
use command_line::Send;
use host_commands::bind;
use line_teller::LineWords;
use move_msg::Stamp;
use move_notation::Notation;
use source_core::{Ended, GameToSend, Known, Origin, Reported, SendConfig, send_moves};
use std::alloc::Global;
use std::time::Duration;
use system_io::{ReadFault, WriteFault};
use timeline::{Stream, System};

/// Whether an arbiter has acknowledged no move and reported no verdict.
fn is_silent(told: &Reported) -> bool
    ensures { result ≡ is_silent told.now }
{
    told.count == 0 && told.ruling.is_none()
}

/// What an arbiter has acknowledged, or that no answer of it came, behind these words.
fn silence_line(front: &str, told: &Reported) -> LineWords
    requires { length front.now ≤ 20 }
    ensures { result ≡ front.now ++ silence_words told.now }
{
    let mut line = LineWords::of(front);
    if is_silent(told) {
        line.add("no answer came");
    } else {
        line.add_counted("last acknowledged ", told.count);
    }
    line
}

/// Writes the line of the second arbiter to standard error, and lets both go out. A failure there changes nothing.
fn write_second<S: System>(system: &S, timeline: &mut S::Timeline, known: &Known)
    ensures { AddsSome (S.outside system.now) timeline.old timeline.new (WritesSecond known.now) }
{
    match silence_line("arbiter 2 ", &known.b).write(system, timeline, Stream::Errors) {
        Ok(()) => {
            let _out = system.flush(timeline, Stream::Errors);
        }
        Err(_) => {}
    }
}

/// Writes a line for each arbiter to standard error, and lets both go out. A failure there changes nothing.
fn write_silence<S: System>(system: &S, timeline: &mut S::Timeline, known: &Known)
    ensures { AddsSome (S.outside system.now) timeline.old timeline.new (WritesSilence known.now) }
{
    match silence_line("arbiter 1 ", &known.a).write(system, timeline, Stream::Errors) {
        Ok(()) => write_second(system, timeline, known),
        Err(_) => {}
    }
}

/// Says who was silent, where an arbiter doesn't answer, and returns the status of the run.
fn report_silence<S: System>(system: &S, timeline: &mut S::Timeline, ended: &Ended) -> u8
    ensures made { AddsSome (S.outside system.now) timeline.old timeline.new (TellsSilent ended.now) }
    ensures status { result ≡ ended_status ended.now }
{
    match ended {
        Ended::With(status) => *status,
        Ended::Lost(known) => {
            write_silence(system, timeline, known);
            1
        }
    }
}

/// The terms on which the moves are sent.
fn terms_of(task: &Send<'_>, stamp: Stamp) -> SendConfig
    ensures stamp { result.stamp ≡ stamp }
    ensures origin { result.origin ≡ origin_by task.now.is_new }
    ensures notation { result.notation ≡ notation_by task.now.san }
    ensures tries { result.tries ≡ task.now.tries }
    ensures wait { as_nanos result.wait ≡ task.now.wait * 1_000_000 }
{
    SendConfig {
        stamp,
        origin: Origin::by_flag(task.is_new),
        notation: Notation::by_flag(task.san),
        tries: u32::from(task.tries),
        wait: Duration::from_millis(u64::from(task.wait)),
    }
}

/// Sends the moves of the input at a port, and returns the status. Where memory for reading it is refused, that is the only line.
fn send_at<S: System>(
    alloc: Global,
    task: &Send<'_>,
    game: GameSent,
    port: S::Port,
    system: &S,
    timeline: &mut S::Timeline,
) -> Result<u8, WriteFault>
    ensures made { AddsSome (S.outside system.now) timeline.old timeline.new (Performs (SendsAt (S.outside system.now) task.now game port) result) }
    ensures cause { OnErr result (OutputFails (S.outside system.now)) }
{
    let Ok(lines) = system.input_lines(timeline, alloc) else {
        return print_unread(system, timeline, ReadFault::OutOfMemory, 1);
    };
    let game = GameToSend {
        terms: terms_of(task, game.stamp),
        start: game.start,
        to: task.to,
    };
    match send_moves(alloc, system, timeline, &game, lines, port) {
        Ok(ended) => Ok(report_silence(system, timeline, &ended)),
        Err(fault) => Err(fault),
    }
}

/// Binds the address that the words name, sends from there, and returns the status.
fn send_from<S: System>(
    alloc: Global,
    task: &Send<'_>,
    game: GameSent,
    system: &S,
    timeline: &mut S::Timeline,
) -> Result<u8, WriteFault>
    ensures made { AddsSome (S.outside system.now) timeline.old timeline.new (Performs (SendsFrom (S.outside system.now) task.now game) result) }
    ensures cause { OnErr result (OutputFails (S.outside system.now)) }
{
    match bind(alloc, system, timeline, task.bind, task.to) {
        Ok(port) => send_at(alloc, task, game, port, system, timeline),
        Err(refusal) => print_refusal(system, timeline, refusal),
    }
}

/// Sends the moves of the input as the words say, and returns the status.
///
/// A refusal before the first move is one line. Of words it is, in this order: of the text of the start, and of the manifest or the
/// folder of the tables. Of a game's file: `refused files` where it can't be read or has more than 192 bytes, or `refused line 2`
/// with the number of the first line at fault. Then that of the address, which is noted. Where memory is refused the line is `refused memory`.
/// Tables are read for the stamp of a game that words tell alone, and none where a manifest is named. A game's file has its stamp in its
/// name. That the text of the file is of the game with this stamp can't be checked without the manifest of its tables, so it isn't:
/// under a wrong name no arbiter answers. What follows is as in `source_core::send_moves`. Where an arbiter doesn't answer, a line for
/// each says on standard error what it has acknowledged. The error comes only where the output may fail.
pub(crate) fn send<S: System>(
    alloc: Global,
    task: &Send<'_>,
    system: &S,
    timeline: &mut S::Timeline,
) -> Result<u8, WriteFault>
    ensures made { AddsSome (S.outside system.now) timeline.old timeline.new (Performs (SendsInput (S.outside system.now) task.now) result) }
    ensures cause { OnErr result (OutputFails (S.outside system.now)) }
{
    match game_of(alloc, task, system, timeline) {
        Ok(game) => send_from(alloc, task, game, system, timeline),
        Err(refusal) => print_refusal(system, timeline, refusal),
    }
}
