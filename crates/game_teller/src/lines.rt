//! The lines of a game that is followed ply by ply.

ghost use Rattle.std.specs.Prelude.{◌≡◌, ◌≤◌, ◌++◌, ◌∷◌, [], OnErr, length};
ghost use Rattle.std.specs.Fmt.{decimal};
ghost use Rattle.judge_core.specs.Words.{verdict_words};
ghost use Rattle.game_teller.specs.Inside.Steps.{GoesOut};
ghost use Rattle.game_teller.specs.Plies.{ply_words, stop_words};
ghost use Rattle.game_teller.specs.declared.lines.Stop.TheVariants.{BadFile};
ghost use Rattle.answer_parts.specs.Printing.{OutputFails, Performs, Prints};
ghost use Rattle.timeline.specs.Outsides.{AddsSome};

use board_core::{Position, Verdict};
use fen_text::write;
use judge_core::verdict_or_open;
use line_teller::LineWords;
use system_io::WriteFault;
use table_folder::FileRefusal;
use timeline::{Stream, System};

/// Why no more plies are printed.
#[derive(Clone, Copy)]
pub enum Stop {
    /// The line at this place, counted from 0, is no move.
    NotAMove(usize),
    /// The move at this place isn't legal.
    Illegal(usize),
    /// The position after the next move, or the start, needs a table whose file is refused.
    BadFile(FileRefusal),
    /// The input can't be read.
    Unread,
    /// Memory was refused.
    OutOfMemory,
}

/// Words and a number.
fn numbered(words: &str, number: usize) -> LineWords
    requires { length words.now ≤ 40 }
    ensures { result ≡ words.now ++ decimal number }
{
    let mut line = LineWords::new();
    line.add_counted(words, number);
    line
}

/// The line that refuses the file of a table.
fn file_line(refusal: &FileRefusal) -> LineWords
    ensures { result ≡ stop_words (BadFile refusal.now) }
{
    let mut line = LineWords::of("refused ");
    line.add(refusal.name.as_str());
    line.add(" ");
    line.add(refusal.fault.name());
    line
}

/// The line that says why no more plies are printed.
fn stop_line(stop: Stop) -> LineWords
    ensures { result ≡ stop_words stop }
{
    match stop {
        Stop::NotAMove(place) => numbered("refused move ", place),
        Stop::Illegal(place) => numbered("illegal ", place),
        Stop::BadFile(refusal) => file_line(&refusal),
        Stop::Unread => LineWords::of("refused files"),
        Stop::OutOfMemory => LineWords::of("refused memory"),
    }
}

/// Writes why no more plies are printed, and returns the status 1.
pub(crate) fn print_stop<S: System>(
    system: &S,
    timeline: &mut S::Timeline,
    stop: Stop,
) -> Result<u8, WriteFault>
    ensures made { AddsSome (S.outside system.now) timeline.old timeline.new (Performs (Prints (stop_words stop ∷ []) 1) result) }
    ensures cause { OnErr result (OutputFails (S.outside system.now)) }
{
    match stop_line(stop).write(system, timeline, Stream::Output) {
        Ok(()) => Ok(1),
        Err(fault) => Err(fault),
    }
}

/// The name of a verdict, or `open`.
fn verdict_word(verdict: Option<Verdict>) -> &'static str
    ensures is { result.now ≡ verdict_words verdict }
    ensures short { length result.now ≤ 10 }
{
    verdict_or_open(verdict)
}

/// The line of a ply: its number, its verdict or `open`, and its position.
fn ply_line(number: usize, verdict: Option<Verdict>, position: &Position) -> LineWords
    ensures { result ≡ ply_words number verdict position.now }
{
    let mut line = LineWords::new();
    line.add_number(number);
    line.add(" ");
    line.add(verdict_word(verdict));
    line.add(" ");
    line.add(write(position).as_str());
    line
}

/// Writes the line of a ply, and lets it go out. Where the output fails, a front of it is written, or all of it can't go out.
pub(crate) fn print_ply<S: System>(
    system: &S,
    timeline: &mut S::Timeline,
    number: usize,
    verdict: Option<Verdict>,
    position: &Position,
) -> Result<(), WriteFault>
    ensures made { AddsSome (S.outside system.now) timeline.old timeline.new (Performs (GoesOut (ply_words number verdict position.now)) result) }
    ensures cause { OnErr result (OutputFails (S.outside system.now)) }
{
    match ply_line(number, verdict, position).write(system, timeline, Stream::Output) {
        Ok(()) => system.flush(timeline, Stream::Output),
        Err(fault) => Err(fault),
    }
}
