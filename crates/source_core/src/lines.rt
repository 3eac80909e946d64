//! The lines of a run.

ghost use Rattle.std.specs.Prelude.{◌≡◌, ◌≤◌, ◌+◌, ◌++◌, OnErr, length};
ghost use Rattle.std.specs.Fmt.{decimal};
ghost use Rattle.board_core.specs.Verdicts.{verdict_name};
ghost use Rattle.line_teller.specs.ToldLines.{HasFailed};
ghost use Rattle.source_core.specs.Runs.{LineGoesOut};
ghost use Rattle.timeline.specs.Outsides.{AddsSome};
ghost use Rattle.timeline.specs.declared.stream.Stream.TheVariants as to;
ghost use Rattle.source_core.specs.Lines.{acked_words, clash_words, end_words, ended_by, ended_status, ruling_words, sending_line_words, started_words, status_by};

use crate::known::{Clash, Known};
use crate::origin::Started;
use crate::report::Ruling;
use board_core::Verdict;
use line_teller::LineWords;
use system_io::WriteFault;
use timeline::{Stream, System};

/// The end of a run.
#[derive(Clone, Copy)]
pub enum End {
    /// The input has ended; this many moves are acknowledged.
    Open(u32),
    /// Both arbiters have reported this verdict.
    Ruled(Ruling),
    /// Two verdicts were reported that differ.
    Clashed(Clash),
    /// The game is new, and an arbiter has more moves than were sent.
    Started(Started),
    /// This verdict was reported, and the source's own board doesn't show it.
    Belied(Ruling),
    /// The line at this place, counted from 0, is no move.
    NotAMove(u32),
    /// The move at this place isn't legal.
    Illegal(u32),
    /// There are more moves than a game may have.
    TooLong,
    /// An arbiter doesn't answer.
    Lost,
    /// No datagram can be received.
    PortLost,
    /// The input can't be read.
    Unread,
    /// Memory was refused.
    OutOfMemory,
}

/// A line of a run, without its line feed.
#[derive(Clone, Copy)]
pub enum Line {
    /// Both arbiters have acknowledged this many moves.
    Acked(u32),
    /// The last line.
    Ends(End),
}

/// What a run of a source comes to.
#[derive(Clone, Copy)]
pub enum Ended {
    /// This status: 0 where the game goes on at the input's end or has its verdict, else 1.
    With(u8),
    /// Status 1, since an arbiter doesn't answer; and what both have reported.
    Lost(Known),
}

impl Ended {
    /// The status.
    pub fn status(&self) -> u8
        ensures { result ≡ ended_status self.now }
    {
        match self {
            Ended::With(status) => *status,
            Ended::Lost(_) => 1,
        }
    }
}

impl End {
    /// The status of a run that ends so.
    pub fn status(&self) -> u8
        ensures { result ≡ status_by self.now }
    {
        match self {
            End::Open(_) | End::Ruled(_) => 0,
            _ => 1,
        }
    }

    /// What a run that ends so comes to.
    pub(crate) fn ended(&self, known: &Known) -> Ended
        ensures { result ≡ ended_by self.now known.now }
    {
        match self {
            End::Lost => Ended::Lost(*known),
            _ => Ended::With(self.status()),
        }
    }
}

/// The name of a verdict.
fn name_of(verdict: Verdict) -> &'static str
    ensures is { result.now ≡ verdict_name verdict }
    ensures short { length result.now ≤ 10 }
{
    verdict.name()
}

/// Adds the ply of a verdict, and its name.
fn add_ruling(line: &mut LineWords, ruling: Ruling)
    requires { length line.old ≤ 200 }
    ensures is { line.new ≡ line.old ++ ruling_words ruling }
    ensures size { length line.new ≤ length line.old + 51 }
{
    line.add_number(ruling.ply);
    line.add(" ");
    line.add(name_of(ruling.verdict));
}

/// Words, and a verdict behind them.
fn ruled(words: &str, ruling: Ruling) -> LineWords
    requires { length words.now ≤ 20 }
    ensures is { result ≡ words.now ++ ruling_words ruling }
    ensures size { length result ≤ 71 }
{
    let mut line = LineWords::of(words);
    add_ruling(&mut line, ruling);
    line
}

/// The words for two verdicts that differ.
fn clash_line(clash: &Clash) -> LineWords
    ensures { result ≡ clash_words clash.now }
{
    let mut line = ruled("disagree ", clash.first);
    line.add(" ");
    add_ruling(&mut line, clash.second);
    line
}

/// The words for an arbiter that has more moves than were sent.
fn started_line(started: &Started) -> LineWords
    ensures { result ≡ started_words started.now }
{
    let mut line = LineWords::new();
    line.add_counted("refused started ", started.count);
    line.add(" ");
    line.add(started.at.as_str());
    line
}

/// Words, and a number behind them.
fn numbered(words: &str, number: u32) -> LineWords
    requires { length words.now ≤ 20 }
    ensures { result ≡ words.now ++ decimal number }
{
    let mut line = LineWords::new();
    line.add_counted(words, number);
    line
}

/// The line with which a run ends.
fn end_line(end: &End) -> LineWords
    ensures { result ≡ end_words end.now }
{
    match end {
        End::Open(count) => numbered("open ", *count),
        End::Ruled(ruling) => ruled("verdict ", *ruling),
        End::Clashed(clash) => clash_line(clash),
        End::Started(started) => started_line(started),
        End::Belied(ruling) => ruled("disagree ", *ruling),
        End::NotAMove(number) => numbered("refused move ", *number),
        End::Illegal(number) => numbered("illegal ", *number),
        End::TooLong => LineWords::of("refused TooLong"),
        End::Lost => LineWords::of("refused lost"),
        End::PortLost => LineWords::of("refused port"),
        End::Unread => LineWords::of("refused files"),
        End::OutOfMemory => LineWords::of("refused memory"),
    }
}

/// The line that says how many moves both have acknowledged.
fn acked_line(count: u32) -> LineWords
    ensures { result ≡ acked_words count }
{
    let mut line = LineWords::new();
    line.add_number(count);
    line.add(" acked");
    line
}

/// The words of a line.
fn words_of(line: &Line) -> LineWords
    ensures { result ≡ sending_line_words line.now }
{
    match line {
        Line::Acked(count) => acked_line(*count),
        Line::Ends(end) => end_line(end),
    }
}

/// Writes a line at once, and lets it go out. An error comes only where a write might be refused, or what was written couldn't go out.
pub(crate) fn print_now<S: System>(
    system: &S,
    timeline: &mut S::Timeline,
    line: &Line,
) -> Result<(), WriteFault>
    ensures made { AddsSome (S.outside system.now) timeline.old timeline.new (LineGoesOut (sending_line_words line.now) result) }
    ensures cause { OnErr result (HasFailed (λ t. (S.outside system.now).output t to.Output)) }
{
    match words_of(line).write(system, timeline, Stream::Output) {
        Ok(()) => system.flush(timeline, Stream::Output),
        Err(fault) => Err(fault),
    }
}
