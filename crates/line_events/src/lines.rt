//! The answers to the lines of the input as they come, over a system with a timeline.

ghost use Rattle.std.specs.Prelude.{◌≡◌, IsErrOf, OnErr};
ghost use Rattle.line_events.specs.Inside.Lines.{AnswersAllIn, AnswersNextIn, AnswersReadIn, FlushesIn};
ghost use Rattle.line_events.specs.LineEvents.{Answering, AnswersInputLines, AnswersLine, AnswersNoMore, MayTellProgress};
ghost use Rattle.answer_parts.specs.Printing.{OutputFails};
ghost use Rattle.line_teller.specs.ToldLines.{done_words, stops_by};
ghost use Rattle.timeline.specs.Outsides.{AddsSome};

use answer_parts::{print_unread, status_if};
use line_teller::{LineWords, TellFault};
use std::alloc::Global;
use system_io::{ReadFault, WriteFault};
use timeline::{Stream, System};

/// The number of lines between two lines of progress.
const PROGRESS_STEP: u64 = 10_000;

/// Answers each line of an input over a system.
pub trait LineAnswerer<S: System> {
    /// What it may know, such as the tables that are open.
    ghost Known: { Type 0 };

    /// This is the system from which it reads.
    ghost reads_from: { Self → S → Type 0 };

    /// What it knows, which may grow from line to line.
    ghost known: { Self → Known };

    /// How lines are answered by what is known.
    ghost answering: { Self → Answering Known };

    /// Reads what the answer to a line asks for, writes the answer, with a line feed after it and at once, and returns whether it is
    /// complete. An answer given later could have been given before.
    ///
    /// `OutOfMemory` comes only for a line that takes memory, and nothing of the answer is written then. `Io` comes only where the output
    /// failed. A front of the answer is written then, and nothing else.
    fn answer_line(
        &mut self,
        system: &S,
        timeline: &mut S::Timeline,
        line: &[u8],
    ) -> Result<bool, TellFault>
        requires { reads_from self.old system.now }
        ensures made { AddsSome (S.outside system.now) timeline.old timeline.new (AnswersLine (answering self.old) (known self.old) (known self.new) line.now result) }
        ensures cause { IsErrOf result TellFault.Io → OutputFails (S.outside system.now) }
        ensures same { AnswersNoMore (answering self.old) (answering self.new) }
        ensures still { reads_from self.new system.now };
}

/// The outcome for the next line.
#[derive(Clone, Copy)]
pub(crate) enum Step {
    /// It is answered, and whether completely.
    Told(bool),
    /// There is none.
    Ended,
    /// It isn't answered, and nothing more is.
    Cut,
}

/// Lets all that was written go out, before a line is awaited. Nothing is done where the next line has come already.
fn flush_before_line<S: System>(
    system: &S,
    timeline: &mut S::Timeline,
    lines: &S::Lines,
) -> Result<(), WriteFault>
    ensures made { FlushesIn (S.outside system.now) lines.now timeline.old timeline.new result }
    ensures cause { OnErr result (OutputFails (S.outside system.now)) }
{
    if system.has_line(lines) {
        return Ok(());
    }
    system.flush(timeline, Stream::Output)
}

/// Answers a line that was read.
fn answer_read<S: System, A: LineAnswerer<S>>(
    answerer: &mut A,
    system: &S,
    timeline: &mut S::Timeline,
    line: &[u8],
) -> Result<Step, WriteFault>
    requires { A.reads_from answerer.old system.now }
    ensures made { AnswersReadIn (S.outside system.now) A.answering A.known answerer.old answerer.new line.now timeline.old timeline.new result }
    ensures cause { OnErr result (OutputFails (S.outside system.now)) }
    ensures same { AnswersNoMore (A.answering answerer.old) (A.answering answerer.new) }
    ensures still { A.reads_from answerer.new system.now }
{
    match answerer.answer_line(system, timeline, line) {
        Ok(is_told) => Ok(Step::Told(is_told)),
        Err(TellFault::OutOfMemory) => print_unread(
            system,
            timeline,
            ReadFault::OutOfMemory,
            Step::Cut,
        ),
        Err(TellFault::Io) => Err(WriteFault::Io),
    }
}

/// Reads the next line, and answers it. What was written goes out before that, where the line has to be awaited.
fn take_turn<S: System, A: LineAnswerer<S>>(
    answerer: &mut A,
    system: &S,
    timeline: &mut S::Timeline,
    lines: &mut S::Lines,
    line: &mut Vec<u8>,
) -> Result<Step, WriteFault>
    requires { A.reads_from answerer.old system.now }
    ensures made { AnswersNextIn (S.outside system.now) A.answering A.known answerer.old answerer.new lines.old lines.new timeline.old timeline.new result }
    ensures cause { OnErr result (OutputFails (S.outside system.now)) }
    ensures stops { (fault : ReadFault) → stops_by ((S.outside system.now).lines lines.new) fault → stops_by ((S.outside system.now).lines lines.old) fault }
    ensures same { AnswersNoMore (A.answering answerer.old) (A.answering answerer.new) }
    ensures still { A.reads_from answerer.new system.now }
{
    match flush_before_line(system, timeline, lines) {
        Ok(()) => {}
        Err(fault) => return Err(fault),
    }
    match system.next_line(timeline, lines, line) {
        Ok(is_line) => {
            if is_line {
                answer_read(answerer, system, timeline, line)
            } else {
                Ok(Step::Ended)
            }
        }
        Err(fault) => print_unread(system, timeline, fault, Step::Cut),
    }
}

/// The line of progress, after so many lines.
fn done_line(lines: u64) -> LineWords
    ensures { result ≡ done_words lines }
{
    let mut line = LineWords::new();
    line.add_number(lines);
    line.add(" done");
    line
}

/// Writes the progress, if it is wanted, where enough lines are done, and lets it go out. A failure changes nothing.
fn tell_progress<S: System>(system: &S, timeline: &mut S::Timeline, progress: bool, lines: u64)
    ensures { AddsSome (S.outside system.now) timeline.old timeline.new (MayTellProgress progress lines) }
{
    if !progress || lines % PROGRESS_STEP != 0 {
        return;
    }
    match done_line(lines).write(system, timeline, Stream::Errors) {
        Ok(()) => {
            let _gone = system.flush(timeline, Stream::Errors);
        }
        Err(_) => {}
    }
}

/// Answers lines in turn, and returns whether all are answered completely.
fn answer_in_turn<S: System, A: LineAnswerer<S>>(
    alloc: Global,
    answerer: &mut A,
    system: &S,
    timeline: &mut S::Timeline,
    lines: &mut S::Lines,
    progress: bool,
) -> Result<bool, WriteFault>
    requires { A.reads_from answerer.old system.now }
    ensures made { AnswersAllIn (S.outside system.now) A.answering A.known answerer.old progress lines.old timeline.old timeline.new result }
    ensures cause { OnErr result (OutputFails (S.outside system.now)) }
{
    let mut line = Vec::new(alloc);
    let mut done = true;
    for before in 0..u64::MAX {
        match take_turn(answerer, system, timeline, lines, &mut line) {
            Ok(Step::Told(is_told)) => done &= is_told,
            Ok(Step::Ended) => return Ok(done),
            Ok(Step::Cut) => return Ok(false),
            Err(fault) => return Err(fault),
        }
        tell_progress(system, timeline, progress, before + 1);
    }
    match print_unread(system, timeline, ReadFault::Unreadable, Step::Cut) {
        Ok(_) => Ok(false),
        Err(fault) => Err(fault),
    }
}

/// Answers each line of the input as it comes, and returns the status: 0 where all are answered completely, else 1. The last line may lack
/// its line feed.
///
/// Each answer has gone out before the next line is awaited; where that has come already, nothing is flushed for it. Memory is that of the
/// longest line. Where it is refused for one, the line `refused memory` follows the whole lines before it; where the input can't be read
/// further, or after 2^64 - 1 lines, `refused files`. Nothing follows then.
///
/// With `progress` a line such as `20000 done` goes to standard error after every 10,000 lines; a failure there changes nothing. The error
/// comes only where the output failed. The lines before are whole then, and of the last a front is written.
pub fn answer_lines<S: System, A: LineAnswerer<S>>(
    alloc: Global,
    answerer: &mut A,
    system: &S,
    timeline: &mut S::Timeline,
    progress: bool,
) -> Result<u8, WriteFault>
    requires { A.reads_from answerer.old system.now }
    ensures made { AnswersInputLines (S.outside system.now) (A.answering answerer.old) (A.known answerer.old) progress timeline.old timeline.new result }
    ensures cause { OnErr result (OutputFails (S.outside system.now)) }
{
    let mut lines = match system.input_lines(timeline, alloc) {
        Ok(lines) => lines,
        Err(_) => return print_unread(system, timeline, ReadFault::OutOfMemory, 1),
    };
    match answer_in_turn(alloc, answerer, system, timeline, &mut lines, progress) {
        Ok(done) => Ok(status_if(done)),
        Err(fault) => Err(fault),
    }
}
