//! The program's words and its status.

ghost use Rattle.std.specs.Prelude.{◌≡◌, IfOk, drop, map, string_bytes};
ghost use Rattle.line_teller.specs.ToldLines.{refused_memory};
ghost use Rattle.adjudicate_core.specs.Program.{AnswersTask, Runs, RunsWords, called_by, texts};
ghost use Rattle.move_msg.specs.TextLines.{ended};
ghost use Rattle.std.specs.Io.KnownBytes.{Appends};

use crate::misusing::{refuse_misuse, refuse_task};
use crate::serving::serve_and_end;
use answer_commands::{AnswerTask, answer};
use command_line::{Misuse, Task, Usage, WordsFault, parse};
use serve_core::Pages;
use std::alloc::{AllocError, Global};
use std::io::Write;
use system_io::WriteFault;
use timeline::System;

/// Answers a task, and returns the program's status.
fn answer_task<S: System, G: Pages>(
    alloc: Global,
    task: Task<'_>,
    system: &S,
    timeline: &mut S::Timeline,
    pages: &G,
) -> u8
    ensures { AnswersTask (S.outside system.now) timeline.old timeline.new task.entry result }
{
    match AnswerTask::of(task) {
        Ok(task) => answer(alloc, &task, system, timeline),
        Err(serve) => serve_and_end(alloc, &serve, system, timeline, pages),
    }
}

/// Runs the program on the words after its own name, and returns its status.
fn run<S: System, G: Pages>(
    alloc: Global,
    words: &[&str],
    system: &S,
    timeline: &mut S::Timeline,
    pages: &G,
) -> u8
    ensures { RunsWords (S.outside system.now) timeline.old timeline.new (texts words.now) result }
{
    match parse(alloc, words) {
        Ok(task) => answer_task(alloc, task, system, timeline, pages),
        Err(Usage::OutOfMemory) => refuse_task(system, timeline),
        Err(Usage::Misuse(misuse)) => refuse_misuse(alloc, &misuse, system, timeline),
    }
}

/// The words after the first.
fn tail_of<'a>(alloc: Global, words: &'a [String]) -> Result<Vec<&'a str>, AllocError>
    ensures { IfOk result (λ tail. map (λ w. w.now) tail.items ≡ drop 1 (map string_bytes words.now)) }
{
    match words {
        [] => Ok(Vec::new(alloc)),
        [_, others @ ..] => texts_of(alloc, others),
    }
}

/// Words as texts.
fn texts_of<'a>(alloc: Global, words: &'a [String]) -> Result<Vec<&'a str>, AllocError>
    ensures { IfOk result (λ texts. map (λ w. w.now) texts.items ≡ map string_bytes words.now) }
{
    let mut texts = Vec::new(alloc);
    for word in words {
        texts.push(word.as_str())?;
    }
    Ok(texts)
}

/// Writes the line `refused memory`, and returns the status 1. It takes any writer, since memory for that of the program was refused.
pub fn refuse_memory<W: Write>(out: &mut W) -> Result<u8, WriteFault>
    ensures { IfOk result (λ status. Appends (W.contents out.old) (W.contents out.new) (ended refused_memory) × (status ≡ 1)) }
{
    match out.write_all(b"refused memory\n") {
        Ok(()) => Ok(1),
        Err(_) => Err(WriteFault::Io),
    }
}

/// Runs the program on all words that it was called with, its own name first, and returns its status: 0 done, 1 refused, also where the
/// output can't be written, which is noted, 2 misuse. A word that is not UTF-8 is a misuse. Where memory was refused for the words, the
/// line is `refused memory`.
///
/// All that it does outside is on the timeline, in order, as `answer` of answer_commands has it of a task, and `serve` of serve_core of its
/// own; but what passes over sockets of HTTP isn't, which come of `pages`.
///
/// For a misuse one line on standard error says what is wrong; then come a near word, where there is one, and the line that names help. A
/// request for help gets the list of commands, or the use of the command that it names. A failure of standard error changes nothing.
pub fn run_program<S: System, G: Pages>(
    alloc: Global,
    called: &Result<Vec<String>, WordsFault>,
    system: &S,
    timeline: &mut S::Timeline,
    pages: &G,
) -> u8
    ensures { Runs (S.outside system.now) timeline.old timeline.new (called_by called.now) result }
{
    match called {
        Ok(words) => match tail_of(alloc, words) {
            Ok(tail) => run(alloc, &tail, system, timeline, pages),
            Err(_) => refuse_task(system, timeline),
        },
        Err(WordsFault::NoText(word)) => {
            let misuse = Misuse::NoText(word.as_slice());
            refuse_misuse(alloc, &misuse, system, timeline)
        }
        Err(WordsFault::OutOfMemory) => refuse_task(system, timeline),
    }
}
