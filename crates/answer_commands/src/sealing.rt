//! Tasks whose ports are sealed by the keys of a file.

ghost use Rattle.std.specs.Prelude.{◌≡◌, option_map, string_bytes, IfOk, OnErr};
ghost use Rattle.answer_commands.specs.Sealed.{AnswersByKey, AnswersSealed, NotesKeys, RefusesKeys, line_at_fault, shared_key};
ghost use Rattle.answer_parts.specs.Printing.{OutputFails, Performs};
ghost use Rattle.timeline.specs.Outsides.{AddsSome};

use crate::answering::{AnswerTask, answer_bare};
use crate::keys::read_keys;
use crate::printing::end;
use answer_parts::{Refusal, print_refusal};
use host_commands::note_line;
use sealed_port::KeyedSystem;
use std::alloc::{AllocError, Global};
use system_io::WriteFault;
use timeline::System;

/// The line that says that others may use a file of keys. The error comes only where memory is refused.
fn shared_line(alloc: Global, path: &str) -> Result<String, AllocError>
    ensures { IfOk result (λ line. string_bytes line ≡ shared_key path.now) }
{
    format!(in alloc; "{path}: the group or others have rights to it")
}

/// The line that says that a line of a file of keys is none, counted from 1. The error comes only where memory is refused.
fn fault_line(alloc: Global, path: &str, number: usize) -> Result<String, AllocError>
    ensures { IfOk result (λ line. string_bytes line ≡ line_at_fault path.now number) }
{
    format!(in alloc; "{path}: line {number} is no key")
}

/// Notes which file of keys is refused, and why, where memory for the line isn't refused. Of one that can't be read the system has said so.
fn note_keys<S: System>(
    alloc: Global,
    system: &S,
    timeline: &mut S::Timeline,
    path: &str,
    refusal: &Refusal,
)
    ensures { AddsSome (S.outside system.now) timeline.old timeline.new (NotesKeys path.now refusal.now) }
{
    match refusal {
        Refusal::SharedKey => note_line(system, timeline, shared_line(alloc, path)),
        Refusal::Key(number) => note_line(system, timeline, fault_line(alloc, path, *number)),
        _ => {}
    }
}

/// Notes and writes why there are no keys, and returns the status 1.
fn refuse_keys<S: System>(
    alloc: Global,
    system: &S,
    timeline: &mut S::Timeline,
    path: &str,
    refusal: &Refusal,
) -> Result<u8, WriteFault>
    ensures made { AddsSome (S.outside system.now) timeline.old timeline.new (Performs (RefusesKeys path.now refusal.now) result) }
    ensures cause { OnErr result (OutputFails (S.outside system.now)) }
{
    note_keys(alloc, system, timeline, path, refusal);
    print_refusal(system, timeline, *refusal)
}

/// Answers a task over ports that are sealed by the keys of the file at a path, or writes why it has none, and returns the status.
fn answer_sealed<S: System>(
    alloc: Global,
    task: &AnswerTask,
    path: &str,
    system: &S,
    timeline: &mut S::Timeline,
) -> u8
    ensures { AnswersSealed task.now path.now (S.outside system.now) timeline.old timeline.new result }
{
    match read_keys(alloc, system, timeline, path) {
        Ok(keys) => {
            let sealed = KeyedSystem::over(system, &keys);
            answer_bare(alloc, task, &sealed, timeline)
        }
        Err(refusal) => {
            let answered = refuse_keys(alloc, system, timeline, path, &refusal);
            end(system, timeline, answered)
        }
    }
}

/// Answers a task, and returns the status: 0 done, 1 refused, also where the output can't be written, which is noted.
///
/// Where it names a file of keys, that is read first, and its ports are sealed by them; what is refused of it is noted and written, and
/// nothing else is done. Then what the task names is read, each thing once:
///
/// - for `run` the files of its folder, in rising order of names, and then the input, to its end; for `show` the input;
/// - for `record` a kept file; for `audit` the manifest, the files of its folder and the kept files;
/// - for `list` the files of its folder, and for `check` the manifest before them: one by one, of which one is held at a time;
/// - for the commands by tables the manifest and the files of their folder, or the manifest alone, where the folder's names and then the files
///   of the tables that are missed are read meanwhile; for `game` also the input. `pgn` and `follow` read no more of it than a game or a
///   line at a time, `probes`, `games` and `root` of many positions a line;
/// - for `enter` the list, where there is one, and then the manifest or, as for `list`, the files of the folder of tables. Each game is kept,
///   and its line printed, before the next one;
/// - for `status`, `audit` of folders and `record` of a game the folders of games, the records of their stores, and then file by file;
/// - for `send` the game's file, or the manifest as for `enter`, and then the input, line by line as moves are acknowledged;
/// - for `listen` and `host` the manifest and the files of the folder of tables, and then as games are opened.
///
/// What can't be read is `refused files`; where memory is refused the line is `refused memory`. Progress goes to standard error where it is
/// wanted, and of `send` two lines where an arbiter doesn't answer. At last all that was written goes out. Nothing else happens outside.
pub fn answer<S: System>(
    alloc: Global,
    task: &AnswerTask,
    system: &S,
    timeline: &mut S::Timeline,
) -> u8
    ensures { AnswersByKey task.now (S.outside system.now) timeline.old timeline.new result }
{
    match task.key() {
        None => answer_bare(alloc, task, system, timeline),
        Some(path) => answer_sealed(alloc, task, path, system, timeline),
    }
}
