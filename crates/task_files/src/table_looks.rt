//! The table files of a folder that are read one by one, of which one is held at a time.

ghost use Rattle.std.specs.Prelude.{◌≡◌, length};
ghost use Rattle.task_files.specs.Inside.Readings.{Looks, looks_taken};
ghost use Rattle.task_files.specs.TableLooks.{LooksThere, MaySayProgress, ReadsInTurn, SaysProgress, counted, progress_words};
ghost use Rattle.move_msg.specs.TextLines.{ended};
ghost use Rattle.task_files.specs.InputReads.{AddsRead};
ghost use Rattle.timeline.specs.Outsides.{AddsSome};

use crate::file_name::FileName;
use crate::reading::TableRequest;
use crate::table_reading::{list_tables, read_table};
use line_teller::LineWords;
use move_msg::Manifest;
use std::alloc::Global;
use system_io::ReadFault;
use timeline::{Stream, System};

/// The number of bytes between two lines of progress.
const PROGRESS_BYTES: u64 = 100_000_000;

/// How many bytes were read, with these too. At its greatest value the count stays.
fn count_more(before: u64, bytes: &[u8]) -> u64
    ensures { result ≡ counted before (length bytes.now) }
{
    before.saturating_add(bytes.len() as u64)
}

/// The words of a line of progress, after so many bytes.
fn progress_line(count: u64) -> LineWords
    ensures { result ≡ progress_words count }
{
    let mut line = LineWords::new();
    line.add_number(count / PROGRESS_BYTES);
    line.add("00 MB done");
    line
}

/// Writes a line on standard error, and lets it go out. A failure changes nothing.
fn say<S: System>(system: &S, timeline: &mut S::Timeline, line: LineWords)
    ensures { AddsSome (S.outside system.now) timeline.old timeline.new (SaysProgress (ended line)) }
{
    match line.write(system, timeline, Stream::Errors) {
        Ok(()) => {
            let _gone = system.flush(timeline, Stream::Errors);
        }
        Err(_) => {}
    }
}

/// Says the progress, where it is wanted and another hundred million bytes are read.
fn may_say<S: System>(
    system: &S,
    timeline: &mut S::Timeline,
    is_wanted: bool,
    before: u64,
    after: u64,
)
    ensures { AddsSome (S.outside system.now) timeline.old timeline.new (MaySayProgress is_wanted before after) }
{
    if !is_wanted || before / PROGRESS_BYTES == after / PROGRESS_BYTES {
        return;
    }
    say(system, timeline, progress_line(after));
}

/// Reads the files of these names in a folder one by one, and keeps of each what is made of it.
fn look_at_each<S: System, L: TableRequest>(
    alloc: Global,
    system: &S,
    timeline: &mut S::Timeline,
    folder: &str,
    names: &[FileName],
    progress: bool,
) -> Result<Vec<L>, ReadFault>
    ensures { AddsRead (S.outside system.now) timeline.old timeline.new (λ d. Looks L.made_of (ReadsInTurn d folder.now progress names.now)) (looks_taken result) }
{
    let mut looks = Vec::new(alloc);
    let mut count: u64 = 0;
    for name in names {
        let file = match read_table(alloc, system, timeline, folder, name) {
            Ok(file) => file,
            Err(fault) => return Err(fault),
        };
        let before = count;
        count = count_more(before, &file.bytes);
        may_say(system, timeline, progress, before, count);
        let Ok(look) = L::of(alloc, file) else {
            return Err(ReadFault::OutOfMemory);
        };
        let Ok(()) = looks.push(look) else {
            return Err(ReadFault::OutOfMemory);
        };
    }
    Ok(looks)
}

/// What is made of the wanted table files of a folder, in rising order of names, as `list_tables` has them. One file at a time is held.
/// Each is read once, in this order, after the folder was listed, and nothing is read after one that can't be. Where progress is wanted, a
/// line such as `300 MB done` goes to standard error after each hundred million bytes; a failure there changes nothing.
///
/// `Unreadable` where the folder or one of these files can't be read or has more than 2^30 bytes, or the folder lists one of them twice;
/// `OutOfMemory` where memory is refused.
pub fn look_at_tables<S: System, L: TableRequest>(
    alloc: Global,
    system: &S,
    timeline: &mut S::Timeline,
    folder: &str,
    manifest: &Manifest,
    progress: bool,
) -> Result<Vec<L>, ReadFault>
    ensures { AddsRead (S.outside system.now) timeline.old timeline.new (LooksThere L.made_of folder.now manifest.now progress) (looks_taken result) }
{
    match list_tables(alloc, system, timeline, folder, manifest) {
        Ok(wanted) => look_at_each(alloc, system, timeline, folder, &wanted, progress),
        Err(fault) => Err(fault),
    }
}
