//! `enter`: games of a folder.

ghost use Rattle.std.specs.Prelude.{◌≡◌, ◌↔◌, ◌∷◌, [], ℕ, codes, string_bytes, IfOk, IsTrue, OnErr};
ghost use Rattle.answer_parts.specs.Lines.{refusal_words};
ghost use Rattle.arbiter_server.specs.GameFolders.{game_path, kept_path};
ghost use Rattle.answer_commands.specs.Enter.{EntersBy, EntersFrom, EntersGames, EntersList, EntersOne, ReadsList, keep_fault_words, told_entry};
ghost use Rattle.answer_commands.specs.Inside.Entering.{AllAt, KeepsAt, LineAt, NextAt, NotesAt, PutsAt};
ghost use Rattle.answer_parts.specs.Printing.{ArePrinted, OutputFails, Performs, Prints};
ghost use Rattle.hex.specs.Hex.{encode_lower};
ghost use Rattle.timeline.specs.Events.{bytes_read};
ghost use Rattle.timeline.specs.Outsides.{AddsSome};

use crate::earlier::note_known;
use crate::entries::{first_line, read_entry};
use crate::keeping::{GameText, KeepFault, keep_text};
use crate::stamping::stamping_manifest;
use crate::store_reading::{Records, ask_once};
use answer_parts::{EntryFault, Refusal, print_refusal, print_unread, status_if};
use arbiter_server::{game_path, kept_path, write_game};
use board_core::Position;
use command_line::{Enter, Entries, OneGame};
use fen_text::read;
use line_teller::LineWords;
use move_msg::Stamp;
use std::alloc::{AllocError, Global};
use system_io::{ReadFault, WriteFault};
use timeline::{Stream, System};

/// Where games are entered.
#[derive(Clone, Copy)]
pub(crate) struct GamePlace<'a> {
    /// Where memory comes from.
    alloc: Global,
    /// The path of the folder.
    games: &'a str,
    /// The manifest by which they are stamped.
    manifest: &'a [u8],
    /// Whether each of them has to be new.
    is_new: bool,
}

/// Where the file of a game is, and that of its record.
#[derive(Drop)]
struct GamePaths {
    game: String,
    kept: String,
}

// ---- a game
/// The paths of a game in a folder. The error comes only where memory is refused.
fn paths_of(alloc: Global, games: &str, stamp: Stamp) -> Result<GamePaths, AllocError>
    ensures game { IfOk result (λ paths. string_bytes paths.game ≡ game_path games.now stamp) }
    ensures kept { IfOk result (λ paths. string_bytes paths.kept ≡ kept_path games.now stamp) }
{
    Ok(GamePaths {
        game: game_path(alloc, games, stamp)?,
        kept: kept_path(alloc, games, stamp)?,
    })
}

/// Notes that a game was there before, with the number of its recorded moves, where its record can be read: that of the folder's store, or
/// else the one in the file at this path. The store is read for the first such game.
fn note_earlier<S: System>(
    place: &GamePlace<'_>,
    records: &mut Records,
    stamp: Stamp,
    path: &str,
    system: &S,
    timeline: &mut S::Timeline,
)
    ensures { AddsSome (S.outside system.now) timeline.old timeline.new (NotesAt (S.outside system.now) place.now path.now stamp records.old records.new) }
{
    ask_once(place.alloc, system, timeline, place.games, records);
    note_known(place.alloc, system, timeline, records, path, stamp);
}

/// Keeps the text of a game under its stamp. That it was there before is noted. What is at fault with its file is `Keeper`; where the game
/// has to be new and its file is there, that is `Exists`.
fn keep_game<S: System>(
    place: &GamePlace<'_>,
    records: &mut Records,
    stamp: Stamp,
    text: &[u8],
    system: &S,
    timeline: &mut S::Timeline,
) -> Result<(), KeepFault>
    ensures { AddsSome (S.outside system.now) timeline.old timeline.new (KeepsAt (S.outside system.now) place.now stamp text.now records.old records.new result) }
{
    let Ok(paths) = paths_of(place.alloc, place.games, stamp) else {
        return Err(KeepFault::OutOfMemory);
    };
    match keep_text(
        place.alloc,
        system,
        timeline,
        place.is_new,
        paths.game.as_str(),
        text,
    ) {
        Ok(GameText::Stood) => {
            note_earlier(place, records, stamp, paths.kept.as_str(), system, timeline);
            Ok(())
        }
        Ok(GameText::Written) => Ok(()),
        Err(fault) => Err(fault),
    }
}

/// The refusal of a game that isn't kept.
fn refusal_of(fault: KeepFault) -> Refusal
    ensures { refusal_words result ≡ keep_fault_words fault }
{
    match fault {
        KeepFault::Keeper => Refusal::Keeper,
        KeepFault::Exists => Refusal::Exists,
        KeepFault::OutOfMemory => Refusal::Memory,
    }
}

/// The line of a stamp: its lower-case hexadecimal digits.
fn stamp_words(stamp: Stamp) -> LineWords
    ensures { result ≡ encode_lower stamp }
{
    let mut line = LineWords::new();
    line.add_stamp(stamp);
    line
}

/// Writes a stamp in a line of its own, and returns the status 0.
fn print_stamp<S: System>(
    system: &S,
    timeline: &mut S::Timeline,
    stamp: Stamp,
) -> Result<u8, WriteFault>
    ensures made { AddsSome (S.outside system.now) timeline.old timeline.new (Performs (Prints (encode_lower stamp ∷ []) 0) result) }
    ensures cause { OnErr result (OutputFails (S.outside system.now)) }
{
    match stamp_words(stamp).write(system, timeline, Stream::Output) {
        Ok(()) => Ok(0),
        Err(fault) => Err(fault),
    }
}

/// Enters the game of the words from this start, writes its stamp, and returns the status.
fn put_game<S: System>(
    place: &GamePlace<'_>,
    game: &OneGame<'_>,
    start: &Position,
    system: &S,
    timeline: &mut S::Timeline,
) -> Result<u8, WriteFault>
    ensures made { AddsSome (S.outside system.now) timeline.old timeline.new (Performs (PutsAt (S.outside system.now) place.now game.now start.now) result) }
    ensures cause { OnErr result (OutputFails (S.outside system.now)) }
{
    let mut records = Records::Unasked;
    let stamp = game.name.stamp(start, place.manifest, game.delay);
    let text = write_game(&game.name, start, game.delay);
    match keep_game(
        place,
        &mut records,
        stamp,
        text.as_slice(),
        system,
        timeline,
    ) {
        Ok(()) => print_stamp(system, timeline, stamp),
        Err(fault) => print_refusal(system, timeline, refusal_of(fault)),
    }
}

/// Reads the manifest that the words name, enters their game from this start, and returns the status.
fn enter_from<S: System>(
    alloc: Global,
    task: &Enter<'_>,
    game: &OneGame<'_>,
    start: &Position,
    system: &S,
    timeline: &mut S::Timeline,
) -> Result<u8, WriteFault>
    ensures made { AddsSome (S.outside system.now) timeline.old timeline.new (Performs (EntersBy (S.outside system.now) task.now game.now start.now) result) }
    ensures cause { OnErr result (OutputFails (S.outside system.now)) }
{
    match stamping_manifest(alloc, system, timeline, task.manifest, task.tables) {
        Ok(manifest) => {
            let place = GamePlace {
                alloc,
                games: task.games,
                manifest: &manifest,
                is_new: task.is_new,
            };
            put_game(&place, game, start, system, timeline)
        }
        Err(refusal) => print_refusal(system, timeline, refusal),
    }
}

/// Enters the game of the words, and returns the status.
fn enter_one<S: System>(
    alloc: Global,
    task: &Enter<'_>,
    game: &OneGame<'_>,
    system: &S,
    timeline: &mut S::Timeline,
) -> Result<u8, WriteFault>
    ensures made { AddsSome (S.outside system.now) timeline.old timeline.new (Performs (EntersOne (S.outside system.now) task.now game.now) result) }
    ensures cause { OnErr result (OutputFails (S.outside system.now)) }
{
    match read(game.start.as_bytes()) {
        Ok(start) => enter_from(alloc, task, game, &start, system, timeline),
        Err(fault) => print_refusal(system, timeline, Refusal::Fen(fault)),
    }
}

// ---- the games of a list
/// What came of a line.
#[derive(Clone, Copy)]
pub(crate) enum Step {
    /// It is told, and whether its game is entered.
    Told(bool),
    /// Memory was refused for it, and nothing more is told.
    Cut,
}

/// Enters the game of a line. The error comes only where memory is refused for a game; a line that tells none takes no memory.
fn enter_line<S: System>(
    place: &GamePlace<'_>,
    records: &mut Records,
    line: &[u8],
    system: &S,
    timeline: &mut S::Timeline,
) -> Result<Result<Stamp, EntryFault>, AllocError>
    ensures { AddsSome (S.outside system.now) timeline.old timeline.new (LineAt (S.outside system.now) place.now line.now records.old records.new result) }
{
    let game = match read_entry(line) {
        Ok(game) => game,
        Err(fault) => return Ok(Err(fault)),
    };
    let stamp = game.name.stamp(&game.start, place.manifest, game.delay);
    let text = write_game(&game.name, &game.start, game.delay);
    match keep_game(place, records, stamp, text.as_slice(), system, timeline) {
        Ok(()) => Ok(Ok(stamp)),
        Err(KeepFault::Keeper) => Ok(Err(EntryFault::Keeper)),
        Err(KeepFault::Exists) => Ok(Err(EntryFault::Exists)),
        Err(KeepFault::OutOfMemory) => Err(AllocError),
    }
}

/// The words for what came of the line with this number.
fn entry_words(number: usize, entered: &Result<Stamp, EntryFault>) -> LineWords
    ensures { result ≡ (told_entry number entered.now).words }
{
    match entered {
        Ok(stamp) => stamp_words(*stamp),
        Err(fault) => Refusal::Entry(number, *fault).words(),
    }
}

/// What came of a line for which memory wasn't refused.
fn step_of(entered: &Result<Stamp, EntryFault>) -> Step
    ensures { (number : ℕ) → result ≡ Step.Told (told_entry number entered.now).done }
{
    match entered {
        Ok(_) => Step::Told(true),
        Err(_) => Step::Told(false),
    }
}

/// Tells what came of a line.
fn tell_step<S: System>(
    system: &S,
    timeline: &mut S::Timeline,
    words: LineWords,
    step: Step,
) -> Result<Step, WriteFault>
    ensures made { AddsSome (S.outside system.now) timeline.old timeline.new (ArePrinted (words ∷ []) result) }
    ensures step { IfOk result (λ told. told ≡ step) }
    ensures cause { OnErr result (OutputFails (S.outside system.now)) }
{
    match words.write(system, timeline, Stream::Output) {
        Ok(()) => Ok(step),
        Err(fault) => Err(fault),
    }
}

/// Enters the game of the line with this number, and tells what came of it. Where memory is refused the line is `refused memory`.
fn enter_next<S: System>(
    place: &GamePlace<'_>,
    records: &mut Records,
    number: usize,
    line: &[u8],
    system: &S,
    timeline: &mut S::Timeline,
) -> Result<Step, WriteFault>
    ensures made { let o = S.outside system.now in AddsSome o timeline.old timeline.new (NextAt o place.now number line.now records.old records.new result) }
    ensures cause { OnErr result (OutputFails (S.outside system.now)) }
{
    match enter_line(place, records, line, system, timeline) {
        Ok(entered) => tell_step(
            system,
            timeline,
            entry_words(number, &entered),
            step_of(&entered),
        ),
        Err(_) => tell_step(system, timeline, Refusal::Memory.words(), Step::Cut),
    }
}

/// Enters the games of the lines of a list in turn, and tells what came of each in a line, and returns the status, 0 where all are entered.
/// After a line that can't be told no game is entered.
fn enter_lines<S: System>(
    place: &GamePlace<'_>,
    list: &[u8],
    system: &S,
    timeline: &mut S::Timeline,
) -> Result<u8, WriteFault>
    ensures made { AddsSome (S.outside system.now) timeline.old timeline.new (Performs (AllAt (S.outside system.now) place.now list.now) result) }
    ensures cause { OnErr result (OutputFails (S.outside system.now)) }
{
    let mut records = Records::Unasked;
    let mut rest = list;
    let mut before: usize = 0;
    let mut done = true;
    while let Some((line, tail)) = first_line(rest) {
        match enter_next(place, &mut records, before + 1, line, system, timeline) {
            Ok(Step::Told(is_entered)) => done &= is_entered,
            Ok(Step::Cut) => return Ok(1),
            Err(fault) => return Err(fault),
        }
        before += 1;
        rest = tail;
    }
    Ok(status_if(done))
}

/// Reads the manifest that the words name, enters the games of a list, and returns the status.
fn enter_list<S: System>(
    alloc: Global,
    task: &Enter<'_>,
    list: &[u8],
    system: &S,
    timeline: &mut S::Timeline,
) -> Result<u8, WriteFault>
    ensures made { AddsSome (S.outside system.now) timeline.old timeline.new (Performs (EntersList (S.outside system.now) task.now list.now) result) }
    ensures cause { OnErr result (OutputFails (S.outside system.now)) }
{
    match stamping_manifest(alloc, system, timeline, task.manifest, task.tables) {
        Ok(manifest) => {
            let place = GamePlace {
                alloc,
                games: task.games,
                manifest: &manifest,
                is_new: task.is_new,
            };
            enter_lines(&place, list, system, timeline)
        }
        Err(refusal) => print_refusal(system, timeline, refusal),
    }
}

/// Whether a path stands for the input.
fn is_input(path: &str) -> bool
    ensures { IsTrue result ↔ (path.now ≡ codes "-") }
{
    path == "-"
}

/// The text of a list: all of the input where the path is `-`, and else of the file.
fn list_at<S: System>(
    alloc: Global,
    system: &S,
    timeline: &mut S::Timeline,
    path: &str,
) -> Result<Vec<u8>, ReadFault>
    ensures { AddsSome (S.outside system.now) timeline.old timeline.new (ReadsList (S.outside system.now) path.now (bytes_read result)) }
{
    if is_input(path) {
        system.read_input(timeline, alloc)
    } else {
        system.read(timeline, alloc, path)
    }
}

/// Reads the list at a path, enters its games, and returns the status.
fn enter_listed<S: System>(
    alloc: Global,
    task: &Enter<'_>,
    path: &str,
    system: &S,
    timeline: &mut S::Timeline,
) -> Result<u8, WriteFault>
    ensures made { AddsSome (S.outside system.now) timeline.old timeline.new (Performs (EntersFrom (S.outside system.now) task.now path.now) result) }
    ensures cause { OnErr result (OutputFails (S.outside system.now)) }
{
    match list_at(alloc, system, timeline, path) {
        Ok(list) => enter_list(alloc, task, &list, system, timeline),
        Err(fault) => print_unread(system, timeline, fault, 1),
    }
}

/// Enters games in a folder as the words say, and returns the status.
///
/// A game's file is `FOLDER/STAMP.game`. It is opened, and what a start finds there is read; a file that has the game's text already is left,
/// and else the text is put there. A note tells that a game was there, with the number of its recorded moves where that can be read: in the
/// store of the folder, which is read for the first such game, or in the file of its record. Tables are read for the stamp alone, once, and
/// none where a manifest is named.
///
/// Of one game the line is its stamp. What is refused is told in one line, in this order: the text of the start, the manifest or the
/// folder of the tables, and the game's file: it can't be read, as `refused keeper`; it is there though the game has to be new, as
/// `refused exists`, and is left; it can't be written, as `refused keeper`.
///
/// Of a list a line is told for each of its lines: the stamp, or `refused line N` and why, and the next line follows. The status is 0
/// only where all games are entered. A list that can't be read is told first, as `refused files`, then the manifest or the folder of
/// the tables. Where memory is refused the last line is `refused memory`. The error comes only where the output may fail, and no game of a
/// line after the one that it failed at is entered.
pub(crate) fn enter_games<S: System>(
    alloc: Global,
    task: &Enter<'_>,
    system: &S,
    timeline: &mut S::Timeline,
) -> Result<u8, WriteFault>
    ensures made { AddsSome (S.outside system.now) timeline.old timeline.new (Performs (EntersGames (S.outside system.now) task.now) result) }
    ensures cause { OnErr result (OutputFails (S.outside system.now)) }
{
    match &task.entries {
        Entries::One(game) => enter_one(alloc, task, game, system, timeline),
        Entries::From(path) => enter_listed(alloc, task, path, system, timeline),
    }
}
