//! `run`: two arbiters under the schedule of the input.

ghost use Rattle.std.specs.Prelude.{◌≡◌, ◌<◌, ℕ, Option, OnErr, length, map, Err, IfOk, IfErr};
ghost use Rattle.answer_commands.specs.Inside.Answering.{answer_lines, answer_status};
ghost use Rattle.answer_commands.specs.Inside.Running.{AnswersGame, AnswersSchedule, IsRunAnswer, RunsRead};
ghost use Rattle.answer_parts.specs.Printing.{OutputFails, Performs};
ghost use Rattle.answer_commands.specs.Run.{ReadsFiles, RefusesTable, RunsSchedule, counted_record, scheduled_game, side_words, world_words};
ghost use Rattle.answer_parts.specs.Lines.{refusal_words, refused_line, words_of};
ghost use Rattle.arbiter_core.specs.Recording.{Recorded};
ghost use Rattle.move_msg.specs.Files.{AreFiles, table_file_of};
ghost use Rattle.move_msg.specs.declared.stamp.Stamp.{Stamp};
ghost use Rattle.relay_world.specs.Gathering.{file_as, tables_of};
ghost use Rattle.relay_world.specs.Runs.{KeptIs, Runs, TellsSide, TellsWorld, told_side};
ghost use Rattle.relay_world.specs.Texts.{IsFirstBadScheduleLine, SpellsSchedule};
ghost use Rattle.relay_world.specs.Worlds.{Judged, Side, World as Worlds};
ghost use Rattle.relay_world.specs.declared.fault.WorldFault.TheVariants.{BadTable};
ghost use Rattle.task_files.specs.TableReads.{taken};
ghost use Rattle.timeline.specs.Outsides.{AddsSome};

use crate::answers::Answer;
use crate::printing::print_answered;
use answer_parts::{KeptCount, Line, Refusal, print_unread};
use board_core::{Delay, Verdict};
use command_line::{CacheSize, RunSchedule};
use move_msg::{ArbiterId, Manifest, NamedFile};
use relay_world::schedule::{Schedule, ScheduleFault, read};
use relay_world::{Event, Game, World, WorldFault, run};
use std::alloc::{AllocError, Global};
use system_io::{ReadFault, WriteFault};
use table_file::{TableFault, reads_what_is_laid_out};
use table_folder::FileFault;
use task_files::read_tables;
use timeline::System;

/// The schedule of a text, or why it is refused.
fn schedule_of(alloc: Global, text: &[u8]) -> Result<Result<Schedule, Refusal>, AllocError>
    ensures ok { IfOk result (λ found. IfOk found (SpellsSchedule text.now)) }
    ensures err { IfOk result (λ found. IfErr found (λ refusal. (k : ℕ) × IsFirstBadScheduleLine text.now k × (refusal_words refusal ≡ refused_line k))) }
{
    match read(alloc, text) {
        Ok(schedule) => Ok(Ok(schedule)),
        Err(ScheduleFault::BadLine(number)) => Ok(Err(Refusal::Line(number))),
        Err(ScheduleFault::OutOfMemory) => Err(AllocError),
    }
}

/// The game of a schedule.
fn game_of(alloc: Global, schedule: &Schedule, delay: Delay) -> Result<Game, AllocError>
    ensures { IfOk result (λ game. game ≡ scheduled_game schedule.now delay) }
{
    match Game::new(
        alloc,
        &schedule.name,
        schedule.start,
        &schedule.moves,
        delay.plies(),
    ) {
        Ok(game) => Ok(game),
        Err(_) => Err(AllocError),
    }
}

/// The names of files with their bytes.
fn named_bytes<'f>(
    alloc: Global,
    files: &'f [NamedFile],
) -> Result<Vec<(&'f [u8], &'f [u8])>, AllocError>
    ensures { IfOk result (λ named. map (λ f. file_as f.0.now f.1.now) named.items ≡ map table_file_of files.now) }
{
    let mut named = Vec::new(alloc);
    for file in files {
        named.push((file.name.as_str().as_bytes(), file.bytes.as_slice()))?;
    }
    Ok(named)
}

/// Why the first file that is no table is refused.
fn refused_table(files: &[NamedFile], place: usize, fault: TableFault) -> Refusal
    requires within { place < length files.now }
    requires refused { tables_of (map table_file_of files.now) ≡ Err (BadTable place fault) }
    ensures { RefusesTable (map table_file_of files.now) (refusal_words result) }
{
    Refusal::File(files[place].name, FileFault::Bad(fault))
}

/// The world after the events of a game, or why a file is refused.
fn world_of(
    alloc: Global,
    game: &Game,
    files: &[NamedFile],
    cache: CacheSize,
    events: &[Event],
) -> Result<Result<World, Refusal>, AllocError>
    requires { AreFiles (map table_file_of files.now) }
    ensures ok { IfOk result (λ ran. IfOk ran (Runs game.now (map table_file_of files.now) events.now)) }
    ensures err { IfOk result (λ ran. IfErr ran (λ refusal. RefusesTable (map table_file_of files.now) (refusal_words refusal))) }
{
    let named = named_bytes(alloc, files)?;
    reads_what_is_laid_out();
    match run(alloc, game, &named, cache.blocks(), events) {
        Ok(world) => Ok(Ok(world)),
        Err(WorldFault::BadTable(place, fault)) => Ok(Err(refused_table(files, place, fault))),
        Err(WorldFault::DuplicateTable(_)) => unreachable!(),
        Err(WorldFault::OutOfMemory) => Err(AllocError),
    }
}

/// How many moves an arbiter keeps, and the verdict; none where nothing is kept.
fn kept_count_of(world: &World, who: ArbiterId) -> Option<KeptCount>
    ensures { (stamp : Stamp) (delay : ℕ) (kept : Option Recorded) → KeptIs stamp delay (told_side world.now who).bytes kept → result ≡ counted_record kept }
{
    match world.kept(who) {
        None => None,
        Some((count, code)) => Some(KeptCount {
            count,
            verdict: Verdict::from_code(code),
        }),
    }
}

/// The line for an arbiter.
fn line_of(world: &World, who: ArbiterId) -> Line
    ensures { (stamp : Stamp) (delay : ℕ) (side : Side) → TellsSide stamp delay (told_side world.now who) side → words_of result ≡ side_words who side }
{
    Line::Arbiter(who, world.state(who), kept_count_of(world, who))
}

/// The lines for a world.
fn lines_of(alloc: Global, world: &World) -> Result<Vec<Line>, AllocError>
    ensures { IfOk result (λ lines. (game : Judged) (last : Worlds) → TellsWorld game world.now last → map words_of lines.items ≡ world_words last) }
{
    let lines = [
        line_of(world, ArbiterId::A),
        line_of(world, ArbiterId::B),
        Line::Sent(world.log().len()),
    ];
    Vec::from_slice(alloc, &lines)
}

/// The lines for a world, as an answer.
fn answer_world(alloc: Global, world: &World) -> Result<Answer, AllocError>
    ensures lines { IfOk result (λ a. (game : Judged) (last : Worlds) → TellsWorld game world.now last → answer_lines a ≡ world_words last) }
    ensures status { IfOk result (λ a. answer_status a ≡ 0) }
{
    match lines_of(alloc, world) {
        Ok(lines) => Ok(Answer::Lines(lines)),
        Err(refused) => Err(refused),
    }
}

/// Two arbiters after the events of a schedule, or the refusal of the first file that is no table.
fn answer_game(
    alloc: Global,
    game: &Game,
    files: &[NamedFile],
    cache: CacheSize,
    schedule: &Schedule,
) -> Result<Answer, AllocError>
    requires { AreFiles (map table_file_of files.now) }
    ensures { IfOk result (AnswersGame game.now schedule.now (map table_file_of files.now)) }
{
    match world_of(alloc, game, files, cache, &schedule.events) {
        Ok(Ok(world)) => answer_world(alloc, &world),
        Ok(Err(refusal)) => Ok(Answer::Refused(refusal)),
        Err(_) => Err(AllocError),
    }
}

/// Two arbiters after a schedule, or the refusal of the first file that is no table.
fn answer_schedule(
    alloc: Global,
    task: &RunSchedule,
    files: &[NamedFile],
    schedule: &Schedule,
) -> Result<Answer, AllocError>
    requires { AreFiles (map table_file_of files.now) }
    ensures { IfOk result (AnswersSchedule schedule.now (map table_file_of files.now) task.now.delay) }
{
    match game_of(alloc, schedule, task.delay) {
        Ok(game) => answer_game(alloc, &game, files, task.cache, schedule),
        Err(_) => Err(AllocError),
    }
}

/// Two arbiters after the schedule of a text. The first malformed line is refused, then the first file that is no table.
fn answer_text(
    alloc: Global,
    task: &RunSchedule,
    files: &[NamedFile],
    text: &[u8],
) -> Result<Answer, AllocError>
    requires { AreFiles (map table_file_of files.now) }
    ensures { IfOk result (IsRunAnswer text.now (map table_file_of files.now) task.now.delay) }
{
    match schedule_of(alloc, text) {
        Ok(Ok(schedule)) => answer_schedule(alloc, task, files, &schedule),
        Ok(Err(refused)) => Ok(Answer::Refused(refused)),
        Err(_) => Err(AllocError),
    }
}

/// Reads the files of the folder of a task, if it has one.
fn read_files<S: System>(
    alloc: Global,
    task: &RunSchedule,
    system: &S,
    timeline: &mut S::Timeline,
) -> Result<Vec<NamedFile>, ReadFault>
    ensures made { AddsSome (S.outside system.now) timeline.old timeline.new (ReadsFiles (S.outside system.now) task.now (taken result)) }
    ensures files { IfOk result (λ files. AreFiles (map table_file_of files.items)) }
{
    match task.tables {
        None => Ok(Vec::new(alloc)),
        Some(folder) => read_tables(alloc, system, timeline, folder, &Manifest::Unnamed),
    }
}

/// Reads the input, runs its schedule with these files, writes the lines for the last world or a refusal, and returns the status.
fn run_input<S: System>(
    alloc: Global,
    task: &RunSchedule,
    files: &[NamedFile],
    system: &S,
    timeline: &mut S::Timeline,
) -> Result<u8, WriteFault>
    requires { AreFiles (map table_file_of files.now) }
    ensures made { AddsSome (S.outside system.now) timeline.old timeline.new (Performs (RunsRead (S.outside system.now) task.now files.now) result) }
    ensures cause { OnErr result (OutputFails (S.outside system.now)) }
{
    match system.read_input(timeline, alloc) {
        Ok(text) => print_answered(system, timeline, answer_text(alloc, task, files, &text)),
        Err(fault) => print_unread(system, timeline, fault, 1),
    }
}

/// Reads the files of its folder, if there is one, and then the input, runs the schedule, writes the answer, and returns the status.
pub(crate) fn run_schedule<S: System>(
    alloc: Global,
    task: &RunSchedule,
    system: &S,
    timeline: &mut S::Timeline,
) -> Result<u8, WriteFault>
    ensures made { AddsSome (S.outside system.now) timeline.old timeline.new (Performs (RunsSchedule (S.outside system.now) task.now) result) }
    ensures cause { OnErr result (OutputFails (S.outside system.now)) }
{
    match read_files(alloc, task, system, timeline) {
        Ok(files) => run_input(alloc, task, &files, system, timeline),
        Err(fault) => print_unread(system, timeline, fault, 1),
    }
}
