//! Games that are read one by one, a line each, and counted.

ghost use Rattle.std.specs.Prelude.{◌≡◌, ◌∷◌, [], ℕ, List, IfOk, OnErr};
ghost use Rattle.answer_parts.specs.Printing.{OutputFails, Performs, Prints};
ghost use Rattle.game_reports.specs.GameLines.{PrintsSums};
ghost use Rattle.game_reports.specs.Inside.Looking.{GamesIn, LineIn, NextIn};
ghost use Rattle.game_status.specs.GameAudits.{AreFewDelays};
ghost use Rattle.game_status.specs.declared.status_lines.Look.{Look};
ghost use Rattle.game_status.specs.declared.telling.GameTold.{GameTold};
ghost use Rattle.timeline.specs.Outsides.{AddsSome};

use crate::folders::GameFolders;
use crate::looking::look_at_game;
use answer_parts::{Refusal, status_if};
use game_status::{GameTold, Look, Mark, Sums, sums_line};
use line_teller::LineWords;
use move_msg::Stamp;
use std::alloc::{AllocError, Global};
use system_io::WriteFault;
use timeline::{Stream, System};

/// What says what is written of a game by what is found of it.
pub(crate) trait LookTeller {
    /// This may be written of the game with the stamp where that is found.
    ghost tells: { Self → List ℕ → Look → GameTold → Type 0 };

    /// What is written of the game with a stamp, of which this is found. The error comes only where memory is refused.
    fn tell(&mut self, alloc: Global, stamp: Stamp, look: Look) -> Result<GameTold, AllocError>
        requires { AreFewDelays look }
        ensures told { IfOk result (tells self.old stamp look) }
        ensures same { self.new ≡ self.old };
}

/// Reads what the folders have of a game, and returns what is to be written of it. The error comes only where memory is refused.
fn read_told<T: LookTeller, S: System>(
    alloc: Global,
    folders: &GameFolders<'_>,
    teller: &mut T,
    stamp: Stamp,
    system: &S,
    timeline: &mut S::Timeline,
) -> Result<GameTold, AllocError>
    ensures made { AddsSome (S.outside system.now) timeline.old timeline.new (LineIn (S.outside system.now) folders.now (T.tells teller.old) stamp result) }
    ensures same { teller.new ≡ teller.old }
{
    match look_at_game(alloc, system, timeline, folders, stamp) {
        Ok(look) => teller.tell(alloc, stamp, look),
        Err(fault) => Err(fault),
    }
}

/// Writes a line, and returns this.
fn print_marked<S: System>(
    system: &S,
    timeline: &mut S::Timeline,
    words: LineWords,
    mark: Option<Mark>,
) -> Result<Option<Mark>, WriteFault>
    ensures made { AddsSome (S.outside system.now) timeline.old timeline.new (Performs (Prints (words ∷ []) mark) result) }
    ensures cause { OnErr result (OutputFails (S.outside system.now)) }
{
    match words.write(system, timeline, Stream::Output) {
        Ok(()) => Ok(mark),
        Err(fault) => Err(fault),
    }
}

/// Reads what the folders have of a game, writes its line, and returns how it is counted; where memory is refused, writes that, and
/// returns none.
fn print_game<T: LookTeller, S: System>(
    alloc: Global,
    folders: &GameFolders<'_>,
    teller: &mut T,
    stamp: Stamp,
    system: &S,
    timeline: &mut S::Timeline,
) -> Result<Option<Mark>, WriteFault>
    ensures made { let o = S.outside system.now in AddsSome o timeline.old timeline.new (Performs (NextIn o folders.now (T.tells teller.old) stamp) result) }
    ensures cause { OnErr result (OutputFails (S.outside system.now)) }
    ensures same { teller.new ≡ teller.old }
{
    match read_told(alloc, folders, teller, stamp, system, timeline) {
        Ok(GameTold { words, mark }) => print_marked(system, timeline, words, Some(mark)),
        Err(_) => print_marked(system, timeline, Refusal::Memory.words(), None),
    }
}

/// Writes the line of the sums, and returns the status.
fn print_sums<S: System>(
    system: &S,
    timeline: &mut S::Timeline,
    sums: &Sums,
    compares: bool,
) -> Result<u8, WriteFault>
    ensures made { AddsSome (S.outside system.now) timeline.old timeline.new (Performs (PrintsSums compares sums.now) result) }
    ensures cause { OnErr result (OutputFails (S.outside system.now)) }
{
    match sums_line(sums, compares).write(system, timeline, Stream::Output) {
        Ok(()) => Ok(status_if(sums.are_well())),
        Err(fault) => Err(fault),
    }
}

/// Reads the games of the folders one by one, in rising order of their stamps, and writes the line of each before the next is read; and
/// then their sums. Returns the status, 0 where nothing is at fault and nothing differs, else 1.
///
/// Where memory is refused for a game, the line `refused memory` follows the lines before it, and nothing more. The error comes only where
/// the output may fail, and no game is read after a line that it failed at.
pub(crate) fn print_games<T: LookTeller, S: System>(
    alloc: Global,
    folders: &GameFolders<'_>,
    teller: &mut T,
    system: &S,
    timeline: &mut S::Timeline,
) -> Result<u8, WriteFault>
    ensures made { AddsSome (S.outside system.now) timeline.old timeline.new (Performs (GamesIn (S.outside system.now) folders.now (T.tells teller.old)) result) }
    ensures cause { OnErr result (OutputFails (S.outside system.now)) }
{
    let mut sums = Sums::none();
    for stamp in &folders.stamps {
        match print_game(alloc, folders, teller, *stamp, system, timeline) {
            Ok(Some(mark)) => sums = sums.with(mark),
            Ok(None) => return Ok(1),
            Err(fault) => return Err(fault),
        }
    }
    print_sums(system, timeline, &sums, folders.other.is_some())
}
