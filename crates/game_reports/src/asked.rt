//! Games that are read for who asks: all of them for a report, or one.

ghost use Rattle.std.specs.Prelude.{◌≡◌, ◌↔◌, IfOk, IfSome, IsTrue};
ghost use Rattle.std.specs.List.{Contains};
ghost use Rattle.game_reports.specs.Asked.{AreBothNamed, TakesGame, TakesReport};
ghost use Rattle.game_reports.specs.Inside.Asking.{BothIn};
ghost use Rattle.timeline.specs.Outsides.{AddsSome};

use crate::folders::{GameFolders, open_games};
use crate::looking::{look_at_first, look_at_game};
use crate::report::text_of;
use answer_parts::Refusal;
use game_status::{Look, ReportForm};
use move_msg::Stamp;
use std::alloc::{AllocError, Global};
use timeline::System;

/// What is found of a game.
#[derive(Drop)]
pub struct GameFound {
    /// In the first folder alone.
    pub first: Look,
    /// In both folders; in the first one where no second one is named.
    pub both: Look,
}

/// Reads the games of a folder, or of two, and returns the text on them in this form, as `status` writes it; or the refusal of a folder. The
/// error comes only where memory is refused.
pub fn read_report<'a, S: System>(
    alloc: Global,
    system: &S,
    timeline: &mut S::Timeline,
    games: &'a str,
    other: Option<&'a str>,
    form: ReportForm,
) -> Result<Result<Vec<u8>, Refusal>, AllocError>
    ensures { TakesReport (S.outside system.now) timeline.old timeline.new games.entry other.entry form result }
{
    let folders = match open_games(alloc, system, timeline, games, other) {
        Ok(folders) => folders,
        Err(refusal) => return Ok(Err(refusal)),
    };
    match text_of(alloc, &folders, form, system, timeline) {
        Ok(text) => Ok(Ok(text)),
        Err(fault) => Err(fault),
    }
}

/// Whether two stamps are one.
fn is_same_stamp(one: Stamp, other: Stamp) -> bool
    ensures { IsTrue result ↔ (one ≡ other) }
{
    one == other
}

/// Whether a stamp is among others.
fn is_among(stamps: &[Stamp], stamp: Stamp) -> bool
    ensures { IsTrue result ↔ Contains stamps.now stamp }
{
    for other in stamps {
        if is_same_stamp(*other, stamp) {
            return true;
        }
    }
    false
}

/// What is found of a game in the first of some folders alone, and then in all. The error comes only where memory is refused.
fn look_twice<S: System>(
    alloc: Global,
    system: &S,
    timeline: &mut S::Timeline,
    folders: &GameFolders<'_>,
    stamp: Stamp,
) -> Result<GameFound, AllocError>
    ensures made { AddsSome (S.outside system.now) timeline.old timeline.new (BothIn (S.outside system.now) folders.now stamp result) }
    ensures named { IfOk result AreBothNamed }
{
    let first = match look_at_first(alloc, system, timeline, folders, stamp) {
        Ok(first) => first,
        Err(fault) => return Err(fault),
    };
    match look_at_game(alloc, system, timeline, folders, stamp) {
        Ok(both) => Ok(GameFound { first, both }),
        Err(fault) => Err(fault),
    }
}

/// What is found of the game with a stamp in a folder, and in a second one, if it is named; none where neither lists its file. Or the
/// refusal of a folder. The error comes only where memory is refused.
pub fn read_game<'a, S: System>(
    alloc: Global,
    system: &S,
    timeline: &mut S::Timeline,
    games: &'a str,
    other: Option<&'a str>,
    stamp: Stamp,
) -> Result<Result<Option<GameFound>, Refusal>, AllocError>
    ensures made { TakesGame (S.outside system.now) timeline.old timeline.new games.entry other.entry stamp result }
    ensures named { IfOk result (λ r. IfOk r (λ found. IfSome found AreBothNamed)) }
{
    let folders = match open_games(alloc, system, timeline, games, other) {
        Ok(folders) => folders,
        Err(refusal) => return Ok(Err(refusal)),
    };
    if !is_among(&folders.stamps, stamp) {
        return Ok(Ok(None));
    }
    match look_twice(alloc, system, timeline, &folders, stamp) {
        Ok(found) => Ok(Ok(Some(found))),
        Err(fault) => Err(fault),
    }
}
