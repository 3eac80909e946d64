//! The object of a game: what folders have of it, and its plies with what tables say of each.

ghost use Rattle.std.specs.Prelude.{◌≡◌, IfNone, IfOk, IfSome, None, OnOk, Some};
ghost use Rattle.board_core.specs.ComputedMoves.{position_after};
ghost use Rattle.json.specs.Json.{document};
ghost use Rattle.json.specs.Tree.{json_tokens};
ghost use Rattle.json_lines.specs.Objects.{line_json};
ghost use Rattle.game_status.specs.StatusObjects.{AddsMembers, AddsTokens, AreNamed};
ghost use Rattle.http_answer.specs.Files.{files_of};
ghost use Rattle.http_answer.specs.Games.{ArePliesOf, HasPlies, delay_in, moves_in};
ghost use Rattle.http_answer.specs.Inside.{AddsGame, AddsList, AddsMoves, AddsNext, AddsPlies, AddsPosition, AddsStart, IsGameText, move_members};
ghost use Rattle.http_answer.specs.Reads.{ReadsTableFiles};

use crate::answerer::Answerer;
use board_core::{Move, Position};
use fen_text::{write, write_move};
use game_reports::GameFound;
use game_status::{Look, Side, add_count, add_first, add_second_if, add_stamp, add_text};
use json::{Scratch, Value, Writer};
use json_lines::{JsonLine, put_json_line};
use move_msg::Stamp;
use san_text::write_san;
use std::alloc::{AllocError, Global};
use timeline::System;

/// The object of a line, as a text.
fn object_of(alloc: Global, line: &JsonLine) -> Result<Vec<u8>, AllocError>
    ensures { IfOk result (λ text. document text.items ≡ Some (line_json line.now)) }
{
    let mut text = Vec::new(alloc);
    match put_json_line(&mut text, line) {
        Ok(()) => Ok(text),
        Err(_) => Err(AllocError),
    }
}

/// Adds the object of a line as a value.
fn add_line(alloc: Global, text: &mut Writer, line: &JsonLine) -> Result<(), AllocError>
    ensures { OnOk result (AddsTokens text.old text.new (json_tokens (line_json line.now))) }
{
    let object = object_of(alloc, line)?;
    let mut scratch = Scratch::new(alloc);
    match Value::from_slice(alloc, &object, &mut scratch) {
        Ok(value) => text.value(&value),
        Err(_) => Err(AllocError),
    }
}

/// Adds a position and what tables say of it.
#[tactic(auto, using(crate::proofs::OpenReadLaws::no_reads))]
fn add_position<S: System>(
    answerer: &mut Answerer<'_, '_, S>,
    timeline: &mut S::Timeline,
    text: &mut Writer,
    position: &Position,
) -> Result<(), AllocError>
    ensures added { OnOk result (AddsPosition (files_of S.outside answerer.old.disk) answerer.old.folder position.now text.old text.new) }
    ensures same { answerer.new ≡ answerer.old }
    ensures made { ReadsTableFiles S.outside answerer.old timeline.old timeline.new }
{
    add_text(text, "fen", Some(write(position).as_str()))?;
    let line = answerer.line_alone(timeline, position)?;
    text.key("tables")?;
    add_line(answerer.alloc(), text, &line)
}

/// Adds the ply before the first move.
#[tactic(auto, using(crate::proofs::OpenReadLaws::no_reads))]
fn add_start<S: System>(
    answerer: &mut Answerer<'_, '_, S>,
    timeline: &mut S::Timeline,
    text: &mut Writer,
    start: &Position,
) -> Result<(), AllocError>
    ensures added { OnOk result (AddsStart (files_of S.outside answerer.old.disk) answerer.old.folder start.now text.old text.new) }
    ensures same { answerer.new ≡ answerer.old }
    ensures made { ReadsTableFiles S.outside answerer.old timeline.old timeline.new }
{
    text.begin_object()?;
    add_text(text, "uci", None)?;
    add_text(text, "san", None)?;
    add_position(answerer, timeline, text, start)?;
    text.end_object()
}

/// Adds a move in both notations.
fn add_move(text: &mut Writer, m: &Move, san: &str) -> Result<(), AllocError>
    ensures { OnOk result (AddsMembers text.old text.new (move_members m.now san.now)) }
{
    add_text(text, "uci", Some(write_move(m).as_str()))?;
    add_text(text, "san", Some(san))
}

/// Adds the ply after a move, and returns its position; none, and nothing is added, where the move isn't legal.
#[tactic(auto, using(crate::proofs::OpenReadLaws::no_reads))]
fn add_next<S: System>(
    answerer: &mut Answerer<'_, '_, S>,
    timeline: &mut S::Timeline,
    text: &mut Writer,
    position: &Position,
    m: &Move,
) -> Result<Option<Position>, AllocError>
    ensures added { IfOk result (λ next. IfSome next (AddsNext (files_of S.outside answerer.old.disk) answerer.old.folder position.now m.now text.old text.new)) }
    ensures none { IfOk result (λ next. IfNone next (position_after position.now m.now ≡ None)) }
    ensures nothing { IfOk result (λ next. IfNone next (text.new ≡ text.old)) }
    ensures same { answerer.new ≡ answerer.old }
    ensures made { ReadsTableFiles S.outside answerer.old timeline.old timeline.new }
{
    let Some(after) = position.play(*m) else {
        return Ok(None);
    };
    let Some(san) = write_san(position, *m) else {
        return Ok(None);
    };
    text.begin_object()?;
    add_move(text, m, san.as_str())?;
    add_position(answerer, timeline, text, &after)?;
    text.end_object()?;
    Ok(Some(after))
}

/// Adds the plies after moves, up to the first one that isn't legal.
fn add_moves<S: System>(
    answerer: &mut Answerer<'_, '_, S>,
    timeline: &mut S::Timeline,
    text: &mut Writer,
    start: &Position,
    moves: &[Move],
) -> Result<(), AllocError>
    ensures added { OnOk result (AddsMoves (files_of S.outside answerer.old.disk) answerer.old.folder start.now moves.now text.old text.new) }
    ensures same { answerer.new ≡ answerer.old }
    ensures made { ReadsTableFiles S.outside answerer.old timeline.old timeline.new }
{
    let mut position = *start;
    let mut rest = moves;
    while let Some((m, tail)) = rest.split_first() {
        match add_next(answerer, timeline, text, &position, m)? {
            Some(after) => position = after,
            None => return Ok(()),
        }
        rest = tail;
    }
    Ok(())
}

/// The moves that a folder has of a game.
fn moves_of(side: &Side) -> &[Move]
    ensures { result.now ≡ moves_in side.now.kept }
{
    match &side.kept {
        Some(record) => record.moves.as_slice(),
        None => &[],
    }
}

/// Adds the plies of what a folder has of a game.
fn add_plies_of<S: System>(
    answerer: &mut Answerer<'_, '_, S>,
    timeline: &mut S::Timeline,
    text: &mut Writer,
    side: &Side,
) -> Result<(), AllocError>
    ensures added { OnOk result (AddsPlies (ArePliesOf (files_of S.outside answerer.old.disk) answerer.old.folder side.now) text.old text.new) }
    ensures same { answerer.new ≡ answerer.old }
    ensures made { ReadsTableFiles S.outside answerer.old timeline.old timeline.new }
{
    let start = &side.game.start;
    add_start(answerer, timeline, text, start)?;
    add_moves(answerer, timeline, text, start, moves_of(side))
}

/// Adds the plies of a game by what is found of it.
#[tactic(auto, using(crate::proofs::OpenReadLaws::no_reads))]
fn add_plies<S: System>(
    answerer: &mut Answerer<'_, '_, S>,
    timeline: &mut S::Timeline,
    text: &mut Writer,
    look: &Look,
) -> Result<(), AllocError>
    ensures added { OnOk result (AddsPlies (HasPlies (files_of S.outside answerer.old.disk) answerer.old.folder look.now) text.old text.new) }
    ensures same { answerer.new ≡ answerer.old }
    ensures made { ReadsTableFiles S.outside answerer.old timeline.old timeline.new }
{
    match look {
        Look::One(side) => add_plies_of(answerer, timeline, text, side),
        Look::Both(side, _, _) => add_plies_of(answerer, timeline, text, side),
        Look::AtFault(_) | Look::OtherAtFault(_) => Ok(()),
    }
}

/// Adds the list of the plies of a game.
#[tactic(auto, using(crate::proofs::OpenReadLaws::no_reads))]
fn add_list<S: System>(
    answerer: &mut Answerer<'_, '_, S>,
    timeline: &mut S::Timeline,
    text: &mut Writer,
    look: &Look,
) -> Result<(), AllocError>
    ensures added { OnOk result (AddsList (HasPlies (files_of S.outside answerer.old.disk) answerer.old.folder look.now) text.old text.new) }
    ensures same { answerer.new ≡ answerer.old }
    ensures made { ReadsTableFiles S.outside answerer.old timeline.old timeline.new }
{
    text.key("plies")?;
    text.begin_array()?;
    add_plies(answerer, timeline, text, look)?;
    text.end_array()
}

/// The delay of a game, if it is known.
fn delay_of(look: &Look) -> Option<u64>
    ensures { result ≡ delay_in look.now }
{
    match look {
        Look::One(side) => Some(u64::from(side.game.delay.plies())),
        Look::Both(side, _, _) => Some(u64::from(side.game.delay.plies())),
        Look::AtFault(_) | Look::OtherAtFault(_) => None,
    }
}

/// Adds the object of a game by what is found of it.
#[tactic(auto, using(crate::proofs::OpenReadLaws::no_reads))]
fn add_game<S: System>(
    answerer: &mut Answerer<'_, '_, S>,
    timeline: &mut S::Timeline,
    text: &mut Writer,
    stamp: Stamp,
    found: &GameFound,
    compares: bool,
) -> Result<(), AllocError>
    requires first { AreNamed found.now.first }
    requires both { AreNamed found.now.both }
    ensures added { OnOk result (AddsGame (files_of S.outside answerer.old.disk) answerer.old.folder compares stamp found.now text.old text.new) }
    ensures same { answerer.new ≡ answerer.old }
    ensures made { ReadsTableFiles S.outside answerer.old timeline.old timeline.new }
{
    text.begin_object()?;
    add_stamp(text, stamp)?;
    add_first(text, &found.first)?;
    add_count(text, "delay", delay_of(&found.first))?;
    add_list(answerer, timeline, text, &found.first)?;
    add_second_if(text, &found.both, compares)?;
    text.end_object()
}

/// The text of the object of a game by what is found of it.
pub(crate) fn game_text<S: System>(
    answerer: &mut Answerer<'_, '_, S>,
    timeline: &mut S::Timeline,
    stamp: Stamp,
    found: &GameFound,
    compares: bool,
) -> Result<Vec<u8>, AllocError>
    requires first { AreNamed found.now.first }
    requires both { AreNamed found.now.both }
    ensures text { IfOk result (λ text. IsGameText (files_of S.outside answerer.old.disk) answerer.old.folder compares stamp found.now text.items) }
    ensures same { answerer.new ≡ answerer.old }
    ensures made { ReadsTableFiles S.outside answerer.old timeline.old timeline.new }
{
    let mut text = Writer::new(Vec::new(answerer.alloc()));
    add_game(answerer, timeline, &mut text, stamp, found, compares)?;
    Ok(text.into_inner())
}
