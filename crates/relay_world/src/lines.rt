//! The lines of a schedule.

ghost use Rattle.std.specs.Prelude.{◌≡◌, ◌≤◌, ◌<◌, ◌++◌, ◌∷◌, [], ℕ, List, length, codes, IfOk, IfSome, IfNone, OnErr};
ghost use Rattle.board_core.specs.declared.moves.Move.{Move as Moves};
ghost use Rattle.board_core.specs.declared.parts.Parts.{Parts};
ghost use Rattle.fen_text.specs.Coordinates.{AreMoves};
ghost use Rattle.fen_text.specs.Cuts.{cut_at};
ghost use Rattle.move_msg.specs.declared.arbiter_id.ArbiterId.{ArbiterId};
ghost use Rattle.move_msg.specs.Numbers.{most_moves};
ghost use Rattle.arbiter_core.specs.declared.keeper.Keep.{Keep};
ghost use Rattle.relay_world.specs.declared.event.Event.{Event};
ghost use Rattle.relay_world.specs.Texts.{BeginsByMove, HasAnyMove, IsEvent, IsEventLine, IsMovesLine, IsNameLine, IsStartLine, TellsBytes, who_word, keep_word};

use crate::event::Event;
use crate::fields::{is_word, read_bytes, read_keep, read_place, read_who};
use arbiter_core::Keep;
use board_core::{Move, Position};
use fen_text::{cut_first, read, read_move};
use move_msg::{ArbiterId, is_game_name};
use std::alloc::{AllocError, Global};
use std::vec::Vec;

/// The name in a line.
pub(crate) fn read_name(line: &[u8]) -> Option<&[u8]>
    ensures some { IfSome result (λ name. IsNameLine line.now name.now) }
    ensures none { IfNone result ((name : List ℕ) → IsNameLine line.now name → ⊥) }
{
    let Some(name) = line.strip_prefix(b"name ") else {
        return None;
    };
    if !is_game_name(name) {
        return None;
    }
    Some(name)
}

/// The start in a line.
pub(crate) fn read_start(line: &[u8]) -> Option<Position>
    ensures some { IfSome result (IsStartLine line.now) }
    ensures none { IfNone result ((start : Parts) → IsStartLine line.now start → ⊥) }
{
    let Some(fen) = line.strip_prefix(b"start ") else {
        return None;
    };
    match read(fen) {
        Ok(start) => Some(start),
        Err(_) => None,
    }
}

/// The moves of the words after the first one. No more than 4096 are ever held.
fn read_words(alloc: Global, text: &[u8]) -> Result<Option<Vec<Move>>, AllocError>
    ensures some { IfOk result (λ read. IfSome read (λ moves. AreMoves (cut_at 32 text.now) moves.items)) }
    ensures few { IfOk result (λ read. IfSome read (λ moves. length moves.items ≤ most_moves)) }
    ensures none { IfOk result (λ read. IfNone read ((moves : List Moves) → AreMoves (cut_at 32 text.now) moves → length moves ≤ most_moves → ⊥)) }
    ensures memory { OnErr result (BeginsByMove (cut_at 32 text.now)) }
{
    let mut moves = Vec::new(alloc);
    let mut rest = text;
    while let Some((word, tail)) = cut_first(rest, b' ') {
        // A word follows this one, so there would be more than 4096.
        if moves.len() >= 4095 {
            return Ok(None);
        }
        let Some(m) = read_move(word) else {
            return Ok(None);
        };
        moves.push(m)?;
        rest = tail;
    }
    let Some(m) = read_move(rest) else {
        return Ok(None);
    };
    moves.push(m)?;
    Ok(Some(moves))
}

/// The moves in a line.
pub(crate) fn read_moves(alloc: Global, line: &[u8]) -> Result<Option<Vec<Move>>, AllocError>
    ensures some { IfOk result (λ read. IfSome read (λ moves. IsMovesLine line.now moves.items)) }
    ensures none { IfOk result (λ read. IfNone read ((moves : List Moves) → IsMovesLine line.now moves → ⊥)) }
    ensures memory { OnErr result (HasAnyMove line.now) }
{
    let Some((verb, text)) = cut_first(line, b' ') else {
        if is_word(line, b"moves") {
            return Ok(Some(Vec::new(alloc)));
        }
        return Ok(None);
    };
    if !is_word(verb, b"moves") {
        return Ok(None);
    }
    read_words(alloc, text)
}

/// The arbiter that a line names in its second word, and the words after it.
fn split_who(text: &[u8]) -> Option<(ArbiterId, &[u8])>
    ensures some { IfSome result (λ x. cut_at 32 text.now ≡ who_word x.0 ∷ cut_at 32 x.1.now) }
    ensures none { IfNone result ((who : ArbiterId) (word : List ℕ) (words : List (List ℕ)) → cut_at 32 text.now ≡ who_word who ∷ word ∷ words → ⊥) }
{
    let Some((who, rest)) = cut_first(text, b' ') else {
        return None;
    };
    match read_who(who) {
        Some(who) => Some((who, rest)),
        None => None,
    }
}

/// The outcome of a put, in the only word.
fn only_keep(text: &[u8]) -> Option<Keep>
    ensures some { IfSome result (λ keep. cut_at 32 text.now ≡ keep_word keep ∷ []) }
    ensures none { IfNone result ((keep : Keep) → cut_at 32 text.now ≡ keep_word keep ∷ [] → ⊥) }
{
    match cut_first(text, b' ') {
        Some(_) => None,
        None => read_keep(text),
    }
}

/// The first of two words, and the outcome of a put in the second.
fn word_and_keep(text: &[u8]) -> Option<(&[u8], Keep)>
    ensures some { IfSome result (λ x. cut_at 32 text.now ≡ x.0.now ∷ keep_word x.1 ∷ []) }
    ensures none { IfNone result ((word : List ℕ) (keep : Keep) → cut_at 32 text.now ≡ word ∷ keep_word keep ∷ [] → ⊥) }
{
    let Some((word, rest)) = cut_first(text, b' ') else {
        return None;
    };
    match only_keep(rest) {
        Some(keep) => Some((word, keep)),
        None => None,
    }
}

/// `ask WHO`, after its first word.
fn read_ask(text: &[u8]) -> Option<Event>
    ensures some { IfSome result (IsEvent (codes "ask" ∷ cut_at 32 text.now)) }
    ensures none { IfNone result ((event : Event) → IsEvent (codes "ask" ∷ cut_at 32 text.now) event → ⊥) }
{
    if let Some(_) = cut_first(text, b' ') {
        return None;
    }
    match read_who(text) {
        Some(who) => Some(Event::Ask { who }),
        None => None,
    }
}

/// `restart WHO KEEP`, after its first word.
fn read_restart(text: &[u8]) -> Option<Event>
    ensures some { IfSome result (IsEvent (codes "restart" ∷ cut_at 32 text.now)) }
    ensures none { IfNone result ((event : Event) → IsEvent (codes "restart" ∷ cut_at 32 text.now) event → ⊥) }
{
    let Some((who, rest)) = split_who(text) else {
        return None;
    };
    match only_keep(rest) {
        Some(keep) => Some(Event::Restart { who, keep }),
        None => None,
    }
}

/// `deliver WHO INDEX KEEP`, after its first word.
fn read_deliver(text: &[u8]) -> Option<Event>
    ensures some { IfSome result (IsEvent (codes "deliver" ∷ cut_at 32 text.now)) }
    ensures none { IfNone result ((event : Event) → IsEvent (codes "deliver" ∷ cut_at 32 text.now) event → ⊥) }
{
    let Some((who, rest)) = split_who(text) else {
        return None;
    };
    let Some((word, keep)) = word_and_keep(rest) else {
        return None;
    };
    match read_place(word) {
        Some(index) => Some(Event::Deliver { who, index, keep }),
        None => None,
    }
}

/// `noise WHO HEX KEEP`, after its first word.
fn read_noise(alloc: Global, text: &[u8]) -> Result<Option<Event>, AllocError>
    ensures some { IfOk result (λ read. IfSome read (IsEvent (codes "noise" ∷ cut_at 32 text.now))) }
    ensures none { IfOk result (λ read. IfNone read ((event : Event) → IsEvent (codes "noise" ∷ cut_at 32 text.now) event → ⊥)) }
    ensures memory { OnErr result (TellsBytes (codes "noise" ∷ cut_at 32 text.now)) }
{
    let Some((who, rest)) = split_who(text) else {
        return Ok(None);
    };
    let Some((word, keep)) = word_and_keep(rest) else {
        return Ok(None);
    };
    let Some(bytes) = read_bytes(alloc, word)? else {
        return Ok(None);
    };
    Ok(Some(Event::Noise { who, bytes, keep }))
}

/// The event in a line.
pub(crate) fn read_event(alloc: Global, line: &[u8]) -> Result<Option<Event>, AllocError>
    ensures some { IfOk result (λ read. IfSome read (IsEventLine line.now)) }
    ensures none { IfOk result (λ read. IfNone read ((event : Event) → IsEventLine line.now event → ⊥)) }
    ensures memory { OnErr result (TellsBytes (cut_at 32 line.now)) }
{
    let Some((verb, rest)) = cut_first(line, b' ') else {
        return Ok(None);
    };
    if is_word(verb, b"deliver") {
        Ok(read_deliver(rest))
    } else if is_word(verb, b"restart") {
        Ok(read_restart(rest))
    } else if is_word(verb, b"ask") {
        Ok(read_ask(rest))
    } else if is_word(verb, b"noise") {
        read_noise(alloc, rest)
    } else {
        Ok(None)
    }
}
