//! Calls of the rules of chess and of texts of positions.

use crate::calls::{Fault, Given, number_of};
use board_core::{Piece, Position, Rights, Side, Square, Wing};
use fen_text::{read, read_move, write, write_move};
use std::alloc::{AllocError, Global};
use std::fmt::Write;

/// The position of a FEN text that is good.
pub(crate) fn position_of(text: &str) -> Result<Position, Fault> {
    read(text.as_bytes()).or(Err(Fault::Line))
}

/// The number of ways to play so many moves from a position.
fn count_ways(alloc: Global, position: &Position, moves: u32) -> Result<u32, AllocError> {
    if moves == 0 {
        return Ok(1);
    }
    let mut ways = 0u32;
    for m in &position.legal(alloc)? {
        if let Some(next) = position.play(*m) {
            ways = ways.wrapping_add(count_ways(alloc, &next, moves - 1)?);
        }
    }
    Ok(ways)
}

/// Tells how many ways there are to play as many moves as the second word says from the position of the first.
fn tell_ways(alloc: Global, told: &mut String, given: &Given<'_>) -> Result<(), Fault> {
    let position = position_of(given.word(0)?)?;
    let moves = number_of(given.word(1)?)?;
    let ways = count_ways(alloc, &position, moves.min(9) as u32)?;
    Ok(writeln!(told, "{ways}")?)
}

/// Tells the captures of a position one after the other.
fn tell_each_capture(told: &mut String, position: &Position) -> Result<(), AllocError> {
    let mut last = None;
    for _ in 0..256 {
        let Some((m, _)) = position.capture_after(last) else {
            return Ok(());
        };
        let text = write_move(&m);
        let text = text.as_str();
        writeln!(told, "{text}")?;
        last = Some(m);
    }
    Ok(())
}

/// How many captures are listed.
fn count_captures(alloc: Global, position: &Position) -> Result<usize, AllocError> {
    Ok(position.captures(alloc)?.len())
}

/// Tells how many captures a position has, each of them, and whether it has a legal move that isn't en passant.
fn tell_captures(alloc: Global, told: &mut String, given: &Given<'_>) -> Result<(), Fault> {
    let position = position_of(given.word(0)?)?;
    let count = count_captures(alloc, &position)?;
    writeln!(told, "{count}")?;
    tell_each_capture(told, &position)?;
    let others = position.has_move_besides_en_passant();
    Ok(writeln!(told, "others {others}")?)
}

/// The position after a move of this text.
fn after(position: &Position, text: &str) -> Result<Option<Position>, Fault> {
    match read_move(text.as_bytes()) {
        Some(m) => Ok(position.play(m)),
        None => Err(Fault::Line),
    }
}

/// Tells a position as a text.
fn tell_position(told: &mut String, position: &Position) -> Result<(), AllocError> {
    let text = write(position);
    let text = text.as_str();
    writeln!(told, "{text}")
}

/// Tells the position of the first word after the moves of the others, or the first of these that isn't legal.
fn tell_play(told: &mut String, given: &Given<'_>) -> Result<(), Fault> {
    let mut position = position_of(given.word(0)?)?;
    for word in given.words.iter().skip(1) {
        match after(&position, word)? {
            Some(next) => position = next,
            None => return Ok(writeln!(told, "illegal {word}")?),
        }
    }
    Ok(tell_position(told, &position)?)
}

/// Tells a man and its square, in letters and digits.
fn tell_man(told: &mut String, square: Square, man: Piece) -> Result<(), AllocError> {
    let file = (b'a' + square.file()) as char;
    let rank = square.rank() + 1;
    let (side, kind) = (man.side, man.kind);
    writeln!(told, "{file}{rank} {side:?} {kind:?}")
}

/// Tells all men, by their squares.
fn tell_men(told: &mut String, position: &Position) -> Result<(), AllocError> {
    for number in 0..64u8 {
        if let Some(square) = Square::new(number)
            && let Some(man) = position.piece_at(square)
        {
            tell_man(told, square, man)?;
        }
    }
    Ok(())
}

/// Tells which castlings have not been lost.
fn tell_rights(told: &mut String, rights: Rights) -> Result<(), AllocError> {
    for side in [Side::White, Side::Black] {
        let king = rights.has(side, Wing::KingSide);
        let queen = rights.has(side, Wing::QueenSide);
        writeln!(told, "{side:?} king side {king}, queen side {queen}")?;
    }
    Ok(())
}

/// Tells the side to move and its opponent, whether it is in check, how many men there are, the square of en passant by its number,
/// the clock and the number of the move.
fn tell_state(told: &mut String, position: &Position) -> Result<(), AllocError> {
    let (side, other) = (position.side(), position.side().other());
    let (check, men) = (position.in_check(), position.men());
    let passed = position.en_passant().map(Square::number);
    let (clock, number) = (position.halfmove(), position.fullmove());
    writeln!(told, "{side:?} against {other:?}, check {check}, men {men}")?;
    writeln!(told, "passed {passed:?}, clock {clock}, move {number}")
}

/// Tells the parts of a position.
fn tell_parts(told: &mut String, given: &Given<'_>) -> Result<(), Fault> {
    let position = position_of(given.word(0)?)?;
    tell_state(told, &position)?;
    tell_rights(told, position.rights())?;
    Ok(tell_men(told, &position)?)
}

/// Tells what a call of this module gives, if the name is that of one.
pub(crate) fn tell(
    alloc: Global,
    told: &mut String,
    name: &str,
    given: &Given<'_>,
) -> Option<Result<(), Fault>> {
    match name {
        "ways" => Some(tell_ways(alloc, told, given)),
        "captures" => Some(tell_captures(alloc, told, given)),
        "play" => Some(tell_play(told, given)),
        "parts" => Some(tell_parts(told, given)),
        _ => None,
    }
}
