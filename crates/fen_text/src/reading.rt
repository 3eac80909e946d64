//! Reading the text of a position.

ghost use Rattle.std.specs.Prelude.{◌≡◌, IfOk, IfErr, Ok, Err};
ghost use Rattle.board_core.specs.declared.parts.Parts.{Parts};
ghost use Rattle.board_core.specs.Position.{IsPosition};
ghost use Rattle.fen_text.specs.declared.fault.FenFault.{FenFault};
ghost use Rattle.fen_text.specs.Fen.{SpellsPosition, IsFirstFenFault};
ghost use Rattle.fen_text.specs.Written.{fen_of};

use crate::counters::read_counter;
use crate::cuts::six_fields;
use crate::fault::FenFault;
use crate::fields::{read_castling, read_en_passant, read_side};
use crate::placement::read_placement;
use board_core::{Parts, Position};

/// The parts that a text spells, or the first field that spells nothing.
fn read_parts(text: &[u8]) -> Result<Parts, FenFault>
    ensures ok { IfOk result (λ parts. SpellsPosition text.now parts) }
    ensures err { IfErr result (λ fault. IsFirstFenFault text.now fault) }
{
    let Some(fields) = six_fields(text) else {
        return Err(FenFault::FieldCount);
    };
    let Some(men) = read_placement(fields.placement) else {
        return Err(FenFault::BadPlacement);
    };
    let Some(side) = read_side(fields.side) else {
        return Err(FenFault::BadSide);
    };
    let Some(rights) = read_castling(fields.castling) else {
        return Err(FenFault::BadCastlingText);
    };
    let Some(en_passant) = read_en_passant(fields.en_passant) else {
        return Err(FenFault::BadSquare);
    };
    let Some(halfmove) = read_counter(fields.halfmove) else {
        return Err(FenFault::BadNumber);
    };
    let Some(fullmove) = read_counter(fields.fullmove) else {
        return Err(FenFault::BadNumber);
    };
    Ok(Parts {
        men,
        side,
        rights,
        en_passant,
        halfmove,
        fullmove,
    })
}

/// Reads the FEN text of a position (PGN standard, section 16.1).
///
/// The text has six fields with one space between. They are the placement from the eighth rank down to the first, the
/// side to move, the castling rights, the en passant square, the halfmove clock and the fullmove number. Both numbers
/// are 0 to 9999. There is no other space, no needless zero, and no two digits stand side by side in a rank, so each
/// position has one text. The en passant square is kept as read, whether or not a pawn can capture there.
///
/// The fields are read in turn, and the fault is that of the first one that is malformed. Where each is well formed, it
/// is the first fault of `Position::new`.
pub fn read(text: &[u8]) -> Result<Position, FenFault>
    ensures ok { IfOk result (λ p. SpellsPosition text.now p) }
    ensures position { IfOk result (λ p. IsPosition p) }
    ensures only { (p : Parts) → IsPosition p → SpellsPosition text.now p → result ≡ Ok p }
    ensures err { IfErr result (λ fault. IsFirstFenFault text.now fault) }
    ensures only_fault { (fault : FenFault) → IsFirstFenFault text.now fault → result ≡ Err fault }

    // A text that `write` produces reads as the position it was given, and a text that reads as a position is the one
    // that `write` produces.
    ensures written { (p : Parts) → IsPosition p → text.now ≡ fen_of p → result ≡ Ok p }
    ensures one_text { IfOk result (λ p. text.now ≡ fen_of p) }
{
    let parts = match read_parts(text) {
        Ok(parts) => parts,
        Err(fault) => return Err(fault),
    };
    match Position::new(parts) {
        Ok(position) => Ok(position),
        Err(fault) => Err(FenFault::from(fault)),
    }
}
