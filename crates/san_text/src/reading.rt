//! Reading the text of a move.

ghost use Rattle.std.specs.Prelude.{◌≡◌, ◌↔◌, IsTrue, IfOk, IfErr, IfSome, IfNone, Ok, Err, Some};
ghost use Rattle.board_core.specs.declared.moves.Move.{Move};
ghost use Rattle.board_core.specs.Moves.{IsLegal};
ghost use Rattle.board_core.specs.Position.{IsPosition};
ghost use Rattle.san_text.specs.declared.fault.SanFault.{SanFault};
ghost use Rattle.san_text.specs.declared.told.Told.{Told};
ghost use Rattle.san_text.specs.Agrees.{castling, AgreesMan};
ghost use Rattle.san_text.specs.San.{IsMeant, ReadsSan, IsFirstSanFault};
ghost use Rattle.san_text.specs.Inside.Movers.{IsToldFault, castling_move};
ghost use Rattle.san_text.specs.Written.{san_of};

use crate::agreeing::{castling, only_mover};
use crate::fault::SanFault;
use crate::spelling::told_by_text;
use crate::told::{ManTold, Told};
use board_core::{Move, Position, Side, Square, Wing};

/// The move of the king of the side to move that castles to this wing, whether or not it is legal.
fn king_move(side: Side, wing: Wing) -> Move
    ensures { result ≡ castling_move side wing }
{
    let home = match side {
        Side::White => 4u8,
        Side::Black => 60,
    };
    let end = match wing {
        Wing::KingSide => home + 2,
        Wing::QueenSide => home - 2,
    };
    Move {
        from: Square::at(home),
        to: Square::at(end),
        promotion: None,
    }
}

/// Whether a move castles to this wing.
fn is_to(castling: Option<Wing>, wing: Wing) -> bool
    ensures { IsTrue result ↔ (castling ≡ Some wing) }
{
    match castling {
        Some(other) => other == wing,
        None => false,
    }
}

/// Castling to this wing, where it is legal.
fn castle(position: &Position, wing: Wing) -> Result<Move, SanFault>
    ensures ok { IfOk result (λ m. IsLegal position.now m × (castling position.now m ≡ Some wing)) }
    ensures only { (m : Move) → IsLegal position.now m → castling position.now m ≡ Some wing → result ≡ Ok m }
    ensures err { IfErr result (λ fault. fault ≡ SanFault.NoMove) }
{
    let m = king_move(position.side(), wing);
    if !is_to(castling(position, &m), wing) {
        return Err(SanFault::NoMove);
    }
    if !position.is_legal(m) {
        return Err(SanFault::NoMove);
    }
    Ok(m)
}

/// The one legal move of the man that is told.
fn man_move(position: &Position, man: &ManTold) -> Result<Move, SanFault>
    ensures ok { IfOk result (λ m. IsLegal position.now m × AgreesMan position.now man.now m) }
    ensures only { IfOk result (λ m. (n : Move) → IsLegal position.now n → AgreesMan position.now man.now n → n ≡ m) }
    ensures err { IfErr result (IsToldFault position.now (Told.Goes man.now)) }
{
    match only_mover(position, man) {
        Ok(from) => Ok(Move {
            from,
            to: man.to,
            promotion: man.promotion,
        }),
        Err(fault) => Err(fault),
    }
}

/// The one legal move that agrees with what is told.
fn meant(position: &Position, told: &Told) -> Result<Move, SanFault>
    ensures ok { IfOk result (IsMeant position.now told.now) }
    ensures only { IfOk result (λ m. (n : Move) → IsMeant position.now told.now n → n ≡ m) }
    ensures err { IfErr result (IsToldFault position.now told.now) }
{
    match told {
        Told::Castles(wing) => castle(position, *wing),
        Told::Goes(man) => man_move(position, man),
    }
}

/// Reads the text of a move (PGN standard, section 8.2.3) in a position.
///
/// Besides the standard's text it takes what files have. More may be told of the square that the man leaves than is
/// needed, and behind a whole square a dash may stand. A sign of check or mate and the glyphs `!` and `?` may be missing
/// or needless: they tell nothing. Castling may be written by zeros, a promotion without `=` or by a small letter, `e.p.`
/// behind a capture en passant, and `P` before a pawn's move. Letters of men are capital: `b` is a file.
///
/// What is told must be so of exactly one legal move. An `x` needs a capture; without it both are taken. Castling text is
/// castling alone, and the text of a king's move never castles. A pawn's text that tells no file of origin tells that of
/// its square. A promotion is told exactly where the pawn is promoted.
///
/// The fault is `BadText` where the text has no such form, else `NoMove` where no legal move agrees, else `Ambiguous`.
pub fn read_san(position: &Position, text: &[u8]) -> Result<Move, SanFault>
    ensures ok { IfOk result (ReadsSan position.now text.now) }
    ensures err { IfErr result (IsFirstSanFault position.now text.now) }
    ensures only { (m : Move) → ReadsSan position.now text.now m → result ≡ Ok m }
    ensures only_fault { (fault : SanFault) → IsFirstSanFault position.now text.now fault → result ≡ Err fault }

    // What `write_san` writes for a legal move reads as this move.
    ensures written { (m : Move) → IsLegal position.now m → text.now ≡ san_of position.now m → result ≡ Ok m }
{
    let Some(told) = told_by_text(text) else {
        return Err(SanFault::BadText);
    };
    meant(position, &told)
}
