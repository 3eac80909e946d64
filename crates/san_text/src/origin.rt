//! What tells a man apart from others of his kind (PGN standard, section 8.2.3.4).

ghost use Rattle.std.specs.Prelude.{◌≡◌, ◌≢◌, ◌<◌, ◌↔◌, ℕ, IsTrue};
ghost use Rattle.std.specs.Int.{bit_at};
ghost use Rattle.board_core.specs.Moves.{IsLegal};
ghost use Rattle.board_core.specs.ComputedMoves.{is_capture};
ghost use Rattle.san_text.specs.Written.{kind_moved, has_rival, told_apart, origin_told, file_by, rank_by};
ghost use Rattle.san_text.specs.Inside.Written.{Rivals, is_among};

use crate::agreeing::stands;
use board_core::{Kind, Move, Position, Square};

/// What tells a man apart.
#[derive(Clone, Copy)]
pub enum Apart {
    /// Nothing is needed.
    Nothing,
    /// The file that he leaves.
    ByFile,
    /// The rank that he leaves.
    ByRank,
    /// The square that he leaves.
    BySquare,
}

/// Which men are looked at.
#[derive(Clone, Copy)]
pub(crate) enum Among {
    /// All men.
    Everywhere,
    /// Those on the file that a man leaves.
    OnFile,
    /// Those on the rank that he leaves.
    OnRank,
}

/// Whether a square is one of those looked at, where a man leaves the other.
fn is_among(among: Among, from: Square, square: Square) -> bool
    ensures { result ≡ is_among among from square }
{
    match among {
        Among::Everywhere => true,
        Among::OnFile => square.file() == from.file(),
        Among::OnRank => square.rank() == from.rank(),
    }
}

/// Whether another man of this kind, who leaves this square, can go where the move goes.
fn is_rival(position: &Position, m: &Move, kind: Kind, from: Square) -> bool
    requires kind { kind ≡ kind_moved position.now m.now }
    requires piece { kind ≢ Kind.Pawn }
    ensures { IsTrue result ↔ Rivals position.now m.now from }
{
    if from == m.from || !stands(position, from, kind) {
        return false;
    }
    position.is_legal(Move {
        from,
        to: m.to,
        promotion: None,
    })
}

/// Whether another man of this kind, among these, can go where the move goes.
///
/// `next` is the next square of the sweep. It is a variable of its own because the proofs name it.
fn has_rival(position: &Position, m: &Move, kind: Kind, among: Among) -> bool
    requires kind { kind ≡ kind_moved position.now m.now }
    requires piece { kind ≢ Kind.Pawn }
    ensures { result ≡ has_rival position.now m.now (is_among among m.now.from) }
{
    let mut rest = position.occupied();
    let mut next = 0u8;
    'rivals: while !rest.is_empty() {
        let from = rest.lowest();
        if is_among(among, m.from, from) && is_rival(position, m, kind, from) {
            return true;
        }
        rest = rest.without(from);
        next = from.number() + 1;
    }
    false
}

/// What tells a man of this kind, other than a pawn, apart from others that can go there.
#[tactic(auto, unfolding(crate::specs::Written::told_apart))]
fn told_apart(position: &Position, m: &Move, kind: Kind) -> Apart
    requires kind { kind ≡ kind_moved position.now m.now }
    requires piece { kind ≢ Kind.Pawn }
    ensures { result ≡ told_apart position.now m.now }
{
    if !has_rival(position, m, kind, Among::Everywhere) {
        return Apart::Nothing;
    }
    if !has_rival(position, m, kind, Among::OnFile) {
        return Apart::ByFile;
    }
    if !has_rival(position, m, kind, Among::OnRank) {
        return Apart::ByRank;
    }
    Apart::BySquare
}

/// What is told of the square that the man leaves; the flag says whether the move takes a man.
pub(crate) fn origin_told(position: &Position, m: &Move, kind: Kind, takes: bool) -> Apart
    requires kind { kind ≡ kind_moved position.now m.now }
    requires takes { takes ≡ is_capture position.now m.now }
    ensures { result ≡ origin_told kind position.now m.now }
{
    if kind == Kind::Pawn {
        return if takes { Apart::ByFile } else { Apart::Nothing };
    }
    told_apart(position, m, kind)
}

/// The file that is told.
pub(crate) fn file_by(apart: Apart, from: Square) -> Option<u8>
    ensures { result ≡ file_by apart from }
{
    match apart {
        Apart::ByFile | Apart::BySquare => Some(from.file()),
        _ => None,
    }
}

/// The rank that is told.
pub(crate) fn rank_by(apart: Apart, from: Square) -> Option<u8>
    ensures { result ≡ rank_by apart from }
{
    match apart {
        Apart::ByRank | Apart::BySquare => Some(from.rank()),
        _ => None,
    }
}
