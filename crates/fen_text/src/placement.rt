//! The first field: the men of the board.

ghost use Rattle.std.specs.Prelude.{◌≡◌, List, ◌≤◌, ◌<◌, ◌+◌, ◌*◌, ◌++◌, IfSome, IfNone, true, false, None, Some};
ghost use Rattle.std.specs.Bool.{OnTrue, OnFalse};
ghost use Rattle.std.specs.List.{flat_map};
ghost use Rattle.fen_text.specs.Placement.{man_of, cells_of, SpellsPlacement};
ghost use Rattle.fen_text.specs.Inside.Scan.{step, fills, IsFilled};

use crate::cuts::cut_first;
use board_core::{Kind, Men, Piece, Side, Square};

/// The man that a letter stands for.
#[tactic(auto, unfolding(crate::specs::Placement::man_of))]
fn man_of(byte: u8) -> Option<Piece>
    ensures { result ≡ man_of byte }
{
    let (side, kind) = match byte {
        b'P' => (Side::White, Kind::Pawn),
        b'N' => (Side::White, Kind::Knight),
        b'B' => (Side::White, Kind::Bishop),
        b'R' => (Side::White, Kind::Rook),
        b'Q' => (Side::White, Kind::Queen),
        b'K' => (Side::White, Kind::King),
        b'p' => (Side::Black, Kind::Pawn),
        b'n' => (Side::Black, Kind::Knight),
        b'b' => (Side::Black, Kind::Bishop),
        b'r' => (Side::Black, Kind::Rook),
        b'q' => (Side::Black, Kind::Queen),
        b'k' => (Side::Black, Kind::King),
        _ => return None,
    };
    Some(Piece { side, kind })
}

/// Where the reading of a rank stands.
#[derive(Clone, Copy)]
struct Filled {
    /// The next square.
    square: u8,
    /// How many squares of the rank are left.
    left: u8,
    /// Whether the byte before was a run.
    after_run: bool,
}

/// Puts what a byte stands for on the board, whose squares are empty from the next one to the end
/// of the rank.
fn take_byte(byte: u8, at: Filled, men: &mut Men) -> Option<Filled>
    requires { at.square + at.left ≤ 64 }
    ensures steps { IfSome result
        (λ next. step byte at.after_run at.left ≡ Some (next.after_run, next.left)) }
    ensures moves { IfSome result (λ next. next.square + next.left ≡ at.square + at.left) }
    ensures puts { IfSome result (λ next. (before tail : List _)
        → IsFilled men.old before at.square at.left tail
        → IsFilled men.new (before ++ cells_of byte) next.square next.left tail) }
    ensures none { IfNone result (step byte at.after_run at.left ≡ None) }
{
    if b'1' <= byte && byte <= b'8' {
        let run = byte - b'0';
        if at.after_run || at.left < run {
            return None;
        }
        Some(Filled {
            square: at.square + run,
            left: at.left - run,
            after_run: true,
        })
    } else {
        match man_of(byte) {
            None => None,
            Some(man) => {
                if at.left == 0 {
                    return None;
                }
                men.put(Square::at(at.square), Some(man));
                Some(Filled {
                    square: at.square + 1,
                    left: at.left - 1,
                    after_run: false,
                })
            }
        }
    }
}

/// Reads a rank onto the board, whose squares are empty there; false where the text is no rank.
fn read_rank(text: &[u8], rank: u8, men: &mut Men) -> bool
    requires { rank < 8 }
    ensures rank { OnTrue result (fills false 8 text.now ≡ true) }
    ensures puts { OnTrue result ((before tail : List _)
        → IsFilled men.old before (8 * rank) 8 tail
        → men.new ≡ (before ++ flat_map cells_of text.now) ++ tail) }
    ensures no { OnFalse result (fills false 8 text.now ≡ false) }
{
    let mut at = Filled {
        square: 8 * rank,
        left: 8,
        after_run: false,
    };
    for byte in text {
        match take_byte(*byte, at, men) {
            None => return false,
            Some(next) => at = next,
        }
    }
    at.left == 0
}

/// The men of the board, where the text places them: eight ranks from the eighth down to the first,
/// with a slash between.
pub(crate) fn read_placement(text: &[u8]) -> Option<Men>
    ensures some { IfSome result (λ men. SpellsPlacement text.now men) }
    ensures none { IfNone result ((men : List _) → SpellsPlacement text.now men → ⊥) }
{
    let mut men = Men::none();
    let mut rest = text;
    for above in 0..7 {
        let Some((rank_text, below)) = cut_first(rest, b'/') else {
            return None;
        };
        if !read_rank(rank_text, 7 - above, &mut men) {
            return None;
        }
        rest = below;
    }
    if !read_rank(rest, 0, &mut men) {
        return None;
    }
    Some(men)
}
