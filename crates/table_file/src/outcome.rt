//! Outcomes of a game, and how far a DTZ table's values reach for each.

ghost use Rattle.std.specs.Prelude.{◌≡◌, ◌≤◌};
ghost use Rattle.table_file.specs.Distances.{counts_moves, value_in_plies};

use crate::reading::has_bit;

/// What the game is worth to the side to move where it is no draw.
#[derive(Clone, Copy, Debug, PartialEq, Eq)]
pub enum Outcome {
    /// A win within the fifty-move rule.
    Win,
    /// A win that the fifty-move rule makes a draw.
    CursedWin,
    /// A loss that the fifty-move rule makes a draw.
    BlessedLoss,
    /// A loss within the fifty-move rule.
    Loss,
}

/// Whether the values of an outcome count moves of one side, and not plies (Syzygy table format, flags of DTZ tables).
pub(crate) fn counts_moves(flags: u8, outcome: Outcome) -> bool
    ensures { result ≡ counts_moves flags outcome }
{
    match outcome {
        Outcome::Win => !has_bit(4, flags),
        Outcome::CursedWin | Outcome::BlessedLoss => true,
        Outcome::Loss => !has_bit(8, flags),
    }
}

/// The plies of a value that counts moves of one side or plies.
pub(crate) fn plies(moves: bool, value: u16) -> u32
    ensures is { result ≡ value_in_plies moves value }
    ensures most { result ≤ 131070 }
{
    let value = value as u32;
    if moves { 2 * value } else { value }
}
