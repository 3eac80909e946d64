//! Why a game isn't read.

ghost use Rattle.std.specs.Prelude.{◌≡◌};

use fen_text::FenFault;
use san_text::SanFault;

/// Why a game isn't read.
#[derive(Clone, Copy, PartialEq, Eq, Debug)]
pub enum Cause {
    /// A tag pair isn't well formed, or isn't closed on its line.
    BadTag,
    /// The value of a FEN tag is no position.
    BadFen(FenFault),
    /// The text of a move isn't that of one legal move.
    BadMove(SanFault),
    /// There are more than 4,096 moves.
    TooManyMoves,
    /// What stands there is no token, or has no place there: a bracket that closes no variation, or a tag pair behind movetext that
    /// doesn't begin its line.
    StrayToken,
    /// The game ends within a variation.
    OpenVariation,
    /// A comment isn't closed before the end of the input.
    EndlessComment,
    /// A line has more than 65,535 bytes.
    LongLine,
}

/// A game that isn't read, and the first fault of it.
#[derive(Clone, Copy, PartialEq, Eq, Debug)]
pub struct GameFault {
    /// The number of the line at which the game begins, from 1.
    pub line: u64,
    /// The number of the line at fault, from 1. Of a comment it is that of its brace; of a variation that isn't closed it is that of the game's last
    /// token.
    pub at: u64,
    /// How many plies were read before the fault, 0 to 4,096.
    pub plies: u16,
    /// Why it isn't read.
    pub cause: Cause,
}
