//! Positions as sets of squares, in the form that engines keep.

ghost use Rattle.std.specs.Prelude.{◌≡◌, Ok, Err, IfOk, IfErr};
ghost use Rattle.board_core.specs.declared.position.PositionFault.{PositionFault};
ghost use Rattle.board_core.specs.Position.{IsFirstFault, IsPosition};
ghost use Rattle.probe_api.specs.Boards.{sets_on, state_on, side_to_move, rights_on, square_or_none, shown};

use board_core::{Bitboard, Position, PositionFault, Rights, Sets, Side, Square, State};

/// A position as plain numbers: the squares of each side and of each kind, and what it has besides its men. Bit 0 is a1, bit 1 is
/// b1, and bit 63 is h8. Any numbers are allowed.
#[repr(C)]
#[derive(Clone, Copy)]
pub struct Board {
    /// White's men. A square that is in both sides' sets is white's.
    pub white: u64,
    /// Black's men.
    pub black: u64,
    /// The kings. A man is of the first kind whose set has his square: king, pawn, rook, queen, bishop, knight.
    pub kings: u64,
    /// The queens.
    pub queens: u64,
    /// The rooks.
    pub rooks: u64,
    /// The bishops.
    pub bishops: u64,
    /// The knights.
    pub knights: u64,
    /// The pawns.
    pub pawns: u64,
    /// Plies since the last capture or pawn move.
    pub halfmove: u16,
    /// The number of the move.
    pub fullmove: u16,
    /// 0 for white to move, another number for black.
    pub side: u8,
    /// Rights to castle: 1 white with the rook of h1, 2 with that of a1, 4 and 8 black.
    pub rights: u8,
    /// The square that a pawn passed by a double step in the move before; 64 and above for none.
    pub passed: u8,
}

fn sets_on(board: &Board) -> Sets
    ensures { result ≡ sets_on board.now }
{
    Sets {
        white: Bitboard::from_bits(board.white),
        black: Bitboard::from_bits(board.black),
        kings: Bitboard::from_bits(board.kings),
        queens: Bitboard::from_bits(board.queens),
        rooks: Bitboard::from_bits(board.rooks),
        bishops: Bitboard::from_bits(board.bishops),
        knights: Bitboard::from_bits(board.knights),
        pawns: Bitboard::from_bits(board.pawns),
    }
}

fn side_to_move(side: u8) -> Side
    ensures { result ≡ side_to_move side }
{
    if side == 0 { Side::White } else { Side::Black }
}

fn rights_on(rights: u8) -> Rights
    ensures { result ≡ rights_on rights }
{
    // Most boards have none, and are spared 12 instructions.
    if rights == 0 {
        return Rights {
            white_king: false,
            white_queen: false,
            black_king: false,
            black_queen: false,
        };
    }
    Rights {
        white_king: rights & 1 == 1,
        white_queen: rights / 2 & 1 == 1,
        black_king: rights / 4 & 1 == 1,
        black_queen: rights / 8 & 1 == 1,
    }
}

fn passed_on(passed: u8) -> Option<Square>
    ensures { result ≡ square_or_none passed }
{
    if passed < 64 {
        Some(Square::at(passed))
    } else {
        None
    }
}

fn state_on(board: &Board) -> State
    ensures { result ≡ state_on board.now }
{
    State {
        side: side_to_move(board.side),
        rights: rights_on(board.rights),
        en_passant: passed_on(board.passed),
        halfmove: board.halfmove,
        fullmove: board.fullmove,
    }
}

/// The position that the board shows; the first fault of what it shows otherwise.
pub(crate) fn position_on(board: &Board) -> Result<Position, PositionFault>
    ensures ok { IfOk result (λ p. (p ≡ shown board.now) × IsPosition (shown board.now)) }
    ensures err { IfErr result (λ fault. IsFirstFault (shown board.now) fault) }
    ensures only { IsPosition (shown board.now) → result ≡ Ok (shown board.now) }
    ensures only_fault { (fault : PositionFault) → IsFirstFault (shown board.now) fault → result ≡ Err fault }
{
    Position::from_sets(&sets_on(board), state_on(board))
}
