//! Why a text is not the FEN text of a position.

ghost use Rattle.std.specs.Prelude.{◌≡◌};
ghost use Rattle.fen_text.specs.Fen.{fen_fault_name};

use board_core::PositionFault;
use std::fmt;

/// Why a text is not the FEN text of a position, in the order in which faults are reported.
#[derive(Clone, Copy, PartialEq, Eq, Debug)]
pub enum FenFault {
    /// The text, cut at each space, has not exactly six pieces.
    FieldCount,
    /// The first field is no placement of men.
    BadPlacement,
    /// The second field is neither `w` nor `b`.
    BadSide,
    /// The third field is neither a non-empty part of `KQkq` in this order nor `-`.
    BadCastlingText,
    /// The fourth field is neither a square nor `-`.
    BadSquare,
    /// The fifth or the sixth field is no number from 0 to 9999 without needless zeros.
    BadNumber,
    /// Each field is in order, and what they say is no position.
    BadPosition(PositionFault),
}

impl FenFault {
    /// The name of the fault, for printing.
    pub fn name(&self) -> &'static str
        ensures { result.now ≡ fen_fault_name self.now }
    {
        match *self {
            FenFault::FieldCount => "FieldCount",
            FenFault::BadPlacement => "BadPlacement",
            FenFault::BadSide => "BadSide",
            FenFault::BadCastlingText => "BadCastlingText",
            FenFault::BadSquare => "BadSquare",
            FenFault::BadNumber => "BadNumber",
            FenFault::BadPosition(_) => "BadPosition",
        }
    }
}

impl From<PositionFault> for FenFault {
    ghost use Rattle.std.specs.Prelude.{◌≡◌};
    ghost use Rattle.fen_text.specs.declared.fault.FenFault.TheVariants.{BadPosition};

    ghost from_gives = { λ fault told. told ≡ BadPosition fault };

    fn from(fault: PositionFault) -> FenFault {
        FenFault::BadPosition(fault)
    }
}

impl fmt::Display for FenFault {
    ghost use Rattle.std.specs.Prelude.{Some};
    ghost use Rattle.fen_text.specs.Fen.{fen_fault_name};

    ghost output = { λ fault. Some (fen_fault_name fault) };

    fn fmt<W: fmt::Write>(&self, f: &mut fmt::Formatter<W>) -> fmt::Result {
        f.write_str(self.name())
    }
}
