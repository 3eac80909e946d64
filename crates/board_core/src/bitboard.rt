//! Sets of squares.

ghost use Rattle.std.specs.Prelude.{◌≡◌, ◌≢◌, ◌<◌, ◌↔◌, ◌-◌, ℕ, IsTrue, bit_and, bit_or, count_ones};
ghost use Rattle.std.specs.Int.{bit_at};

use crate::square::Square;
use std::marker::Model;
use std::ops::{BitAnd, BitOr};

/// A set of squares; contracts see a number whose bit 0 says whether a1 is in the set, bit 1 b1, and
/// so on up to bit 63 for h8.
#[derive(Clone, Copy, PartialEq, Eq, Debug)]
pub struct Bitboard {
    bits: u64,
}

impl Model for Bitboard {
    ghost use Rattle.std.specs.Prelude.{ℕ};

    ghost Value = { ℕ };

    ghost view = { λ b. b.bits };

    ghost inverse = { λ n. record { bits = n } };
}

impl Bitboard {
    /// No square.
    pub fn empty() -> Bitboard
        ensures { result ≡ 0 }
    {
        Bitboard { bits: 0 }
    }

    /// The squares whose bits are set: a1 by bit 0, b1 by bit 1, up to h8 by bit 63.
    pub fn from_bits(bits: u64) -> Bitboard
        ensures { result ≡ bits }
    {
        Bitboard { bits }
    }

    /// Whether the set has no square.
    pub fn is_empty(self) -> bool
        ensures { IsTrue result ↔ (self ≡ 0) }
    {
        self.bits == 0
    }

    /// Whether the square is in the set.
    pub fn has(self, square: Square) -> bool
        ensures { IsTrue result ↔ (bit_at self square ≡ 1) }
    {
        self.bits >> square.number() & 1 == 1
    }

    /// The set with this square.
    pub fn with(self, square: Square) -> Bitboard
        ensures here { bit_at result square ≡ 1 }
        ensures kept { (s : ℕ) → bit_at self s ≡ 1 → bit_at result s ≡ 1 }
        ensures others { (s : ℕ) → s ≢ square → bit_at result s ≡ bit_at self s }
    {
        Bitboard {
            bits: self.bits | 1u64 << square.number(),
        }
    }

    /// The set without this square.
    pub fn without(self, square: Square) -> Bitboard
        ensures gone { bit_at result square ≡ 0 }
        ensures kept { (s : ℕ) → s < 64 → s ≢ square → bit_at result s ≡ bit_at self s }
        ensures only { (s : ℕ) → bit_at result s ≡ 1 → bit_at self s ≡ 1 }
    {
        Bitboard {
            bits: self.bits & !(1u64 << square.number()),
        }
    }

    /// The squares that are not in the other set.
    pub(crate) fn except(self, other: Bitboard) -> Bitboard
        ensures { (s : ℕ) → bit_at result s ≡ bit_at self s - bit_at other s }
    {
        Bitboard {
            bits: self.bits & !other.bits,
        }
    }

    /// The square of the lowest number in a set that isn't empty.
    pub fn lowest(self) -> Square
        requires { 0 < self }
        ensures here { bit_at self result ≡ 1 }
        ensures first { (s : ℕ) → s < result → bit_at self s ≡ 0 }
    {
        Square::at(self.bits.trailing_zeros() as u8)
    }

    /// How many squares are in the set, 0 to 64.
    pub fn len(self) -> u32
        ensures { result ≡ count_ones self }
    {
        self.bits.count_ones()
    }
}

impl BitOr for Bitboard {
    type Output = Bitboard;

    ghost bitor_gives = { λ a b both. both ≡ bit_or a b };

    /// The squares of either set.
    fn bitor(self, other: Bitboard) -> Bitboard {
        Bitboard {
            bits: self.bits | other.bits,
        }
    }
}

impl BitAnd for Bitboard {
    type Output = Bitboard;

    ghost bitand_gives = { λ a b both. both ≡ bit_and a b };

    /// The squares of both sets.
    fn bitand(self, other: Bitboard) -> Bitboard {
        Bitboard {
            bits: self.bits & other.bits,
        }
    }
}
