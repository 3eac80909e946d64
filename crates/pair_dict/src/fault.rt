//! What can be wrong with a dictionary or a block.

ghost use Rattle.std.specs.Prelude.{◌≡◌};
ghost use Rattle.pair_dict.specs.declared.fault.DictFault.TheVariants.{OutOfMemory};

use std::alloc::AllocError;

/// Why bytes don't begin with a dictionary: the first fault from the left.
#[derive(Clone, Copy, Debug, PartialEq, Eq)]
pub enum DictFault {
    /// The bytes end before the two lengths, the lowest symbols, the count, or the symbols with their fill byte do.
    Truncated,
    /// The code lengths aren't `1 <= least <= greatest <= 32`, or a lowest symbol is greater than the one before.
    BadCode,
    /// The number of symbols isn't 1 to 4095, or a symbol has a reference past the last symbol, leads back to itself,
    /// or stands for more than 256 values.
    BadSymbol,
    /// Memory was refused. The bytes have a complete layout then, but their symbols may have no values.
    OutOfMemory,
}

impl From<AllocError> for DictFault {
    ghost from_gives = { λ _ e. e ≡ OutOfMemory };

    fn from(_e: AllocError) -> DictFault {
        DictFault::OutOfMemory
    }
}

/// The block's codes give no value at that offset.
#[derive(Clone, Copy, Debug, PartialEq, Eq)]
pub struct Damaged;
