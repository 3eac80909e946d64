//! Why a table file can't be opened.

ghost use Rattle.std.specs.Prelude.{◌≡◌};
ghost use Rattle.table_file.specs.declared.fault.TableFault.TheVariants.{OutOfMemory};
ghost use Rattle.table_file.specs.Faults.{table_fault_name};

use std::alloc::{AllocError, AllocFailed};

/// The first fault of a table file: its name, its size, its magic number and its flags come first, and then all parts in
/// the file's order (Syzygy table format).
#[derive(Clone, Copy, Debug, PartialEq, Eq)]
pub enum TableFault {
    /// The name is none of the 290 names of table files.
    BadName,
    /// The length is below 80, or not 16 more than a multiple of 64.
    BadSize,
    /// The first four bytes aren't those of this kind of table.
    BadMagic,
    /// The flags byte disagrees with the name about pawns or, in a WDL file, about two sides.
    BadFlags,
    /// The pieces of a file and a side make no shape of the material.
    BadPieces,
    /// The order nibbles of a file and a side make no shape of the material.
    BadOrder,
    /// A part passes the end, which is 16 bytes before the file's.
    Truncated,
    /// A block exponent above 24, or a span exponent that isn't 1 to 31.
    BadExponent,
    /// The code lengths aren't `1 <= least <= greatest <= 32`, or a lowest symbol is greater than the one before.
    BadCode,
    /// The number of symbols isn't 1 to 4095, or a symbol has a reference past the last symbol, leads back to itself,
    /// or stands for more than 256 values.
    BadSymbol,
    /// A sparse entry names a block past the last one, or another value than that in the middle of its span.
    BadSparse,
    /// Memory was refused. Name, size, magic and flags are good then.
    OutOfMemory,
}

impl TableFault {
    /// The name of the fault, for printing.
    pub fn name(self) -> &'static str
        ensures { result.now ≡ table_fault_name self }
    {
        match self {
            TableFault::BadName => "BadName",
            TableFault::BadSize => "BadSize",
            TableFault::BadMagic => "BadMagic",
            TableFault::BadFlags => "BadFlags",
            TableFault::BadPieces => "BadPieces",
            TableFault::BadOrder => "BadOrder",
            TableFault::Truncated => "Truncated",
            TableFault::BadExponent => "BadExponent",
            TableFault::BadCode => "BadCode",
            TableFault::BadSymbol => "BadSymbol",
            TableFault::BadSparse => "BadSparse",
            TableFault::OutOfMemory => "OutOfMemory",
        }
    }
}

impl From<AllocError> for TableFault {
    ghost from_gives = { λ _ e. e ≡ OutOfMemory };

    fn from(_e: AllocError) -> TableFault {
        TableFault::OutOfMemory
    }
}

impl<T: Drop> From<AllocFailed<T>> for TableFault {
    ghost from_gives = { λ _ e. e ≡ OutOfMemory };

    fn from(_e: AllocFailed<T>) -> TableFault {
        TableFault::OutOfMemory
    }
}
