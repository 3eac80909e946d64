//! Why a text is not the text of one legal move.

ghost use Rattle.std.specs.Prelude.{◌≡◌};
ghost use Rattle.san_text.specs.San.{san_fault_name};

use std::fmt;

/// Why a text is not the text of one legal move, in the order in which faults are reported.
#[derive(Clone, Copy, PartialEq, Eq, Debug)]
pub enum SanFault {
    /// The text has no form of the notation.
    BadText,
    /// No legal move agrees with what the text tells.
    NoMove,
    /// Two legal moves agree with what the text tells.
    Ambiguous,
}

impl SanFault {
    /// The name of the fault, for printing.
    pub fn name(self) -> &'static str
        ensures { result.now ≡ san_fault_name self }
    {
        match self {
            SanFault::BadText => "BadText",
            SanFault::NoMove => "NoMove",
            SanFault::Ambiguous => "Ambiguous",
        }
    }
}

impl fmt::Display for SanFault {
    ghost use Rattle.std.specs.Prelude.{Some};
    ghost use Rattle.san_text.specs.San.{san_fault_name};

    ghost output = { λ fault. Some (san_fault_name fault) };

    fn fmt<W: fmt::Write>(&self, f: &mut fmt::Formatter<W>) -> fmt::Result {
        f.write_str(self.name())
    }
}
