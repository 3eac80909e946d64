//! Laws that the definitions keep.

ghost use Rattle.pair_dict.specs.Beginnings.{ReadsWhatIsSpelled};
ghost use Rattle.pair_dict.specs.FirstFault.{FirstFaultIsTold};
ghost use Rattle.pair_dict.specs.Symbols.{ValuesAreComputed, ValuesAreTested, ValuesAreUnique};

/// The computed test of symbols says whether each has values, at most 256.
pub fn values_are_tested()
    ensures { ValuesAreTested }
{}

/// Values of a symbol, at most 256, are the computed ones.
pub fn values_are_computed()
    ensures { ValuesAreComputed }
{}

/// A symbol has one list of values at most.
pub fn values_are_unique()
    ensures { ValuesAreUnique }
{}

/// Reading gives a dictionary and a number of bytes exactly where the first so many bytes spell it.
pub fn reads_what_is_spelled()
    ensures { ReadsWhatIsSpelled }
{}

/// Reading reports the first fault from the left, each part being checked after the good parts before it. There is such
/// a fault only where reading reports it.
pub fn first_fault_is_told()
    ensures { FirstFaultIsTold }
{}
