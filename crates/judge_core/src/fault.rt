//! Why there is no answer.

ghost use Rattle.std.specs.Prelude.{◌≡◌, Some};
ghost use Rattle.std.specs.Option.{option_or};
ghost use Rattle.judge_core.specs.Answers.{probe_fault, probe_fault_name};
ghost use Rattle.judge_core.specs.Asked.{first_fault, no_faults, with_fault};

use place_index::Material;

/// Why the tables give no value of a position.
#[derive(Clone, Copy, PartialEq, Eq, Debug)]
pub enum ValueFault {
    /// The set has no table for these men.
    NotCovered(Material),
    /// The table for these men has no value there.
    Damaged(Material),
}

impl ValueFault {
    /// The fault of a probe that finds this one.
    pub fn of_probe(&self) -> ProbeFault
        ensures { result ≡ probe_fault self.now }
    {
        match self {
            ValueFault::NotCovered(material) => ProbeFault::NotCovered(*material),
            ValueFault::Damaged(material) => ProbeFault::Damaged(*material),
        }
    }
}

/// The first table that is missing and the first that is damaged, of those read so far.
#[derive(Clone, Copy)]
pub(crate) struct Faults {
    /// The first that is missing.
    pub not_covered: Option<Material>,
    /// The first that is damaged.
    pub damaged: Option<Material>,
}

/// The first of two materials.
fn either(first: Option<Material>, other: Material) -> Option<Material>
    ensures { result ≡ option_or first (Some other) }
{
    match first {
        Some(material) => Some(material),
        None => Some(other),
    }
}

impl Faults {
    /// Before the first one.
    pub fn new() -> Faults
        ensures { result ≡ no_faults }
    {
        Faults {
            not_covered: None,
            damaged: None,
        }
    }

    /// With one fault more.
    pub fn with(&self, fault: &ValueFault) -> Faults
        ensures { result ≡ with_fault self.now fault.now }
    {
        match fault {
            ValueFault::NotCovered(material) => Faults {
                not_covered: either(self.not_covered, *material),
                damaged: self.damaged,
            },
            ValueFault::Damaged(material) => Faults {
                not_covered: self.not_covered,
                damaged: either(self.damaged, *material),
            },
        }
    }

    /// The first one, a missing table before a damaged one.
    pub fn first(&self) -> Option<ValueFault>
        ensures { result ≡ first_fault self.now }
    {
        if let Some(material) = self.not_covered {
            return Some(ValueFault::NotCovered(material));
        }
        match self.damaged {
            Some(material) => Some(ValueFault::Damaged(material)),
            None => None,
        }
    }
}

/// Why a probe has no answer: the first that applies, but for `OutOfMemory`.
#[derive(Clone, Copy, PartialEq, Eq, Debug)]
pub enum ProbeFault {
    /// There is a right to castle, or there are more than five men.
    OutOfScope,
    /// A table that is needed isn't in the set: the first one in the order of moves, the position's own table last.
    NotCovered(Material),
    /// A table has no value where one is needed, or contradicts itself: the first one in that order. Among values that
    /// are needed together a missing table goes first.
    Damaged(Material),
    /// Memory for a list of moves was refused. A WDL probe never returns it.
    OutOfMemory,
}

impl ProbeFault {
    /// The name of the fault, as it is printed.
    pub fn name(&self) -> &'static str
        ensures { result.now ≡ probe_fault_name self.now }
    {
        match self {
            ProbeFault::OutOfScope => "OutOfScope",
            ProbeFault::NotCovered(_) => "NotCovered",
            ProbeFault::Damaged(_) => "Damaged",
            ProbeFault::OutOfMemory => "OutOfMemory",
        }
    }
}

/// Why a table isn't added to a set.
#[derive(Clone, Copy, PartialEq, Eq, Debug)]
pub enum SetFault {
    /// The set has a table of this kind for these men.
    Duplicate,
    /// Memory for the table was refused. `Set::add` takes none, and never returns it.
    OutOfMemory,
}
