//! Places in a block.

ghost use Rattle.std.specs.Prelude.{◌≡◌, ◌+◌, ◌-◌, ◌^◌, ◌<◌, ◌≤◌};

/// A bit of a block, and how many values from there on come before the one sought.
#[derive(Clone, Copy)]
pub(crate) struct Place {
    pub(crate) at: usize,
    pub(crate) left: usize,
}

impl Place {
    /// The place after this many values in this many bits.
    #[inline]
    pub(crate) fn after(self, values: usize, bits: u32) -> Place
        requires values { values ≤ self.left }
        requires fits { self.at + bits < 2 ^ 64 }
        ensures at { result.at ≡ self.at + bits }
        ensures left { result.left ≡ self.left - values }
    {
        Place {
            at: self.at + bits as usize,
            left: self.left - values,
        }
    }
}
