//! Symbols as they are kept for going down to one of their values.

ghost use Rattle.std.specs.Prelude.{◌≡◌, ◌<◌, IsTrue};
ghost use Rattle.pair_dict.specs.Inside.Nodes.{node_parts, HaveOneValue};
ghost use Rattle.pair_dict.specs.declared.nodes.Parts.TheVariants.{Equal, Pair};

/// What the values of a symbol are.
#[derive(Clone, Copy)]
pub(crate) enum Parts {
    /// All of them are this value.
    Equal(u16),
    /// Those of a left symbol and then those of a right one, and how many the left one has.
    Pair(u16, u16, u16),
}

/// In place of a right symbol: all values are equal. No symbol has this number.
const EQUAL: u32 = 4095;

/// What the values of a symbol are, in four bytes.
#[derive(Clone, Copy)]
pub(crate) struct Node {
    // From the low bits on: 12 of the left symbol or of the value, 12 of the right symbol or of `EQUAL`, and 8 of how many
    // values the left symbol has.
    pub(crate) packed: u32,
}

impl Node {
    /// The node of a symbol that isn't counted yet.
    pub(crate) fn none() -> Node {
        Node { packed: 0 }
    }

    /// The node of a symbol whose values are all equal to this one.
    pub(crate) fn equal(value: u16) -> Node
        requires { value < 4096 }
        ensures { node_parts result ≡ Equal value }
    {
        Node {
            packed: value as u32 + 4096 * EQUAL,
        }
    }

    /// The node of a left symbol with so many values and a right one.
    pub(crate) fn pair(left: u16, right: u16, skipped: u16) -> Node
        requires left { left < 4096 }
        requires right { right < 4095 }
        requires skipped { skipped < 256 }
        ensures { node_parts result ≡ Pair left right skipped }
    {
        Node {
            packed: left as u32 + 4096 * right as u32 + 16777216 * skipped as u32,
        }
    }

    /// Whether all values of this node's symbol and of another one's are equal.
    #[inline]
    pub(crate) fn is_equal_to(self, other: Node) -> bool
        ensures { IsTrue result → HaveOneValue self other }
    {
        self.packed == other.packed && self.packed / 4096 % 4096 == EQUAL
    }

    /// What the values are.
    #[inline]
    pub(crate) fn parts(self) -> Parts
        ensures { result ≡ node_parts self }
    {
        let left = (self.packed % 4096) as u16;
        let right = self.packed / 4096 % 4096;
        if right == EQUAL {
            Parts::Equal(left)
        } else {
            Parts::Pair(left, right as u16, (self.packed / 16777216) as u16)
        }
    }
}
