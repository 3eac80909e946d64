//! Bookmarks: places in a block that were passed.

ghost use Rattle.std.specs.Prelude.{◌≡◌, ◌+◌, ◌-◌, ◌*◌, ◌^◌, ◌<◌, ◌≤◌, ℕ, List};
ghost use Rattle.pair_dict.specs.Codes.{Pairing};
ghost use Rattle.pair_dict.specs.Marks.{IsMark, AreMarks};
ghost use Rattle.pair_dict.specs.Inside.Runs.{IsBefore};

use crate::places::Place;

/// The most bookmarks of a block.
pub(crate) const MOST_MARKS: usize = 15;

/// A bit of a block, and how many values come before it.
#[derive(Clone, Copy)]
pub(crate) struct Mark {
    at: u32,
    values: u32,
}

/// Up to 15 places in a block of a dictionary that were passed while a value was sought. They belong to that block and
/// dictionary alone.
#[derive(Clone, Copy)]
pub struct Bookmarks {
    filled: u8,
    marks: [Mark; MOST_MARKS],
}

impl Bookmarks {
    /// No bookmarks, which are right for any block.
    pub fn none() -> Bookmarks
        ensures { (d : Pairing) (block : List ℕ) → AreMarks d block result }
    {
        Bookmarks {
            filled: 0,
            marks: [Mark { at: 0, values: 0 }; MOST_MARKS],
        }
    }

    /// Takes all bookmarks away. What is left is right for any block.
    pub fn clear(&mut self)
        ensures { (d : Pairing) (block : List ℕ) → AreMarks d block self.new }
    {
        self.filled = 0;
    }

    /// How many bookmarks there are.
    pub(crate) fn filled(&self) -> usize
        ensures { result < 256 }
    {
        self.filled as usize
    }

    /// The last bookmark before a value, or the front of the block.
    pub(crate) fn before(&self, offset: u32) -> Place
        ensures is { (d : Pairing) (block : List ℕ) → AreMarks d block self.now → IsBefore d block offset result }
        ensures near { result.at < 2 ^ 32 }
        ensures left { result.left ≤ offset }
    {
        let mut place = Place {
            at: 0,
            left: offset as usize,
        };
        for i in 0..MOST_MARKS {
            if i >= self.filled as usize || self.marks[i].values > offset {
                return place;
            }
            let mark = self.marks[i];
            place = Place {
                at: mark.at as usize,
                left: (offset - mark.values) as usize,
            };
        }
        place
    }

    /// Adds a bookmark, if there is room.
    pub(crate) fn add(&mut self, at: u32, values: u32)
        ensures { (d : Pairing) (block : List ℕ) → AreMarks d block self.old → IsMark d block at values → AreMarks d block self.new }
    {
        let place = self.filled as usize;
        if place < MOST_MARKS {
            self.marks[place] = Mark { at, values };
            self.filled += 1;
        }
    }
}
