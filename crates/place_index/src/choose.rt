ghost use Rattle.std.specs.Prelude.{◌≡◌, ◌≤◌};
ghost use Rattle.place_index.specs.Choose.{choose, PartsAreListed, PascalsRule};

use crate::tables::CHOICES;

/// How many subsets of `elements` elements a set of `things` things has (a binomial coefficient).
pub(crate) fn choices(things: u64, elements: u64) -> u64
    requires things { things ≤ 64 }
    requires elements { elements ≤ 5 }
    ensures { result ≡ choose things elements }
{
    CHOICES[elements as usize * 65 + things as usize] as u64
}

/// The subsets that are counted are all subsets, each once.
pub fn parts_are_listed()
    ensures { PartsAreListed }
{}

/// Subsets with a given thing and subsets without it.
pub fn pascals_rule()
    ensures { PascalsRule }
{}
