//! The step counter: how many block lengths are read to find values.

ghost use Rattle.std.specs.Prelude.{◌≡◌, ◌+◌, ◌*◌, ◌/◌, ◌<◌, ◌≤◌, length, slice_index};
ghost use Rattle.table_file.specs.Sparse.{sizes_of};

use crate::reading::word_at;
use std::marker::{Brand, Model};
use std::sync::ledger::{Blank, Book, Ledger, Share};

/// How many block lengths were read to find values. It takes no bytes at run time, and reading a length alone changes
/// it.
#[derive(Drop)]
pub struct Steps<L: Ledger> {
    book: Book<L>,
    share: Share<L>,
}

impl<L: Ledger> Model for Steps<L> {
    ghost use Rattle.std.specs.Prelude.{ℕ, ◌<◌};

    ghost Value = { ℕ };

    ghost view = { λ s. s.book.total };

    ghost invariant = { λ s. 0 < s.share.parts };
}

impl<L: Ledger> Steps<L> {
    /// A count of 0, over a new ledger. A caller that counts nothing passes `Blank::new(1)` to a function of its own
    /// that takes any ledger.
    pub fn new(blank: Blank) -> Steps<L>
        requires name { blank.name ≡ L.name }
        requires parts { blank.parts ≡ L.parts }
        requires some { 0 < blank.parts }
        ensures { result ≡ 0 }
    {
        let (book, share) = blank.open::<L>();
        Steps { book, share }
    }

    /// Counts one length more.
    fn tick(&mut self)
        ensures { self.new ≡ self.old + 1 }
    {
        self.book.add(&mut self.share, 1);
    }

    /// The length of a block, which is one less than the number of its values. The lengths are all those of a side and
    /// a file, padding entries included. It counts as one step.
    pub(crate) fn length(&mut self, lengths: &[u8], block: usize) -> u16
        requires { block < length lengths.now / 2 }
        ensures is { slice_index (sizes_of lengths.now) block ≡ result + 1 }
        ensures count { self.new ≡ self.old + 1 }
    {
        self.tick();
        word_at(lengths, 2 * block)
    }
}

/// How many values a block holds, with a step counter of its own.
fn size_by<L: Ledger>(lengths: &[u8], block: usize, blank: Blank) -> usize
    requires block { block < length lengths.now / 2 }
    requires name { blank.name ≡ L.name }
    requires parts { blank.parts ≡ L.parts }
    requires some { 0 < blank.parts }
    ensures size { result ≡ slice_index (sizes_of lengths.now) block }
    ensures short { result ≤ 65536 }
{
    let mut steps = Steps::<L>::new(blank);
    steps.length(lengths, block) as usize + 1
}

/// How many values a block holds.
pub(crate) fn size_at(lengths: &[u8], block: usize) -> usize
    requires { block < length lengths.now / 2 }
    ensures size { result ≡ slice_index (sizes_of lengths.now) block }
    ensures short { result ≤ 65536 }
{
    size_by::<Brand>(lengths, block, Blank::new(1))
}
