//! Decoded blocks.

ghost use Rattle.std.specs.Prelude.{◌≡◌, ◌<◌, ◌≤◌, ◌*◌, ℕ, All, Some, length, IfOk, IfSome};
ghost use Rattle.table_file.specs.Marked.{AreMarksIn};
ghost use Rattle.table_file.specs.Tables.{PartAt};
ghost use Rattle.judge_core.specs.Blocks.{HasNoBlocks, IsMarked, keyed_part};
ghost use Rattle.judge_core.specs.Tables.{Tables};

use lru::LruCache;
use std::alloc::{AllocError, Global};
use std::num::NonZeroUsize;
use table_file::{Bookmarks, no_bookmarks};

/// Names a block of a part of a table.
#[derive(Clone, Copy, PartialEq, Eq, Hash)]
pub(crate) struct BlockKey {
    /// The table's slot.
    pub(crate) slot: u16,
    /// The number of the part's side, 0 for the first one.
    pub(crate) side: u8,
    /// The number of the part's file of the leading pawn.
    pub(crate) file: u8,
    /// The block's number.
    pub(crate) block: u32,
}

/// A requested block, and how often it was requested again since it was new or decoded, with no other block of its place
/// between.
#[derive(Clone, Copy)]
pub(crate) struct Asked {
    key: BlockKey,
    times: u8,
}

impl BlockKey {
    /// A number of the key, whose low bits find the place where it is remembered.
    fn mixed(&self) -> usize {
        self.slot as usize + self.block as usize
    }

    /// A number of the key that differs for the parts of a table too.
    fn spread(&self) -> usize {
        101 * self.slot as usize
            + 29 * self.file as usize
            + 13 * self.side as usize
            + self.block as usize
    }
}

/// How often a block was requested.
#[derive(Clone, Copy, PartialEq, Eq)]
pub(crate) enum RequestFrequency {
    /// For the first time, or another block of its place was requested since.
    First,
    /// Again.
    Again,
    /// Again, often enough to be worth decoding.
    Often,
}

/// How many requested keys are remembered, a power of two. They take less than a kilobyte, and so leave room beside them in
/// the fastest cache.
const REMEMBERED: usize = 64;

/// A block is decoded after this many repeats. Decoding takes as long as some hundred single values.
const OFTEN: u8 = 128;

/// How many long blocks have bookmarks, a power of two. They take 272 kilobytes.
const MARKED: usize = 2048;

/// A block of a table, and its bookmarks.
#[derive(Clone, Copy)]
pub(crate) struct MarkedBlock {
    pub(crate) key: BlockKey,
    pub(crate) marks: Bookmarks,
}

impl MarkedBlock {
    /// A block without bookmarks.
    fn new(key: BlockKey) -> MarkedBlock
        ensures key { result.key ≡ key }
        ensures marks { (p : PartAt) (block : ℕ) → AreMarksIn p block result.marks }
    {
        MarkedBlock {
            key,
            marks: no_bookmarks(),
        }
    }

    /// Turns to a block: bookmarks of another one are taken away.
    pub(crate) fn turn_to(&mut self, key: BlockKey)
        ensures key { self.new.key ≡ key }
        ensures marks { (p : PartAt) (block : ℕ) → (self.old.key ≡ key → AreMarksIn p block self.old.marks) → AreMarksIn p block self.new.marks }
    {
        if self.key != key {
            *self = MarkedBlock::new(key);
        }
    }
}

/// Decoded blocks, recently requested keys, and bookmarks of long blocks, the last two each at a place computed from the key.
#[derive(Drop)]
pub(crate) struct Blocks {
    pub(crate) kept: LruCache<BlockKey, Vec<u16>>,
    pub(crate) asked: Vec<Asked>,
    /// It is empty until the first long block is read.
    pub(crate) marked: Vec<MarkedBlock>,
    /// What looks ahead came to. It is never read, and makes the looks something that is done.
    ahead: u32,
}

impl Blocks {
    /// An empty cache for at most `most` blocks.
    pub(crate) fn new(alloc: Global, most: usize) -> Result<Blocks, AllocError>
        requires some { 1 ≤ most }
        requires few { most ≤ 4096 }
        ensures { IfOk result (λ blocks. HasNoBlocks most blocks) }
    {
        let key = BlockKey {
            slot: 0,
            side: 0,
            file: 0,
            block: 0,
        };
        let asked = vec![in alloc; Asked { key, times: 0 }; REMEMBERED]?;
        let Some(most) = NonZeroUsize::new(most) else {
            unreachable!()
        };
        let kept = LruCache::sparse(alloc, most)?;
        Ok(Blocks {
            kept,
            asked,
            marked: Vec::new(alloc),
            ahead: 0,
        })
    }

    /// Whether a block requested so often may be kept.
    pub(crate) fn may_keep(&self, asking: RequestFrequency) -> bool {
        asking != RequestFrequency::First && !self.kept.is_empty()
    }

    /// The number of blocks kept.
    pub(crate) fn len(&self) -> usize
        ensures { result ≤ self.now.kept.cap }
    {
        self.kept.len()
    }

    /// Takes what looks ahead came to.
    pub(crate) fn note(&mut self, sum: u32)
        ensures kept { self.new.kept ≡ self.old.kept }
        ensures asked { self.new.asked ≡ self.old.asked }
        ensures marked { self.new.marked ≡ self.old.marked }
    {
        self.ahead = self.ahead.wrapping_add(sum);
    }

    /// Where a key is remembered. The number of places is a power of two.
    fn place_of(&self, key: BlockKey) -> usize
        requires { 1 ≤ length self.now.asked.items }
        ensures { result < length self.now.asked.items }
    {
        key.mixed() & (self.asked.len() - 1)
    }

    /// Where a long block has its bookmarks; none where memory for the list is refused. It is taken at the first call, and filled
    /// with this block.
    pub(crate) fn marked_place(&mut self, alloc: Global, key: BlockKey) -> Option<usize>
        ensures place { IfSome result (λ place. place < length self.new.marked.items) }
        ensures marked { (tables : Tables) (part : PartAt) → keyed_part tables key ≡ Some part → All (IsMarked tables) self.old.marked.items → All (IsMarked tables) self.new.marked.items }
        ensures kept { self.new.kept ≡ self.old.kept }
        ensures asked { self.new.asked ≡ self.old.asked }
    {
        if self.marked.is_empty() {
            let Ok(marked) = vec![in alloc; MarkedBlock::new(key); MARKED] else {
                return None;
            };
            self.marked = marked;
        }
        Some(key.spread() & (self.marked.len() - 1))
    }

    /// How one more request counts for a block that was requested so often, and how often it was requested then.
    fn counted(times: u8) -> (RequestFrequency, u8) {
        if times >= OFTEN {
            return (RequestFrequency::Often, 0);
        }
        (RequestFrequency::Again, times.saturating_add(1))
    }

    /// Records a request for a block, and returns how often it was requested.
    pub(crate) fn ask(&mut self, key: BlockKey) -> RequestFrequency
        requires { 1 ≤ length self.old.asked.items }
        ensures kept { self.new.kept ≡ self.old.kept }
        ensures places { length self.new.asked.items ≡ length self.old.asked.items }
        ensures marked { self.new.marked ≡ self.old.marked }
    {
        let place = self.place_of(key);
        let last = self.asked[place];
        if last.key != key {
            self.asked[place] = Asked { key, times: 0 };
            return RequestFrequency::First;
        }
        let (asking, times) = Blocks::counted(last.times);
        self.asked[place] = Asked { key, times };
        asking
    }
}
