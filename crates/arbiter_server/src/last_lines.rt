//! What a log of changes remembers: the last lines of games, and how many lines came of each kind that strangers cause.

ghost use Rattle.std.specs.Prelude.{◌≡◌, ◌<◌, ℕ, List, [], IfOk, cond, get_or, set};
ghost use Rattle.std.specs.Str.{bytes_eq};
ghost use Rattle.move_msg.specs.TextLines.{ended};
ghost use Rattle.arbiter_server.specs.LineLogs.{RemembersAll, digit_of, line_with_count, one_more_line, remembered_place};

use crate::line::LineText;
use arrayvec::ArrayVec;
use itoa::Buffer;
use std::alloc::{AllocError, Global};
use std::marker::Model;

/// How many places there are for last lines.
const PLACES: usize = 65536;

/// How many kinds of lines strangers cause.
const KINDS: usize = 8;

/// The bytes of a line that is written, with its count or without, and with its line feed.
pub type LoggedText = ArrayVec<u8, 160>;

/// Whether two texts are one.
fn is_same(a: &[u8], b: &[u8]) -> bool
    ensures { result ≡ bytes_eq a.now b.now }
{
    a == b
}

/// The value of a hexadecimal digit.
fn digit_of(digit: u8) -> usize
    ensures is { result ≡ digit_of digit }
    ensures few { result < 16 }
{
    if digit < 64 {
        usize::from(digit) % 16
    } else {
        (usize::from(digit) + 9) % 16
    }
}

/// The place for the last line of a game: the first four digits of its stamp.
pub(crate) fn place_of(text: &[u8]) -> usize
    ensures is { result ≡ remembered_place text.now }
    ensures few { result < 65536 }
{
    if text.len() < 4 {
        return 0;
    }
    ((digit_of(text[0]) * 16 + digit_of(text[1])) * 16 + digit_of(text[2])) * 16 + digit_of(text[3])
}

/// A text without its last byte.
fn without_end(text: &[u8]) -> &[u8]
    ensures { (line : List ℕ) → text.now ≡ ended line → result.now ≡ line }
{
    match text {
        [line @ .., _] => line,
        [] => text,
    }
}

/// A line with its count behind it.
pub(crate) fn counted(text: &LineText, count: u64) -> LoggedText
    ensures { (line : List ℕ) → text.now.items ≡ ended line → result.items ≡ ended (line_with_count line count) }
{
    let mut digits = Buffer::new();
    let mut all = ArrayVec::new();
    let _line = all.try_extend_from_slice(without_end(text.as_slice()));
    let _before = all.try_extend_from_slice(b" (");
    let _count = all.try_extend_from_slice(digits.format(count).as_bytes());
    let _after = all.try_extend_from_slice(b")\n");
    all
}

/// A line without a count.
pub(crate) fn logged(text: &LineText) -> LoggedText
    ensures { result.items ≡ text.now.items }
{
    let mut all = ArrayVec::new();
    let _fits = all.try_extend_from_slice(text.as_slice());
    all
}

/// A copy of a line.
fn copied(text: &LineText) -> LineText
    ensures { result.items ≡ text.now.items }
{
    let mut copy = ArrayVec::new();
    let _fits = copy.try_extend_from_slice(text.as_slice());
    copy
}

/// The last lines of games, one a place, and how many lines came of each kind that strangers cause.
#[derive(Drop)]
pub struct LastLines {
    counts: [u64; KINDS],
    places: Vec<LineText>,
}

impl Model for LastLines {
    ghost use Rattle.std.specs.Prelude.{◌≡◌, length, map};
    ghost use Rattle.arbiter_server.specs.Remembering.{Remembered};

    ghost Value = { Remembered };

    ghost view = { λ s. record { counts = s.counts; lasts = map (λ text. text.items) s.places.items } };

    ghost invariant = { λ s. length s.places.items ≡ 65536 };
}

impl LastLines {
    /// Nothing is remembered yet. The error comes where memory is refused.
    pub(crate) fn new(alloc: Global) -> Result<LastLines, AllocError>
        ensures { IfOk result (λ lines. RemembersAll lines []) }
    {
        let mut places = Vec::new(alloc);
        for _ in 0..PLACES {
            places.push(ArrayVec::new())?;
        }
        Ok(LastLines {
            counts: [0; KINDS],
            places,
        })
    }

    /// Counts a line of a kind; how many came now, 2^64 - 1 at most.
    pub(crate) fn count(&mut self, kind: usize) -> u64
        requires { kind < 8 }
        ensures count { result ≡ one_more_line (get_or self.old.counts kind 0) }
        ensures counts { self.new.counts ≡ set self.old.counts kind result }
        ensures lasts { self.new.lasts ≡ self.old.lasts }
    {
        let count = self.counts[kind].saturating_add(1);
        self.counts[kind] = count;
        count
    }

    /// Whether a line is the last of its place; it is the last then.
    pub(crate) fn repeats(&mut self, text: &LineText) -> bool
        ensures is { result ≡ bytes_eq (get_or self.old.lasts (remembered_place text.now.items) []) text.now.items }
        ensures lasts { self.new.lasts ≡ cond result self.old.lasts (set self.old.lasts (remembered_place text.now.items) text.now.items) }
        ensures counts { self.new.counts ≡ self.old.counts }
        ensures few { remembered_place text.now.items < 65536 }
    {
        let place = place_of(text.as_slice());
        if is_same(self.places[place].as_slice(), text.as_slice()) {
            return true;
        }
        self.places[place] = copied(text);
        false
    }
}
