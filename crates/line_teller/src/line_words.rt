//! A line that is laid out before it is written at once.

ghost use Rattle.std.specs.Prelude.{◌≡◌, ◌≤◌, ◌+◌, ◌++◌, [], IfOk, OnErr, length};
ghost use Rattle.hex.specs.Hex.{encode_lower};
ghost use Rattle.move_msg.specs.TextLines.{ended};
ghost use Rattle.timeline.specs.Events.{IsWritten};
ghost use Rattle.timeline.specs.Outsides.{AddsSome};

use arrayvec::ArrayVec;
use itoa::{Buffer, Integer};
use move_msg::Stamp;
use std::alloc::{AllocError, Global};
use std::marker::Model;
use system_io::WriteFault;
use timeline::{Stream, System};

/// The words of a line, at most 255 bytes, without its line feed; contracts see these bytes. They take no memory, and a caller shows
/// that they fit, so laying out a line never fails.
#[derive(Drop)]
pub struct LineWords {
    bytes: ArrayVec<u8, 256>,
}

impl Model for LineWords {
    ghost use Rattle.std.specs.Prelude.{ℕ, List, ◌≤◌, length};

    ghost Value = { List ℕ };

    ghost view = { λ l. l.bytes.items };

    ghost invariant = { λ l. length l.bytes.items ≤ 255 };
}

impl LineWords {
    /// No words.
    pub fn new() -> LineWords
        ensures { result ≡ [] }
    {
        LineWords {
            bytes: ArrayVec::new(),
        }
    }

    /// These words.
    pub fn of(words: &str) -> LineWords
        requires { length words.now ≤ 255 }
        ensures is { result ≡ words.now }
        ensures size { length result ≡ length words.now }
    {
        let mut line = LineWords::new();
        line.add(words);
        line
    }

    /// Adds bytes.
    pub fn add_bytes(&mut self, more: &[u8])
        requires { length self.old + length more.now ≤ 255 }
        ensures is { self.new ≡ self.old ++ more.now }
        ensures size { length self.new ≡ length self.old + length more.now }
    {
        let _fits = self.bytes.try_extend_from_slice(more);
    }

    /// Adds words.
    pub fn add(&mut self, more: &str)
        requires { length self.old + length more.now ≤ 255 }
        ensures is { self.new ≡ self.old ++ more.now }
        ensures size { length self.new ≡ length self.old + length more.now }
    {
        self.add_bytes(more.as_bytes());
    }

    /// Adds a number in decimal digits, at most 40 bytes.
    pub fn add_number<I: Integer>(&mut self, number: I)
        requires { length self.old ≤ 215 }
        ensures is { self.new ≡ self.old ++ I.text number }
        ensures size { length self.new ≤ length self.old + 40 }
    {
        let mut digits = Buffer::new();
        self.add(digits.format(number));
    }

    /// Adds a stamp in lower-case hexadecimal digits, 32 bytes.
    pub fn add_stamp(&mut self, stamp: Stamp)
        requires { length self.old ≤ 223 }
        ensures is { self.new ≡ self.old ++ encode_lower stamp }
        ensures size { length self.new ≡ length self.old + 32 }
    {
        let mut digits = [0; 32];
        hex::encode_to_slice(stamp.as_bytes(), &mut digits).unwrap();
        self.add_bytes(&digits);
    }

    /// Adds words and a number behind them.
    pub fn add_counted<I: Integer>(&mut self, words: &str, number: I)
        requires { length self.old + length words.now ≤ 215 }
        ensures is { self.new ≡ self.old ++ words.now ++ I.text number }
        ensures size { length self.new ≤ length self.old + length words.now + 40 }
    {
        self.add(words);
        self.add_number(number);
    }

    /// The line with its line feed. The error comes where memory is refused.
    pub fn into_text(self, alloc: Global) -> Result<Vec<u8>, AllocError>
        ensures { IfOk result (λ text. text.items ≡ ended self) }
    {
        let LineWords { bytes } = self;
        let mut text = bytes;
        text.push(b'\n');
        Vec::from_slice(alloc, text.as_slice())
    }

    /// Writes the line at once to a stream of a system, with its line feed. An error comes only where a write may be refused; a front
    /// of the line is written then.
    pub fn write<S: System>(
        self,
        system: &S,
        timeline: &mut S::Timeline,
        to: Stream,
    ) -> Result<(), WriteFault>
        ensures made { AddsSome (S.outside system.now) timeline.old timeline.new (IsWritten to (ended self) result) }
        ensures cause { OnErr result ((S.outside system.now).output timeline.old to).refuses }
    {
        let LineWords { bytes } = self;
        let mut text = bytes;
        text.push(b'\n');
        system.write(timeline, to, text.as_slice())
    }
}
