//! What is told of a datagram, as a line.

ghost use Rattle.std.specs.Prelude.{◌≡◌, ◌<◌, ◌≤◌, ◌+◌, ◌++◌, ℕ, IfSome, List, None, Some, codes, length};
ghost use Rattle.arrayvec.specs.ArrayVec.{array_vec_len};
ghost use Rattle.hex.specs.Hex.{encode_lower};
ghost use Rattle.move_msg.specs.TextLines.{ended};
ghost use Rattle.arbiter_server.specs.LineLogs.{common, line_kind, place_in};
ghost use Rattle.arbiter_server.specs.Told.{line_words, stamped, unopened_words};

use crate::datagram_report::DatagramReport;
use crate::fault::OpenGameError;
use arbiter_core::DeliverFault;
use arrayvec::ArrayVec;
use itoa::Buffer;
use move_msg::{MessageFault, Stamp};

/// What is told of a datagram, or of what ends a run; its text has no line feed.
#[derive(Clone, Copy)]
pub enum Line {
    /// What the arbiter of the game with this stamp tells.
    Answered(Stamp, DatagramReport),
    /// Why the game with this stamp isn't open.
    Unopened(Stamp, OpenGameError),
    /// Why the bytes are no message.
    Unread(MessageFault),
    /// None can be received.
    PortLost,
    /// What games keep can't be committed, since the store can't be written,
    StoreLost,
    /// or since memory was refused to note it.
    MemoryLost,
}

/// The bytes of a line, with its line feed. They take no memory, so that no line is lost for want of it.
pub(crate) type LineText = ArrayVec<u8, 128>;

/// Puts bytes behind a text.
fn add(text: &mut LineText, more: &[u8])
    requires { array_vec_len text.old + length more.now ≤ 128 }
    ensures { text.new.items ≡ text.old.items ++ more.now }
{
    let _fits = text.try_extend_from_slice(more);
}

/// One text behind another.
fn joined(first: &[u8], second: &[u8]) -> LineText
    requires { length first.now + length second.now ≤ 128 }
    ensures { result.items ≡ first.now ++ second.now }
{
    let mut text = ArrayVec::new();
    add(&mut text, first);
    add(&mut text, second);
    text
}

/// A stamp in lower-case hexadecimal digits, and a space.
fn marked(stamp: Stamp) -> LineText
    ensures is { result.items ≡ encode_lower stamp ++ codes " " }
    ensures size { array_vec_len result ≡ 33 }
{
    let mut digits = [0; 32];
    hex::encode_to_slice(stamp.0, &mut digits).unwrap();
    joined(&digits, b" ")
}

/// A line of the game with this stamp.
fn stamped(stamp: Stamp, words: &[u8]) -> LineText
    requires { length words.now ≤ 64 }
    ensures { (line : List ℕ) → words.now ≡ ended line → result.items ≡ ended (stamped stamp line) }
{
    joined(&marked(stamp), words)
}

/// The words for a game file that can't be read, with their line feed.
fn bad_game(number: u32) -> LineText
    ensures is { result.items ≡ ended (unopened_words (OpenGameError.BadGame number)) }
    ensures size { array_vec_len result ≤ 64 }
{
    let mut digits = Buffer::new();
    let words = joined(b"refused game ", digits.format(number).as_bytes());
    joined(&words, b"\n")
}

/// The line for a game that isn't open.
fn unopened_line(stamp: Stamp, why: OpenGameError) -> LineText
    ensures { result.items ≡ ended (stamped stamp (unopened_words why)) }
{
    match why {
        OpenGameError::NotOpen => stamped(stamp, b"refused NotOpen\n"),
        OpenGameError::NoGame => stamped(stamp, b"refused NoGame\n"),
        OpenGameError::OtherGame => stamped(stamp, b"refused OtherGame\n"),
        OpenGameError::BadGame(number) => stamped(stamp, &bad_game(number)),
        OpenGameError::Keeper => stamped(stamp, b"refused keeper\n"),
        OpenGameError::OutOfMemory => stamped(stamp, b"refused memory\n"),
    }
}

/// The line for what an arbiter tells.
fn heard_line(stamp: Stamp, heard: DatagramReport) -> LineText
    ensures { result.items ≡ ended (line_words (Line.Answered stamp heard)) }
{
    stamped(stamp, heard.line().as_str().as_bytes())
}

/// The line for bytes that are no message.
fn unread_line(fault: MessageFault) -> LineText
    ensures { result.items ≡ ended (line_words (Line.Unread fault)) }
{
    let heard = DatagramReport::Refused(DeliverFault::NotAMessage(fault));
    joined(b"- ", heard.line().as_str().as_bytes())
}

/// The number of the kind of a line for bytes that are no message.
#[tactic(auto, unfolding(crate::specs::LineLogs::line_kind))]
fn unread_kind(fault: MessageFault) -> usize
    ensures is { line_kind (ended (line_words (Line.Unread fault))) ≡ Some result }
    ensures few { result < 8 }
{
    match fault {
        MessageFault::NoTag => 3,
        MessageFault::BadLength => 4,
        MessageFault::BadHead => 5,
        MessageFault::BadKind => 6,
        MessageFault::BadField => 7,
    }
}

/// The number of the kind of a line for a game that isn't open, if it is of one.
fn unopened_kind(stamp: Stamp, why: OpenGameError) -> Option<usize>
    ensures long { length stamp ≡ 16 }
    ensures is { place_in 0 common (ended (unopened_words why)) ≡ result }
    ensures few { IfSome result (λ kind. kind < 8) }
{
    // Called for its contract: a stamp has 16 bytes.
    let _bytes = stamp.as_bytes();
    match why {
        OpenGameError::NoGame => Some(0),
        OpenGameError::NotOpen => Some(1),
        OpenGameError::OutOfMemory => Some(2),
        OpenGameError::OtherGame | OpenGameError::BadGame(_) | OpenGameError::Keeper => None,
    }
}

/// What the arbiter of an open game tells is of no kind.
fn open_kind(stamp: Stamp) -> Option<usize>
    ensures long { length stamp ≡ 16 }
    ensures none { result ≡ None }
{
    // Called for its contract: a stamp has 16 bytes.
    let _bytes = stamp.as_bytes();
    None
}

impl Line {
    /// The number of the kind that strangers cause, if the line is of one.
    pub(crate) fn kind(&self) -> Option<usize>
        ensures is { line_kind (ended (line_words self.now)) ≡ result }
        ensures few { IfSome result (λ kind. kind < 8) }
    {
        match *self {
            Line::Answered(stamp, _heard) => open_kind(stamp),
            Line::Unopened(stamp, why) => unopened_kind(stamp, why),
            Line::Unread(fault) => Some(unread_kind(fault)),
            Line::PortLost | Line::StoreLost | Line::MemoryLost => None,
        }
    }

    /// The line.
    pub(crate) fn text(self) -> LineText
        ensures { result.items ≡ ended (line_words self) }
    {
        match self {
            Line::Answered(stamp, heard) => heard_line(stamp, heard),
            Line::Unopened(stamp, why) => unopened_line(stamp, why),
            Line::Unread(fault) => unread_line(fault),
            Line::PortLost => joined(DatagramReport::PortLost.line().as_str().as_bytes(), b""),
            Line::StoreLost => joined(b"refused store\n", b""),
            Line::MemoryLost => joined(b"refused memory\n", b""),
        }
    }
}
