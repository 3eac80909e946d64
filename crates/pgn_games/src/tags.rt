//! The tags of a game that are kept (PGN standard, sections 8.1.1 and 9.7.2).

ghost use Rattle.std.specs.Prelude.{◌≡◌, IfOk, false};
ghost use Rattle.pgn_games.specs.Tags.{tag_by_name, tag_value, no_tags, unescaped, with_tag};
ghost use Rattle.pgn_games.specs.Shown.{texts_of};

use std::alloc::{AllocError, Global};

/// A tag that is kept.
#[derive(Clone, Copy)]
pub enum TagName {
    /// The name of the event.
    Event,
    /// White's name.
    White,
    /// Black's name.
    Black,
    /// The round.
    Round,
    /// The result, as the tag has it.
    Result,
    /// The position at which the game begins, as FEN text.
    Fen,
}

/// The values of the tags that are kept, without escapes. Of a value its first 255 bytes are kept; none where the game has no such tag.
/// Where it has one twice, the last one counts. The bytes need not be text.
#[derive(Drop)]
pub struct Tags {
    pub event: Option<Vec<u8>>,
    pub white: Option<Vec<u8>>,
    pub black: Option<Vec<u8>>,
    pub round: Option<Vec<u8>>,
    pub result: Option<Vec<u8>>,
    pub fen: Option<Vec<u8>>,
}

/// The tag of a name, where it is kept.
pub(crate) fn name_of(name: &[u8]) -> Option<TagName>
    ensures { result ≡ tag_by_name name.now }
{
    if name == b"Event".as_slice() {
        return Some(TagName::Event);
    }
    if name == b"White".as_slice() {
        return Some(TagName::White);
    }
    if name == b"Black".as_slice() {
        return Some(TagName::Black);
    }
    if name == b"Round".as_slice() {
        return Some(TagName::Round);
    }
    if name == b"Result".as_slice() {
        return Some(TagName::Result);
    }
    (name == b"FEN".as_slice()).then_some(TagName::Fen)
}

/// How many bytes of a tag's value are kept, 255: the longest line that the standard writes.
const MOST_VALUE_BYTES: usize = 255;

/// What a string of a tag says.
fn unescaped(alloc: Global, quoted: &[u8]) -> Result<Vec<u8>, AllocError>
    ensures { IfOk result (λ value. value.items ≡ unescaped false quoted.now) }
{
    let mut value = Vec::new(alloc);
    let mut escaped = false;
    for b in quoted {
        if !escaped && *b == b'\\' {
            escaped = true;
        } else {
            value.push(*b)?;
            escaped = false;
        }
    }
    Ok(value)
}

/// What a string of a tag says, of which 255 bytes are kept.
pub(crate) fn value_of(alloc: Global, quoted: &[u8]) -> Result<Vec<u8>, AllocError>
    ensures { IfOk result (λ value. value.items ≡ tag_value quoted.now) }
{
    let mut value = unescaped(alloc, quoted)?;
    value.truncate(MOST_VALUE_BYTES);
    Ok(value)
}

impl Tags {
    /// No tag.
    pub(crate) fn new() -> Tags
        ensures { texts_of result ≡ no_tags }
    {
        Tags {
            event: None,
            white: None,
            black: None,
            round: None,
            result: None,
            fen: None,
        }
    }

    /// Sets the value of a tag.
    pub(crate) fn set(&mut self, name: TagName, value: Vec<u8>)
        ensures { texts_of self.new ≡ with_tag name value.items (texts_of self.old) }
    {
        match name {
            TagName::Event => self.event = Some(value),
            TagName::White => self.white = Some(value),
            TagName::Black => self.black = Some(value),
            TagName::Round => self.round = Some(value),
            TagName::Result => self.result = Some(value),
            TagName::Fen => self.fen = Some(value),
        }
    }
}
