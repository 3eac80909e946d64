//! Answers as values, and their text.

ghost use Rattle.std.specs.Prelude.{◌≡◌};
ghost use Rattle.answer_parts.specs.Reply.{status_if};

pub(crate) mod json_faults;
pub(crate) mod line_parts;
pub(crate) mod lines;
pub(crate) mod refusals;

use crate::answers::lines::Line;
use crate::answers::refusals::Refusal;
use fen_text::FenFault;

/// An answer before it is written.
#[derive(Drop)]
pub enum Answer {
    /// Why it is refused.
    Refused(Refusal),
    /// One line, and whether all is done.
    One(Line, bool),
    /// Lines, and whether all is done.
    Lines(Vec<Line>, bool),
    /// A text, and whether all is done.
    Text(Vec<u8>, bool),
    /// Why a text is no position, as one object of JSON.
    JsonFault(FenFault),
}

/// The status: 0 where all is done, 1 where something is refused.
pub fn status_if(done: bool) -> u8
    ensures { result ≡ status_if done }
{
    if done { 0 } else { 1 }
}
