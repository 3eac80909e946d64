//! Lines that are written, and what is said where a line isn't answered.
//!
//! Inside: `line_words` (the lines of the crates above, which are laid out without memory and written at once), `told_lines` (why a line
//! was not answered).
//!
//! Definitions: `ToldLines` (`LineTold`; `AreRead`, `stops_by`, the lines of an input; `cut_words`, the lines that say why no more is
//! read; `HasFailed`, that a writer failed). The lines of an input are answered by `line_events`.
//!
//! - CLAIM: `LineWords::into_text`: a line that is laid out, with its line feed, as bytes of their own (the error has no cause).
//! - CLAIM: `LineWords::write`, clauses `made`, `cause`: a line that is laid out is written with its line feed to a stream of a system, by
//!   one write, or, only where a write may be refused at that moment, a front of it; nothing else happens outside, and laying it out
//!   never fails.
#![tactic(auto)]

mod line_words;
mod told_lines;

pub use line_words::LineWords;
pub use told_lines::TellFault;
