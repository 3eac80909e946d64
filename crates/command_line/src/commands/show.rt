//! The words of `show`: the messages of the input as lines.

use crate::commands::{Group, Summary};

/// What help says of `show`.
pub(crate) const SUMMARY: Summary = Summary {
    group: Group::Arbiters,
    about: "the messages on standard input, one a line",
    example: "adjudicate show < messages",
    output: "",
};

/// The messages of the input.
#[derive(Clone, Copy)]
pub struct Show;
