//! The words of `version`: the program's version.

use crate::commands::{Group, Summary};

/// What help says of `version`.
pub(crate) const SUMMARY: Summary = Summary {
    group: Group::Tables,
    about: "the version of this program",
    example: "adjudicate version",
    output: "",
};

/// The program's version.
#[derive(Clone, Copy)]
pub struct Version;
