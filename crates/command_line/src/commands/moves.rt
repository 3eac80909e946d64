//! The words of `moves`: the legal moves of a position.

ghost use Rattle.std.specs.Prelude.{IfOk, IfErr};
ghost use Rattle.clap.specs.Words.{first_value, found_of};
ghost use Rattle.command_line.specs.Commands.Moves.{HasValues, faults};
ghost use Rattle.command_line.specs.Misuses.{IsFirstMisuse, fault_words};

use crate::commands::options::{FEN, SAN};
use crate::commands::{Group, Summary, Value};
use crate::words::numbers::is_set;
use crate::words::usage::ValueFault;
use crate::words::values::word_in;
use clap::ArgMatches;

/// The legal moves of a position.
#[derive(Clone, Copy)]
pub struct Moves<'a> {
    /// Whether they are written in standard algebraic notation too.
    pub san: bool,
    /// The position's FEN text.
    pub fen: &'a str,
}

/// The values of `moves`.
pub(crate) const VALUES: [Value; 2] = [
    Value {
        about: "adds to each move its text in algebraic notation",
        ..SAN
    },
    FEN,
];

/// What help says of `moves`.
pub(crate) const SUMMARY: Summary = Summary {
    group: Group::Positions,
    about: "the legal moves of a position, one a line",
    example: "adjudicate moves \"8/8/8/4k3/8/8/8/KN6 w - - 0 1\"",
    output: "",
};

impl<'a> Moves<'a> {
    /// The task with these values, or the first thing that is wrong with them.
    pub(crate) fn of(matches: &ArgMatches<'a>) -> Result<Moves<'a>, ValueFault<'a>>
        ensures ok { IfOk result (HasValues (first_value (found_of matches.now))) }
        ensures err { IfErr result (λ fault. IsFirstMisuse (first_value (found_of matches.now)) faults (fault_words fault)) }
    {
        Ok(Moves {
            san: is_set(matches.get_str("san")),
            fen: word_in(matches, "FEN")?,
        })
    }
}
