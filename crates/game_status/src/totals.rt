//! How many games there are of each kind.

ghost use Rattle.std.specs.Prelude.{◌≡◌, [], cond};
ghost use Rattle.game_status.specs.Statuses.{status_mark};
ghost use Rattle.game_status.specs.Totals.{count_of, is_behind, is_behind_in, is_open_mark, moves_in, totals_of};
ghost use Rattle.game_status.specs.Inside.Totalling.{AddsLook, CanAddOneMore};

use crate::comparing::{Compared, mark_of, mark_of_two};
use crate::status_lines::Look;
use crate::telling::{Mark, Sums};
use move_msg::Record;

/// How many games there are of each kind, and how many moves are kept.
#[derive(Clone, Copy)]
pub struct Totals {
    /// The sums, as the lines of `status` end with them.
    pub sums: Sums,
    /// Those without a verdict and without a fault, whose records don't differ.
    pub open_games: u64,
    /// Those of which one folder's record is a front of the other's.
    pub behind: u64,
    /// The moves of the first folder's records; 2^64 - 1 where there are more.
    pub moves: u64,
}

/// How a game is counted of which this is found.
pub(crate) fn status_mark(look: &Look) -> Mark
    ensures { result ≡ status_mark look.now }
{
    match look {
        Look::One(side) => mark_of(&side.kept),
        Look::Both(side, _, compared) => mark_of_two(&side.kept, *compared),
        Look::AtFault(_) | Look::OtherAtFault(_) => Mark::AtFault,
    }
}

/// Whether a game is counted as open.
fn is_open(mark: Mark) -> bool
    ensures { result ≡ is_open_mark mark }
{
    match mark {
        Mark::Open => true,
        Mark::Ruled | Mark::AtFault | Mark::Differs => false,
    }
}

/// Whether one of two records is a front of the other.
fn is_behind(compared: Compared) -> bool
    ensures { result ≡ is_behind compared }
{
    match compared {
        Compared::Behind(_) => true,
        Compared::Agree | Compared::Unopened | Compared::Differ(_) => false,
    }
}

/// Whether one of a game's two records is a front of the other.
fn is_behind_in(look: &Look) -> bool
    ensures { result ≡ is_behind_in look.now }
{
    match look {
        Look::Both(_, _, compared) => is_behind(*compared),
        Look::One(_) | Look::AtFault(_) | Look::OtherAtFault(_) => false,
    }
}

/// How many moves are kept.
fn count_of(kept: &Option<Record>) -> u64
    ensures { result ≡ count_of kept.now }
{
    match kept {
        Some(record) => record.moves.as_slice().len() as u64,
        None => 0,
    }
}

/// How many moves the first folder's record has.
fn moves_in(look: &Look) -> u64
    ensures { result ≡ moves_in look.now }
{
    match look {
        Look::One(side) => count_of(&side.kept),
        Look::Both(side, _, _) => count_of(&side.kept),
        Look::AtFault(_) | Look::OtherAtFault(_) => 0,
    }
}

/// One where it is so, and none where it isn't.
fn one_if(is_so: bool) -> u64
    ensures { result ≡ cond is_so 1 0 }
{
    if is_so { 1 } else { 0 }
}

impl Totals {
    /// No game.
    pub fn none() -> Totals
        ensures { result ≡ totals_of [] }
    {
        Totals {
            sums: Sums::none(),
            open_games: 0,
            behind: 0,
            moves: 0,
        }
    }

    /// With one game more, of which this is found.
    pub fn with(self, look: &Look) -> Totals
        requires { CanAddOneMore self }
        ensures { AddsLook self look.now result }
    {
        let mark = status_mark(look);
        Totals {
            sums: self.sums.with(mark),
            open_games: self.open_games + one_if(is_open(mark)),
            behind: self.behind + one_if(is_behind_in(look)),
            moves: self.moves.saturating_add(moves_in(look)),
        }
    }
}
