//! Distances to the next move that sets the halfmove clock to 0.

ghost use Rattle.std.specs.Prelude.{◌≡◌, ◌≤◌, IfOk};
ghost use Rattle.judge_core.specs.Distances.{plies, signed, is_won, zeroing, towards, distance_before, one_ply_more};

use crate::fault::ValueFault;
use table_file::Outcome;

/// How many plies the winner is from the next capture or pawn move, or from mate (Syzygy DTZ tables).
#[derive(Clone, Copy)]
pub(crate) enum Distance {
    /// Neither side wins.
    Draw,
    /// The side to move wins.
    Win(u32),
    /// The other side wins.
    Loss(u32),
}

impl Distance {
    /// The plies, whoever wins.
    pub fn plies(self) -> u32
        ensures { result ≡ plies self }
    {
        match self {
            Distance::Draw => 0,
            Distance::Win(plies) | Distance::Loss(plies) => plies,
        }
    }

    /// The plies as a number, above 0 where the side to move wins and below where it loses.
    pub fn signed(self) -> i32
        requires { plies self ≤ 1000000 }
        ensures { result ≡ signed self }
    {
        match self {
            Distance::Draw => 0,
            Distance::Win(plies) => plies as i32,
            Distance::Loss(plies) => -(plies as i32),
        }
    }

    /// One ply more, where the side that moved has after its move what it had before.
    fn one_more(self, won: bool) -> Option<u32>
        requires { plies self ≤ 1000000 }
        ensures { result ≡ one_ply_more won self }
    {
        match (won, self) {
            (true, Distance::Loss(plies)) | (false, Distance::Win(plies)) => Some(plies + 1),
            _ => None,
        }
    }
}

/// Whether the side to move wins, at least without the rule of fifty moves.
pub(crate) fn is_won(outcome: Outcome) -> bool
    ensures { result ≡ is_won outcome }
{
    match outcome {
        Outcome::Win | Outcome::CursedWin => true,
        Outcome::BlessedLoss | Outcome::Loss => false,
    }
}

/// The plies of a capture or a pawn move: one, and 100 more where the rule of fifty moves comes before the end.
pub(crate) fn zeroing(outcome: Outcome) -> u32
    ensures is { result ≡ zeroing outcome }
    ensures within { result ≤ 101 }
{
    match outcome {
        Outcome::Win | Outcome::Loss => 1,
        Outcome::CursedWin | Outcome::BlessedLoss => 101,
    }
}

/// This many plies for the side that wins.
pub(crate) fn towards(outcome: Outcome, number: u32) -> Distance
    ensures is { result ≡ towards outcome number }
    ensures same { plies result ≡ number }
{
    if is_won(outcome) {
        Distance::Win(number)
    } else {
        Distance::Loss(number)
    }
}

/// The distance before a move, from the distance after it.
pub(crate) fn distance_before(
    won: bool,
    reach: &Result<Distance, ValueFault>,
) -> Result<Option<u32>, ValueFault>
    requires { IfOk reach.now (λ d. plies d ≤ 1000000) }
    ensures { result ≡ distance_before won reach.now }
{
    match reach {
        Ok(distance) => Ok(distance.one_more(won)),
        Err(fault) => Err(*fault),
    }
}
