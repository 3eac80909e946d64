//! Categories of positions by value, distance and clock.

ghost use Rattle.std.specs.Prelude.{◌≡◌};
ghost use Rattle.judge_core.specs.Categories.{category_by, category_by_distance, category_name, category_of, is_within_rule, losing, winning};

use crate::probe_result::ProbeResult;
use crate::root_move::BoardState;

/// What a position comes to for the side to move, where the fifty-move rule counts from the clock that it has (the categories of the
/// tablebase API of Lichess).
#[derive(Clone, Copy)]
pub enum Category {
    /// A win within the fifty-move rule.
    Win,
    /// A win, unless its distance is rounded and the fifty-move rule comes first.
    MaybeWin,
    /// A win that the fifty-move rule makes a draw.
    CursedWin,
    /// Neither side wins.
    Draw,
    /// A loss that the fifty-move rule makes a draw.
    BlessedLoss,
    /// A loss, unless its distance is rounded and the fifty-move rule comes first.
    MaybeLoss,
    /// A loss within the fifty-move rule.
    Loss,
    /// The value or the distance is missing.
    Unknown,
}

/// Whether so many plies from the last capture or pawn move to the next are within the fifty-move rule.
fn is_within_rule(plies: u32, precise: bool) -> bool
    ensures { result ≡ is_within_rule plies precise }
{
    plies <= 99 || plies == 100 && precise
}

impl Category {
    /// Of a win.
    fn winning(plies: u32, precise: bool) -> Category
        ensures { result ≡ winning plies precise }
    {
        if is_within_rule(plies, precise) {
            Category::Win
        } else if plies == 100 {
            Category::MaybeWin
        } else {
            Category::CursedWin
        }
    }

    /// Of a loss.
    fn losing(plies: u32, precise: bool) -> Category
        ensures { result ≡ losing plies precise }
    {
        if is_within_rule(plies, precise) {
            Category::Loss
        } else if plies == 100 {
            Category::MaybeLoss
        } else {
            Category::BlessedLoss
        }
    }

    /// By a distance behind so many plies on the clock.
    fn by_distance(clock: u16, dtz: i32, precise: bool) -> Category
        ensures { result ≡ category_by_distance clock dtz precise }
    {
        let plies = dtz.unsigned_abs() + u32::from(clock);
        if 0 < dtz {
            Category::winning(plies, precise)
        } else if dtz < 0 {
            Category::losing(plies, precise)
        } else {
            Category::Draw
        }
    }

    /// By both probes behind so many plies on the clock.
    fn by_probes(clock: u16, probed: &ProbeResult, precise: bool) -> Category
        ensures { result ≡ category_by clock probed.now.wdl probed.now.dtz precise }
    {
        match (probed.wdl, probed.dtz) {
            (Ok(_), Ok(dtz)) => Category::by_distance(clock, dtz, precise),
            (Ok(_), Err(_)) | (Err(_), _) => Category::Unknown,
        }
    }

    /// The category of a position that stands so for its side to move, with so many plies on its clock and these values, the
    /// distance precise (`Set::is_precise`) or not.
    ///
    /// A win whose distance and clock make at most 99 plies together is a win, one of 100 only where the distance is precise, and
    /// else perhaps one. Beyond that it is cursed. Likewise of a loss. A side that is mated has lost, and one in stalemate has a
    /// draw.
    pub fn of(state: BoardState, clock: u16, probed: &ProbeResult, precise: bool) -> Category
        ensures { result ≡ category_of state clock probed.now precise }
    {
        match state {
            BoardState::Checkmate => Category::Loss,
            BoardState::Stalemate => Category::Draw,
            BoardState::Open | BoardState::Check => Category::by_probes(clock, probed, precise),
        }
    }

    /// Its name in that API.
    pub fn name(self) -> &'static str
        ensures { result.now ≡ category_name self }
    {
        match self {
            Category::Win => "win",
            Category::MaybeWin => "maybe-win",
            Category::CursedWin => "cursed-win",
            Category::Draw => "draw",
            Category::BlessedLoss => "blessed-loss",
            Category::MaybeLoss => "maybe-loss",
            Category::Loss => "loss",
            Category::Unknown => "unknown",
        }
    }
}
