//! A law over the definitions of specs/: the function does nothing.

ghost use Rattle.game_teller.specs.Agreements.{FollowedAsGame};

use crate::judging::PlyJudge;
use move_notation::laws::one_move;
use timeline::System;

/// The last line of a game that is followed is that of the outcome of the whole game, unless it is cut short: by this judge, and over
/// the input of this system.
pub fn followed_as_game<S: System, J: PlyJudge<S>>(_judge: &J, _system: &S)
    ensures { FollowedAsGame (J.facts _judge.now) (S.outside _system.now).input }
{
    one_move();
}
