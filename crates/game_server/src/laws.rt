//! Laws over the definitions alone.

ghost use Rattle.game_server.specs.Orders.{AcksAreEarned};

use game_folder::Games;
use timeline::System;

/// Each acknowledgement of a run comes after a record was kept or found that has its moves, and each verdict after one with it.
pub fn acks_are_earned<S: System, G: Games<S>>(_system: &S)
    ensures { AcksAreEarned (S.outside _system.now) (G.facts _system.now) }
{}
