//! What a source sends, and what it tells.

ghost use Rattle.theorems.specs.Sources.{SendsTheLog, SourcesGetOn, SourcesTellTheTruth};

use timeline::System;

/// Each datagram that a run of `send` passes on spells a message of the log with which the worlds of its moves begin.
pub fn sends_the_log()
    ensures { SendsTheLog }
{}

/// What `send` tells of a game is so, where the datagrams of the game that came were sent by the two.
pub fn sources_tell_the_truth()
    ensures { SourcesTellTheTruth }
{}

/// A run of `send` ends as its game does, where all that came of the game was sent by the two, and before its end a report of the whole game came
/// of both: with the first verdict of the game, or open where it has none. No arbiter counts as silent then, and nothing disagrees. Else it
/// ends by what no arbiter does: its port fails, or the next line of its input does.
pub fn sources_get_on<S: System>(_system: &S)
    ensures { SourcesGetOn (S.outside _system.now).lines }
{}
