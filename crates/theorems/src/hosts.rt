//! A game at two servers: what both do of it is what two hosts do.

ghost use Rattle.theorems.specs.Interleavings.{AcksAreFound, HostsAreWorlds, HostsTellTheTruth};
ghost use Rattle.theorems.specs.Progress.{HostsGetOn};
ghost use Rattle.theorems.specs.Served.{OfTwoPlaces};

use game_folder::Games;
use timeline::System;

/// Two hosts that have one game, each over places of its own, come to what a schedule comes to, in whichever order their acts come
/// and however often each of them is stopped and run again. So each law of `relay_world` is about what they keep and send.
///
/// The premises stand in `specs/Interleavings.antt`: which hosts these are, what is outside, and that the acts of each run go on from one
/// another, as those of a server do (`served_are_hosted`).
pub fn hosts_are_worlds<S: System, R: System, G: Games<S>, H: Games<R>>(_system: &S, _other: &R)
    ensures { OfTwoPlaces (G.facts _system.now) (H.facts _other.now) (λ a b. HostsAreWorlds a b) }
{}

/// As many moves as a host ever acknowledged are found there, then and later, over all of its runs: the game's first ones.
pub fn acks_are_found<S: System, R: System, G: Games<S>, H: Games<R>>(_system: &S, _other: &R)
    ensures { OfTwoPlaces (G.facts _system.now) (H.facts _other.now) (λ a b. AcksAreFound a b) }
{}

/// What two such hosts tell of the game is true: while it is open, the record of its arbiter, of which each line tells, is the game's
/// first moves, with the first verdict exactly at its ply.
pub fn hosts_tell_the_truth<S: System, R: System, G: Games<S>, H: Games<R>>(_system: &S, _other: &R)
    ensures { OfTwoPlaces (G.facts _system.now) (H.facts _other.now) (λ a b. HostsTellTheTruth a b) }
{}

/// Two such hosts get on with the game. As many of its first moves as a host took in order are found there, or as many as the game reaches. Where it
/// took them to the first verdict, the first illegal move or the end, that is the record of the whole game; and if the moves are legal, it has sent a
/// report of it, for which a source waits (`sources_get_on`). Where both did, one record is found.
///
/// A move is taken where its datagram came and was answered, and neither memory was refused for this nor did a put fail: so it is, over a net that
/// delivers in the end, of one that is sent often enough. Anything may have come between (`specs/Progress.antt`).
pub fn hosts_get_on<S: System, R: System, G: Games<S>, H: Games<R>>(_system: &S, _other: &R)
    ensures { OfTwoPlaces (G.facts _system.now) (H.facts _other.now) (λ a b. HostsGetOn a b) }
{}
