//! Two arbiters over keepers of any one type.

ghost use Rattle.theorems.specs.Nets.{ArbitersAreWorlds, ArbitersTellTheTruth};

use arbiter_core::Keeper;

/// Two arbiters of one game over any keepers, each step of theirs as the contracts of `open` and `deliver` have it, come to what a
/// schedule comes to: so each law of `relay_world` is about what they keep and send. The premises are in the steps: a datagram that is a
/// message of the game was sent before, and an opening finds what was kept or, after a put that failed, what was to be kept.
pub fn arbiters_are_worlds<K: Keeper>(_keeper: &K)
    ensures { ArbitersAreWorlds K.facts }
{}

/// What two such arbiters tell while they run is true: the record of each is the first moves of the game, with the first verdict
/// exactly at its ply.
pub fn arbiters_tell_the_truth<K: Keeper>(_keeper: &K)
    ensures { ArbitersTellTheTruth K.facts }
{}
