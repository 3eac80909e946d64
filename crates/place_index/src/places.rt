//! The places of the groups in the index, and the factors that follow from them.

ghost use Rattle.std.specs.Prelude.{◌≡◌, ◌≤◌, ◌<◌, not, length, map};
ghost use Rattle.std.specs.Option.{ForSome};
ghost use Rattle.place_index.specs.Shape.{places_given, is_free, places, factor_at, greatest_size};

use crate::sizes::Sizes;
use arrayvec::ArrayVec;

/// Whether a nibble gives this place.
fn is_given(order: u8, second: Option<u8>, place: u8) -> bool
    ensures { result ≡ not (is_free (places_given order second) place) }
{
    match second {
        Some(other) => order == place || other == place,
        None => order == place,
    }
}

/// The places that the nibbles give.
fn given_places(order: u8, second: Option<u8>) -> ArrayVec<u8, 5>
    ensures { result.items ≡ places_given order second }
{
    let mut places = ArrayVec::<u8, 5>::new();
    places.push(order);
    if let Some(place) = second {
        places.push(place);
    }
    places
}

/// The place of each group: those that the nibbles give, then the free ones in sequence.
pub(crate) fn places(groups: usize, order: u8, second: Option<u8>) -> ArrayVec<u8, 5>
    requires groups { groups ≤ 5 }
    requires order { order < groups }
    requires second { ForSome second (λ s. (s < groups) × (s ≡ order → ⊥)) }
    ensures is { result.items ≡ places (places_given order second) groups }
    ensures len { length result.items ≡ groups }
{
    let mut places = given_places(order, second);
    for place in 0..groups as u8 {
        if is_given(order, second, place) {
            continue;
        }
        places.push(place);
    }
    places
}

/// The product of the sizes of the groups at places before this one.
fn factor(places: &[u8], sizes: &Sizes, place: u8) -> u64
    requires { length places.now ≡ length sizes.now }
    ensures is { result ≡ factor_at places.now sizes.now place }
    ensures fits { result ≤ greatest_size }
{
    let all = sizes.as_slice();
    let mut factor: u64 = 1;
    for (i, size) in all.iter().enumerate() {
        if places[i] < place {
            factor *= *size;
        }
    }
    factor
}

/// The factor of each group.
pub(crate) fn factors(places: &[u8], sizes: &Sizes) -> ArrayVec<u32, 5>
    requires { length places.now ≡ length sizes.now }
    ensures { result.items ≡ map (factor_at places.now sizes.now) places.now }
{
    // The condition that there are at most five serves the proof alone.
    let _sizes = sizes.as_slice();
    let mut factors = ArrayVec::<u32, 5>::new();
    for place in places {
        factors.push(factor(places, sizes, *place) as u32);
    }
    factors
}
