//! Numbers of two bytes.

ghost use Rattle.std.specs.Prelude.{◌≡◌, ◌+◌, ◌*◌, ◌<◌, length, slice_index};
ghost use Rattle.pair_dict.specs.Reading.{words};

/// The number of two bytes from a place on, the low one first.
#[inline]
pub(crate) fn word_at(bytes: &[u8], place: usize) -> u16
    requires { place + 1 < length bytes.now }
    ensures { result ≡ slice_index bytes.now place + 256 * slice_index bytes.now (place + 1) }
{
    bytes[place] as u16 + 256 * bytes[place + 1] as u16
}

/// One of the numbers that stand in the bytes one after the other.
#[inline]
pub(crate) fn word_of(bytes: &[u8], i: usize) -> u16
    requires { i < length (words bytes.now) }
    ensures { result ≡ slice_index (words bytes.now) i }
{
    word_at(bytes, 2 * i)
}
