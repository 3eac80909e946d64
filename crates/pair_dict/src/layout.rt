//! The parts of a dictionary in the order of its bytes.

ghost use Rattle.std.specs.Prelude.{◌≡◌, ◌+◌, ◌-◌, ◌*◌, ◌/◌, ◌%◌, ◌<◌, ◌≤◌, length, IfOk, true};
ghost use Rattle.pair_dict.specs.Reading.{Reads, layout_at, falls, words, lengths_at, lowest_at, count_at, symbols_at};

use crate::fault::DictFault;
use crate::two_bytes::word_of;

/// The greatest length of a code and the least.
#[tactic(auto, unfolding(crate::specs::Reading::lengths_at))]
fn lengths_of(bytes: &[u8]) -> Result<((u8, u8), &[u8]), DictFault>
    ensures is { Reads (λ x. ((x.0.0, x.0.1), x.1.now)) result (lengths_at bytes.now) }
    ensures sound { IfOk result (λ x. (1 ≤ x.0.1) × (x.0.1 ≤ x.0.0) × (x.0.0 ≤ 32)) }
    ensures rest { IfOk result (λ x. length x.1.now + 2 ≡ length bytes.now) }
{
    match bytes {
        [greatest, least, rest @ ..] => {
            if *least < 1 || *greatest < *least || *greatest > 32 {
                return Err(DictFault::BadCode);
            }
            Ok(((*greatest, *least), rest))
        }
        _ => Err(DictFault::Truncated),
    }
}

/// Whether none of the numbers of two bytes is greater than the one before.
fn is_falling(bytes: &[u8]) -> bool
    ensures { result ≡ falls (words bytes.now) }
{
    for i in 1..bytes.len() / 2 {
        if word_of(bytes, i - 1) < word_of(bytes, i) {
            return false;
        }
    }
    true
}

/// The lowest symbols of some lengths, two bytes each.
#[tactic(auto, unfolding(crate::specs::Reading::lowest_at))]
fn lowest_of(n: usize, bytes: &[u8]) -> Result<(&[u8], &[u8]), DictFault>
    requires { n ≤ 32 }
    ensures is { Reads (λ x. (words x.0.now, x.1.now)) result (lowest_at n bytes.now) }
    ensures falls { IfOk result (λ x. falls (words x.0.now) ≡ true) }
    ensures length { IfOk result (λ x. length x.0.now ≡ 2 * n) }
    ensures rest { IfOk result (λ x. length x.1.now + 2 * n ≡ length bytes.now) }
{
    if bytes.len() < 2 * n {
        return Err(DictFault::Truncated);
    }
    let (lowest, rest) = bytes.split_at(2 * n);
    if !is_falling(lowest) {
        return Err(DictFault::BadCode);
    }
    Ok((lowest, rest))
}

/// How many symbols there are.
#[tactic(auto, unfolding(crate::specs::Reading::count_at))]
fn count_of(bytes: &[u8]) -> Result<(usize, &[u8]), DictFault>
    ensures is { Reads (λ x. (x.0, x.1.now)) result (count_at bytes.now) }
    ensures few { IfOk result (λ x. x.0 ≤ 4095) }
    ensures rest { IfOk result (λ x. length x.1.now + 2 ≡ length bytes.now) }
{
    match bytes {
        [low, high, rest @ ..] => {
            let n = *low as usize + 256 * *high as usize;
            if n < 1 || n > 4095 {
                return Err(DictFault::BadSymbol);
            }
            Ok((n, rest))
        }
        _ => Err(DictFault::Truncated),
    }
}

/// The symbols, without their fill byte.
#[tactic(auto, unfolding(crate::specs::Reading::symbols_at))]
fn symbols_of(n: usize, bytes: &[u8]) -> Result<&[u8], DictFault>
    requires { n ≤ 4095 }
    ensures is { Reads (λ x. x.now) result (symbols_at n bytes.now) }
    ensures fits { IfOk result (λ _. 3 * n + n % 2 ≤ length bytes.now) }
    ensures length { IfOk result (λ x. length x.now ≡ 3 * n) }
{
    if bytes.len() < 3 * n + n % 2 {
        return Err(DictFault::Truncated);
    }
    Ok(&bytes[..3 * n])
}

/// The contents of a dictionary's bytes, before the values of its symbols are checked.
#[derive(Clone, Copy)]
pub(crate) struct Layout<'a> {
    /// The least length of a code in bits.
    pub(crate) least: u32,
    /// The lowest symbol of each length from the least on, two bytes each.
    pub(crate) lowest: &'a [u8],
    /// The symbols, three bytes each.
    pub(crate) symbols: &'a [u8],
    /// How many bytes all of it takes.
    pub(crate) taken: usize,
}

impl<'a> Layout<'a> {
    ghost use Rattle.pair_dict.specs.Inside.Layouts.{pairing_in, IsDictLayout};

    /// The layout at the front of the bytes.
    #[tactic(auto, unfolding(crate::specs::Reading::layout_at))]
    pub(crate) fn read(bytes: &'a [u8]) -> Result<Layout<'a>, DictFault>
        ensures is { Reads pairing_in result (layout_at bytes.now) }
        ensures sound { IfOk result IsDictLayout }
        ensures fits { IfOk result (λ layout. layout.taken ≤ length bytes.now) }
    {
        let ((greatest, least), rest) = lengths_of(bytes)?;
        let lengths = (greatest as usize + 1) - least as usize;
        let (lowest, rest) = lowest_of(lengths, rest)?;
        let (n, rest) = count_of(rest)?;
        let symbols = symbols_of(n, rest)?;
        Ok(Layout {
            least: least as u32,
            lowest,
            symbols,
            taken: 4 + 2 * lengths + 3 * n + n % 2,
        })
    }
}
