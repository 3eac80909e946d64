//! Files of keys.

ghost use Rattle.std.specs.Prelude.{◌≡◌, ◌<◌, ℕ, List, drop, length, slice_index, take, IfErr, IfNone, IfOk, IfSome};
ghost use Rattle.hex.specs.Hex.{encode_lower};
ghost use Rattle.sealed_port.specs.KeyFiles.{IsFirstKeyFault, IsKey, IsKeyLine, SpellsKeys, key_fault_line, key_line};

use crate::seal_port::Keys;

/// The most bytes of a file of keys.
pub const MOST_KEY_BYTES: u64 = 130;

/// The bytes of a key's line, with its line feed.
const LINE_BYTES: usize = 65;

/// The first thing that is wrong with a file of keys.
#[derive(Clone, Copy)]
pub enum KeyFault {
    /// The first line is no key.
    FirstLine,
    /// There is a second line, which is no key.
    SecondLine,
    /// There are bytes behind the second line.
    Behind,
}

impl KeyFault {
    /// The number of the line at fault, counted from 1.
    pub fn line(self) -> usize
        ensures { result ≡ key_fault_line self }
    {
        match self {
            KeyFault::FirstLine => 1,
            KeyFault::SecondLine => 2,
            KeyFault::Behind => 3,
        }
    }
}

/// The key with these 64 lower-case hexadecimal digits.
fn key_of(digits: &[u8]) -> Option<[u8; 32]>
    ensures some { IfSome result (λ key. (length key ≡ 32) × ((i : ℕ) → slice_index key i < 256) × (digits.now ≡ encode_lower key)) }
    ensures none { IfNone result ((key : List ℕ) → length key ≡ 32 → ((i : ℕ) → slice_index key i < 256) → digits.now ≡ encode_lower key → ⊥) }
{
    let mut key = [0; 32];
    if hex::decode_to_slice(digits, &mut key).is_err() {
        return None;
    }
    let mut again = [0; 64];
    if hex::encode_to_slice(&key, &mut again).is_err() {
        return None;
    }
    if again.as_slice() != digits {
        return None;
    }
    Some(key)
}

/// The key of a line with its line feed.
fn key_in(line: &[u8]) -> Option<[u8; 32]>
    ensures some { IfSome result (λ key. IsKey key × (line.now ≡ key_line key)) }
    ensures none { IfNone result (IsKeyLine line.now → ⊥) }
{
    if line.len() != LINE_BYTES {
        return None;
    }
    let (digits, end) = line.split_at(LINE_BYTES - 1);
    if end[0] != b'\n' {
        return None;
    }
    key_of(digits)
}

/// The first bytes of a text, as many as a key's line has, and what stands behind them.
fn first_line(text: &[u8]) -> (&[u8], &[u8])
    ensures line { result.0.now ≡ take 65 text.now }
    ensures rest { result.1.now ≡ drop 65 text.now }
{
    if text.len() < LINE_BYTES {
        return (text, &[]);
    }
    text.split_at(LINE_BYTES)
}

impl Keys {
    /// The keys of a file: one line or two, each of 64 lower-case hexadecimal digits and a line feed. The error is the first thing
    /// that is wrong with it.
    pub fn read(text: &[u8]) -> Result<Keys, KeyFault>
        ensures ok { IfOk result (SpellsKeys text.now) }
        ensures err { IfErr result (IsFirstKeyFault text.now) }
    {
        let (line, rest) = first_line(text);
        let Some(first) = key_in(line) else {
            return Err(KeyFault::FirstLine);
        };
        if rest.is_empty() {
            return Ok(Keys {
                first,
                second: first,
            });
        }
        let (line, behind) = first_line(rest);
        let Some(second) = key_in(line) else {
            return Err(KeyFault::SecondLine);
        };
        if !behind.is_empty() {
            return Err(KeyFault::Behind);
        }
        Ok(Keys { first, second })
    }
}
