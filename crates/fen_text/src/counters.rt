//! Numbers in decimal digits, those of the fifth and sixth fields among them.

ghost use Rattle.std.specs.Prelude.{◌≡◌, ◌<◌, ◌+◌, ◌++◌, ◌∷◌, [], ℕ, IfSome, IfNone};
ghost use Rattle.arrayvec.specs.ArrayString.{array_string_len};
ghost use Rattle.std.specs.Fmt.{decimal};
ghost use Rattle.fen_text.specs.Fields.{SpellsCounter};
ghost use Rattle.fen_text.specs.Numbers.{SpellsNumber};

use arrayvec::ArrayString;

/// Writes a digit.
fn push_digit(digit: u8, text: &mut ArrayString<10>)
    requires digit { digit < 10 }
    requires room { array_string_len text.old < 10 }
    ensures { text.new.bytes ≡ text.old.bytes ++ (48 + digit) ∷ [] }
{
    text.push((b'0' + digit) as char);
}

/// The digits of a number.
pub(crate) fn digits(number: u32) -> ArrayString<10>
    ensures { result.bytes ≡ decimal number }
{
    let mut text = if number < 10 {
        ArrayString::new()
    } else {
        digits(number / 10)
    };
    push_digit((number % 10) as u8, &mut text);
    text
}

/// The number, at most `most`, that the text spells in decimal digits without needless zeros: the text is the one that the
/// number is written as. None for every other text.
pub fn read_number(text: &[u8], most: u32) -> Option<u32>
    ensures some { IfSome result (SpellsNumber most text.now) }
    ensures none { IfNone result ((n : ℕ) → SpellsNumber most text.now n → ⊥) }
{
    let Ok(word) = str::from_utf8(text) else {
        return None;
    };
    let Ok(number) = word.parse::<u32>() else {
        return None;
    };
    if number > most {
        return None;
    }
    if digits(number).as_str() != word {
        return None;
    }
    Some(number)
}

/// The number from 0 to 9999 that the text spells.
pub(crate) fn read_counter(text: &[u8]) -> Option<u16>
    ensures some { IfSome result (SpellsCounter text.now) }
    ensures none { IfNone result ((n : ℕ) → SpellsCounter text.now n → ⊥) }
{
    match read_number(text, 9999) {
        Some(number) => Some(number as u16),
        None => None,
    }
}
