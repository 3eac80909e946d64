//! The lines of a game's file, one by one.

ghost use Rattle.std.specs.Prelude.{◌≡◌, ◌≤◌, ◌+◌, ◌++◌, ℕ, List, true, IfSome, IfNone, codes};
ghost use Rattle.std.specs.Fmt.{decimal};
ghost use Rattle.board_core.specs.Delays.{most_delay};
ghost use Rattle.board_core.specs.declared.parts.Parts.{Parts};
ghost use Rattle.fen_text.specs.Written.{fen_of};
ghost use Rattle.arbiter_server.specs.GameFiles.{HasDelay, HasName, HasStart, line_number};
ghost use Rattle.arbiter_server.specs.Inside.ValueLines.{HasValue, StartsLine, is_one_line};

use board_core::Delay;
use fen_text::cut_first;
use move_msg::is_game_name;

/// Why bytes are no game's file: the first line that isn't as it has to be.
#[derive(Clone, Copy, PartialEq, Eq, Debug)]
pub enum GameFileFault {
    /// The first line doesn't tell a name.
    Name,
    /// The second line doesn't tell a start.
    Start,
    /// The third line doesn't tell a delay.
    Delay,
    /// Bytes stand after the third line.
    More,
}

impl GameFileFault {
    /// The number of the line, 1 to 4.
    pub fn line(self) -> u8
        ensures { result ≡ line_number self }
    {
        match self {
            GameFileFault::Name => 1,
            GameFileFault::Start => 2,
            GameFileFault::Delay => 3,
            GameFileFault::More => 4,
        }
    }
}

/// What stands after a word.
fn after<'a>(line: &'a [u8], word: &[u8]) -> Option<&'a [u8]>
    ensures some { IfSome result (λ value. line.now ≡ word.now ++ value.now) }
    ensures none { IfNone result ((value : List ℕ) → line.now ≡ word.now ++ value → ⊥) }
{
    line.strip_prefix(word)
}

/// The value of the line that a text begins by, which stands after a word, and the text after the line.
fn value_after<'a>(text: &'a [u8], word: &[u8]) -> Option<(&'a [u8], &'a [u8])>
    requires { is_one_line word.now ≡ true }
    ensures some { IfSome result (λ x. HasValue word.now text.now x.0.now x.1.now) }
    ensures only { IfSome result (λ x. (value rest : List ℕ) → StartsLine word.now text.now value rest → (value ≡ x.0.now) × (rest ≡ x.1.now)) }
    ensures none { IfNone result ((value rest : List ℕ) → StartsLine word.now text.now value rest → ⊥) }
{
    let Some((line, rest)) = cut_first(text, b'\n') else {
        return None;
    };
    let Some(value) = after(line, word) else {
        return None;
    };
    Some((value, rest))
}

/// The name that the first line tells, and the text after that line.
pub(crate) fn name_in(text: &[u8]) -> Option<(&[u8], &[u8])>
    ensures some { IfSome result (λ x. HasName text.now x.0.now x.1.now) }
    ensures none { IfNone result ((name rest : List ℕ) → HasName text.now name rest → ⊥) }
{
    let Some((name, rest)) = value_after(text, b"name ") else {
        return None;
    };
    if is_game_name(name) {
        Some((name, rest))
    } else {
        None
    }
}

/// The text that the next line tells as that of a start, and the text after that line.
pub(crate) fn start_text_in(text: &[u8]) -> Option<(&[u8], &[u8])>
    ensures some { IfSome result (λ x. HasValue (codes "start ") text.now x.0.now x.1.now) }
    ensures only { IfSome result (λ x. (start : Parts) (rest : List ℕ) → HasStart text.now start rest → fen_of start ≡ x.0.now) }
    ensures none { IfNone result ((start : Parts) (rest : List ℕ) → HasStart text.now start rest → ⊥) }
{
    value_after(text, b"start ")
}

/// The text that the next line tells as that of a delay, and the text after that line.
pub(crate) fn delay_text_in(text: &[u8]) -> Option<(&[u8], &[u8])>
    ensures some { IfSome result (λ x. HasValue (codes "delay ") text.now x.0.now x.1.now) }
    ensures only { IfSome result (λ x. (delay : ℕ) (rest : List ℕ) → HasDelay text.now delay rest → decimal delay ≡ x.0.now) }
    ensures none { IfNone result ((delay : ℕ) (rest : List ℕ) → HasDelay text.now delay rest → ⊥) }
{
    value_after(text, b"delay ")
}

/// The delay of a digit.
fn delay_by(digit: u8) -> Option<Delay>
    ensures some { IfSome result (λ delay. (delay ≤ most_delay) × (digit ≡ 48 + delay)) }
    ensures none { IfNone result ((delay : ℕ) → delay ≤ most_delay → digit ≡ 48 + delay → ⊥) }
{
    if digit < b'0' {
        return None;
    }
    Delay::new(digit - b'0')
}

/// The delay that a text tells in one digit, from 0 to 8; none of any other text.
pub fn delay_of_digit(text: &[u8]) -> Option<Delay>
    ensures some { IfSome result (λ delay. (delay ≤ most_delay) × (text.now ≡ decimal delay)) }
    ensures none { IfNone result ((delay : ℕ) → delay ≤ most_delay → text.now ≡ decimal delay → ⊥) }
{
    if text.len() != 1 {
        return None;
    }
    delay_by(text[0])
}
