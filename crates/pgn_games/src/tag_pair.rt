//! Reading a tag pair (PGN standard, section 8.1).

ghost use Rattle.std.specs.Prelude.{◌≡◌, ◌≤◌, ◌<◌, ◌+◌, false, IfSome, length, option_map, drop};
ghost use Rattle.pgn_games.specs.Tags.{TagAndRest, after_byte, after_spaces, closes_at, pair_from_quote, tag_pair};
ghost use Rattle.pgn_games.specs.Inside.Scan.{pair_read};

use crate::bytes::{Class, run_len};

/// A tag pair, and the text after it.
#[derive(Clone, Copy)]
pub(crate) struct TagPair<'a> {
    pub(crate) name: &'a [u8],
    /// What stands between the quotes, escapes and all.
    pub(crate) quoted: &'a [u8],
    pub(crate) rest: &'a [u8],
}

/// The text without the spaces at its front.
fn after_spaces(text: &[u8]) -> &[u8]
    ensures is { result.now ≡ after_spaces text.now }
    ensures within { length result.now ≤ length text.now }
{
    &text[run_len(text, Class::Space)..]
}

/// The text after a byte, where it begins with it.
fn after_byte(text: &[u8], byte: u8) -> Option<&[u8]>
    ensures is { option_map (λ t. t.now) result ≡ after_byte byte text.now }
    ensures within { IfSome result (λ t. length t.now ≤ length text.now) }
{
    match text {
        [first, rest @ ..] if *first == byte => Some(rest),
        _ => None,
    }
}

/// How many bytes stand before the quote that closes a string.
fn closes_at(text: &[u8]) -> Option<usize>
    ensures is { result ≡ closes_at false text.now }
    ensures within { IfSome result (λ n. n < length text.now) }
{
    let mut escaped = false;
    for (i, b) in text.iter().enumerate() {
        if escaped {
            escaped = false;
        } else if *b == b'"' {
            return Some(i);
        } else {
            escaped = *b == b'\\';
        }
    }
    None
}

/// Reads the string and the bracket behind a tag's name.
fn read_value<'a>(name: &'a [u8], text: &'a [u8]) -> Option<TagPair<'a>>
    ensures is { option_map pair_read result ≡ pair_from_quote name.now (after_byte 34 (after_spaces text.now)) }
    ensures within { IfSome result (λ pair. length pair.rest.now ≤ length text.now) }
{
    let text = after_byte(after_spaces(text), b'"')?;
    let len = closes_at(text)?;
    let rest = after_byte(after_spaces(&text[len + 1..]), b']')?;
    Some(TagPair {
        name,
        quoted: &text[..len],
        rest,
    })
}

/// Reads the tag pair behind an opening bracket.
#[tactic(auto, unfolding(crate::specs::Tags::tag_pair))]
pub(crate) fn tag_pair(text: &[u8]) -> Option<TagPair<'_>>
    ensures is { option_map pair_read result ≡ tag_pair text.now }
    ensures within { IfSome result (λ pair. length pair.rest.now ≤ length text.now) }
{
    let text = after_spaces(text);
    let len = run_len(text, Class::Name);
    if len == 0 {
        return None;
    }
    read_value(&text[..len], &text[len..])
}
