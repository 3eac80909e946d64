//! The text of a position in the query of a URL, or in a line of a body.

ghost use Rattle.std.specs.Prelude.{◌≡◌, ◌==◌, IfOk, OnOk, map, option_map, length};
ghost use Rattle.std.specs.List.{filter};
ghost use Rattle.http_answer.specs.Queries.{asked_text, position_text, spaced, text_of, with_counters};

use std::alloc::{AllocError, Global};

/// A space for a `_`, and else the byte itself.
fn spaced(byte: u8) -> u8
    ensures { result ≡ spaced byte }
{
    if byte == b'_' { b' ' } else { byte }
}

/// The bytes with a space for each `_`.
fn all_spaced(alloc: Global, text: &[u8]) -> Result<Vec<u8>, AllocError>
    ensures { IfOk result (λ v. v.items ≡ map spaced text.now) }
{
    text.iter().map(|byte| spaced(*byte)).collect(alloc)
}

/// How many fields a text has behind its first one.
fn spaces_in(text: &[u8]) -> usize
    ensures { result ≡ length (filter (λ b. b == 32) text.now) }
{
    text.iter().filter(|byte| **byte == b' ').count()
}

/// A text of four fields gets a clock of 0 and the first move.
fn with_counters(text: Vec<u8>) -> Result<Vec<u8>, AllocError>
    ensures { IfOk result (λ v. v.items ≡ with_counters text.items) }
{
    let mut text = text;
    if spaces_in(&text) == 3 {
        text.extend_from_slice(b" 0 1")?;
    }
    Ok(text)
}

/// The text of a position, as it is asked for: with a space for each `_` and with both counters.
pub(crate) fn position_text(alloc: Global, words: &[u8]) -> Result<Vec<u8>, AllocError>
    ensures { IfOk result (λ v. v.items ≡ position_text words.now) }
{
    with_counters(all_spaced(alloc, words)?)
}

/// The text of a value, decoded, with a space for each `_` and with both counters.
fn text_of(alloc: Global, value: &[u8]) -> Result<Vec<u8>, AllocError>
    ensures { IfOk result (λ v. v.items ≡ text_of value.now) }
{
    let decoded = form_urlencoded::decode(alloc, value)?;
    position_text(alloc, decoded.as_str().as_bytes())
}

/// The text that the first member `fen` of a query has, decoded, with a space for each `_` and with both counters; none where there is no
/// such member.
pub fn asked_text(alloc: Global, query: &str) -> Result<Option<Vec<u8>>, AllocError>
    ensures text { IfOk result (λ found. option_map (λ v. v.items) found ≡ asked_text query.now) }
{
    for (name, value) in form_urlencoded::raw_pairs(query.as_bytes()) {
        if name == b"fen".as_slice() {
            return Ok(Some(text_of(alloc, value)?));
        }
    }
    Ok(None)
}
