//! Addresses in one word.

ghost use Rattle.std.specs.Prelude.{◌≡◌, ◌↔◌, ◌<◌, ◌^◌, ℕ, [], ◌∷◌, length, map, false, IfNone, IfOk, IfSome, IsTrue};
ghost use Rattle.std.specs.List.{Contains};
ghost use Rattle.command_line.specs.Addresses.{AreAddresses, AreRecipients, IsAddress, IsRecipient, addresses_of};
ghost use Rattle.command_line.specs.Inside.Behind.{IsBehindColon};
ghost use Rattle.command_line.specs.Numbers.{IsDecimalNumber};

use std::alloc::{AllocError, Global};
use system_io::SENDER;

/// The addresses of a word, separated by commas.
pub fn addresses_in<'a>(alloc: Global, word: &'a str) -> Result<Vec<&'a str>, AllocError>
    ensures { IfOk result (λ all. map (λ s. s.now) all.items ≡ addresses_of word.now) }
{
    let mut addresses = Vec::new(alloc);
    let mut rest = word;
    while let Some((first, more)) = rest.split_once(',') {
        addresses.push(first)?;
        rest = more;
    }
    addresses.push(rest)?;
    Ok(addresses)
}

/// Whether a word is one address: it has no comma.
pub fn is_one(word: &str) -> bool
    ensures one { IsTrue result → addresses_of word.now ≡ word.now ∷ [] }
    ensures more { result ≡ false → 1 < length (addresses_of word.now) }
{
    match word.split_once(',') {
        Some((_first, _more)) => false,
        None => true,
    }
}

/// The part of a text after its last colon; all of it where there is none.
fn behind_colon<'a>(text: &'a str) -> &'a str
    ensures { IsBehindColon text.entry.now result.now }
{
    let mut rest = text;
    while let Some((_host, more)) = rest.split_once(':') {
        rest = more;
    }
    rest
}

/// The port in a text, 0 to 65535; none where it is no such number.
fn port_of(text: &str) -> Option<u16>
    ensures some { IfSome result (λ n. IsDecimalNumber text.now n × (n < 2 ^ 16)) }
    ensures none { IfNone result ((n : ℕ) → IsDecimalNumber text.now n → n < 2 ^ 16 → ⊥) }
{
    match text.parse::<u16>() {
        Ok(port) => Some(port),
        Err(_) => None,
    }
}

/// Whether a space stands in a text.
fn has_space(text: &str) -> bool
    ensures { IsTrue result ↔ Contains text.now 32 }
{
    text.as_bytes().contains(&b' ')
}

/// Whether a text is an address.
pub(crate) fn is_address(text: &str) -> bool
    ensures some { IsTrue result → IsAddress text.now }
    ensures none { result ≡ false → IsAddress text.now → ⊥ }
{
    if has_space(text) {
        return false;
    }
    let port = behind_colon(text);
    if text.len() - port.len() < 2 {
        return false;
    }
    match port_of(port) {
        Some(_) => true,
        None => false,
    }
}

/// Whether each of the addresses of a word is one.
pub(crate) fn are_addresses(word: &str) -> bool
    ensures some { IsTrue result → AreAddresses word.now }
    ensures none { result ≡ false → AreAddresses word.now → ⊥ }
{
    let mut rest = word;
    while let Some((first, more)) = rest.split_once(',') {
        if !is_address(first) {
            return false;
        }
        rest = more;
    }
    is_address(rest)
}

/// Whether a text is an address, or the word for whoever sent the last datagram.
fn is_recipient(text: &str) -> bool
    ensures some { IsTrue result → IsRecipient text.now }
    ensures none { result ≡ false → IsRecipient text.now → ⊥ }
{
    text == SENDER || is_address(text)
}

/// Whether each part of a word is an address, or the word for whoever sent the last datagram.
pub(crate) fn are_recipients(word: &str) -> bool
    ensures some { IsTrue result → AreRecipients word.now }
    ensures none { result ≡ false → AreRecipients word.now → ⊥ }
{
    let mut rest = word;
    while let Some((first, more)) = rest.split_once(',') {
        if !is_recipient(first) {
            return false;
        }
        rest = more;
    }
    is_recipient(rest)
}
