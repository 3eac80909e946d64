//! The fields of a line of a schedule.

ghost use Rattle.std.specs.Prelude.{◌≡◌, ◌≢◌, ◌↔◌, ◌==◌, ◌<◌, ℕ, List, codes, IsTrue, IfOk, IfSome, IfNone, OnErr};
ghost use Rattle.move_msg.specs.declared.arbiter_id.ArbiterId.{ArbiterId};
ghost use Rattle.arbiter_core.specs.declared.keeper.Keep.{Keep};
ghost use Rattle.relay_world.specs.Texts.{SpellsBytes, SpellsPlace, who_word, keep_word};

use arbiter_core::Keep;
use fen_text::read_number;
use hex::FromHexError;
use move_msg::ArbiterId;
use std::alloc::{AllocError, Global};
use std::vec::Vec;

/// Whether a word is this one.
pub(crate) fn is_word(word: &[u8], other: &[u8]) -> bool
    ensures { IsTrue result ↔ (word.now ≡ other.now) }
{
    word == other
}

/// The arbiter that a word names.
pub(crate) fn read_who(word: &[u8]) -> Option<ArbiterId>
    ensures some { IfSome result (λ who. word.now ≡ who_word who) }
    ensures none { IfNone result ((who : ArbiterId) → word.now ≡ who_word who → ⊥) }
{
    if is_word(word, b"A") {
        Some(ArbiterId::A)
    } else if is_word(word, b"B") {
        Some(ArbiterId::B)
    } else {
        None
    }
}

/// The outcome of a put that a word names.
pub(crate) fn read_keep(word: &[u8]) -> Option<Keep>
    ensures some { IfSome result (λ keep. word.now ≡ keep_word keep) }
    ensures none { IfNone result ((keep : Keep) → word.now ≡ keep_word keep → ⊥) }
{
    if is_word(word, b"good") {
        Some(Keep::Good)
    } else if is_word(word, b"old") {
        Some(Keep::FailsOld)
    } else if is_word(word, b"new") {
        Some(Keep::FailsNew)
    } else {
        None
    }
}

/// The place in the log that a word gives, 0 to 999999 in digits without needless zeros.
pub(crate) fn read_place(text: &[u8]) -> Option<usize>
    ensures some { IfSome result (SpellsPlace text.now) }
    ensures none { IfNone result ((n : ℕ) → SpellsPlace text.now n → ⊥) }
{
    match read_number(text, 999_999) {
        Some(number) => Some(number as usize),
        None => None,
    }
}

/// The bytes that a word spells: two hexadecimal digits of either case for each, and a hyphen for no bytes.
pub(crate) fn read_bytes(alloc: Global, word: &[u8]) -> Result<Option<Vec<u8>>, AllocError>
    ensures some { IfOk result (λ read. IfSome read (λ bytes. SpellsBytes word.now bytes.items)) }
    ensures none { IfOk result (λ read. IfNone read ((bytes : List ℕ) → SpellsBytes word.now bytes → ⊥)) }
    ensures memory { OnErr result (word.now ≢ codes "-") }
{
    if is_word(word, b"-") {
        return Ok(Some(Vec::new(alloc)));
    }
    match hex::decode(alloc, word) {
        Ok(bytes) => {
            if bytes.is_empty() {
                Ok(None)
            } else {
                Ok(Some(bytes))
            }
        }
        Err(FromHexError::OutOfMemory) => Err(AllocError),
        Err(_) => Ok(None),
    }
}
