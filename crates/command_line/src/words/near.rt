//! Words that may be meant where another one was given.

ghost use Rattle.std.specs.Prelude.{◌≡◌, ◌↔◌, ◌⊎◌, IfOk, IfSome, IsTrue, length};
ghost use Rattle.command_line.specs.Inside.Putting.{IsFew, IsNearCommand};
ghost use Rattle.command_line.specs.Uses.{IsNear, IsOptionOf};

use crate::commands::{Form, Name};
use crate::words::help::COMMANDS;
use std::alloc::{AllocError, Global};
use strsim::osa_distance;

/// A word that is near to a given one.
#[derive(Clone, Copy)]
pub(crate) struct Near<'w> {
    /// The word.
    pub(crate) word: &'w str,
    /// By how many edits it is got from the given one.
    distance: usize,
}

/// Whether so many edits are few for a given word: at most two, and fewer than half of its bytes.
fn is_few(distance: usize, given: &str) -> bool
    ensures { IsTrue result ↔ IsFew distance (length given.now) }
{
    distance <= 2 && 2 * distance < given.len()
}

/// The nearer one of a word that was found before, if there is one, and this word. Of two that are equally near it is the first.
fn nearer<'w>(
    alloc: Global,
    given: &str,
    best: Option<Near<'w>>,
    word: &'w str,
) -> Result<Option<Near<'w>>, AllocError>
    ensures { IfOk result (λ r. (r ≡ best.entry) ⊎ IfSome r (λ near. (near.word.now ≡ word.now) × IsNear given.now word.now)) }
{
    let distance = osa_distance(alloc, given, word)?;
    if !is_few(distance, given) {
        return Ok(best);
    }
    match best {
        Some(before) if before.distance <= distance => Ok(best),
        _ => Ok(Some(Near { word, distance })),
    }
}

/// The command whose word is nearest to a given one: one that is got from it by at most two edits, fewer than half of its bytes. An edit
/// puts in, takes out or changes a letter, or swaps two neighbours. None where memory is refused.
pub(crate) fn near_command<'w>(alloc: Global, given: &str) -> Option<&'w str>
    ensures { IfSome result (λ word. IsNearCommand given.now word.now) }
{
    let mut best = None;
    for name in COMMANDS {
        match nearer(alloc, given, best, name.word()) {
            Ok(found) => best = found,
            Err(_) => return None,
        }
    }
    best.map(|near| near.word)
}

/// The option or flag of a command whose name is nearest to a given one, in the same sense. None where memory is refused.
pub(crate) fn near_option<'w>(alloc: Global, name: Name, given: &str) -> Option<&'w str>
    ensures { IfSome result (λ word. IsOptionOf name word.now) }
{
    let mut best = None;
    for value in name.values() {
        if matches!(value.form, Form::Word) {
            continue;
        }
        match nearer(alloc, given, best, value.name) {
            Ok(found) => best = found,
            Err(_) => return None,
        }
    }
    best.map(|near| near.word)
}
