//! A record that is still to be put.

ghost use Rattle.std.specs.Prelude.{◌≡◌, ◌≤◌, None, Some, IfOk, length, cond, option_map};

use arbiter_core::{KeepFault, Keeper, copy_of};
use std::alloc::{AllocError, Global};
use std::marker::Model;
use system_io::MOST_KEPT_BYTES;

/// The keeper of an arbiter: what it puts is written down here, in room for 8217 bytes that `new` makes, and is put in a file afterwards.
#[derive(Drop)]
pub struct Draft {
    bytes: Vec<u8>,
    is_kept: bool,
    is_new: bool,
}

impl Model for Draft {
    ghost use Rattle.std.specs.Prelude.{◌≤◌, cond, Some, None, vec_capacity};
    ghost use Rattle.game_folder.specs.Drafts.{DraftView};

    ghost Value = { DraftView };

    ghost view = { λ d. record { kept = cond d.is_kept (Some d.bytes.items) None; to_put = cond d.is_new (Some d.bytes.items) None } };

    ghost invariant = { λ d. 8217 ≤ vec_capacity d.bytes };
}

impl Draft {
    ghost use Rattle.game_folder.specs.Drafts.{DraftView, settled};

    /// A draft of nothing.
    pub fn new(alloc: Global) -> Result<Draft, AllocError>
        ensures { IfOk result (λ d. d ≡ record { kept = None; to_put = None }) }
    {
        let bytes = Vec::with_capacity(alloc, MOST_KEPT_BYTES)?;
        Ok(Draft {
            bytes,
            is_kept: false,
            is_new: false,
        })
    }

    /// Writes bytes down.
    fn store(&mut self, bytes: &[u8], is_new: bool)
        requires { length bytes.now ≤ 8217 }
        ensures kept { self.new.kept ≡ Some bytes.now }
        ensures put { self.new.to_put ≡ cond is_new (Some bytes.now) None }
    {
        self.bytes.clear();
        let _done = self.bytes.extend_from_slice(bytes);
        self.is_kept = true;
        self.is_new = is_new;
    }

    /// Takes over what a start found.
    pub fn found(&mut self, bytes: &[u8])
        requires { length bytes.now ≤ 8217 }
        ensures { self.new ≡ record { kept = Some bytes.now; to_put = None } }
    {
        self.store(bytes, false);
    }

    /// What is to be put.
    pub fn to_put(&self) -> Option<&[u8]>
        ensures { option_map (λ b. b.now) result ≡ self.now.to_put }
    {
        if self.is_new {
            Some(self.bytes.as_slice())
        } else {
            None
        }
    }

    /// Nothing is to be put any more.
    pub fn settle(&mut self)
        ensures { self.new ≡ settled self.old }
    {
        self.is_new = false;
    }
}

impl Keeper for Draft {
    ghost use Rattle.game_folder.specs.Drafts.{draft_facts};

    ghost facts = { draft_facts };

    fn put(&mut self, bytes: &[u8]) -> Result<(), KeepFault> {
        self.store(bytes, true);
        Ok(())
    }

    fn get(&mut self, alloc: Global) -> Result<Option<Vec<u8>>, KeepFault> {
        if !self.is_kept {
            return Ok(None);
        }
        copy_of(alloc, Some(&self.bytes))
    }

    fn failures(&self) -> u64 {
        0
    }
}
