//! Where an arbiter's record is kept.

ghost use Rattle.std.specs.Prelude.{◌≡◌, ℕ, ◌<◌, ◌≤◌, ◌↔◌, List, length, IfOk, IfErr, Option, Some, None, Result, Ok, Err};
ghost use Rattle.std.specs.Option.{option_map};
ghost use Rattle.std.specs.Result.{IsErrOf};
ghost use Rattle.arbiter_core.specs.Keeping.{HasBytes, KeeperFacts, PutLeaves};
ghost use Rattle.system_io.specs.Failures.{Risen};
ghost use Rattle.arbiter_core.specs.declared.keeper.Keep.{Keep};
ghost use Rattle.arbiter_core.specs.declared.keeper.KeepFault.{KeepFault};

use std::alloc::{AllocError, Global};
use std::marker::Model;
use system_io::MOST_KEPT_BYTES;

/// The outcome of a put.
#[derive(Clone, Copy, PartialEq, Eq, Debug)]
pub enum Keep {
    /// The new bytes are kept.
    Good,
    /// It fails, and what was kept before stays.
    FailsOld,
    /// It fails, and yet the new bytes are kept.
    FailsNew,
}

/// Why a keeper gives no answer.
#[derive(Clone, Copy, PartialEq, Eq, Debug)]
pub enum KeepFault {
    /// It failed.
    Failed,
    /// Memory for a copy was refused; only a get returns this.
    OutOfMemory,
}

/// A keeper holds nothing or one list of bytes, at most 8217.
pub trait Keeper {
    /// What it keeps, how often it has failed, which outcomes its next put may have, whether a get may fail, and the
    /// effect of a put and of a get.
    ghost facts: { KeeperFacts Self };

    /// Replaces what is kept by these bytes. Where it fails, what is kept is the old or the new, and stays so.
    ///
    /// The caller ensures that there are at most 8217 bytes. `Failed` comes only where the count of failures rose in
    /// this call. A count at its greatest value stays there and is taken as risen.
    fn put(&mut self, bytes: &[u8]) -> Result<(), KeepFault>
        requires { length bytes.now ≤ 8217 }
        ensures outcome { PutLeaves (facts.may_be self.old) (facts.kept self.old) bytes.now (facts.kept self.new) result }
        ensures cause { IsErrOf result KeepFault.Failed → Risen (facts.faults self.old) (facts.faults self.new) }
        ensures count { facts.faults self.old ≤ facts.faults self.new }
        ensures once { facts.leaves self.old bytes.now self.new };

    /// A copy of what is kept, which stays kept. `Failed` comes only where the count of failures rose in this call and
    /// the keeper states that a get may fail. `OutOfMemory` comes where memory for the copy is refused; an empty copy
    /// takes none.
    fn get(&mut self, alloc: Global) -> Result<Option<Vec<u8>>, KeepFault>
        ensures value { IfOk result (λ got. option_map (λ v. v.items) got ≡ facts.kept self.old) }
        ensures kept { facts.kept self.new ≡ facts.kept self.old }
        ensures count { facts.faults self.old ≤ facts.faults self.new }
        ensures outcomes { (keep : Keep) → facts.may_be self.new keep ↔ facts.may_be self.old keep }
        ensures cause { IsErrOf result KeepFault.Failed → Risen (facts.faults self.old) (facts.faults self.new) }
        ensures stated { IsErrOf result KeepFault.Failed → facts.get_may_fail self.old }
        ensures memory { IsErrOf result KeepFault.OutOfMemory → HasBytes (facts.kept self.old) }
        ensures once { IfOk result (λ got. facts.reads self.old None self.new) }
        ensures told { IfErr result (λ fault. facts.reads self.old (Some fault) self.new) };

    /// How often the keeper has failed; at its greatest value the count stays.
    fn failures(&self) -> u64
        ensures { result ≡ facts.faults self.now };
}

/// A copy of kept bytes, as a get returns it. `OutOfMemory` comes where memory for it is refused; an empty copy takes
/// none.
pub fn copy_of(alloc: Global, kept: Option<&[u8]>) -> Result<Option<Vec<u8>>, KeepFault>
    ensures value { IfOk result (λ got. option_map (λ v. v.items) got ≡ option_map (λ b. b.now) kept.entry) }
    ensures memory { IfErr result (λ fault. (fault ≡ KeepFault.OutOfMemory) × HasBytes (option_map (λ b. b.now) kept.entry)) }
{
    let Some(bytes) = kept else {
        return Ok(None);
    };
    if bytes.is_empty() {
        return Ok(Some(Vec::new(alloc)));
    }
    match Vec::from_slice(alloc, bytes) {
        Ok(copy) => Ok(Some(copy)),
        Err(_) => Err(KeepFault::OutOfMemory),
    }
}

/// Keeps bytes in memory, in room for 8217 that `new` makes; no other call takes memory but `get`. `set` chooses the
/// outcome of each put, and a get never fails.
#[derive(Drop)]
pub struct MemoryKeeper {
    bytes: Vec<u8>,
    is_kept: bool,
    keep: Keep,
    failures: u64,
}

impl Model for MemoryKeeper {
    ghost use Rattle.std.specs.Prelude.{◌≤◌, cond, Some, None, vec_capacity};
    ghost use Rattle.arbiter_core.specs.Memory.{Memory};

    ghost Value = { Memory };

    ghost view = { λ m. record { kept = cond m.is_kept (Some m.bytes.items) None; keep = m.keep; failures = m.failures } };

    ghost invariant = { λ m. 8217 ≤ vec_capacity m.bytes };
}

impl MemoryKeeper {
    ghost use Rattle.arbiter_core.specs.Memory.{Memory};

    /// A keeper that keeps nothing, and whose puts succeed. The error comes only where memory is refused.
    pub fn new(alloc: Global) -> Result<MemoryKeeper, AllocError>
        ensures { IfOk result (λ m. m ≡ record { kept = None; keep = Keep.Good; failures = 0 }) }
    {
        let bytes = Vec::with_capacity(alloc, MOST_KEPT_BYTES)?;
        Ok(MemoryKeeper {
            bytes,
            is_kept: false,
            keep: Keep::Good,
            failures: 0,
        })
    }

    /// Sets the outcome of each put from now on.
    pub fn set(&mut self, keep: Keep)
        ensures { self.new ≡ record self.old { keep = keep } }
    {
        self.keep = keep;
    }

    /// What is kept.
    pub fn kept(&self) -> Option<&[u8]>
        ensures { option_map (λ b. b.now) result ≡ self.now.kept }
    {
        if self.is_kept {
            Some(self.bytes.as_slice())
        } else {
            None
        }
    }

    /// Keeps these bytes.
    fn store(&mut self, bytes: &[u8])
        requires { length bytes.now ≤ 8217 }
        ensures { self.new ≡ record self.old { kept = Some bytes.now } }
    {
        self.bytes.clear();
        let _done = self.bytes.extend_from_slice(bytes);
        self.is_kept = true;
    }

    /// Counts one failure.
    fn fail(&mut self)
        ensures kept { self.new.kept ≡ self.old.kept }
        ensures keep { self.new.keep ≡ self.old.keep }
        ensures risen { Risen self.old.failures self.new.failures }
    {
        self.failures = self.failures.saturating_add(1);
    }
}

impl Keeper for MemoryKeeper {
    ghost use Rattle.arbiter_core.specs.Memory.{memory_facts};

    ghost facts = { memory_facts };

    fn put(&mut self, bytes: &[u8]) -> Result<(), KeepFault> {
        match self.keep {
            Keep::Good => {
                self.store(bytes);
                Ok(())
            }
            Keep::FailsOld => {
                self.fail();
                Err(KeepFault::Failed)
            }
            Keep::FailsNew => {
                self.store(bytes);
                self.fail();
                Err(KeepFault::Failed)
            }
        }
    }

    fn get(&mut self, alloc: Global) -> Result<Option<Vec<u8>>, KeepFault> {
        copy_of(alloc, self.kept())
    }

    fn failures(&self) -> u64 {
        self.failures
    }
}
