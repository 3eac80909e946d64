//! The replies of a round, held until what they rest on is committed.

ghost use Rattle.std.specs.NonZero.{non_zero_usize_get};
ghost use Rattle.std.specs.Prelude.{◌≡◌, ◌<◌, ◌==◌, ◌++◌, ◌∷◌, [], IfOk, length};

use crate::seat::Reply;
use std::alloc::{AllocError, Global};
use std::marker::Model;
use std::net::SocketAddr;
use std::num::NonZeroUsize;

/// What a datagram is answered, and the address from which that came, where it is known.
#[derive(Drop)]
pub struct Held {
    pub(crate) reply: Reply,
    pub(crate) sender: Option<SocketAddr>,
}

/// The replies of a round, in room for as many as may be answered together.
#[derive(Drop)]
pub struct Replies {
    held: Vec<Held>,
    most: NonZeroUsize,
}

impl Model for Replies {
    ghost use Rattle.std.specs.NonZero.{non_zero_usize_get};
    ghost use Rattle.std.specs.Prelude.{◌≤◌, vec_capacity};
    ghost use Rattle.game_server.specs.Inside.HeldReplies.{RepliesView};

    ghost Value = { RepliesView };

    ghost view = { λ r. record { held = r.held.items; most = non_zero_usize_get r.most } };

    ghost invariant = { λ r. non_zero_usize_get r.most ≤ vec_capacity r.held };
}

impl Replies {
    /// None is held yet. The error comes where memory for so many is refused.
    pub(crate) fn new(alloc: Global, most: NonZeroUsize) -> Result<Replies, AllocError>
        ensures { IfOk result (λ r. r ≡ record { held = []; most = non_zero_usize_get most }) }
    {
        let held = Vec::with_capacity(alloc, most.get())?;
        Ok(Replies { held, most })
    }

    /// How many are held at most.
    pub(crate) fn most(&self) -> usize
        ensures is { result ≡ self.now.most }
        ensures some { 0 < result }
    {
        self.most.get()
    }

    /// How many are held.
    pub(crate) fn len(&self) -> usize
        ensures { result ≡ length self.now.held }
    {
        self.held.len()
    }

    /// Whether none is held.
    pub(crate) fn is_empty(&self) -> bool
        ensures { result ≡ (length self.now.held == 0) }
    {
        self.held.is_empty()
    }

    /// Those that are held, in order.
    pub(crate) fn held(&self) -> &[Held]
        ensures { result.now ≡ self.now.held }
    {
        self.held.as_slice()
    }

    /// None is held any more.
    pub(crate) fn clear(&mut self)
        ensures { self.new ≡ record self.old { held = [] } }
    {
        self.held.clear();
    }

    /// Holds one more.
    pub(crate) fn add(&mut self, held: Held)
        requires { length self.old.held < self.old.most }
        ensures { self.new ≡ record self.old { held = self.old.held ++ held ∷ [] } }
    {
        let _fits = self.held.push(held);
    }
}
