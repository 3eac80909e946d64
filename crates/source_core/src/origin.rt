//! Whether a game may have moves that an earlier run has sent.

ghost use Rattle.std.specs.Prelude.{◌≡◌, ◌<◌, ◌≤◌, IfNone, IfSome};
ghost use Rattle.source_core.specs.Inside.Steps.{IsBeyond, IsWithin, moves_of};
ghost use Rattle.source_core.specs.Origins.{IsAddressText, origin_by};
ghost use Rattle.source_core.specs.declared.origin.Origin.TheVariants.{New};

use crate::known::{Known, Reported};
use arrayvec::ArrayString;
use std::fmt::Write;
use std::net::SocketAddr;

/// Where the moves of a game come from.
#[derive(Clone, Copy, PartialEq, Eq, Debug)]
pub enum Origin {
    /// Earlier runs may have sent moves of it.
    Any,
    /// All of them are sent in this run.
    New,
}

/// An arbiter that has more moves of a game than a run has sent.
#[derive(Clone, Copy)]
pub struct Started {
    /// How many it has.
    pub count: u32,
    /// The text of its address, or `-` where that isn't known.
    pub at: ArrayString<58>,
}

/// The text of an address, of at most 58 bytes, or `-` where there is none.
fn text_of(from: Option<SocketAddr>) -> ArrayString<58>
    ensures { IsAddressText from result.bytes }
{
    let mut text = ArrayString::new();
    if let Some(address) = from {
        if write!(text, "{address}").is_ok() {
            return text;
        }
    }
    let mut unknown = ArrayString::new();
    unknown.push('-');
    unknown
}

impl Reported {
    /// How many moves the arbiter has by its reports: as many as it has acknowledged, and those before its verdict.
    fn moves(&self) -> u32
        ensures { result ≡ moves_of self.now }
    {
        match self.ruling {
            Some(ruling) => self.count.max(ruling.ply),
            None => self.count,
        }
    }

    /// What it has beyond the moves that were sent.
    fn beyond(&self, sent: u32) -> Option<Started>
        ensures some { IfSome result (λ s. (s.count ≡ moves_of self.now) × (sent < s.count) × IsAddressText self.now.from s.at.bytes) }
        ensures none { IfNone result (moves_of self.now ≤ sent) }
    {
        let count = self.moves();
        if count <= sent {
            return None;
        }
        Some(Started {
            count,
            at: text_of(self.from),
        })
    }
}

impl Origin {
    /// New where the flag is set.
    pub fn by_flag(is_new: bool) -> Origin
        ensures { result ≡ origin_by is_new }
    {
        if is_new { Origin::New } else { Origin::Any }
    }

    /// An arbiter that has more moves than were sent, where the game is new.
    pub(crate) fn started_in(self, known: &Known, sent: u32) -> Option<Started>
        ensures some { IfSome result (λ s. (self ≡ New) × IsBeyond sent known.now s) }
        ensures none { IfNone result (IsWithin self sent known.now) }
    {
        match self {
            Origin::Any => None,
            Origin::New => match known.a.beyond(sent) {
                Some(started) => Some(started),
                None => known.b.beyond(sent),
            },
        }
    }
}
