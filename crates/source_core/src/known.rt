//! What a source knows of the arbiters' records.

ghost use Rattle.std.specs.Prelude.{◌≡◌, ◌≢◌, ◌⊎◌, None, Some, IfSome, IfNone, IfErr, OnOk};
ghost use Rattle.source_core.specs.Reports.{AddsReport, Clashes, FitsRuling, StandsSo, reported_by, with_reported};

use crate::report::{Report, Ruling};
use move_msg::ArbiterId;
use std::net::SocketAddr;

/// What one arbiter has reported.
#[derive(Clone, Copy)]
pub struct Reported {
    /// The greatest number of moves that it has acknowledged.
    pub count: u32,
    /// Its verdict.
    pub ruling: Option<Ruling>,
    /// The address from which its last report came, where that is known.
    pub from: Option<SocketAddr>,
}

/// What both arbiters have reported.
#[derive(Clone, Copy)]
pub struct Known {
    /// The arbiter with the number 1.
    pub a: Reported,
    /// The arbiter with the number 2.
    pub b: Reported,
}

/// Two verdicts that were reported and differ.
#[derive(Clone, Copy, PartialEq, Eq, Debug)]
pub struct Clash {
    /// The one that came first.
    pub first: Ruling,
    /// The other.
    pub second: Ruling,
}

/// The state of a move.
#[derive(Clone, Copy)]
pub enum Standing {
    /// Both arbiters have acknowledged it, and neither has reported a verdict.
    Acked,
    /// Both have reported the verdict.
    Ruled(Ruling),
    /// Neither of these.
    Open,
}

/// The known verdict, where it differs from this one.
fn other_than(known: Option<Ruling>, ruling: Ruling) -> Option<Ruling>
    ensures some { IfSome result (λ first. (known ≡ Some first) × (first ≢ ruling)) }
    ensures none { IfNone result (FitsRuling known ruling) }
{
    match known {
        Some(first) if first != ruling => Some(first),
        _ => None,
    }
}

impl Known {
    /// Nothing was reported.
    pub fn nothing() -> Known
        ensures { result ≡ record { a = record { count = 0; ruling = None; from = None }; b = record { count = 0; ruling = None; from = None } } }
    {
        let reported = Reported {
            count: 0,
            ruling: None,
            from: None,
        };
        Known {
            a: reported,
            b: reported,
        }
    }

    /// What an arbiter has reported.
    fn reported_by(&self, who: ArbiterId) -> Reported
        ensures { result ≡ reported_by self.now who }
    {
        match who {
            ArbiterId::A => self.a,
            ArbiterId::B => self.b,
        }
    }

    /// What is known, with this report of an arbiter in place of its earlier one.
    fn with_reported(&self, who: ArbiterId, reported: Reported) -> Known
        ensures { result ≡ with_reported self.now who reported }
    {
        match who {
            ArbiterId::A => Known {
                a: reported,
                b: self.b,
            },
            ArbiterId::B => Known {
                a: self.a,
                b: reported,
            },
        }
    }

    /// A reported verdict that differs from this one.
    fn clash_with(&self, ruling: Ruling) -> Option<Ruling>
        ensures some { IfSome result (λ first. (first ≢ ruling) × ((self.now.a.ruling ≡ Some first) ⊎ (self.now.b.ruling ≡ Some first))) }
        ensures none { IfNone result (FitsRuling self.now.a.ruling ruling × FitsRuling self.now.b.ruling ruling) }
    {
        match other_than(self.a.ruling, ruling) {
            Some(first) => Some(first),
            None => other_than(self.b.ruling, ruling),
        }
    }

    /// Adds a report that came from an address. The error comes where it is a verdict that differs from a reported one; nothing is added
    /// then.
    pub fn add(&mut self, report: Report, from: Option<SocketAddr>) -> Result<(), Clash>
        ensures added { OnOk result (AddsReport self.old report from self.new) }
        ensures clash { IfErr result (Clashes self.old report) }
        ensures same { IfErr result (λ c. self.new ≡ self.old) }
    {
        match report {
            Report::Acknowledges { who, count } => {
                let before = self.reported_by(who);
                *self = self.with_reported(
                    who,
                    Reported {
                        count: before.count.max(count),
                        ruling: before.ruling,
                        from,
                    },
                );
                Ok(())
            }
            Report::Rules { who, ruling } => {
                if let Some(first) = self.clash_with(ruling) {
                    return Err(Clash {
                        first,
                        second: ruling,
                    });
                }
                let before = self.reported_by(who);
                *self = self.with_reported(
                    who,
                    Reported {
                        count: before.count,
                        ruling: Some(ruling),
                        from,
                    },
                );
                Ok(())
            }
        }
    }

    /// The state of the move with this number.
    pub fn standing(&self, number: u32) -> Standing
        ensures { StandsSo self.now number result }
    {
        match (self.a.ruling, self.b.ruling) {
            (Some(ruling), Some(_)) => Standing::Ruled(ruling),
            (None, None) if number < self.a.count && number < self.b.count => Standing::Acked,
            _ => Standing::Open,
        }
    }
}
