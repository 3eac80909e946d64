//! What an arbiter is opened from.

ghost use Rattle.std.specs.Prelude.{◌≡◌, ◌≤◌, length, IfOk, IfErr, IsErr};
ghost use Rattle.arbiter_core.specs.Setups.{IsGood, setup_view, terms_with};

use arrayvec::ArrayVec;
use board_core::{Delay, Position};
use judge_core::Set;
use move_msg::ArbiterId;

/// The bytes of a name, at most 64.
pub type Name = ArrayVec<u8, 64>;

/// A copy of a name of at most 64 bytes.
pub fn name_of(bytes: &[u8]) -> Name
    requires { length bytes.now ≤ 64 }
    ensures { result.items ≡ bytes.now }
{
    let mut name = ArrayVec::new();
    let _fits = name.try_extend_from_slice(bytes);
    name
}

/// What an arbiter is opened from. The two arbiters of a game have the same setup but for `me`.
#[derive(Drop)]
pub struct Setup<'a> {
    /// The name of the game: 1 to 64 bytes, all from 0x20 (the space) to 0x7E (the tilde).
    pub name: Name,
    /// The position before the first move, ply 0.
    pub start: Position,
    /// The manifest of the tables (manifest format). The stamp of the game depends on it.
    pub manifest: &'a [u8],
    /// Which of the two arbiters it is, 1 or 2.
    pub me: u8,
    /// For how many further plies a verdict by tables must hold, 0 to 8.
    pub delay: u8,
    /// The tables.
    pub set: Set<'a>,
}

/// All of a setup but its tables, of one of the two arbiters and with a delay of at most 8 plies.
#[derive(Drop)]
pub struct Terms<'a> {
    /// The name of the game, as in `Setup`.
    pub name: Name,
    /// The position before the first move, ply 0.
    pub start: Position,
    /// The manifest of the tables.
    pub manifest: &'a [u8],
    /// Which of the two arbiters it is.
    pub me: ArbiterId,
    /// For how many further plies a verdict by tables must hold.
    pub delay: Delay,
}

impl<'a> Setup<'a> {
    /// The terms and the tables. Where the number is none of an arbiter, or the delay is above 8, it gives the setup back.
    pub(crate) fn apart(self) -> Result<(Terms<'a>, Set<'a>), Setup<'a>>
        ensures ok { IfOk result (λ parts. terms_with parts.0 parts.1 ≡ setup_view self.entry) }
        ensures back { IfErr result (λ setup. setup_view setup ≡ setup_view self.entry) }
        ensures bad { IsErr result → IsGood (setup_view self.entry) → ⊥ }
    {
        let Some(me) = ArbiterId::of_number(self.me) else {
            return Err(self);
        };
        let Some(delay) = Delay::new(self.delay) else {
            return Err(self);
        };
        let Setup {
            name,
            start,
            manifest,
            me: _,
            delay: _,
            set,
        } = self;
        let terms = Terms {
            name,
            start,
            manifest,
            me,
            delay,
        };
        Ok((terms, set))
    }
}

impl<'a> Terms<'a> {
    /// The setup with these tables.
    pub(crate) fn with(self, set: Set<'a>) -> Setup<'a>
        ensures { setup_view result ≡ terms_with self.entry set.entry }
    {
        let Terms {
            name,
            start,
            manifest,
            me,
            delay,
        } = self;
        Setup {
            name,
            start,
            manifest,
            me: me.number(),
            delay: delay.plies(),
            set,
        }
    }
}
