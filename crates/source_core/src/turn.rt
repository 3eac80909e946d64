//! What ends the turn of a move, how long its tries wait, and its datagram.

ghost use Rattle.std.specs.Prelude.{◌≡◌, ◌∷◌, [], ℕ};
ghost use Rattle.std.specs.Duration.{as_nanos};
ghost use Rattle.system_io.specs.Ports.{Came};
ghost use Rattle.move_msg.specs.Messages.{SpellsMessage};
ghost use Rattle.source_core.specs.Turns.{Learns, move_message, times_at};
ghost use Rattle.source_core.specs.Inside.Steps.{EndsIf, IsLast, IsWaitBy, is_ruled, loss_by};

use crate::board::Board;
use crate::known::{Clash, Known, Standing};
use crate::origin::{Origin, Started};
use crate::report::{Ruling, report_of};
use board_core::Move;
use move_msg::{Message, Sender, Stamp};
use move_notation::Notation;
use std::net::SocketAddr;
use std::time::Duration;

/// How many datagrams one try receives at most: more than come in any time. So it is the port's wait that ends a try, and datagrams of
/// strangers don't use it up.
pub(crate) const MOST_ANSWERS: u64 = u64::MAX;

/// The terms on which the moves of a game are sent.
#[derive(Clone, Copy)]
pub struct SendConfig {
    /// The stamp of the game, which each of its messages carries.
    pub stamp: Stamp,
    /// Whether the arbiters may have moves of the game that this run doesn't send.
    pub origin: Origin,
    /// How the moves are written that are read.
    pub notation: Notation,
    /// How often a turn sends its move at most, each time to all addresses: 1 to 2^32 - 1 times. The last acknowledged move is sent
    /// once more at the input's end. With 0 nothing is sent, and a move that isn't acknowledged already is lost.
    pub tries: u32,
    /// How long datagrams are awaited in the first try of a move, above 0, as precisely as the port's clock allows. The second try
    /// waits twice as long, the third four times, and each later one eight times. Where both arbiters have acknowledged the move, a
    /// verdict is awaited for two milliseconds instead, and once one has reported it, that of the other as long as the try waits
    /// again. At a port of the system a try takes no longer than these together, whatever comes.
    pub wait: Duration,
}

/// How a move's turn ends.
#[derive(Clone, Copy)]
pub enum Turn {
    /// Both arbiters have acknowledged the move, and neither has reported a verdict.
    Acked,
    /// Both have reported this verdict.
    Ruled(Ruling),
    /// Two verdicts were reported that differ.
    Clashed(Clash),
    /// The game is new, and an arbiter has more moves than were sent.
    Started(Started),
    /// This verdict was reported, and the source's own board doesn't show it.
    Belied(Ruling),
    /// The move was sent as often as the terms allow, without either.
    Lost,
    /// No datagram can be received.
    PortLost,
}

/// Whether more is awaited.
#[derive(Clone, Copy)]
pub(crate) enum Next {
    /// More may come.
    GoesOn,
    /// Nothing came in time, or nothing more is awaited.
    Waited,
    /// Two verdicts were reported that differ.
    Clashed(Clash),
    /// No datagram can be received.
    PortLost,
}

/// Adds the report of a datagram that came from an address, if it has one.
pub(crate) fn take_in(
    stamp: Stamp,
    known: &mut Known,
    datagram: &[u8],
    from: Option<SocketAddr>,
) -> Next
    ensures learns { Learns stamp known.old known.new (Came datagram.now ∷ []) result }
    ensures last { (nanos : ℕ) → IsLast nanos (Came datagram.now) result }
{
    let Some(report) = report_of(stamp, datagram) else {
        return Next::GoesOn;
    };
    match known.add(report, from) {
        Ok(()) => Next::GoesOn,
        Err(clash) => Next::Clashed(clash),
    }
}

/// Whether both have reported a verdict.
pub(crate) fn is_ruled(known: &Known) -> bool
    ensures { result ≡ is_ruled known.now }
{
    known.a.ruling.is_some() && known.b.ruling.is_some()
}

/// How many times as long as the first try of a move the one with this number waits; tries are counted from 0.
fn times_at(index: u32) -> u32
    ensures { result ≡ times_at index }
{
    match index {
        0 => 1,
        1 => 2,
        2 => 4,
        _ => 8,
    }
}

/// How long the next datagram is awaited in a try: where both have acknowledged the move, two milliseconds for the verdicts that may
/// follow.
pub(crate) fn wait_at(terms: &SendConfig, index: u32, number: u32, known: &Known) -> Duration
    ensures { IsWaitBy terms.now.wait index number known.now (as_nanos result) }
{
    match known.standing(number) {
        Standing::Acked => Duration::from_millis(2),
        Standing::Ruled(_) | Standing::Open => terms.wait.saturating_mul(times_at(index)),
    }
}

/// The state of a move as the end of its turn; none where it is open.
pub(crate) fn turn_of(origin: Origin, known: &Known, number: u32, board: Board<'_>) -> Option<Turn>
    ensures { EndsIf origin number board.entry.plies board.entry.position.now known.now result }
{
    if let Some(started) = origin.started_in(known, board.plies) {
        return Some(Turn::Started(started));
    }
    if let Some(ruling) = board.belied_in(known) {
        return Some(Turn::Belied(ruling));
    }
    match known.standing(number) {
        Standing::Acked => Some(Turn::Acked),
        Standing::Ruled(ruling) => Some(Turn::Ruled(ruling)),
        Standing::Open => None,
    }
}

/// The end of a turn by what came, if it ends.
pub(crate) fn loss_of(next: Next) -> Option<Turn>
    ensures { result ≡ loss_by next }
{
    match next {
        Next::GoesOn | Next::Waited => None,
        Next::Clashed(clash) => Some(Turn::Clashed(clash)),
        Next::PortLost => Some(Turn::PortLost),
    }
}

/// The datagram of a move.
pub(crate) fn datagram_of(stamp: Stamp, number: u32, m: Move) -> [u8; 27]
    ensures { SpellsMessage result (move_message stamp number m) }
{
    let message = Message::Move {
        stamp,
        sender: Sender::Source,
        number,
        m,
    };
    message.encode()
}
