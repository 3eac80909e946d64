//! What an arbiter of a game reports.

ghost use Rattle.std.specs.Prelude.{◌≡◌, Some, IfSome};
ghost use Rattle.source_core.specs.Reports.{message_of};
ghost use Rattle.move_msg.specs.Messages.{SpellsMessage};
ghost use Rattle.move_msg.specs.declared.stamp.Stamp.{Stamp};
ghost use Rattle.source_core.specs.declared.report.Report.{Report};

use board_core::Verdict;
use move_msg::{ArbiterId, Message, Stamp};

/// A verdict and its ply.
#[derive(Clone, Copy, PartialEq, Eq, Debug)]
pub struct Ruling {
    /// The ply after which the game ended, 0 to 4096.
    pub ply: u32,
    /// How it ended.
    pub verdict: Verdict,
}

/// What an arbiter reports of its record.
#[derive(Clone, Copy, PartialEq, Eq, Debug)]
pub enum Report {
    /// How many moves it has recorded.
    Acknowledges {
        /// The arbiter.
        who: ArbiterId,
        /// How many, 0 to 4096.
        count: u32,
    },
    /// Its verdict.
    Rules {
        /// The arbiter.
        who: ArbiterId,
        /// The verdict.
        ruling: Ruling,
    },
}

/// The report that a message makes, and the stamp of the game.
fn report_in(message: &Message) -> Option<(Stamp, Report)>
    ensures some { IfSome result (λ s. message.now ≡ message_of s.0 s.1) }
    ensures only { (stamp : Stamp) (r : Report) → message.now ≡ message_of stamp r → result ≡ Some (stamp, r) }
{
    match *message {
        Message::Ack { stamp, who, count } => Some((
            stamp,
            Report::Acknowledges {
                who,
                count: count.number(),
            },
        )),
        Message::Verdict {
            stamp,
            who,
            ply,
            verdict,
        } => Some((
            stamp,
            Report::Rules {
                who,
                ruling: Ruling {
                    ply: ply.number(),
                    verdict,
                },
            },
        )),
        Message::Move { .. } | Message::Fetch { .. } => None,
    }
}

/// The report of a datagram: an acknowledgement or a verdict of an arbiter of the game with this stamp. None for any
/// other datagram.
pub fn report_of(stamp: Stamp, datagram: &[u8]) -> Option<Report>
    ensures some { IfSome result (λ r. SpellsMessage datagram.now (message_of stamp r)) }
    ensures only { (r : Report) → SpellsMessage datagram.now (message_of stamp r) → result ≡ Some r }
{
    let message = match Message::decode(datagram) {
        Ok(message) => message,
        Err(_) => return None,
    };
    match report_in(&message) {
        Some((its, report)) if its == stamp => Some(report),
        _ => None,
    }
}
