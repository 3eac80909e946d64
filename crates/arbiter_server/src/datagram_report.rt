//! The line for each datagram.

ghost use Rattle.std.specs.Prelude.{◌≡◌, ◌≤◌, ◌+◌, ◌++◌, cond, length};
ghost use Rattle.move_msg.specs.TextLines.{ended};
ghost use Rattle.arbiter_server.specs.ServedLines.{heard_line, heard_words, refused_datagram, refused_keeper, verdict_or_none};
ghost use Rattle.arbiter_server.specs.Serving.{is_loss};

use arbiter_core::DeliverFault;
use arrayvec::ArrayString;
use board_core::Verdict;
use itoa::Buffer;

/// The line for a datagram, without its line feed.
#[derive(Clone, Copy)]
pub enum DatagramReport {
    /// How many moves are recorded after it, and the verdict.
    Recorded(u32, Option<Verdict>),
    /// Why it is refused.
    Refused(DeliverFault),
    /// The keeper failed, now or before.
    KeeperLost,
    /// No datagram can be received.
    PortLost,
}

/// The text of a line, with its line feed. It takes no memory, so no line is lost where memory is refused.
pub type ReportText = ArrayString<64>;

/// The name of a verdict, or `none`.
pub fn verdict_or_none(verdict: Option<Verdict>) -> &'static str
    ensures value { result.now ≡ verdict_or_none verdict }
    ensures short { length result.now ≤ 10 }
{
    match verdict {
        None => "none",
        Some(verdict) => verdict.name(),
    }
}

/// The line of two texts, one after the other.
fn line_of(first: &str, second: &str) -> ReportText
    requires { length first.now + length second.now ≤ 40 }
    ensures { result.bytes ≡ ended (first.now ++ second.now) }
{
    let mut line = ArrayString::new();
    line.push_str(first);
    line.push_str(second);
    line.push_str("\n");
    line
}

/// The line for what is recorded.
fn recorded_line(count: u32, verdict: Option<Verdict>) -> ReportText
    ensures { result.bytes ≡ ended (heard_words count verdict) }
{
    let mut digits = Buffer::new();
    let mut line = ArrayString::new();
    line.push_str("ok ");
    line.push_str(digits.format(count));
    line.push_str(" ");
    line.push_str(verdict_or_none(verdict));
    line.push_str("\n");
    line
}

/// The line for why a datagram is refused.
fn refused_line(fault: DeliverFault) -> ReportText
    ensures { result.bytes ≡ ended (refused_datagram fault) }
{
    match fault {
        DeliverFault::NotAMessage(fault) => line_of("refused NotAMessage ", fault.name()),
        _ => line_of("refused ", fault.name()),
    }
}

impl DatagramReport {
    /// What is told of a refusal.
    pub fn refused(fault: DeliverFault) -> DatagramReport
        ensures { heard_line result ≡ cond (is_loss fault) refused_keeper (refused_datagram fault) }
    {
        match fault {
            DeliverFault::KeeperFailed | DeliverFault::Down => DatagramReport::KeeperLost,
            _ => DatagramReport::Refused(fault),
        }
    }

    /// The line.
    pub fn line(self) -> ReportText
        ensures { result.bytes ≡ ended (heard_line self) }
    {
        match self {
            DatagramReport::Recorded(count, verdict) => recorded_line(count, verdict),
            DatagramReport::Refused(fault) => refused_line(fault),
            DatagramReport::KeeperLost => line_of("refused ", "keeper"),
            DatagramReport::PortLost => line_of("refused ", "port"),
        }
    }
}
