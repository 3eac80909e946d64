//! Ports, which receive and send datagrams.

ghost use Rattle.std.specs.Prelude.{◌≡◌, ◌≤◌, [], ◌∷◌, None, Ok, take, IfOk, IfSome, OnErr};
ghost use Rattle.std.specs.Duration.{as_nanos};
ghost use Rattle.system_io.specs.Failures.{Risen};
ghost use Rattle.system_io.specs.Ports.{PortFacts, Came, Quiet, Missed, Passed, to_each};

use std::net::SocketAddr;
use std::time::Duration;

/// What a sealed port passes on for a datagram without a right tag: 64 bytes that are zero. A port of the system never passes
/// them on.
pub const NO_TAG: [u8; 64] = [0; 64];

/// Why a call of a port failed.
#[derive(Clone, Copy)]
pub enum PortFault {
    /// It failed.
    Failed,
}

/// A port receives datagrams, and sends them to a list of addresses.
///
/// `Failed` comes only where the count of failures rose in this call. A count at its greatest value stays there and is
/// taken as risen.
pub trait Port {
    /// Its traffic, the count of its failures, and the number of addresses to which it sends.
    ghost facts: { Self → PortFacts };

    /// Waits for a datagram, copies its first 64 bytes to the front of the buffer, and returns how many they are.
    fn receive(&mut self, buffer: &mut [u8; 64]) -> Result<usize, PortFault>
        ensures length { IfOk result (λ n. n ≤ 64) }
        ensures came { IfOk result (λ n. Passed (facts self.old) (facts self.new) (Came (take n buffer.new) ∷ [])) }
        ensures missed { OnErr result (Passed (facts self.old) (facts self.new) (Missed ∷ [])) }
        ensures cause { OnErr result (Risen (facts self.old).faults (facts self.new).faults) };

    /// As `receive`, but waits at most `wait`. Where that is 0, only a datagram is taken that has already come. None where nothing came in
    /// time; the traffic then has `wait`, in nanoseconds. That so much time has passed by the system's clock is no clause.
    ///
    /// At a port of the system receives that follow one another with the same `wait`, with nothing sent between them and none of them
    /// without a datagram, wait so long together: the wait ends also where datagrams go on coming.
    fn receive_in_time(
        &mut self,
        wait: Duration,
        buffer: &mut [u8; 64],
    ) -> Result<Option<usize>, PortFault>
        ensures length { IfOk result (λ got. IfSome got (λ n. n ≤ 64)) }
        ensures came { IfOk result (λ got. IfSome got (λ n. Passed (facts self.old) (facts self.new) (Came (take n buffer.new) ∷ []))) }
        ensures quiet { result ≡ Ok None → Passed (facts self.old) (facts self.new) (Quiet (as_nanos wait) ∷ []) }
        ensures missed { OnErr result (Passed (facts self.old) (facts self.new) (Missed ∷ [])) }
        ensures cause { OnErr result (Risen (facts self.old).faults (facts self.new).faults) };

    /// The address from which the last datagram came, where that is told.
    fn sender(&self) -> Option<SocketAddr>;

    /// From now on, up to the next datagram, what would go to the sender of the last one goes to this one.
    fn answer(&mut self, sender: Option<SocketAddr>)
        ensures { facts self.new ≡ facts self.old };

    /// Sends a datagram to each address in turn. A send that fails does not prevent the others.
    fn send(&mut self, bytes: &[u8]) -> Result<(), PortFault>
        ensures handed { Passed (facts self.old) (facts self.new) (to_each (facts self.old).addresses bytes.now) }
        ensures cause { OnErr result (Risen (facts self.old).faults (facts self.new).faults) };

    /// How often the port has failed; at its greatest value the count stays.
    fn failures(&self) -> u64
        ensures { result ≡ (facts self.now).faults };
}
