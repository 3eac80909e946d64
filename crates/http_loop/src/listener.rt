//! Where streams come from.

ghost use Rattle.std.specs.Prelude.{◌≡◌, All, IfOk, Option, OnErr, filter, length, not};
ghost use Rattle.std.specs.Duration.{as_nanos};
ghost use Rattle.http_loop.specs.Streams.{Closes, Opens, Stays, Streams, stream_of};
ghost use Rattle.http_loop.specs.Times.{LingerFrom, Moments, Remain, has_passed};

use std::io;
use std::io::{Read, Write};
use std::time::{Duration, Instant};

/// An address at which streams come, none of whose calls waits but `wait`. Each stream has two ends, and a key while it is open. One that
/// was closed may linger: what its peer still sends is read and passed over, so that the last answer isn't lost.
pub trait Listener {
    /// The end from which what a stream gives is read.
    type Reader: Read + Drop;

    /// The end to which what it gets is written.
    type Writer: Write + Drop;

    // The streams that it accepted, where they are known.
    ghost streams: { Self → Option Streams };

    // Of each stream that lingers, when it was closed, or from when its time is counted.
    ghost lingering: { Self → Moments };

    /// Waits until a stream comes or some of those open are ready, or for so long, and adds the keys of these. The error comes where the
    /// system can't wait, or memory is refused.
    fn wait(&mut self, ready: &mut Vec<usize>, time: Duration) -> io::Result<()>
        ensures streams { Stays (streams self.old) (streams self.new) }
        ensures lingering { Remain (lingering self.old) (lingering self.new) };

    /// Accepts a stream that has come, under a key under which none is open. The error comes where there is none, or it can't be accepted now.
    fn accept(&mut self, key: usize) -> io::Result<(Self::Reader, Self::Writer)>
        ensures ok { IfOk result (λ ends. Opens (streams self.old) (streams self.new) key (stream_of Self.Reader.remaining Self.Writer.contents ends.0 ends.1)) }
        ensures err { OnErr result (Stays (streams self.old) (streams self.new)) }
        ensures lingering { lingering self.new ≡ lingering self.old };

    /// Closes the stream under a key, at this time. It may linger from then on.
    fn close(&mut self, key: usize, reader: Self::Reader, writer: Self::Writer, now: Instant)
        ensures streams { Closes (streams self.old) (streams self.new) key (stream_of Self.Reader.remaining Self.Writer.contents reader writer) }
        ensures lingering { LingerFrom now (lingering self.old) (lingering self.new) };

    /// Lets go of those that have lingered for longer than this, and of no other.
    fn let_go(&mut self, now: Instant, limit: Duration)
        ensures streams { Stays (streams self.old) (streams self.new) }
        ensures lingering { lingering self.new ≡ filter (λ closed. not (has_passed closed now (as_nanos limit))) (lingering self.old) };

    /// Counts the time of each that lingers from now on.
    fn count_anew(&mut self, now: Instant)
        ensures streams { Stays (streams self.old) (streams self.new) }
        ensures lingering { All (λ closed. closed ≡ now) (lingering self.new) }
        ensures all { length (lingering self.new) ≡ length (lingering self.old) };
}
