//! An answerer that counts bytes.

ghost use Rattle.std.specs.Prelude.{◌≡◌};
ghost use Rattle.std.specs.Fmt.{decimal};

use line_events::LineAnswerer;
use line_teller::{LineWords, TellFault};
use system_io::WriteFault;
use timeline::{Stream, System};

/// Answers the number of bytes of a line; an answer of one byte isn't complete. For an empty line memory is refused.
#[derive(Drop)]
pub(crate) struct Counting;

/// A count as a line.
fn count_line(count: usize) -> LineWords
    ensures { result ≡ decimal count }
{
    let mut line = LineWords::new();
    line.add_number(count);
    line
}

/// Whether the answer to a line of so many bytes is complete.
fn is_complete(count: usize) -> bool {
    count > 1
}

impl<S: System> LineAnswerer<S> for Counting {
    ghost use Rattle.std.specs.Prelude.{◌≡◌, List, ℕ, length};
    ghost use Rattle.std.specs.Fmt.{decimal};
    ghost use Rattle.line_events.specs.Writing.{at_once};
    ghost use Rattle.line_teller.specs.ToldLines.{LineTold};

    ghost Known = { Unit {0} };

    ghost reads_from = { λ _ _. Unit {0} };

    ghost known = { λ _. tt };

    ghost answering = { λ _. at_once (λ (line : List ℕ) (told : LineTold). told.words ≡ decimal (length line)) (λ _. Unit {0}) };

    fn answer_line(
        &mut self,
        system: &S,
        timeline: &mut S::Timeline,
        line: &[u8],
    ) -> Result<bool, TellFault> {
        if line.is_empty() {
            return Err(TellFault::OutOfMemory);
        }
        match count_line(line.len()).write(system, timeline, Stream::Output) {
            Ok(()) => Ok(is_complete(line.len())),
            Err(WriteFault::Io) => Err(TellFault::Io),
        }
    }
}
