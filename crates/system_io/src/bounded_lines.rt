//! A reader whose lines have an end.

ghost use Rattle.std.specs.Prelude.{◌≡◌, ◌≤◌, ◌<◌, ◌+◌, ◌++◌, [], drop, length, take};
ghost use Rattle.system_io.specs.ShortLines.{ReadsOn, given_for, given_left, in_front, short_lines, unended_after, unended_after_all};

use std::io::{self, Read};

/// How many bytes of a line are given, 65,536.
const MOST_LINE_BYTES: usize = 65_536;

/// A reader that gives at most 65,536 bytes of each line, and its line feed. The rest of a longer line is passed over. So a line without an
/// end takes no more memory than that, and is given as soon as so many bytes have come.
#[derive(Drop)]
pub struct BoundedLines<R: Read + Drop> {
    reader: R,
    /// How many bytes have come since the last line feed; of a line that is cut, one more than are given.
    came: usize,
}

/// What is given for a byte, where so many came since the last line feed: the byte; a line feed, where it is one more than are given of a
/// line; or nothing.
fn given_for(came: usize, byte: u8) -> Option<u8>
    ensures { result ≡ given_for came byte }
{
    if byte == b'\n' {
        return (came <= MOST_LINE_BYTES).then_some(b'\n');
    }
    if came < MOST_LINE_BYTES {
        return Some(byte);
    }
    (came == MOST_LINE_BYTES).then_some(b'\n')
}

/// How many bytes have come since the last line feed after a byte.
fn open_after(came: usize, byte: u8) -> usize
    ensures { result ≡ unended_after came byte }
{
    if byte == b'\n' {
        return 0;
    }
    if came > MOST_LINE_BYTES {
        came
    } else {
        came + 1
    }
}

impl<R: Read + Drop> BoundedLines<R> {
    /// A reader of which nothing is read yet.
    pub(crate) fn new(reader: R) -> BoundedLines<R> {
        BoundedLines { reader, came: 0 }
    }
}

/// Puts what is given for a byte behind so many bytes of a buffer. Returns how many are given then.
fn put_given(buf: &mut [u8], given: usize, next: Option<u8>) -> usize
    requires { given < length buf.old }
    ensures put { take result buf.new ≡ take given buf.old ++ in_front next [] }
    ensures rest { drop (given + 1) buf.new ≡ drop (given + 1) buf.old }
    ensures length { length buf.new ≡ length buf.old }
    ensures count { result ≤ given + 1 }
{
    match next {
        Some(byte) => {
            buf[given] = byte;
            given + 1
        }
        None => given,
    }
}

/// Replaces the first so many bytes of a buffer by what is given for them, at its front. Returns how many these are, and how many bytes
/// have come since the last line feed.
fn shorten(came: usize, buf: &mut [u8], count: usize) -> (usize, usize)
    requires { count ≤ length buf.old }
    ensures fits { result.0 ≤ count }
    ensures given { take result.0 buf.new ≡ short_lines came (take count buf.old) }
    ensures came { result.1 ≡ unended_after_all came (take count buf.old) }
    ensures length { length buf.new ≡ length buf.old }
{
    let mut given: usize = 0;
    let mut now = came;
    for place in 0..count {
        let byte = buf[place];
        given = put_given(buf, given, given_for(now, byte));
        now = open_after(now, byte);
    }
    (given, now)
}

impl<R: Read + Drop> BoundedLines<R> {
    /// Reads on once. Returns how many bytes are given for those that came, or that none came, as at the end.
    fn read_on(&mut self, buf: &mut [u8]) -> io::Result<Option<usize>>
        ensures { ReadsOn (given_left R.remaining self.old) (given_left R.remaining self.new) result buf.new }
    {
        let count = self.reader.read(buf)?;
        if count == 0 {
            return Ok(None);
        }
        let (given, came) = shorten(self.came, buf, count);
        self.came = came;
        Ok(Some(given))
    }
}

impl<R: Read + Drop> Read for BoundedLines<R> {
    ghost use Rattle.system_io.specs.ShortLines.{given_left};

    ghost remaining = { given_left R.remaining };

    fn read(&mut self, buf: &mut [u8]) -> io::Result<usize> {
        for _ in 0..u64::MAX {
            match self.read_on(buf)? {
                None => return Ok(0),
                Some(given) => {
                    if given > 0 {
                        return Ok(given);
                    }
                }
            }
        }
        Err(io::Error::from(io::ErrorKind::InvalidData))
    }
}
