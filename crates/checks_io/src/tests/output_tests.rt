//! How a program ends.

use crate::tests::comparing::check_same;
use check_helpers::Failing;
use std::alloc::Global;
use std::io::Write;
use std::process::Abort;
use system_io::{BufferedOutput, WriteFault, end};

/// A buffer that holds three bytes, over a writer that fails at the call of this number, the first being 0.
fn buffer(rt: &impl Abort, alloc: Global, fails_at: u32) -> BufferedOutput<Failing> {
    let mut out = BufferedOutput::new(alloc, Failing::at(fails_at)).expect(rt, "memory");
    out.write_all(b"abc").expect(rt, "room in the buffer");
    out
}

/// The status at the end of such a buffer.
fn status(rt: &impl Abort, alloc: Global, fails_at: u32, answered: Result<u8, WriteFault>) -> u8 {
    end(&mut buffer(rt, alloc, fails_at), answered)
}

/// The answer's status where all goes out, and 1 where something doesn't or was not written.
#[test]
fn the_end_tells_what_went_out(rt: HostRuntime) {
    let rows = [
        (1, Ok(0), 0),
        (1, Ok(2), 2),
        (0, Ok(0), 1),
        (1, Err(WriteFault::Io), 1),
        (0, Err(WriteFault::Io), 1),
    ];
    for (fails_at, answered, wanted) in rows {
        let told = status(&rt, rt.alloc(), fails_at, answered);
        check_same(&rt, told, wanted, "status");
    }
}
