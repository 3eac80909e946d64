//! A listener in memory.

ghost use Rattle.std.specs.Prelude.{◌≡◌, ◌+◌, ◌≤◌, [], IfOk, OnErr, Some, count_by, is_some, reverse, vec_capacity, vec_len};
ghost use Rattle.http_loop.specs.Ends.{coming_stream, ends_stream};
ghost use Rattle.http_loop.specs.Streams.{Closes, Opens, Stays};
ghost use Rattle.http_loop.specs.Times.{LingerFrom, Remain};

use crate::listener::Listener;
use std::alloc::{AllocError, Global};
use std::io;
use std::io::{Cursor, ErrorKind};
use std::time::{Duration, Instant};

/// A stream that comes: what it will give, and what it has got before.
#[derive(Drop)]
pub struct Coming {
    /// The bytes that it will give.
    pub gives: Vec<u8>,
    /// Those that it has got.
    pub got: Vec<u8>,
}

/// A stream that was closed: as it came, and its ends as they were left.
#[derive(Drop)]
pub struct Left {
    /// As it came.
    pub came: Coming,
    /// What it had still to give.
    pub reader: Cursor<Vec<u8>>,
    /// What it had got.
    pub writer: Vec<u8>,
}

/// A listener whose streams, the last one first, give the bytes that are stated, and keep those that they get. None of them lingers.
#[derive(Drop)]
pub struct MemoryListener {
    alloc: Global,
    coming: Vec<Coming>,
    opened: Vec<Option<Coming>>,
    closed: Vec<Left>,
    ghost has_room: { vec_len closed + count_by is_some opened.items ≤ vec_capacity closed },
}

/// Both ends of a stream that comes.
fn ends_of(alloc: Global, coming: &Coming) -> Result<(Cursor<Vec<u8>>, Vec<u8>), AllocError>
    ensures { IfOk result (λ ends. ends_stream ends ≡ coming_stream coming.now) }
{
    let gives = Vec::from_slice(alloc, coming.gives.as_slice())?;
    let got = Vec::from_slice(alloc, coming.got.as_slice())?;
    Ok((Cursor::new(gives), got))
}

impl MemoryListener {
    ghost use Rattle.http_loop.specs.Memory.{closed_in, coming_at, memory_streams};
    ghost use Rattle.http_loop.specs.Streams.{HasNoOpen};

    /// A listener at which these come, the last one first, with so many keys at most. The error comes where memory is refused.
    pub fn new(
        alloc: Global,
        coming: Vec<Coming>,
        keys: usize,
    ) -> Result<MemoryListener, AllocError>
        ensures none { IfOk result (λ listener. HasNoOpen (Some (memory_streams listener))) }
        ensures coming { IfOk result (λ listener. coming_at listener ≡ reverse coming.items) }
        ensures closed { IfOk result (λ listener. closed_in listener ≡ []) }
    {
        let mut opened = Vec::new(alloc);
        for _ in 0..keys {
            opened.push(None)?;
        }
        Ok(MemoryListener {
            alloc,
            coming,
            opened,
            closed: Vec::new(alloc),
        })
    }

    /// The streams that were closed, in order.
    pub fn closed(&self) -> &[Left]
        ensures { result.now ≡ closed_in self.now }
    {
        self.closed.as_slice()
    }
}

impl Listener for MemoryListener {
    ghost use Rattle.http_loop.specs.Memory.{ComesFirst, coming_at, memory_streams, none_lingers};

    type Reader = Cursor<Vec<u8>>;

    type Writer = Vec<u8>;

    ghost streams = { λ listener. Some (memory_streams listener) };

    ghost lingering = { none_lingers };

    fn wait(&mut self, ready: &mut Vec<usize>, _time: Duration) -> io::Result<()>
        ensures streams { Stays (Some (memory_streams self.old)) (Some (memory_streams self.new)) }
        ensures lingering { Remain (none_lingers self.old) (none_lingers self.new) }
        ensures coming { coming_at self.new ≡ coming_at self.old }
    {
        for key in 0..self.opened.len() {
            if self.opened[key].is_some() {
                ready.push(key)?;
            }
        }
        Ok(())
    }

    fn accept(&mut self, key: usize) -> io::Result<(Cursor<Vec<u8>>, Vec<u8>)>
        ensures ok { IfOk result (λ ends. Opens (Some (memory_streams self.old)) (Some (memory_streams self.new)) key (ends_stream ends)) }
        ensures err { OnErr result (Stays (Some (memory_streams self.old)) (Some (memory_streams self.new))) }
        ensures lingering { none_lingers self.new ≡ none_lingers self.old }
        ensures first { IfOk result (λ ends. ComesFirst (coming_at self.old) (coming_at self.new) (ends_stream ends)) }
        ensures none { OnErr result (coming_at self.new ≡ coming_at self.old) }
    {
        let ends = match self.coming.last() {
            Some(coming) if key < self.opened.len() => ends_of(self.alloc, coming)?,
            _ => return Err(ErrorKind::WouldBlock.into()),
        };
        self.closed.reserve(self.opened.len())?;
        self.opened[key] = self.coming.pop();
        Ok(ends)
    }

    fn close(&mut self, key: usize, reader: Cursor<Vec<u8>>, writer: Vec<u8>, _now: Instant)
        ensures streams { Closes (Some (memory_streams self.old)) (Some (memory_streams self.new)) key (ends_stream (reader, writer)) }
        ensures lingering { LingerFrom _now (none_lingers self.old) (none_lingers self.new) }
        ensures coming { coming_at self.new ≡ coming_at self.old }
    {
        if key >= self.opened.len() {
            return;
        }
        let Some(came) = self.opened[key].take() else {
            return;
        };
        self.closed.push_reserved(Left {
            came,
            reader,
            writer,
        });
    }

    fn let_go(&mut self, _now: Instant, _limit: Duration) {}

    fn count_anew(&mut self, _now: Instant) {}
}
