//! Connections over streams in memory.

use crate::tests::comparing::{check_bytes, push_bytes};
use bytes::{BufMut, Bytes};
use http::Request;
use http_loop::{Coming, Limits, MemoryListener, Server};
use http_server::{Config, Response, Service};
use std::alloc::{AllocError, Global};
use std::hash::RandomState;
use std::process::Abort;
use std::random::RandomSource;
use std::time::{Clock, Duration};

/// Answers with the path that is asked for.
#[derive(Drop)]
struct Echo;

impl Service for Echo {
    ghost answers = { λ old request response new. Unit {0} };

    fn call(
        &mut self,
        request: &Request<Bytes>,
        response: &mut Response,
    ) -> Result<(), AllocError> {
        let path = request.uri().path();
        response.body.put_slice(path.as_bytes())
    }
}

/// A stream that gives these bytes, and has got nothing.
fn coming(rt: &impl Abort, alloc: Global, gives: &[u8]) -> Coming {
    let mut bytes = Vec::new(alloc);
    push_bytes(rt, &mut bytes, gives);
    Coming {
        gives: bytes,
        got: Vec::new(alloc),
    }
}

/// What each stream has got once it was closed, in the order in which they were closed.
fn served<R: Abort + Clock + RandomSource>(
    rt: &R,
    alloc: Global,
    gives: &[&[u8]],
    connections: usize,
) -> Vec<u8> {
    let mut streams = Vec::new(alloc);
    for bytes in gives {
        streams.push(coming(rt, alloc, bytes)).expect(rt, "memory");
    }
    let listener = MemoryListener::new(alloc, streams, 8).expect(rt, "memory");
    let limits = Limits {
        config: Config {
            max_pending: 0,
            ..Config::default()
        },
        connections,
        exchange: Duration::from_secs(60),
        sweep: Duration::from_secs(60),
    };
    let keys = RandomState::new(rt).expect(rt, "keys");
    let mut server = Server::new(rt, alloc, keys, limits, listener).expect(rt, "clock");
    for _ in 0..8 {
        server.round(&mut Echo).expect(rt, "round");
    }
    server.close();
    let mut text = Vec::new(alloc);
    for left in server.listener().closed() {
        push_bytes(rt, &mut text, left.writer.as_slice());
        push_bytes(rt, &mut text, b"|");
    }
    text
}

#[test]
fn each_stream_gets_its_own_answers(rt: HostRuntime) {
    let one = b"GET /one HTTP/1.1\r\nHost: x\r\n\r\nGET /more HTTP/1.1\r\nHost: x\r\n\r\n";
    let two = b"GET /two HTTP/1.1\r\nHost: x\r\nConnection: close\r\n\r\nGET /lost HTTP/1.1\r\n";
    let half = b"GET /thr";
    let got = served(&rt, rt.alloc(), &[one, two, half], 8);
    // The last one comes first. A half request is refused.
    check_bytes(
        &rt,
        got.as_slice(),
        b"HTTP/1.1 400 Bad Request\r\nconnection: close\r\ncontent-length: 0\r\n\r\n|HTTP/1.1 200 OK\r\ncontent-length: 4\r\nconnection: close\r\n\r\n/two|HTTP/1.1 200 OK\r\ncontent-length: 4\r\n\r\n/oneHTTP/1.1 200 OK\r\ncontent-length: 5\r\n\r\n/more|",
        "three streams",
    );
}

#[test]
fn one_stream_more_takes_the_place_of_the_first(rt: HostRuntime) {
    let one = b"GET /one HTTP/1.1\r\nHost: x\r\n\r\n";
    let got = served(&rt, rt.alloc(), &[one, one, one], 1);
    check_bytes(
        &rt,
        got.as_slice(),
        b"||HTTP/1.1 200 OK\r\ncontent-length: 4\r\n\r\n/one|",
        "three streams, one at a time",
    );
}
