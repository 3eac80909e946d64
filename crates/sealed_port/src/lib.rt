//! A system whose datagrams carry a tag, by which only those who have the key can make them.
//!
//! `KeyedSystem` is a `System` of `timeline` over another one, whose timeline and all else but the ports it has. What a port sends goes out
//! with a tag behind it: the first 16 bytes of the HMAC-SHA-256 (RFC 2104, over FIPS 180-4) of the bytes under the first key. What comes is
//! passed on without its tag where that is right under one of the keys. For any other datagram it passes on 64 bytes that are zero, which
//! `move_msg` reads as `NoTag`. What happened is seen by what happened below (`seen`), until a datagram of more than 48 bytes is left out,
//! which is noted below: from then on it isn't known (`keyed_events`).
//!
//! `Keys::read` reads a file of keys: one line or two, each of 64 lower-case hexadecimal digits (FORMATS, section 8). `MacKey` keeps
//! both digests of a key as they stand behind its block. Tags are compared without an early end (`is_same`); no clause says so, since
//! a clause says nothing of time.
//!
//! Inside: `mac` (HMAC), `key_file`, `seal_port` (`Keys`, tags), `keyed_system` (`KeyedSystem`), `laws`.
//!
//! Definitions, in reading order: `Hmac`, `Sealing`, `KeyFiles`, `KeyedSystems`, `Laws`. Its tests stand in `checks_io` (`sealed_tests`);
//! cases are in `sealed.txt` of `rows`, and `tools/forge` tries a forger against real arbiters.
//!
//! - CLAIM: `MacKey::hmac`: the HMAC of a text is that of RFC 2104 over SHA-256.
//! - CLAIM: `laws::only_sealed_is_passed_on`; `laws::sealed_is_passed_on`: nothing but 64 zeros is passed on for a datagram that isn't
//!   sealed by one of the keys, and what is sealed is passed on.
//! - CLAIM: `KeyedSystem`, clauses `outside`, `one`: each call does what `System` says, by the events as they are seen. A datagram that comes
//!   is seen as what is passed on of it, and one that was sent counts only with the tag of the first key.
//! - CLAIM: `KeyedSystem::send`, clauses `short`, `long`: bytes go to each recipient with their tag under the first key, and nothing else is
//!   sent. Of more than 48 bytes nothing goes out: that is noted and nothing else happens below, and the call fails and is counted.
//! - CLAIM: `Keys::read`, clauses `ok`, `err`: a file of keys is read exactly where it has one line or two of 64 lower-case
//!   hexadecimal digits; else the first fault is told.
#![tactic(auto)]

mod key_file;
mod keyed_system;
pub mod laws;
mod mac;
mod seal_port;

pub use key_file::{KeyFault, MOST_KEY_BYTES};
pub use keyed_system::{KeyedPort, KeyedSystem};
pub use mac::MacKey;
pub use seal_port::{Keys, MOST_BYTES};
