//! Tests of files, ports and sources by their public calls, of what no contract says and no case of `rows` shows.
//!
//! Bytes, datagrams and calls that fail go in, over the instances in memory of `system_fakes` and over the system's own files and
//! sockets; a test comes to its end, or it ends the process where what was kept or sent is another thing.
//!
//! - `calls_tests`, `disk_file_tests`: files in memory that fail and lose power
//! - `kept_tests`: the system's files
//! - `loop_tests`: connections over streams in memory
//! - `mode_tests`: files with their modes, in memory and of the system
//! - `port_tests`: the system's sockets, over the loopback
//! - `sealed_tests`: sealed ports, systems with keys, and files of keys
//! - `source_tests`: a source whose datagrams are lost, over a system in memory (`source_port`)
//! - `output_tests`: reads and writes that fail
//!
//! `comparing` and `no_stores` are what these tests share. All stand in `src/tests/`. What other crates' tests use too stands in
//! `check_helpers`, whose head says what is a test and how to run one. It has no definitions of its own.
#![tactic(auto)]

#[cfg(test)]
mod tests;
