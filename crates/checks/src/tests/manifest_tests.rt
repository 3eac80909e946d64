//! Digests and stamps from outside, names of games, and manifests.

use move_msg::laws;

#[test]
fn calls_the_laws(_rt: HostRuntime) {
    laws::one_move();
    laws::one_message();
    laws::one_manifest();
    laws::one_bad_line();
    laws::one_spelling();
    laws::one_record();
    laws::one_record_spelling();
    laws::one_reading();
    laws::reads_its_stream();
    laws::pieces_do_not_matter();
}
