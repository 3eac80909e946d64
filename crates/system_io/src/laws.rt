//! What holds of all answers that a UDP port sends.

ghost use Rattle.system_io.specs.Answers.{AnswersFollow, EachIsSent, NothingElseIsSent};

/// The answers to a datagram go, one after another, to each of those whom the words of the port name, where `sender` names the address
/// from which this datagram came.
pub fn answers_follow()
    ensures { AnswersFollow }
{}

/// They go to nobody else.
pub fn nothing_else_is_sent()
    ensures { NothingElseIsSent }
{}

/// Each of them goes to the sender, where the words have `sender`, and to each other address.
pub fn each_is_sent()
    ensures { EachIsSent }
{}
