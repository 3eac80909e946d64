//! A message as text.

ghost use Rattle.std.specs.Prelude.{Some};
ghost use Rattle.std.specs.Fmt.{DisplaysOnOk};
ghost use Rattle.move_msg.specs.MessageWords.{ack_words, fetch_words, move_words, verdict_message_words};
ghost use Rattle.move_msg.specs.Senders.{sender_number, who_number};

use crate::arbiter_id::{ArbiterId, Sender};
use crate::count::{Count, FetchCount};
use crate::message::Message;
use board_core::{Move, Verdict};
use fen_text::write_move;
use std::fmt;

/// Writes a move of the game and its number.
fn fmt_move<W: fmt::Write>(
    f: &mut fmt::Formatter<W>,
    sender: Sender,
    number: u32,
    m: &Move,
) -> fmt::Result
    ensures { DisplaysOnOk W.Write.write_str_gives f.old result (Some (move_words (sender_number sender) number m.now)) f.new }
{
    let sender = sender.number();
    let text = write_move(m);
    let text = text.as_str();
    write!(f, "Move {sender} {number} {text}")
}

/// Writes how many moves an arbiter keeps.
fn fmt_ack<W: fmt::Write>(f: &mut fmt::Formatter<W>, who: ArbiterId, count: Count) -> fmt::Result
    ensures { DisplaysOnOk W.Write.write_str_gives f.old result (Some (ack_words (who_number who) count)) f.new }
{
    let sender = who.number();
    let count = count.number();
    write!(f, "Ack {sender} {count}")
}

/// Writes an arbiter's verdict and its ply.
fn fmt_verdict<W: fmt::Write>(
    f: &mut fmt::Formatter<W>,
    who: ArbiterId,
    ply: Count,
    verdict: Verdict,
) -> fmt::Result
    ensures { DisplaysOnOk W.Write.write_str_gives f.old result (Some (verdict_message_words (who_number who) ply verdict)) f.new }
{
    let sender = who.number();
    let ply = ply.number();
    let name = verdict.name();
    write!(f, "Verdict {sender} {ply} {name}")
}

/// Writes which moves an arbiter requests.
fn fmt_fetch<W: fmt::Write>(
    f: &mut fmt::Formatter<W>,
    who: ArbiterId,
    number: Count,
    wanted: FetchCount,
) -> fmt::Result
    ensures { DisplaysOnOk W.Write.write_str_gives f.old result (Some (fetch_words (who_number who) number wanted)) f.new }
{
    let sender = who.number();
    let number = number.number();
    let wanted = wanted.number();
    write!(f, "Fetch {sender} {number} {wanted}")
}

/// A message as text, with single spaces between its words. They are its kind, its sender's number (0 the source, 1 or
/// 2 an arbiter) and its number. Then comes the move in coordinates, the verdict's name, or how many moves are
/// requested. The stamp is left out.
impl fmt::Display for Message {
    ghost use Rattle.std.specs.Prelude.{Some};
    ghost use Rattle.move_msg.specs.MessageWords.{message_words};

    ghost output = { λ m. Some (message_words m) };

    #[tactic(auto, unfolding(crate::specs::MessageWords::message_words))]
    fn fmt<W: fmt::Write>(&self, f: &mut fmt::Formatter<W>) -> fmt::Result {
        match *self {
            Message::Move {
                sender,
                number,
                ref m,
                ..
            } => fmt_move(f, sender, number, m),
            Message::Ack { who, count, .. } => fmt_ack(f, who, count),
            Message::Verdict {
                who,
                ply,
                verdict,
                ..
            } => fmt_verdict(f, who, ply, verdict),
            Message::Fetch {
                who,
                number,
                wanted,
                ..
            } => fmt_fetch(f, who, number, wanted),
        }
    }
}
