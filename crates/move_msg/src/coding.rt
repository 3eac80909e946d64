//! Messages as bytes.

ghost use Rattle.std.specs.Prelude.{◌≡◌, ◌≢◌, ◌<◌, ◌^◌, length, slice_index, IfSome, IfOk, IfErr, Ok, Err, Some};
ghost use Rattle.move_msg.specs.Messages.{SpellsMessage, IsFirstMessageFault, HasHead, frame, version_by};
ghost use Rattle.move_msg.specs.Heard.{heard_in};
ghost use Rattle.move_msg.specs.Inside.Layouts.{HasFields, fields_at, kind_number, version_number};
ghost use Rattle.move_msg.specs.declared.message.Message.{Message};
ghost use Rattle.move_msg.specs.declared.message.MessageFault.{MessageFault};

use crate::arbiter_id::{ArbiterId, Sender};
use crate::count::{Count, FetchCount};
use crate::message::{Message, MessageFault};
use crate::stamp::Stamp;
use crate::words::{of_word, word};
use arrayvec::ArrayVec;
use board_core::Verdict;
use byteorder::{BigEndian, ByteOrder};

/// The kinds of messages.
#[derive(Clone, Copy)]
enum MessageKind {
    Move,
    Ack,
    Verdict,
    /// A move that an arbiter sends.
    Relayed,
    Fetch,
}

/// What follows the kind in a message.
#[derive(Clone, Copy)]
struct Fields {
    stamp: Stamp,
    sender: u8,
    number: u32,
    word: u16,
}

/// The fields of 27 bytes by their places.
#[tactic(auto, unfolding(crate::specs::Inside::Layouts::fields_at))]
fn fields_in(bytes: &[u8]) -> Fields
    requires { length bytes.now ≡ 27 }
    ensures { result ≡ fields_at bytes.now }
{
    let mut stamp = [0; 16];
    stamp.copy_from_slice(&bytes[4..20]);
    Fields {
        stamp: Stamp(stamp),
        sender: bytes[20],
        number: u32::from_be_bytes([bytes[21], bytes[22], bytes[23], bytes[24]]),
        word: u16::from_be_bytes([bytes[25], bytes[26]]),
    }
}

/// The move that the source sends with these fields.
fn move_of(fields: &Fields) -> Option<Message>
    requires { fields.now.number < 2 ^ 32 }
    ensures some { IfSome result (λ m. HasFields MessageKind.Move fields.now m) }
    ensures only { (m : Message) → HasFields MessageKind.Move fields.now m → result ≡ Some m }
{
    if fields.sender != 0 {
        return None;
    }
    match of_word(fields.word) {
        Some(m) => Some(Message::Move {
            stamp: fields.stamp,
            sender: Sender::Source,
            number: fields.number,
            m,
        }),
        None => None,
    }
}

/// The number of moves that an arbiter acknowledges with these fields.
fn ack_of(fields: &Fields) -> Option<Message>
    ensures some { IfSome result (λ m. HasFields MessageKind.Ack fields.now m) }
    ensures only { (m : Message) → HasFields MessageKind.Ack fields.now m → result ≡ Some m }
{
    let Some(who) = ArbiterId::of_number(fields.sender) else {
        return None;
    };
    let Some(count) = Count::new(fields.number) else {
        return None;
    };
    if fields.word != 0 {
        return None;
    }
    Some(Message::Ack {
        stamp: fields.stamp,
        who,
        count,
    })
}

/// The verdict that an arbiter reports with these fields.
fn verdict_of(fields: &Fields) -> Option<Message>
    ensures some { IfSome result (λ m. HasFields MessageKind.Verdict fields.now m) }
    ensures only { (m : Message) → HasFields MessageKind.Verdict fields.now m → result ≡ Some m }
{
    let Some(who) = ArbiterId::of_number(fields.sender) else {
        return None;
    };
    let Some(ply) = Count::new(fields.number) else {
        return None;
    };
    if fields.word > 255 {
        return None;
    }
    let Some(verdict) = Verdict::from_code(fields.word as u8) else {
        return None;
    };
    Some(Message::Verdict {
        stamp: fields.stamp,
        who,
        ply,
        verdict,
    })
}

/// The move that an arbiter sends with these fields.
fn relayed_of(fields: &Fields) -> Option<Message>
    requires { fields.now.number < 2 ^ 32 }
    ensures some { IfSome result (λ m. HasFields MessageKind.Relayed fields.now m) }
    ensures only { (m : Message) → HasFields MessageKind.Relayed fields.now m → result ≡ Some m }
{
    let Some(who) = ArbiterId::of_number(fields.sender) else {
        return None;
    };
    match of_word(fields.word) {
        Some(m) => Some(Message::Move {
            stamp: fields.stamp,
            sender: Sender::Arbiter(who),
            number: fields.number,
            m,
        }),
        None => None,
    }
}

/// The moves that an arbiter requests with these fields.
fn fetch_of(fields: &Fields) -> Option<Message>
    ensures some { IfSome result (λ m. HasFields MessageKind.Fetch fields.now m) }
    ensures only { (m : Message) → HasFields MessageKind.Fetch fields.now m → result ≡ Some m }
{
    let Some(who) = ArbiterId::of_number(fields.sender) else {
        return None;
    };
    let Some(number) = Count::new(fields.number) else {
        return None;
    };
    if fields.word > 255 {
        return None;
    }
    let Some(wanted) = FetchCount::new(fields.word as u8) else {
        return None;
    };
    Some(Message::Fetch {
        stamp: fields.stamp,
        who,
        number,
        wanted,
    })
}

/// What stands for a datagram without a right tag.
const NO_TAG: [u8; 64] = [0; 64];

/// The fault of bytes that are not 27.
fn length_fault(bytes: &[u8]) -> MessageFault
    requires { length bytes.now ≢ 27 }
    ensures is { IsFirstMessageFault bytes.now result }
    ensures other { result ≡ MessageFault.BadField → ⊥ }
{
    if bytes == NO_TAG.as_slice() {
        MessageFault::NoTag
    } else {
        MessageFault::BadLength
    }
}

/// The kind of 27 bytes that begin like a message.
fn kind_in(bytes: &[u8]) -> Result<MessageKind, MessageFault>
    ensures ok { IfOk result (λ kind. (length bytes.now ≡ 27) × HasHead bytes.now × (slice_index bytes.now 2 ≡ version_number kind) × (slice_index bytes.now 3 ≡ kind_number kind)) }
    ensures err { IfErr result (IsFirstMessageFault bytes.now) }
    ensures other { IfErr result (λ fault. fault ≡ MessageFault.BadField → ⊥) }
{
    if bytes.len() != 27 {
        return Err(length_fault(bytes));
    }
    if !(bytes[0] == b'S' && bytes[1] == b'A' && (bytes[2] == 1 || bytes[2] == 2)) {
        return Err(MessageFault::BadHead);
    }
    if bytes[2] == 2 {
        return match bytes[3] {
            1 => Ok(MessageKind::Relayed),
            4 => Ok(MessageKind::Fetch),
            _ => Err(MessageFault::BadKind),
        };
    }
    match bytes[3] {
        1 => Ok(MessageKind::Move),
        2 => Ok(MessageKind::Ack),
        3 => Ok(MessageKind::Verdict),
        _ => Err(MessageFault::BadKind),
    }
}

/// The message of a kind with these fields.
fn message_of(kind: MessageKind, fields: &Fields) -> Option<Message>
    requires { fields.now.number < 2 ^ 32 }
    ensures some { IfSome result (λ m. HasFields kind fields.now m) }
    ensures only { (m : Message) → HasFields kind fields.now m → result ≡ Some m }
{
    match kind {
        MessageKind::Move => move_of(fields),
        MessageKind::Ack => ack_of(fields),
        MessageKind::Verdict => verdict_of(fields),
        MessageKind::Relayed => relayed_of(fields),
        MessageKind::Fetch => fetch_of(fields),
    }
}

impl MessageKind {
    /// The kind's number in a message.
    fn number(self) -> u8
        ensures { result ≡ kind_number self }
    {
        match self {
            MessageKind::Move => 1,
            MessageKind::Ack => 2,
            MessageKind::Verdict => 3,
            MessageKind::Relayed => 1,
            MessageKind::Fetch => 4,
        }
    }

    /// The version of messages of the kind.
    fn version(self) -> u8
        ensures { result ≡ version_number self }
    {
        match self {
            MessageKind::Move | MessageKind::Ack | MessageKind::Verdict => 1,
            MessageKind::Relayed | MessageKind::Fetch => 2,
        }
    }
}

/// The bytes of a message.
#[tactic(auto, unfolding(crate::specs::Messages::frame))]
fn frame(kind: MessageKind, stamp: Stamp, sender: u8, number: u32, word: u16) -> [u8; 27]
    ensures text { result ≡ frame (version_number kind) (kind_number kind) stamp sender number word }
    ensures fits { (length stamp ≡ 16) × (number < 2 ^ 32) }
{
    let mut number_bytes = [0; 4];
    BigEndian::write_u32(&mut number_bytes, number);
    let mut word_bytes = [0; 2];
    BigEndian::write_u16(&mut word_bytes, word);
    let mut out: ArrayVec<u8, 27> = ArrayVec::new();
    out.try_extend_from_slice(&[b'S', b'A', kind.version(), kind.number()])
        .unwrap();
    out.try_extend_from_slice(stamp.as_bytes()).unwrap();
    out.push(sender);
    out.try_extend_from_slice(&number_bytes).unwrap();
    out.try_extend_from_slice(&word_bytes).unwrap();
    out.into_inner().unwrap()
}

/// The kind of a move message, by its sender.
fn kind_by(sender: Sender) -> MessageKind
    ensures version { version_number result ≡ version_by sender }
    ensures kind { kind_number result ≡ 1 }
{
    match sender {
        Sender::Source => MessageKind::Move,
        Sender::Arbiter(_) => MessageKind::Relayed,
    }
}

impl Message {
    /// The 27 bytes of the message (message format), its only encoding.
    pub fn encode(&self) -> [u8; 27]
        ensures { SpellsMessage result self.now }
    {
        match *self {
            Message::Move {
                stamp,
                sender,
                number,
                m,
            } => frame(kind_by(sender), stamp, sender.number(), number, word(m)),
            Message::Ack { stamp, who, count } => {
                frame(MessageKind::Ack, stamp, who.number(), count.number(), 0)
            }
            Message::Verdict {
                stamp,
                who,
                ply,
                verdict,
            } => frame(
                MessageKind::Verdict,
                stamp,
                who.number(),
                ply.number(),
                verdict.code() as u16,
            ),
            Message::Fetch {
                stamp,
                who,
                number,
                wanted,
            } => frame(
                MessageKind::Fetch,
                stamp,
                who.number(),
                number.number(),
                wanted.number() as u16,
            ),
        }
    }

    /// The message that the bytes encode (message format), or their first fault: `NoTag`, `BadLength`, `BadHead`,
    /// `BadKind` or `BadField`.
    pub fn decode(bytes: &[u8]) -> Result<Message, MessageFault>
        ensures ok { IfOk result (SpellsMessage bytes.now) }
        ensures only { (m : Message) → SpellsMessage bytes.now m → result ≡ Ok m }
        ensures err { IfErr result (IsFirstMessageFault bytes.now) }
        ensures only_fault { (fault : MessageFault) → IsFirstMessageFault bytes.now fault → result ≡ Err fault }
        ensures computed { result ≡ heard_in bytes.now }
    {
        match kind_in(bytes) {
            Err(fault) => Err(fault),
            Ok(kind) => match message_of(kind, &fields_in(bytes)) {
                Some(message) => Ok(message),
                None => Err(MessageFault::BadField),
            },
        }
    }
}
