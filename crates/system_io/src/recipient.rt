//! To whom a port sends.

ghost use Rattle.std.specs.Prelude.{◌≡◌, ◌↔◌, map, IfOk, IfSome, IsTrue};
ghost use Rattle.std.specs.List.{All};
ghost use Rattle.system_io.specs.Recipients.{IsAddressed, IsOfKind, Names, addressed_word};

use std::alloc::{AllocError, Global};
use std::net::{Net, SocketAddr, ToSocketAddrs};

/// The word for whoever sent the datagram that came last.
pub const SENDER: &str = "sender";

/// Whom a word of a port names.
#[derive(Clone, Copy)]
pub enum Recipient {
    /// The one at this address.
    At(SocketAddr),
    /// Nobody: the word is a host name that wasn't found.
    Unknown,
    /// Whoever sent the datagram that came last.
    Sender,
}

/// A word of a port, and whom it names.
#[derive(Drop)]
pub(crate) struct Addressed {
    pub(crate) word: String,
    pub(crate) who: Recipient,
}

/// Whether an address is of the kind, IPv4 or IPv6, of a port's own. Each is where that isn't known.
fn is_of_kind(own: Option<SocketAddr>, address: SocketAddr) -> bool
    ensures { IsTrue result ↔ IsOfKind own address }
{
    match own {
        Some(own) => own.is_ipv4() == address.is_ipv4(),
        None => true,
    }
}

/// The first address of a host name that is of the kind of a port's own. To one of the other kind the port can't send.
fn looked_up<N: Net>(net: &N, word: &str, own: Option<SocketAddr>) -> Option<SocketAddr>
    ensures { IfSome result (IsOfKind own) }
{
    let Ok(found) = word.to_socket_addrs(net) else {
        return None;
    };
    for address in found {
        if is_of_kind(own, address) {
            return Some(address);
        }
    }
    None
}

impl Recipient {
    /// Whom a word names: `sender`, or an IP address and a port, or a host name and a port. A host name is looked up: it names its first
    /// address of the kind, IPv4 or IPv6, of the port's own address, where that is known, and else its first one.
    pub fn of<N: Net>(net: &N, word: &str, own: Option<SocketAddr>) -> Recipient
        ensures { Names own word.now result }
    {
        if word == SENDER {
            return Recipient::Sender;
        }
        if let Ok(address) = word.parse::<SocketAddr>() {
            return Recipient::At(address);
        }
        match looked_up(net, word, own) {
            Some(address) => Recipient::At(address),
            None => Recipient::Unknown,
        }
    }
}

/// A word, and whom it names.
fn addressed_one<N: Net>(
    net: &N,
    alloc: Global,
    word: &str,
    own: Option<SocketAddr>,
) -> Result<Addressed, AllocError>
    ensures word { IfOk result (λ one. addressed_word one ≡ word.now) }
    ensures names { IfOk result (IsAddressed own) }
{
    let who = Recipient::of(net, word, own);
    Ok(Addressed {
        word: String::from_str(alloc, word)?,
        who,
    })
}

/// The words of a port with this own address, and whom they name.
pub(crate) fn all_addressed<N: Net>(
    net: &N,
    alloc: Global,
    words: &[&str],
    own: Option<SocketAddr>,
) -> Result<Vec<Addressed>, AllocError>
    ensures words { IfOk result (λ all. map addressed_word all.items ≡ map (λ s. s.now) words.now) }
    ensures names { IfOk result (λ all. All (IsAddressed own) all.items) }
{
    let mut all = Vec::new(alloc);
    for word in words {
        all.push(addressed_one(net, alloc, word, own)?)?;
    }
    Ok(all)
}
