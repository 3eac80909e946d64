//! What a port tells of those to whom it sends, and a disk or a file of what the system refuses.

use crate::recipient::Recipient;
use std::alloc::{AllocError, Global};
use std::io::{self, Write};
use std::net::SocketAddr;

/// Tells in a line what the system said of a path: the path in double quotes, escaped, a colon and its words. A line that can't be written
/// is left out.
pub(crate) fn tell_refused<W: Write + Drop>(mut writer: W, path: &str, error: &io::Error) {
    let _told = writeln!(writer, "{path:?}: {error}");
}

/// A writer for notes, and for each place of a port the address to which the last send failed. A note that can't be written is left
/// out.
#[derive(Drop)]
pub(crate) struct Notes<W: Write + Drop> {
    writer: W,
    lost: Vec<Option<SocketAddr>>,
}

impl<W: Write + Drop> Notes<W> {
    /// Notes for so many places, at none of which a send has failed.
    pub(crate) fn new(alloc: Global, writer: W, places: usize) -> Result<Notes<W>, AllocError> {
        let mut lost = Vec::new(alloc);
        for _ in 0..places {
            lost.push(None)?;
        }
        Ok(Notes { writer, lost })
    }

    /// Tells what a host name names. Nothing is told of an IP address and of `sender`.
    pub(crate) fn tell_name(&mut self, word: &str, who: Recipient) {
        if word.parse::<SocketAddr>().is_ok() {
            return;
        }
        let _told = match who {
            Recipient::At(address) => writeln!(self.writer, "to {word} {address}"),
            Recipient::Unknown => writeln!(self.writer, "to {word} unknown"),
            Recipient::Sender => Ok(()),
        };
    }

    /// Tells that sends to an address have begun to fail, or work again, by whether the last one was taken.
    pub(crate) fn tell_sent(&mut self, place: usize, address: SocketAddr, is_taken: bool) {
        let Some(lost) = self.lost.get_mut(place) else {
            return;
        };
        let was_lost = *lost == Some(address);
        if is_taken && was_lost {
            *lost = None;
            let _told = writeln!(self.writer, "back {address}");
        }
        if !is_taken && !was_lost {
            *lost = Some(address);
            let _told = writeln!(self.writer, "lost {address}");
        }
    }
}
