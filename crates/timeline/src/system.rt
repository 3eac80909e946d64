//! Everything outside of a program.

ghost use Rattle.std.specs.Prelude.{◌≡◌, ◌≤◌, ◌⊎◌, ◌↔◌, [], ◌∷◌, ℕ, List, None, Ok, Option, Some, true, length, map, option_map, string_bytes, IfErr, IfOk, IfSome, IsErrOf, IsSome, IsTrue, OnErr, OnOk};
ghost use Rattle.std.specs.Io.KnownBytes.{Keeps};
ghost use Rattle.std.specs.List.{Contains};
ghost use Rattle.system_io.specs.Disks.{AtFile, AtFolder, HasMore, IsNoSmallFile, most_bytes};
ghost use Rattle.system_io.specs.Failures.{Counts, Risen};
ghost use Rattle.system_io.specs.KeptFiles.{CannotStart, IsOneOfFound, bytes_of};
ghost use Rattle.system_io.specs.LineReaders.{ReadsIfAny};
ghost use Rattle.system_io.specs.Outputs.{WritesFront};
ghost use Rattle.system_io.specs.Records.{AreSame, GivesBack, IsSettled, records_of, with_all};
ghost use Rattle.timeline.specs.Events.{FileOpened, FileRead, FileSought, FileWithModeRead, Flushed, FolderListed, Found, FromFile, FromInput, InputRead, LinesOpened, Locked, Noted, PortBound, Put, RecordSought, Refused, StoreOpened};
ghost use Rattle.timeline.specs.Events.{IsWritten, by_result, bytes_found, bytes_read, came_in_time, came_or_missed, commit_event, done_by, found_by, is_done, line_event, line_of, mode_read, names_read};
ghost use Rattle.timeline.specs.Outsides.{Adds, AddsSome, AreNamed, FailsOrIsKnown, HeardNothing, IsConsistent, LeavesBatchOrNot, LeavesOldOrNew, Outside, SendsToSame, sent_by};

use crate::stream::Stream;
use std::alloc::{AllocError, Global};
use std::io;
use std::net::SocketAddr;
use std::time::Duration;
use system_io::{
    BindFault, Entry, FileWithMode, Key, LockFault, PortFault, PutFault, ReadFault, StoreFault,
    WriteFault,
};

/// Everything outside of a program. What is known of it doesn't change. What happens goes into the timeline that each call is lent, of
/// which there is one for each system; so two calls of any kind have an order. Nothing is recorded at run time.
///
/// A run binds one port and reads the lines of one input at a time, so events name neither.
pub trait System {
    /// What happened so far. Nothing but the system makes one.
    type Timeline;

    /// A port, which receives and sends datagrams.
    type Port: Drop;

    /// A file in which something is kept.
    type File: Drop;

    /// What keeps other processes from a file, until it is dropped or the process ends.
    type Lock: Drop;

    /// A store of records.
    type Store: Drop;

    /// Lines that are read one by one.
    type Lines: Drop;

    /// All that is known.
    ghost outside: { Self → Outside Self.Timeline Self.Port Self.File Self.Lock Self.Store Self.Lines };

    /// The names in a folder, in any order. A name that is not UTF-8 is left out.
    fn names(
        &self,
        timeline: &mut Self::Timeline,
        alloc: Global,
        folder: &str,
    ) -> Result<Vec<String>, ReadFault>
        ensures listed { IfOk result (λ names. (outside self.now).disk.lists folder.now (map string_bytes names.items)) }
        ensures cause { IsErrOf result ReadFault.Unreadable → (outside self.now).disk.fails (AtFolder folder.now) }
        ensures made { Adds (outside self.now) timeline.old timeline.new (FolderListed folder.now (names_read result) ∷ []) };

    /// All bytes of a file, at most 2^30. Where it can't be read, that is reported to whoever runs the program.
    fn read(
        &self,
        timeline: &mut Self::Timeline,
        alloc: Global,
        path: &str,
    ) -> Result<Vec<u8>, ReadFault>
        ensures bytes { IfOk result (λ bytes. (outside self.now).disk.holds path.now bytes.items) }
        ensures short { IfOk result (λ bytes. length bytes.items ≤ most_bytes) }
        ensures cause { IsErrOf result ReadFault.Unreadable → (outside self.now).disk.fails (AtFile path.now) }
        ensures made { Adds (outside self.now) timeline.old timeline.new (FileRead path.now (bytes_read result) ∷ []) };

    /// All bytes of a file of at most this many. Of a longer one only the size is read, or one byte more than that.
    fn read_within(
        &self,
        timeline: &mut Self::Timeline,
        alloc: Global,
        path: &str,
        most: u64,
    ) -> Result<Vec<u8>, ReadFault>
        ensures bytes { IfOk result (λ bytes. (outside self.now).disk.holds path.now bytes.items) }
        ensures short { IfOk result (λ bytes. length bytes.items ≤ most) }
        ensures cause { IsErrOf result ReadFault.Unreadable → (outside self.now).disk.fails (AtFile path.now) ⊎ HasMore (outside self.now).disk path.now most }
        ensures made { Adds (outside self.now) timeline.old timeline.new (FileRead path.now (bytes_read result) ∷ []) };

    /// All bytes, at most this many, of a file that need not be there, so that nothing is reported where it can't be read.
    fn look_within(
        &self,
        timeline: &mut Self::Timeline,
        alloc: Global,
        path: &str,
        most: u64,
    ) -> Result<Vec<u8>, ReadFault>
        ensures bytes { IfOk result (λ bytes. (outside self.now).disk.holds path.now bytes.items) }
        ensures short { IfOk result (λ bytes. length bytes.items ≤ most) }
        ensures cause { IsErrOf result ReadFault.Unreadable → (outside self.now).disk.fails (AtFile path.now) ⊎ HasMore (outside self.now).disk path.now most }
        ensures made { Adds (outside self.now) timeline.old timeline.new (FileSought path.now (bytes_read result) ∷ []) };

    /// All bytes of a regular file of at most this many, and the mode that it has while it is open. What is no regular file, such as
    /// a folder, a device or a named pipe, isn't waited for: it can't be read. A link is followed.
    fn read_with_mode(
        &self,
        timeline: &mut Self::Timeline,
        alloc: Global,
        path: &str,
        most: u64,
    ) -> Result<FileWithMode, ReadFault>
        ensures bytes { IfOk result (λ f. (outside self.now).disk.holds path.now f.bytes.items) }
        ensures short { IfOk result (λ f. length f.bytes.items ≤ most) }
        ensures mode { IfOk result (λ f. (outside self.now).disk.has_mode path.now f.mode) }
        ensures cause { IsErrOf result ReadFault.Unreadable → IsNoSmallFile (outside self.now).disk path.now most }
        ensures made { Adds (outside self.now) timeline.old timeline.new (FileWithModeRead path.now (mode_read result) ∷ []) };

    /// All bytes of the input, at most 2^30.
    fn read_input(&self, timeline: &mut Self::Timeline, alloc: Global) -> Result<Vec<u8>, ReadFault>
        ensures bytes { IfOk result (λ bytes. (outside self.now).input.gives bytes.items) }
        ensures short { IfOk result (λ bytes. length bytes.items ≤ most_bytes) }
        ensures cause { IsErrOf result ReadFault.Unreadable → (outside self.now).input.fails }
        ensures memory { IsErrOf result ReadFault.OutOfMemory → (outside self.now).input.takes_memory }
        ensures made { Adds (outside self.now) timeline.old timeline.new (InputRead (bytes_read result) ∷ []) };

    /// The lines of a regular file, whatever its size, none of them read yet. What is no regular file isn't waited for: it can't be
    /// read. A link is followed. A disk whose contents are stated gives all bytes of the lines. `OutOfMemory` where memory for the
    /// read-ahead buffer is refused, or no descriptor is left.
    fn file_lines(
        &self,
        timeline: &mut Self::Timeline,
        alloc: Global,
        path: &str,
    ) -> Result<Self::Lines, ReadFault>
        ensures held { IfOk result (λ lines. IfSome ((outside self.now).lines lines).left ((outside self.now).disk.holds path.now)) }
        ensures known { IfOk result (λ lines. (outside self.now).disk.is_told ≡ true → IsSome ((outside self.now).lines lines).left) }
        ensures broken { IfOk result (λ lines. ((outside self.now).lines lines).fails → (outside self.now).disk.fails (AtFile path.now)) }
        ensures cause { IsErrOf result ReadFault.Unreadable → (outside self.now).disk.fails (AtFile path.now) }
        ensures made { Adds (outside self.now) timeline.old timeline.new (LinesOpened (FromFile path.now) (is_done result) ∷ []) };

    /// The lines of the input, none of them read yet. An input whose bytes are stated gives all of them, unless it fails. The error
    /// comes where memory for the read-ahead buffer is refused.
    fn input_lines(
        &self,
        timeline: &mut Self::Timeline,
        alloc: Global,
    ) -> Result<Self::Lines, AllocError>
        ensures given { IfOk result (λ lines. IfSome ((outside self.now).lines lines).left (outside self.now).input.gives) }
        ensures known { IfOk result (λ lines. (outside self.now).input.is_told ≡ true → FailsOrIsKnown ((outside self.now).lines lines)) }
        ensures cause { IfOk result (λ lines. ((outside self.now).lines lines).fails → (outside self.now).input.fails) }
        ensures room { IfOk result (λ lines. ((outside self.now).lines lines).takes_memory → (outside self.now).input.takes_memory) }
        ensures memory { OnErr result (outside self.now).input.takes_memory }
        ensures made { Adds (outside self.now) timeline.old timeline.new (LinesOpened FromInput (is_done result) ∷ []) };

    /// Replaces the buffer's contents by the next line, without its line feed, and returns whether there is one. The last line may lack
    /// its line feed.
    ///
    /// It reads nothing after the line feed, so it waits for no more than the line. The buffer's capacity is that of the longest line
    /// so far. After an error a part of a line may be lost.
    fn next_line(
        &self,
        timeline: &mut Self::Timeline,
        lines: &mut Self::Lines,
        line: &mut Vec<u8>,
    ) -> Result<bool, ReadFault>
        ensures read { IfOk result (ReadsIfAny ((outside self.now).lines lines.old).left ((outside self.now).lines lines.new).left line.new.items) }
        ensures cause { IsErrOf result ReadFault.Unreadable → ((outside self.now).lines lines.old).fails }
        ensures memory { IsErrOf result ReadFault.OutOfMemory → ((outside self.now).lines lines.old).takes_memory }
        ensures same { ((outside self.now).lines lines.new).fails → ((outside self.now).lines lines.old).fails }
        ensures room { ((outside self.now).lines lines.new).takes_memory → ((outside self.now).lines lines.old).takes_memory }
        ensures made { Adds (outside self.now) timeline.old timeline.new (line_event result line.new.items ((outside self.now).lines lines.old).ahead ∷ []) };

    /// Whether a whole line has come already, so that the next one is read without waiting. It reads nothing.
    fn has_line(&self, lines: &Self::Lines) -> bool
        ensures { IsTrue result ↔ Contains ((outside self.now).lines lines.now).ahead 10 };

    /// Writes all bytes, which need not go out yet. The error comes only where a write was refused; a front of them is written then.
    fn write(
        &self,
        timeline: &mut Self::Timeline,
        to: Stream,
        bytes: &[u8],
    ) -> Result<(), WriteFault>
        ensures front { WritesFront ((outside self.now).written timeline.old to) ((outside self.now).written timeline.new to) bytes.now result }
        ensures cause { OnErr result ((outside self.now).output timeline.old to).refuses }
        ensures made { AddsSome (outside self.now) timeline.old timeline.new (IsWritten to bytes.now result) };

    /// Lets all that was written go out. The error comes where some of it can't.
    fn flush(&self, timeline: &mut Self::Timeline, to: Stream) -> Result<(), WriteFault>
        ensures kept { Keeps ((outside self.now).written timeline.old to) ((outside self.now).written timeline.new to) }
        ensures gone { OnOk result ((outside self.now).output timeline.new to).gone }
        ensures stuck { OnErr result ((outside self.now).output timeline.new to).stuck }
        ensures made { Adds (outside self.now) timeline.old timeline.new (by_result result (λ _. Flushed to) (Refused to) ∷ []) };

    /// Notes a line of these parts for whoever runs the program, and ends it. A line that can't be noted is left out. It takes no memory.
    fn note(&self, timeline: &mut Self::Timeline, parts: &[&str])
        ensures made { Adds (outside self.now) timeline.old timeline.new (Noted (line_of (map (λ s. s.now) parts.now)) ∷ []) };

    /// A port that is bound to an address and sends to those whom these words name. Among these `sender` stands for the address from
    /// which the last datagram came.
    fn bind(
        &self,
        timeline: &mut Self::Timeline,
        alloc: Global,
        address: &str,
        to: &[&str],
    ) -> Result<Self::Port, BindFault>
        ensures bound { IfOk result (λ port. ((outside self.now).port port).address ≡ address.now) }
        ensures each { IfOk result (λ port. AreNamed ((outside self.now).port port).own (map (λ s. s.now) to.now) ((outside self.now).port port).to) }
        ensures cause { IfErr result ((outside self.now).refuses_port address.now) }
        ensures made { Adds (outside self.now) timeline.old timeline.new (PortBound address.now (map (λ s. s.now) to.now) (done_by result) ∷ []) };

    /// The address at which a port listens, with the number that it has got where it was bound to port 0; none where that isn't
    /// known. It takes no memory.
    fn own_address(&self, port: &Self::Port) -> Option<SocketAddr>
        ensures { result ≡ ((outside self.now).port port.now).own };

    /// Waits for a datagram, copies its first 64 bytes to the front of the buffer, and returns how many they are. A failure is counted.
    fn receive(
        &self,
        timeline: &mut Self::Timeline,
        port: &mut Self::Port,
        buffer: &mut [u8; 64],
    ) -> Result<usize, PortFault>
        ensures length { IfOk result (λ n. n ≤ 64) }
        ensures same { SendsToSame ((outside self.now).port port.old) ((outside self.now).port port.new) }
        ensures missed { OnErr result (HeardNothing ((outside self.now).port port.old) ((outside self.now).port port.new)) }
        ensures cause { OnErr result (Risen ((outside self.now).port port.old).faults ((outside self.now).port port.new).faults) }
        ensures made { Adds (outside self.now) timeline.old timeline.new (came_or_missed result ((outside self.now).port port.new).sender buffer.new ∷ []) };

    /// As `receive`, but waits at most `wait`. Where that is 0, only a datagram is taken that has already come. None where nothing came in
    /// time; the event then has `wait`, in nanoseconds. That so much time has passed by the system's clock is no clause.
    ///
    /// At a port of the system receives that follow one another with the same `wait`, with nothing sent between them and none of them
    /// without a datagram, wait so long together: the wait ends also where datagrams go on coming.
    fn receive_in_time(
        &self,
        timeline: &mut Self::Timeline,
        port: &mut Self::Port,
        wait: Duration,
        buffer: &mut [u8; 64],
    ) -> Result<Option<usize>, PortFault>
        ensures length { IfOk result (λ got. IfSome got (λ n. n ≤ 64)) }
        ensures same { SendsToSame ((outside self.now).port port.old) ((outside self.now).port port.new) }
        ensures quiet { result ≡ Ok None → HeardNothing ((outside self.now).port port.old) ((outside self.now).port port.new) }
        ensures missed { OnErr result (HeardNothing ((outside self.now).port port.old) ((outside self.now).port port.new)) }
        ensures cause { OnErr result (Risen ((outside self.now).port port.old).faults ((outside self.now).port port.new).faults) }
        ensures made { Adds (outside self.now) timeline.old timeline.new (came_in_time result ((outside self.now).port port.new).sender buffer.new wait ∷ []) };

    /// The address from which the last datagram came, where that is known.
    fn sender(&self, port: &Self::Port) -> Option<SocketAddr>
        ensures { result ≡ ((outside self.now).port port.now).sender };

    /// From now on, up to the next datagram, what would go to the sender of the last one goes to this one.
    fn answer(&self, port: &mut Self::Port, sender: Option<SocketAddr>)
        ensures same { SendsToSame ((outside self.now).port port.old) ((outside self.now).port port.new) }
        ensures sender { ((outside self.now).port port.new).sender ≡ sender };

    /// Sends a datagram to each recipient in turn. A send that fails does not prevent the others.
    fn send(
        &self,
        timeline: &mut Self::Timeline,
        port: &mut Self::Port,
        bytes: &[u8],
    ) -> Result<(), PortFault>
        ensures same { HeardNothing ((outside self.now).port port.old) ((outside self.now).port port.new) }
        ensures cause { OnErr result (Risen ((outside self.now).port port.old).faults ((outside self.now).port port.new).faults) }
        ensures made { Adds (outside self.now) timeline.old timeline.new (sent_by ((outside self.now).port port.old) bytes.now) };

    /// Locks the file at a path, which is made where nothing stands, and which nothing is written to.
    fn lock(
        &self,
        timeline: &mut Self::Timeline,
        alloc: Global,
        path: &str,
    ) -> Result<Self::Lock, LockFault>
        ensures given { OnOk result ((outside self.now).gives_lock path.now) }
        ensures at { IfOk result (λ lock. (outside self.now).lock_path lock ≡ path.now) }
        ensures cause { IfErr result ((outside self.now).bars_lock path.now) }
        ensures made { Adds (outside self.now) timeline.old timeline.new (Locked path.now (done_by result) ∷ []) };

    /// The file at a path, in which something is kept. It need not exist yet.
    fn file(
        &self,
        timeline: &mut Self::Timeline,
        alloc: Global,
        path: &str,
    ) -> Result<Self::File, AllocError>
        ensures at { IfOk result (λ file. (outside self.now).path file ≡ path.now) }
        ensures memory { OnErr result ((outside self.now).takes_memory path.now) }
        ensures made { Adds (outside self.now) timeline.old timeline.new (FileOpened path.now (is_done result) ∷ []) };

    /// What a start reads in a file, at most 8217 bytes, once they and the file's name are synced; or that there is none. Of any two
    /// contents that every start is claimed to be among it is one, and every later start finds it.
    fn start(
        &self,
        timeline: &mut Self::Timeline,
        alloc: Global,
        file: &mut Self::File,
    ) -> Result<Option<Vec<u8>>, ReadFault>
        ensures one { IfOk result (λ got. IsOneOfFound ((outside self.now).file file.old) (bytes_of got)) }
        ensures lasts { IfOk result (λ got. ((outside self.now).file file.new).finds (bytes_of got) (bytes_of got)) }
        ensures same { (a b : Option (List ℕ)) → ((outside self.now).file file.old).finds a b → ((outside self.now).file file.new).finds a b }
        ensures short { IfOk result (λ got. IfSome got (λ v. length v.items ≤ 8217)) }
        ensures cause { IfErr result (CannotStart ((outside self.now).file file.old)) }
        ensures count { OnOk result (((outside self.now).file file.new).faults ≡ ((outside self.now).file file.old).faults) }
        ensures path { (outside self.now).path file.new ≡ (outside self.now).path file.old }
        ensures made { Adds (outside self.now) timeline.old timeline.new (Found ((outside self.now).path file.old) (found_by result) ∷ []) };

    /// Replaces the bytes of a file. Where this fails, or the process stops midway, a start finds the old bytes or the new.
    fn put(
        &self,
        timeline: &mut Self::Timeline,
        file: &mut Self::File,
        bytes: &[u8],
    ) -> io::Result<()>
        ensures ok { OnOk result (((outside self.now).file file.new).finds (Some bytes.now) (Some bytes.now)) }
        ensures err { LeavesOldOrNew result ((outside self.now).file file.old) ((outside self.now).file file.new) bytes.now }
        ensures count { Counts result ((outside self.now).file file.old).faults ((outside self.now).file file.new).faults }
        ensures path { (outside self.now).path file.new ≡ (outside self.now).path file.old }
        ensures made { Adds (outside self.now) timeline.old timeline.new (Put ((outside self.now).path file.old) bytes.now (is_done result) ∷ []) };

    /// The store at a path. It is made where nothing stands.
    fn store(
        &self,
        timeline: &mut Self::Timeline,
        alloc: Global,
        path: &str,
    ) -> Result<Self::Store, StoreFault>
        ensures at { IfOk result ((outside self.now).stores.is_at path.now) }
        ensures path { IfOk result (λ store. (outside self.now).store_path store ≡ path.now) }
        ensures settled { IfOk result (λ store. IsSettled ((outside self.now).store store)) }
        ensures cause { IfErr result ((outside self.now).stores.refuses path.now) }
        ensures made { Adds (outside self.now) timeline.old timeline.new (StoreOpened path.now (done_by result) ∷ []) };

    /// The bytes of the record of a game in a store, if it has one.
    fn find<'s>(
        &self,
        timeline: &mut Self::Timeline,
        store: &'s Self::Store,
        stamp: &Key,
    ) -> Option<&'s [u8]>
        ensures found { bytes_found result ≡ option_map (λ r. r.bytes) (((outside self.now).store store.now).has stamp.now) }
        ensures made { Adds (outside self.now) timeline.old timeline.new (RecordSought ((outside self.now).store_path store.now) stamp.now (bytes_found result) ∷ []) };

    /// Puts all records in a store or none. The record of a game stands in place of the one before, and of two in one batch the later
    /// one.
    fn commit(
        &self,
        timeline: &mut Self::Timeline,
        store: &mut Self::Store,
        entries: Vec<Entry>,
    ) -> Result<(), PutFault>
        // At `Ok` it has each entry, put in turn, and what it has of all other games is as before; a start finds just that,
        ensures all { OnOk result (AreSame ((outside self.now).store store.new).has (with_all ((outside self.now).store store.old).has entries.items)) }
        ensures kept { OnOk result (IsSettled ((outside self.now).store store.new)) }
        // and after an error it has what it had, and a start finds that, or all with the whole batch.
        ensures same { OnErr result (AreSame ((outside self.now).store store.new).has ((outside self.now).store store.old).has) }
        ensures stops { OnErr result (LeavesBatchOrNot ((outside self.now).store store.old) ((outside self.now).store store.new) entries.items) }
        // Where memory alone was refused, a start finds just what it had, and the batch comes back.
        ensures refused { IfErr result (GivesBack ((outside self.now).store store.new) entries.items) }
        ensures path { (outside self.now).store_path store.new ≡ (outside self.now).store_path store.old }
        ensures made { Adds (outside self.now) timeline.old timeline.new (commit_event result ((outside self.now).store_path store.old) entries.items ∷ []) };

    /// The records that the two files of a store hold, its database and the log beside it: what it would have, were it opened over
    /// them after a stop. The second one is empty where there is none. Nothing is opened, and neither is changed: it does nothing
    /// outside, and so adds no event.
    fn stored(&self, alloc: Global, db: Vec<u8>, log: Vec<u8>) -> Result<Vec<Entry>, StoreFault>
        ensures held { IfOk result (λ entries. (outside self.now).stores.holds db.items log.items (records_of entries.items)) }
        ensures cause { IfErr result ((outside self.now).stores.withholds db.items log.items) };

    /// What is known contradicts itself nowhere.
    ghost one: { (s : Self) → IsConsistent (outside s) };
}
