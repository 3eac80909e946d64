//! Laws over the definitions alone, for the layers above.

ghost use Rattle.move_msg.specs.Laws.{WordHasOneMove, HasOneMessage, HasOneSpelling, HasOneRecord, HasOneRecordSpelling, HasOneReading, HasOneManifest, HasOneBadLine, ReadsItsStream, PiecesDoNotMatter};

/// A word stands for one move at most.
pub fn one_move()
    ensures { WordHasOneMove }
{}

/// Bytes encode one message at most.
pub fn one_message()
    ensures { HasOneMessage }
{}

/// A message has one encoding at most.
pub fn one_spelling()
    ensures { HasOneSpelling }
{}

/// Bytes encode one record at most.
pub fn one_record()
    ensures { HasOneRecord }
{}

/// A record has one encoding of each version at most.
pub fn one_record_spelling()
    ensures { HasOneRecordSpelling }
{}

/// A stream has one list of messages, and ends in one way.
pub fn one_reading()
    ensures { HasOneReading }
{}

/// A feeder returns the messages of the bytes that it took. The bytes it holds, or the fault that it met, say how they
/// end.
pub fn reads_its_stream()
    ensures { ReadsItsStream }
{}

/// Whatever the pieces in which a feeder gets the same bytes, it returns the same messages in the same order, and holds
/// the same bytes or meets the same fault.
pub fn pieces_do_not_matter()
    ensures { PiecesDoNotMatter }
{}

/// Bytes are one manifest at most.
pub fn one_manifest()
    ensures { HasOneManifest }
{}

/// Bytes that are no manifest have one first line at fault, and those of a manifest none.
pub fn one_bad_line()
    ensures { HasOneBadLine }
{}
