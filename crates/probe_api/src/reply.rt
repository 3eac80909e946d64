//! What a caller is told: a status and a number.

ghost use Rattle.std.specs.Prelude.{◌≡◌, pos};
ghost use Rattle.probe_api.specs.Replies.{told, refused, short, probe_reply, fen_status, position_status, table_status, verdict_number};

use board_core::{PositionFault, Verdict};
use fen_text::FenFault;
use judge_core::ProbeFault;
use table_file::TableFault;

/// A status, 0 where there is an answer, and the answer, mostly 0 where there is none.
#[repr(C)]
#[derive(Clone, Copy)]
pub struct Reply {
    /// 0, or why there is no answer. `specs/Replies.antt` has the numbers, and `status_name` their names.
    pub status: u32,
    /// The number that was asked for.
    pub value: i32,
}

impl Reply {
    /// An answer.
    pub(crate) fn ok(value: i32) -> Reply
        ensures { result ≡ told value }
    {
        Reply { status: 0, value }
    }

    /// Why there is none.
    pub fn refused(status: u32) -> Reply
        ensures { result ≡ refused status }
    {
        Reply { status, value: 0 }
    }

    /// There is no room for so many.
    pub(crate) fn no_room(count: i32) -> Reply
        ensures { result ≡ short count }
    {
        Reply {
            status: 83,
            value: count,
        }
    }
}

/// A verdict's number, 1 to 7, as in messages, and 0 where there is none.
pub(crate) fn verdict_number(verdict: Option<Verdict>) -> i32
    ensures { result ≡ pos (verdict_number verdict) }
{
    match verdict {
        None => 0,
        Some(verdict) => i32::from(verdict.code()),
    }
}

/// The answer of a probe.
pub(crate) fn probed(answer: Result<i32, ProbeFault>) -> Reply
    ensures { result ≡ probe_reply answer }
{
    match answer {
        Ok(number) => Reply::ok(number),
        Err(ProbeFault::OutOfScope) => Reply::refused(2),
        Err(ProbeFault::NotCovered(_)) => Reply::refused(3),
        Err(ProbeFault::Damaged(_)) => Reply::refused(4),
        Err(ProbeFault::OutOfMemory) => Reply::refused(5),
    }
}

/// The status that tells this fault of parts.
pub(crate) fn position_status(fault: PositionFault) -> u32
    ensures { result ≡ position_status fault }
{
    match fault {
        PositionFault::BadKings => 32,
        PositionFault::TooManyMen => 33,
        PositionFault::PawnOnEdge => 34,
        PositionFault::BadCastling => 35,
        PositionFault::BadEnPassant => 36,
        PositionFault::OpponentInCheck => 37,
        PositionFault::BadCounter => 38,
    }
}

/// The status that tells this fault of a text.
pub(crate) fn fen_status(fault: FenFault) -> u32
    ensures { result ≡ fen_status fault }
{
    match fault {
        FenFault::FieldCount => 16,
        FenFault::BadPlacement => 17,
        FenFault::BadSide => 18,
        FenFault::BadCastlingText => 19,
        FenFault::BadSquare => 20,
        FenFault::BadNumber => 21,
        FenFault::BadPosition(fault) => position_status(fault),
    }
}

/// The status that tells this fault of a file.
pub(crate) fn table_status(fault: TableFault) -> u32
    ensures { result ≡ table_status fault }
{
    match fault {
        TableFault::BadName => 64,
        TableFault::BadSize => 65,
        TableFault::BadMagic => 66,
        TableFault::BadFlags => 67,
        TableFault::BadPieces => 68,
        TableFault::BadOrder => 69,
        TableFault::Truncated => 70,
        TableFault::BadExponent => 71,
        TableFault::BadCode => 72,
        TableFault::BadSymbol => 73,
        TableFault::BadSparse => 74,
        TableFault::OutOfMemory => 5,
    }
}
