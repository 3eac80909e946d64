//! The names of statuses and of verdicts, and the version.

ghost use Rattle.std.specs.Prelude.{◌≡◌};
ghost use Rattle.probe_api.specs.Names.{name_in, numbered_verdict_name, refusal_names, status_name};
ghost use Rattle.probe_api.specs.Version.{version};

/// The name of the fault of a table file, or of what a set, a buffer or a game refuses; nothing where no such status has this number.
fn refusal_name(status: u32) -> &'static str
    ensures { result.now ≡ name_in refusal_names status }
{
    match status {
        64 => "BadName",
        65 => "BadSize",
        66 => "BadMagic",
        67 => "BadFlags",
        68 => "BadPieces",
        69 => "BadOrder",
        70 => "Truncated",
        71 => "BadExponent",
        72 => "BadCode",
        73 => "BadSymbol",
        74 => "BadSparse",
        80 => "Duplicate",
        81 => "BadCache",
        82 => "LengthsDiffer",
        83 => "NoRoom",
        84 => "GameOver",
        85 => "BadMove",
        86 => "IllegalMove",
        87 => "BadDelay",
        88 => "AmbiguousMove",
        _ => "",
    }
}

/// The name of a status, without spaces; nothing where no status has this number.
#[tactic(auto, unfolding(crate::specs::Names::status_name))]
pub fn status_name(status: u32) -> &'static str
    ensures { result.now ≡ status_name status }
{
    match status {
        0 => "Ok",
        1 => "HandleClosed",
        2 => "OutOfScope",
        3 => "NotCovered",
        4 => "Damaged",
        5 => "OutOfMemory",
        6 => "GameClosed",
        16 => "FieldCount",
        17 => "BadPlacement",
        18 => "BadSide",
        19 => "BadCastlingText",
        20 => "BadSquare",
        21 => "BadNumber",
        32 => "BadKings",
        33 => "TooManyMen",
        34 => "PawnOnEdge",
        35 => "BadCastling",
        36 => "BadEnPassant",
        37 => "OpponentInCheck",
        38 => "BadCounter",
        _ => refusal_name(status),
    }
}

/// The name of a verdict by its number, 1 to 7, and `open` for 0; nothing for any other.
#[tactic(auto, unfolding(crate::specs::Names::numbered_verdict_name))]
pub fn verdict_name(number: u32) -> &'static str
    ensures { result.now ≡ numbered_verdict_name number }
{
    match number {
        0 => "open",
        1 => "WhiteMates",
        2 => "BlackMates",
        3 => "Stalemate",
        4 => "TableDraw",
        5 => "TableWhite",
        6 => "TableBlack",
        7 => "Stopped",
        _ => "",
    }
}

/// The library's version.
pub fn version() -> &'static str
    ensures { result.now ≡ version }
{
    "hofsjurd 1.0.0"
}
