//! Texts that are no position, as one object of JSON a line.

ghost use Rattle.std.specs.Prelude.{◌≡◌};
ghost use Rattle.fen_text.specs.declared.fault.FenFault.TheVariants as fen;
ghost use Rattle.json_lines.specs.Objects.{fault_json, json_text};
ghost use Rattle.move_msg.specs.TextLines.{ended};

use board_core::PositionFault;
use fen_text::FenFault;

/// The object that says why a text is no position whose fields are in order, with its line feed.
#[tactic(auto, unfolding(json::specs::Print::escape_byte, json::specs::Print::print_from))]
fn position_fault_line(fault: PositionFault) -> &'static str
    ensures { result.now ≡ ended (json_text (fault_json (fen.BadPosition fault))) }
{
    match fault {
        PositionFault::BadKings => "{\"error\":\"FEN BadPosition BadKings\"}\n",
        PositionFault::TooManyMen => "{\"error\":\"FEN BadPosition TooManyMen\"}\n",
        PositionFault::PawnOnEdge => "{\"error\":\"FEN BadPosition PawnOnEdge\"}\n",
        PositionFault::BadCastling => "{\"error\":\"FEN BadPosition BadCastling\"}\n",
        PositionFault::BadEnPassant => "{\"error\":\"FEN BadPosition BadEnPassant\"}\n",
        PositionFault::OpponentInCheck => "{\"error\":\"FEN BadPosition OpponentInCheck\"}\n",
        PositionFault::BadCounter => "{\"error\":\"FEN BadPosition BadCounter\"}\n",
    }
}

/// The object that says why a text is no position, with its line feed.
#[tactic(auto, unfolding(json::specs::Print::escape_byte, json::specs::Print::print_from))]
pub fn fault_line(fault: FenFault) -> &'static str
    ensures { result.now ≡ ended (json_text (fault_json fault)) }
{
    match fault {
        FenFault::FieldCount => "{\"error\":\"FEN FieldCount\"}\n",
        FenFault::BadPlacement => "{\"error\":\"FEN BadPlacement\"}\n",
        FenFault::BadSide => "{\"error\":\"FEN BadSide\"}\n",
        FenFault::BadCastlingText => "{\"error\":\"FEN BadCastlingText\"}\n",
        FenFault::BadSquare => "{\"error\":\"FEN BadSquare\"}\n",
        FenFault::BadNumber => "{\"error\":\"FEN BadNumber\"}\n",
        FenFault::BadPosition(fault) => position_fault_line(fault),
    }
}
