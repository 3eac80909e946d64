//! Codes of symbols.

ghost use Rattle.std.specs.Prelude.{◌≡◌, ◌+◌, ◌≤◌, ◌<◌, ◌^◌, ◌/◌, ◌-◌, ◌↔◌, length, slice_index, true, IsTrue, ℕ};
ghost use Rattle.pair_dict.specs.Codes.{bases, IsCode};
ghost use Rattle.pair_dict.specs.Reading.{falls};
ghost use Rattle.pair_dict.specs.Symbols.{symbol_count};
ghost use Rattle.table_file.specs.Plan.{symbol_bytes, code_by, code_of, pairing_of, AreGoodFigures, AreGoodCodes};

use crate::plan::PairsPlan;

/// The code of a symbol: so many low bits of a number, 1 to 32.
#[derive(Clone, Copy, Debug, PartialEq, Eq)]
pub(super) struct Code {
    pub(super) length: u32,
    pub(super) bits: u64,
}

/// The base of the first of some code lengths, computed from their lowest symbols (Syzygy table format, codes). It is 0
/// at the greatest length, and each other one follows from the one above it.
fn base(lowest: &[u16]) -> u32
    requires { falls lowest.now ≡ true }
    ensures { result ≡ slice_index (bases lowest.now) 0 }
{
    match lowest {
        [] => 0,
        [_] => 0,
        [low, next, ..] => {
            let above = base(&lowest[1..]);
            ((above as u64 + (*low - *next) as u64) / 2) as u32
        }
    }
}

/// The code of a symbol, by the lengths from one on and their lowest symbols. It has no bits where no length is low enough.
#[tactic(auto, unfolding(crate::specs::Plan::code_by))]
fn code_by(least: u32, lowest: &[u16], symbol: u16) -> Code
    requires falling { falls lowest.now ≡ true }
    requires few { least + length lowest.now ≤ 33 }
    ensures is { result ≡ code_by least lowest.now symbol }
    ensures short { result.length ≤ 32 }
{
    match lowest {
        [] => Code { length: 0, bits: 0 },
        [low, rest @ ..] => {
            if *low <= symbol {
                Code {
                    length: least,
                    bits: base(lowest) as u64 + (symbol - *low) as u64,
                }
            } else {
                code_by(least + 1, rest, symbol)
            }
        }
    }
}

/// The code of a symbol of a plan.
pub(super) fn code_of(plan: &PairsPlan, symbol: u16) -> Code
    requires { AreGoodFigures plan.now }
    ensures is { result ≡ code_of plan.now symbol }
    ensures short { result.length ≤ 32 }
{
    code_by(plan.least as u32, &plan.lowest, symbol)
}

/// Whether no shorter code begins the bits of a code, by the lengths from one on and their lowest symbols.
fn is_read(least: u32, lowest: &[u16], code: Code) -> bool
    requires falling { falls lowest.now ≡ true }
    requires few { least + length lowest.now ≤ 33 }
    requires short { code.length ≤ 32 }
    ensures { IsTrue result ↔ ((m : ℕ) → m < length lowest.now → least + m < code.length → code.bits / 2 ^ (code.length - (least + m)) < slice_index (bases lowest.now) m) }
{
    match lowest {
        [] => true,
        [_, rest @ ..] => {
            if code.length <= least {
                return true;
            }
            let front = code.bits >> (code.length - least);
            if base(lowest) as u64 <= front {
                return false;
            }
            is_read(least + 1, rest, code)
        }
    }
}

/// Whether a symbol has a code, and its code is read as that symbol.
fn is_good_code(plan: &PairsPlan, symbol: u16) -> bool
    requires figures { AreGoodFigures plan.now }
    requires known { symbol < symbol_count (symbol_bytes plan.now) }
    ensures { IsTrue result ↔ IsCode (pairing_of plan.now) (code_of plan.now symbol).length (code_of plan.now symbol).bits symbol }
{
    let code = code_of(plan, symbol);
    if code.length < 1 || 1u64 << code.length <= code.bits {
        return false;
    }
    is_read(plan.least as u32, &plan.lowest, code)
}

/// Whether each of the symbols of a plan, so many, has a code that is read as that symbol.
pub(super) fn are_good_codes(plan: &PairsPlan, count: u16) -> bool
    requires figures { AreGoodFigures plan.now }
    requires count { count ≡ symbol_count (symbol_bytes plan.now) }
    ensures { IsTrue result ↔ AreGoodCodes plan.now }
{
    for symbol in 0..count {
        if !is_good_code(plan, symbol) {
            return false;
        }
    }
    true
}
