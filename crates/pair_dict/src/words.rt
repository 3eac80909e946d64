//! Code lengths and nodes in one list of words.

ghost use Rattle.std.specs.Prelude.{◌≡◌, ◌+◌, ◌*◌, ◌^◌, ◌<◌, ◌≤◌, ◌++◌, ◌∷◌, [], ℕ, length, slice_index, vec_len, IfOk, OnOk};
ghost use Rattle.std.proofs.Common.{get_or};
ghost use Rattle.pair_dict.specs.Reading.{words};
ghost use Rattle.pair_dict.specs.Inside.Windows.{firsts_in, lowest_in};
ghost use Rattle.pair_dict.specs.Inside.Words.{words_of_codes, words_of_nodes, codes_in, nodes_in};

use crate::codes::{CodeLength, code_lengths};
use crate::nodes::Node;
use std::alloc::{AllocError, Global};

/// Appends a code length, which takes two words.
fn add_code(words: &mut Vec<u32>, code: CodeLength) -> Result<(), AllocError>
    ensures { OnOk result (words.new.items ≡ words.old.items ++ words_of_codes (code ∷ [])) }
{
    words.push((code.packed % 4294967296) as u32)?;
    words.push((code.packed / 4294967296) as u32)?;
    Ok(())
}

/// Appends code lengths.
fn add_codes(words: &mut Vec<u32>, codes: &[CodeLength]) -> Result<(), AllocError>
    ensures { OnOk result (words.new.items ≡ words.old.items ++ words_of_codes codes.now) }
{
    for code in codes {
        add_code(words, *code)?;
    }
    Ok(())
}

/// Appends nodes.
fn add_nodes(words: &mut Vec<u32>, nodes: &[Node]) -> Result<(), AllocError>
    ensures { OnOk result (words.new.items ≡ words.old.items ++ words_of_nodes nodes.now) }
{
    for node in nodes {
        words.push(node.packed)?;
    }
    Ok(())
}

/// The code lengths with these first numbers and lowest symbols, and after them the nodes.
pub(crate) fn words_of(
    alloc: Global,
    firsts: &[u64],
    lowest: &[u8],
    nodes: &[Node],
) -> Result<Vec<u32>, AllocError>
    requires lengths { length firsts.now ≡ length (words lowest.now) }
    requires few { (i : ℕ) → i < length firsts.now → slice_index firsts.now i ≤ 2 ^ 32 }
    requires few_lengths { length firsts.now ≤ 32 }
    requires few_nodes { length nodes.now ≤ 4095 }
    ensures all { IfOk result (λ kept. 2 * length firsts.now ≤ length kept.items) }
    ensures firsts { IfOk result (λ kept. firsts_in (codes_in (length firsts.now) kept.items) ≡ firsts.now) }
    ensures lowest { IfOk result (λ kept. lowest_in (codes_in (length firsts.now) kept.items) ≡ words lowest.now) }
    ensures nodes { IfOk result (λ kept. nodes_in (length firsts.now) kept.items ≡ nodes.now) }
{
    let codes = code_lengths(alloc, firsts, lowest)?;
    let mut kept = Vec::with_capacity(alloc, 2 * codes.len() + nodes.len())?;
    add_codes(&mut kept, &codes)?;
    add_nodes(&mut kept, nodes)?;
    Ok(kept)
}

/// The node of a symbol, behind so many code lengths.
#[inline]
pub(crate) fn node_at(words: &[u32], lengths: u8, symbol: usize) -> Node
    requires { 2 * lengths + symbol < length words.now }
    ensures { result ≡ get_or (nodes_in lengths words.now) symbol result }
{
    Node {
        packed: words[2 * lengths as usize + symbol],
    }
}
