//! Bytes that come in, all at once or line by line.

ghost use Rattle.std.specs.Prelude.{◌≡◌, ◌≤◌, ◌⊎◌, true, length, IfOk, IfSome, IsErrOf, IsSome, OnErr};
ghost use Rattle.system_io.specs.Disks.{most_bytes};
ghost use Rattle.system_io.specs.Inputs.{GivesOne, InputFacts};

use crate::line_reader::LineReader;
use crate::reading::ReadFault;
use std::alloc::{AllocError, Global};

/// An input that ends.
pub trait Input {
    /// Its lines, as they come.
    type Lines: LineReader + Drop;

    /// Its bytes, and whether it can't be read.
    ghost facts: { Self → InputFacts };

    /// All bytes of the input, at most 2^30.
    fn read_to_end(&self, alloc: Global) -> Result<Vec<u8>, ReadFault>
        ensures bytes { IfOk result (λ bytes. (facts self.now).gives bytes.items) }
        ensures short { IfOk result (λ bytes. length bytes.items ≤ most_bytes) }
        ensures cause { IsErrOf result ReadFault.Unreadable → (facts self.now).fails }
        ensures memory { IsErrOf result ReadFault.OutOfMemory → (facts self.now).takes_memory };

    /// Its lines as they come, none of them read yet. An input whose bytes are stated tells all of them, unless it fails. The error comes where memory for the read-ahead buffer is
    /// refused.
    fn lines(&self, alloc: Global) -> Result<Self::Lines, AllocError>
        ensures given { IfOk result (λ lines. IfSome (Self.Lines.facts lines).left (facts self.now).gives) }
        ensures known { IfOk result (λ lines. (facts self.now).is_told ≡ true → (Self.Lines.facts lines).fails ⊎ IsSome (Self.Lines.facts lines).left) }
        ensures cause { IfOk result (λ lines. (Self.Lines.facts lines).fails → (facts self.now).fails) }
        ensures room { IfOk result (λ lines. (Self.Lines.facts lines).takes_memory → (facts self.now).takes_memory) }
        ensures memory { OnErr result (facts self.now).takes_memory };

    /// An input whose bytes are stated has one list of them.
    ghost one: { (i : Self) → (facts i).is_told ≡ true → GivesOne (facts i) };
}
