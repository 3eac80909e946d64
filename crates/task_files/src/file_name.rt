//! Names of table files.

ghost use Rattle.std.specs.Prelude.{◌≡◌, IfSome, IfNone};
ghost use Rattle.std.specs.Ordering.{nat_cmp};
ghost use Rattle.std.specs.Cmp.Lexicographic.{slice_cmp};
ghost use Rattle.move_msg.specs.TableNames.{IsFileName};

use arrayvec::ArrayString;
use move_msg::is_file_name;
use std::cmp::Ordering;
use std::marker::Model;

/// The name of a table's file, without its folder, as `KQvK.rtbw`; contracts see its bytes.
#[derive(Drop)]
pub struct FileName {
    text: ArrayString<16>,
}

impl Model for FileName {
    ghost use Rattle.std.specs.Prelude.{ℕ, List};
    ghost use Rattle.move_msg.specs.TableNames.{IsFileName};

    ghost Value = { List ℕ };

    ghost view = { λ n. n.text.bytes };

    ghost invariant = { λ n. IsFileName n.text.bytes };
}

impl FileName {
    /// The name that a text is; none where it is that of no table's file.
    pub fn of(text: &str) -> Option<FileName>
        ensures some { IfSome result (λ name. name ≡ text.now) }
        ensures file { IfSome result (λ name. IsFileName name) }
        ensures none { IfNone result (IsFileName text.now → ⊥) }
    {
        if !is_file_name(text.as_bytes()) {
            return None;
        }
        match ArrayString::from(text) {
            Ok(text) => Some(FileName { text }),
            Err(_) => None,
        }
    }

    /// The name as a text.
    pub fn as_str(&self) -> &str
        ensures text { result.now ≡ self.now }
        ensures file { IsFileName self.now }
    {
        self.text.as_str()
    }

    /// The name as a text of its own.
    pub fn text(&self) -> ArrayString<16>
        ensures text { result.bytes ≡ self.now }
        ensures file { IsFileName self.now }
    {
        self.text
    }

    /// How the names compare in the order of bytes.
    pub fn order(&self, other: &FileName) -> Ordering
        ensures { result ≡ slice_cmp nat_cmp self.now other.now }
    {
        self.as_str().cmp(other.as_str())
    }
}
