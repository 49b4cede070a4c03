//! Names of a script.
ghost use Rattle.std.specs.Prelude.{◌≡◌, List, IfOk, IsTrue};
ghost use Rattle.std.proofs.Common.{ap};
ghost use Rattle.std.specs.Cmp.{partial_equiv_from_equiv};
ghost use Rattle.std.specs.Str.{bytes_eq};
ghost use Rattle.std.specs.Cmp.Lexicographic.{nat_list_eq_equiv};
ghost use Rattle.std.specs.Hash as fed;
ghost use Rattle.std.proofs.lemmas.Slice.Eq.{bytes_eq-Decides};
ghost use Rattle.std.specs.List.{list_all};
ghost use Rattle.ed_base.specs.Names.{is_name, is_name_byte};

use crate::memory::OutOfMemory;
use std::alloc::Global;
use std::hash::{Hash, Hasher};
use std::marker::Model;
use std::sync::ArcStr;

/// A name of a script: 1 to 64 bytes, each an ASCII letter, a digit, `_`, `.` or `-`. Its holders
/// share the bytes.
#[derive(Drop)]
pub struct Name {
    text: ArcStr,
}

impl Model for Name {
    ghost use Rattle.std.specs.Prelude.{ℕ, List, IsTrue};
    ghost use Rattle.std.specs.Arc.{arc_str_bytes};
    ghost use Rattle.std.specs.List.{list_all};
    ghost use Rattle.ed_base.specs.Names.{is_name};

    ghost Value = { List ℕ };

    ghost view = { λ n. arc_str_bytes n.text };

    ghost invariant = { λ n. IsTrue (is_name (arc_str_bytes n.text)) };
}

fn is_name_byte_of(byte: u8) -> bool
    ensures { result ≡ is_name_byte byte }
{
    byte.is_ascii_alphanumeric() || byte == b'_' || byte == b'.' || byte == b'-'
}

fn has_name_bytes(bytes: &[u8]) -> bool
    ensures { result ≡ list_all is_name_byte bytes.now }
{
    bytes.iter().all(|byte| is_name_byte_of(*byte))
}

impl Name {
    /// Whether the text can be a name.
    #[tactic(auto, unfolding(crate::specs::Names::is_name))]
    pub fn is_valid(text: &str) -> bool
        ensures { result ≡ is_name text.now }
    {
        let bytes = text.as_bytes();
        1 <= bytes.len() && bytes.len() <= 64 && has_name_bytes(bytes)
    }

    /// The name with these bytes.
    ///
    /// # Errors
    ///
    /// Memory was refused.
    pub fn of(alloc: Global, text: &str) -> Result<Name, OutOfMemory>
        requires { IsTrue (is_name text.now) }
        ensures { IfOk result (λ n. n ≡ text.now) }
    {
        Ok(Name {
            text: ArcStr::from_str(alloc, text)?,
        })
    }

    /// Its text.
    pub fn as_str(&self) -> &str
        ensures text { result.now ≡ self.now }
        ensures valid { IsTrue (is_name self.now) }
    {
        self.text.as_str()
    }

    /// A further holder of the same bytes. Nothing is copied.
    ///
    /// # Errors
    ///
    /// A further holder was refused, which counts as want of memory.
    pub fn share(&self) -> Result<Name, OutOfMemory>
        ensures { IfOk result (λ n. n ≡ self.now) }
    {
        Ok(Name {
            text: self.text.clone()?,
        })
    }
}

impl PartialEq for Name {
    ghost eq = { bytes_eq };

    ghost laws = { partial_equiv_from_equiv nat_list_eq_equiv };

    fn eq(&self, other: &Name) -> bool {
        self.text.as_str() == other.text.as_str()
    }
}

impl Eq for Name {
    ghost laws = { nat_list_eq_equiv };
}

impl Hash for Name {
    ghost hash_input = { λ name. fed.str name };

    ghost respects_eq = { λ x y same. ap fed.str ((bytes_eq-Decides x y).0 same) };

    fn hash<H: Hasher>(&self, state: &mut H) {
        self.text.as_str().hash(state);
    }
}
