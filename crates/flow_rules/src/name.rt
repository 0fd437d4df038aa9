//! The name that a subscriber subscribes with. It says nothing of who has one.
mod not_a_name;

ghost use Rattle.std.specs.Prelude.{◌≡◌, ◌≤◌, ◌↔◌, ◌==◌, List, ℕ, length, IsSome, IsOk, IfErr, IfOk, IfSome, Some, true};
ghost use Rattle.std.specs.List.{list_all};
ghost use Rattle.std.specs.Cmp.Lexicographic.{pointwise, slice_cmp, nat_list_cmp_total, texts_ties, texts_po};
ghost use Rattle.std.specs.Cmp.Rules.{comparing};
ghost use Rattle.std.specs.Ordering.{nat_cmp};
ghost use Rattle.std.specs.Hash as fed;
ghost use Rattle.std.proofs.Common.{rules};
ghost use Rattle.flow_rules.specs.Name.{IsNoName, is_name, is_name_byte};

pub use not_a_name::NotAName;
use std::cmp::Ordering;
use std::hash::{Hash, Hasher};
use std::marker::Model;
use std::{fmt, str};

/// The name that a subscriber subscribes with: 1 to 32 ASCII letters, digits, `-` and `_`.
#[derive(Clone, Copy)]
pub struct Name {
    bytes: [u8; Name::LONGEST],
    len: usize,
}

impl Model for Name {
    ghost use Rattle.std.specs.Prelude.{◌≡◌, List, ℕ, take, length, true};
    ghost use Rattle.flow_rules.specs.Name.{IsPadded, is_name, padded};
    ghost use Rattle.flow_rules.specs.Padding.{padded_take};

    ghost Value = { List ℕ };

    ghost view = { λ n. take n.len n.bytes };

    ghost invariant = { λ n. IsPadded n.bytes n.len × (is_name (take n.len n.bytes) ≡ true) };

    ghost inverse = { λ name. record { bytes = padded name; len = length name } };

    ghost inverse_ok = { λ n kept. padded_take n kept.0 };
}

impl Name {
    /// The number of bytes of the longest name.
    pub const LONGEST: usize = 32;

    /// The name with these bytes, or `None` if they are not 1 to 32 ASCII letters, digits, `-` and `_`.
    pub fn new(bytes: &[u8]) -> Option<Name>
        ensures allowed { IsSome result ↔ (is_name bytes.now ≡ true) }
        ensures value { IfSome result (λ name. name ≡ bytes.now) }
    {
        if !is_allowed(bytes) {
            return None;
        }
        let mut padded = [0; Name::LONGEST];
        padded[..bytes.len()].copy_from_slice(bytes);
        Some(Name {
            bytes: padded,
            len: bytes.len(),
        })
    }

    /// The name that is this text, or why it is none: a name is 1 to 32 ASCII letters, digits, `-` and `_`.
    pub fn parse(text: &str) -> Result<Name, NotAName>
        ensures allowed { IsOk result ↔ (is_name text.now ≡ true) }
        ensures value { IfOk result (λ name. name ≡ text.now) }
        ensures why { IfErr result (IsNoName text.now) }
    {
        let bytes = text.as_bytes();
        match Name::new(bytes) {
            Some(name) => Ok(name),
            None => Err(NotAName::of(bytes)),
        }
    }

    /// The bytes of the name.
    pub fn as_bytes(&self) -> &[u8]
        ensures { result.now ≡ self.now }
    {
        &self.bytes[..self.len]
    }

    /// The name as a text.
    #[tactic(auto, using(crate::proofs::Names::name_is_utf8))]
    pub fn as_str(&self) -> &str
        ensures value { result.now ≡ self.now }
        ensures allowed { is_name self.now ≡ true }
    {
        str::from_utf8(&self.bytes[..self.len]).unwrap()
    }
}

/// Whether the bytes are a name.
fn is_allowed(bytes: &[u8]) -> bool
    ensures value { result ≡ is_name bytes.now }
    ensures short { result ≡ true → length bytes.now ≤ Name.LONGEST }
{
    1 <= bytes.len() && bytes.len() <= Name::LONGEST && all_may_stand(bytes)
}

fn all_may_stand(bytes: &[u8]) -> bool
    ensures { result ≡ list_all is_name_byte bytes.now }
{
    bytes.iter().all(|byte| may_stand(*byte))
}

/// Whether the byte may stand in a name.
fn may_stand(byte: u8) -> bool
    ensures { result ≡ is_name_byte byte }
{
    matches!(byte, b'0'..=b'9' | b'A'..=b'Z' | b'a'..=b'z' | b'-' | b'_')
}

impl PartialEq for Name {
    ghost eq = { pointwise ◌==◌ };

    ghost laws = { Prim.search (comparing, rules) };

    fn eq(&self, other: &Name) -> bool {
        self.as_bytes() == other.as_bytes()
    }
}

impl Eq for Name {
    ghost laws = { Prim.search (comparing, rules) };
}

/// Names come in the order of their bytes.
impl PartialOrd for Name {
    ghost partial_cmp = { λ x y. Some (slice_cmp nat_cmp x y) };

    ghost laws = { texts_po };

    fn partial_cmp(&self, other: &Name) -> Option<Ordering> {
        Some(self.cmp(other))
    }
}

impl Ord for Name {
    ghost cmp = { slice_cmp nat_cmp };

    ghost total = { nat_list_cmp_total };

    ghost matches_partial_cmp = { Prim.search rules };

    ghost matches_eq = { texts_ties };

    fn cmp(&self, other: &Name) -> Ordering {
        self.as_str().cmp(other.as_str())
    }
}

/// A name is hashed as its text.
impl Hash for Name {
    ghost hash_input = { fed.str };

    ghost respects_eq = { Prim.search rules };

    fn hash<H: Hasher>(&self, state: &mut H) {
        self.as_str().hash(state);
    }
}

impl fmt::Display for Name {
    ghost output = { λ name. Some name };

    fn fmt<W: fmt::Write>(&self, f: &mut fmt::Formatter<W>) -> fmt::Result {
        f.write_str(self.as_str())
    }
}

impl fmt::Debug for Name {
    fn fmt<W: fmt::Write>(&self, f: &mut fmt::Formatter<W>) -> fmt::Result {
        write!(f, "{self}")
    }
}
