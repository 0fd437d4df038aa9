//! A text: the bytes of an item.
mod short;

ghost use Rattle.std.specs.Prelude.{◌≡◌, ◌≤◌, ◌==◌, ◌↔◌, [], length, IfOk, IsOk, true};
ghost use Rattle.std.specs.Cmp.Lexicographic.{pointwise};
ghost use Rattle.std.specs.Cmp.Rules.{comparing};
ghost use Rattle.std.proofs.Common.{rules};

use crate::refusal::NoMemory;
use short::Short;
use std::alloc::Global;
use std::convert::AsSlice;
use std::fmt;
use std::marker::Model;
use std::sync::Arc;

/// A text of up to [`Text::LONGEST`] bytes. One of up to [`Text::LONGEST_INSIDE`] bytes lies in this value: it takes no
/// memory, and its shares are copies. The bytes of a longer one lie in memory that its shares have in common.
#[derive(Drop)]
pub struct Text {
    bytes: Bytes,
}

/// Where the bytes of a text lie.
#[derive(Drop)]
enum Bytes {
    /// In this value.
    Inside(Short<{ Text::LONGEST_INSIDE }>),
    /// In one block of memory with the count of its owners.
    InBlock(Arc<Short<{ Text::LONGEST_IN_BLOCK }>>),
    /// In memory of its own, which the block with the count points at.
    Apart(Arc<Vec<u8>>),
}

impl Model for Text {
    ghost use Rattle.std.specs.Prelude.{List, ℕ};
    ghost use Rattle.flow_rules.specs.Text.{bytes_of, Fits};

    ghost Value = { List ℕ };

    ghost view = { λ t. bytes_of t.bytes };

    ghost invariant = { λ t. Fits t.bytes };
}

impl Text {
    /// The number of bytes of the longest text.
    pub const LONGEST: usize = 4096;

    /// The number of bytes of the longest text that takes no memory.
    pub const LONGEST_INSIDE: usize = 30;

    /// The number of bytes of the longest text that takes one block of memory; a longer one takes two. With its count of
    /// owners this block is the largest that glibc gives back to another thread's memory without a lock.
    const LONGEST_IN_BLOCK: usize = 111;

    /// A text of these bytes, which need be no text in any encoding. One of [`Text::LONGEST_INSIDE`] bytes or fewer is
    /// never refused.
    #[inline(always)]
    pub fn new(alloc: Global, bytes: &[u8]) -> Result<Text, NoMemory>
        requires { length bytes.now ≤ Text.LONGEST }
        ensures bytes { IfOk result (λ text. text ≡ bytes.now) }
        ensures not_refused { length bytes.now ≤ Text.LONGEST_INSIDE → IsOk result }
    {
        let bytes = if bytes.len() <= Text::LONGEST_INSIDE {
            Bytes::Inside(Short::of(bytes))
        } else if bytes.len() <= Text::LONGEST_IN_BLOCK {
            Bytes::InBlock(Arc::new(alloc, Short::of(bytes))?)
        } else {
            Bytes::Apart(Arc::new(alloc, Vec::from_slice(alloc, bytes)?)?)
        };
        Ok(Text { bytes })
    }

    /// The same text once more. It may be refused, as any growth, if the text has more than [`Text::LONGEST_INSIDE`]
    /// bytes; a shorter one is never refused.
    pub fn share(&self) -> Result<Text, NoMemory>
        ensures same { IfOk result (λ text. text ≡ self.now) }
        ensures not_refused { length self.now ≤ Text.LONGEST_INSIDE → IsOk result }
    {
        let bytes = match &self.bytes {
            Bytes::Inside(short) => Bytes::Inside(short.again()),
            Bytes::InBlock(short) => Bytes::InBlock(Arc::try_clone(short)?),
            Bytes::Apart(bytes) => Bytes::Apart(Arc::try_clone(bytes)?),
        };
        Ok(Text { bytes })
    }

    /// The bytes of the text.
    pub fn as_bytes(&self) -> &[u8]
        ensures value { result.now ≡ self.now }
        ensures short { length self.now ≤ Text.LONGEST }
    {
        match &self.bytes {
            Bytes::Inside(short) => short.as_slice(),
            Bytes::InBlock(short) => short.as_slice(),
            Bytes::Apart(bytes) => bytes.as_slice(),
        }
    }

    /// The number of bytes.
    pub fn len(&self) -> usize
        ensures value { result ≡ length self.now }
        ensures short { result ≤ Text.LONGEST }
    {
        self.as_bytes().len()
    }

    /// Whether the text has no byte.
    pub fn is_empty(&self) -> bool
        ensures { (result ≡ true) ↔ (self.now ≡ []) }
    {
        self.as_bytes().is_empty()
    }
}

impl fmt::Debug for Text {
    fn fmt<W: fmt::Write>(&self, f: &mut fmt::Formatter<W>) -> fmt::Result {
        f.debug_struct("Text")
            .field("bytes", &self.as_bytes())
            .finish()
    }
}

/// Lends its bytes, as `AsRef<[u8]>` does in Rust.
impl AsSlice<u8> for Text {
    ghost items = { λ text. text };

    fn as_slice(&self) -> &[u8] {
        self.as_bytes()
    }
}

impl PartialEq for Text {
    ghost eq = { pointwise ◌==◌ };

    ghost laws = { Prim.search (comparing, rules) };

    fn eq(&self, other: &Text) -> bool {
        self.as_bytes() == other.as_bytes()
    }
}

impl Eq for Text {
    ghost laws = { Prim.search (comparing, rules) };
}
