//! The bytes of a short text, which lie in an array.
ghost use Rattle.std.specs.Prelude.{◌≡◌, ◌≤◌, ◌<◌, length};

use std::marker::Model;

/// Up to `N` bytes: the first `len` of the array. `len` lies before it, so that the array is copied in fewer parts.
#[derive(Drop)]
pub(super) struct Short<const N: usize> {
    len: u8,
    array: [u8; N],
}

impl<const N: usize> Model for Short<N> {
    ghost use Rattle.std.specs.Prelude.{◌≤◌, List, take, ℕ};

    ghost Value = { List ℕ };

    ghost view = { λ short. take short.len short.array };

    ghost invariant = { λ short. short.len ≤ N };
}

impl<const N: usize> Short<N> {
    /// Copies these bytes.
    #[inline(always)]
    pub(super) fn of(bytes: &[u8]) -> Short<N>
        requires fits { length bytes.now ≤ N }
        requires few { N < 256 }
        ensures { result ≡ bytes.now }
    {
        let mut array = [0; N];
        array[..bytes.len()].copy_from_slice(bytes);
        Short {
            len: bytes.len() as u8,
            array,
        }
    }

    /// The same bytes once more.
    pub(super) fn again(&self) -> Short<N>
        ensures { result ≡ self.now }
    {
        Short {
            len: self.len,
            array: self.array,
        }
    }

    /// The bytes.
    pub(super) fn as_slice(&self) -> &[u8]
        ensures value { result.now ≡ self.now }
        ensures fits { length self.now ≤ N }
    {
        &self.array[..usize::from(self.len)]
    }
}
