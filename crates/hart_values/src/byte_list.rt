ghost use Rattle.std.specs.Prelude.{◌≡◌, ◌+◌, ◌<◌, ◌≤◌, ◌↔◌, [], ◌∷◌, ◌++◌, length, All, IsTrue, IsSome, IfSome};

use arrayvec::ArrayVec;
use std::marker::Model;

/// A list of at most `N` bytes, stored inline, without an allocation.
#[derive(Debug, Drop, PartialEq, Eq)]
pub struct ByteList<const N: usize> {
    bytes: ArrayVec<u8, N>,
}

/// The payload or the data bytes of a message: at most 255 bytes (HCF_SPEC-081).
pub type Payload = ByteList<255>;

impl<const N: usize> Model for ByteList<N> {
    ghost use Rattle.std.specs.Prelude.{List, ℕ, ◌<◌, All};

    ghost Value = { List ℕ };

    ghost view = { λ list. list.bytes.items };

    ghost invariant = { λ list. All (λ byte. byte < 256) list.bytes.items };

    ghost inverse = { λ xs. record { bytes = record { items = xs } } };
}

impl<const N: usize> ByteList<N> {
    /// Returns the empty list.
    pub fn new() -> Self
        ensures { result ≡ [] }
    {
        ByteList {
            bytes: ArrayVec::new(),
        }
    }

    /// Returns the list of these bytes, or `None` if there are more than `N`.
    pub fn from_slice(bytes: &[u8]) -> Option<Self>
        ensures fits { IsSome result ↔ (length bytes.now ≤ N) }
        ensures kept { IfSome result (λ list. list ≡ bytes.now) }
    {
        if bytes.len() > N {
            return None;
        }
        let mut list = ByteList::new();
        list.extend_from_slice(bytes);
        Some(list)
    }

    /// Returns the bytes, in order.
    pub fn as_slice(&self) -> &[u8]
        ensures value { result.now ≡ self.now }
        ensures fits { length result.now ≤ N }
        ensures bytes { All (λ byte. byte < 256) result.now }
    {
        self.bytes.as_slice()
    }

    /// Returns the number of bytes.
    pub fn len(&self) -> usize
        ensures value { result ≡ length self.now }
        ensures fits { result ≤ N }
    {
        self.bytes.len()
    }

    /// Returns true if there are no bytes.
    pub fn is_empty(&self) -> bool
        ensures { IsTrue result ↔ (self.now ≡ []) }
    {
        self.bytes.is_empty()
    }

    /// Adds a byte at the end.
    pub fn push(&mut self, byte: u8)
        requires { length self.old < N }
        ensures { self.new ≡ self.old ++ byte ∷ [] }
    {
        self.bytes.push(byte);
    }

    /// Adds bytes at the end.
    pub fn extend_from_slice(&mut self, bytes: &[u8])
        requires { length self.old + length bytes.now ≤ N }
        ensures { self.new ≡ self.old ++ bytes.now }
    {
        self.bytes.try_extend_from_slice(bytes).unwrap();
    }

    /// Removes every byte.
    pub fn clear(&mut self)
        ensures { self.new ≡ [] }
    {
        self.bytes.clear();
    }
}
