ghost use Rattle.std.specs.Prelude.{◌≡◌, ◌+◌, ◌<◌, ◌≤◌, [], ◌∷◌, ◌++◌, length};

use arrayvec::ArrayVec;
use std::marker::Model;

/// A list of at most `N` items, stored inline, without an allocation.
///
/// In contracts, a value of this type is the list of its items.
#[derive(Debug, Drop, PartialEq, Eq)]
pub struct ShortList<T, const N: usize> {
    items: ArrayVec<T, N>,
}

impl<T, const N: usize> Model for ShortList<T, N> {
    ghost use Rattle.std.specs.Prelude.{List};

    ghost Value = { List T };

    ghost view = { λ list. list.items.items };

    ghost inverse = { λ xs. record { items = record { items = xs } } };
}

impl<T: Copy + Default, const N: usize> ShortList<T, N> {
    /// Returns the empty list.
    pub fn new() -> Self
        ensures { result ≡ [] }
    {
        ShortList {
            items: ArrayVec::new(),
        }
    }

    /// Adds an item at the end.
    pub fn push(&mut self, item: T)
        requires { length self.old < N }
        ensures { self.new ≡ self.old ++ item ∷ [] }
    {
        self.items.push(item);
    }

    /// Returns the items, in order.
    pub fn as_slice(&self) -> &[T]
        ensures value { result.now ≡ self.now }
        ensures fits { length result.now ≤ N }
    {
        self.items.as_slice()
    }
}
