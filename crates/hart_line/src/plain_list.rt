ghost use Rattle.std.specs.Prelude.{◌≡◌};

use hart_frame::Char;
use std::marker::Model;

/// A list. In contracts, a `PlainList` is only its items, without the capacity of a `Vec`.
#[derive(Debug, Drop)]
pub struct PlainList<T> {
    items: Vec<T>,
}

impl<T> Model for PlainList<T> {
    ghost use Rattle.std.specs.Prelude.{List};

    ghost Value = { List T };

    ghost view = { λ list. list.items.items };
}

impl<T> PlainList<T> {
    /// Returns the list of these items.
    pub fn new(items: Vec<T>) -> Self
        ensures { result ≡ items.items }
    {
        PlainList { items }
    }

    /// Returns the items, in order.
    pub fn as_slice(&self) -> &[T]
        ensures { result.now ≡ self.now }
    {
        self.items.as_slice()
    }
}

/// A list of received characters.
pub type CharList = PlainList<Char>;
