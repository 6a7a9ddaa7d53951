ghost use Rattle.std.specs.Prelude.{◌≡◌, ◌+◌, ◌-◌, ◌^◌, ◌<◌, ◌≤◌, [], ◌∷◌, ◌++◌, IfErr, IfOk, IsOk, OnErr, OnOk, length, slice_set};
ghost use Rattle.hart_line.specs.Filling.{AreSmall};

use crate::memory::{NoRoom, make_room, reserved};
use std::alloc::Global;
use std::marker::Model;

/// A list that reserves memory for its items beforehand, so that appending an item never fails.
#[derive(Debug, Drop)]
pub struct Filling<T> {
    items: Vec<T>,
    room: usize,
}

impl<T> Model for Filling<T> {
    ghost use Rattle.std.specs.Prelude.{◌≤◌, vec_capacity};
    ghost use Rattle.hart_line.specs.Filling.{Filled};

    ghost Value = { Filled T };

    ghost view = { λ list. record { items = list.items.items; room = list.room } };

    ghost invariant = { λ list. list.room ≤ vec_capacity list.items };
}

impl<T> Filling<T> {
    /// Returns an empty list with room for `room` items of at most 512 bytes each. Room for 0 items is never refused.
    ///
    /// # Errors
    ///
    /// [`NoRoom`] with the number `room`, if the allocator refused the memory.
    pub fn with_room(alloc: Global, room: usize) -> Result<Self, NoRoom>
        requires small { AreSmall T.row }
        ensures empty { IfOk result (λ list. list ≡ record { items = []; room = room }) }
        // No list has room for 2^63 items.
        ensures bound { OnOk result (room < 2 ^ 63) }
        ensures refused { IfErr result (λ none. none.items ≡ room) }
        ensures nothing { room ≡ 0 → IsOk result }
    {
        let items = reserved(alloc, room)?;
        Ok(Filling { items, room })
    }

    /// Returns the number of items.
    pub fn len(&self) -> usize
        ensures { result ≡ length self.now.items }
    {
        self.items.len()
    }

    /// Returns the number of items for which there is still room.
    pub fn spare(&self) -> usize
        ensures { result ≡ self.now.room - length self.now.items }
    {
        self.room.saturating_sub(self.items.len())
    }

    /// Returns the items, in order.
    pub fn as_slice(&self) -> &[T]
        ensures { result.now ≡ self.now.items }
    {
        self.items.as_slice()
    }

    /// Adds an item. There must be room for it.
    pub fn push(&mut self, item: T)
        requires { length self.old.items < self.old.room }
        ensures { self.new ≡ record self.old { items = self.old.items ++ item ∷ [] } }
    {
        self.items.push_reserved(item);
    }

    /// Replaces the item at `place`. Does nothing if there is no item at this place.
    pub fn replace(&mut self, place: usize, item: T)
    where
        T: Drop,
        ensures { self.new ≡ record self.old { items = slice_set self.old.items place item } }
    {
        if let Some(old) = self.items.get_mut(place) {
            *old = item;
        }
    }

    /// Makes room for `more` further items of at most 512 bytes each, unless there is room already. Room for 0 items is never refused.
    ///
    /// # Errors
    ///
    /// [`NoRoom`] with the number `more`, if the allocator refused the memory. The list is then unchanged.
    pub fn make_room(&mut self, more: usize) -> Result<(), NoRoom>
        requires small { AreSmall T.row }
        ensures items { self.new.items ≡ self.old.items }
        ensures room { OnOk result (length self.new.items + more ≤ self.new.room) }
        ensures kept { self.old.room ≤ self.new.room }
        ensures refused { OnErr result (self.new ≡ self.old) }
        ensures number { IfErr result (λ none. none.items ≡ more) }
        ensures nothing { more ≡ 0 → IsOk result }
    {
        make_room(&mut self.items, more)?;
        self.room = self.items.capacity();
        Ok(())
    }

    /// Removes every item.
    pub fn clear(&mut self)
    where
        T: Drop,
        ensures { self.new ≡ record self.old { items = [] } }
    {
        self.items.clear();
    }

    /// Ends the filling and returns the items as a list.
    pub fn finish(self) -> Vec<T>
        ensures { result.items ≡ self.items }
    {
        self.items
    }
}

impl<T: Copy> Filling<T> {
    /// Adds items. There must be room for all of them.
    #[inline(always)]
    pub fn extend(&mut self, more: &[T])
        requires { length self.old.items + length more.now ≤ self.old.room }
        ensures { self.new ≡ record self.old { items = self.old.items ++ more.now } }
    {
        let _there_is_room = self.items.extend_from_slice(more);
    }
}
