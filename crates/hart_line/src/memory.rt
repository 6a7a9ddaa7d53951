//! The only place in this crate that allocates memory.
ghost use Rattle.std.specs.Prelude.{◌≡◌, ◌+◌, ◌<◌, ◌≤◌, ◌^◌, [], IfErr, IfOk, IsOk, OnOk, length, vec_capacity};
ghost use Rattle.hart_line.specs.Filling.{AreSmall};

use std::alloc::Global;

/// Memory that the allocator refused. Only [`reserved`] and [`make_room`] make this value. Its number of items never changes.
#[derive(Clone, Copy, Debug, PartialEq, Eq)]
pub struct NoRoom {
    items: usize,
}

impl NoRoom {
    /// Returns the number of items for which there was no room.
    pub fn items(self) -> usize
        ensures { result ≡ self.items }
    {
        self.items
    }
}

/// Returns an empty list with room for `room` items of at most 512 bytes each. Room for 0 items is never refused.
///
/// # Errors
///
/// [`NoRoom`] with the number `room`, if the allocator refused the memory.
pub fn reserved<T>(alloc: Global, room: usize) -> Result<Vec<T>, NoRoom>
    requires small { AreSmall T.row }
    ensures empty { IfOk result (λ list. list.items ≡ []) }
    ensures room { IfOk result (λ list. vec_capacity list ≡ room) }
    // No list has room for 2^63 items.
    ensures bound { OnOk result (room < 2 ^ 63) }
    ensures refused { IfErr result (λ none. none.items ≡ room) }
    ensures nothing { room ≡ 0 → IsOk result }
{
    Vec::with_capacity(alloc, room).map_err(|_refused| NoRoom { items: room })
}

/// Makes room for `more` further items of a list, of at most 512 bytes each. Room for 0 items is never refused. If room is missing,
/// reserves more than is needed, so that a growing list seldom moves.
///
/// # Errors
///
/// [`NoRoom`] with the number `more`, if the allocator refused the memory. The list is then unchanged.
pub fn make_room<T>(list: &mut Vec<T>, more: usize) -> Result<(), NoRoom>
    requires small { AreSmall T.row }
    ensures items { list.new.items ≡ list.old.items }
    ensures room { OnOk result (length list.new.items + more ≤ vec_capacity list.new) }
    ensures kept { vec_capacity list.old ≤ vec_capacity list.new }
    ensures refused { IfErr result (λ none. none.items ≡ more) }
    ensures nothing { more ≡ 0 → IsOk result }
{
    list.reserve(more)
        .map_err(|_refused| NoRoom { items: more })
}
