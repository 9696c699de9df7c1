//! Freeing the slots of a table.
ghost use Rattle.std.specs.Prelude.{◌≡◌, ◌<◌, ◌≤◌, ◌^◌, length, [], IfOk, IsOk};
ghost use Rattle.core_table.specs.HashTable.{slots_of_operator};
ghost use Rattle.core_slots.specs.SlotLayout.{entries_in};

use core_slots::{SlotEntry, free_slots};
use std::alloc::{AllocError, Allocator};

/// Keeps `size` slots and makes all of them free. It allocates nothing.
pub(crate) fn clear_slots<E: SlotEntry, A: Allocator>(slots: &mut Vec<E::Slot, A>, size: usize)
    requires { size ≤ length slots.old.items }
    ensures size { length slots.new.items ≡ size }
    ensures free { entries_in E.content slots.new.items ≡ [] }
{
    slots.truncate(size);
    for at in 0..size {
        slots[at] = E::free_slot();
    }
}

/// The slots of an operator's table: 2^`lg`, all of them free, or none if `lg` is 0.
pub(crate) fn operator_slots<E: SlotEntry, A: Allocator + Drop>(
    alloc: A,
    lg: u8,
) -> Result<Vec<E::Slot, A>, AllocError>
    requires { lg < 40 }
    ensures size { IfOk result (λ slots. length slots.items ≡ slots_of_operator lg) }
    ensures free { IfOk result (λ slots. entries_in E.content slots.items ≡ []) }
    ensures none { lg ≡ 0 → IsOk result }
{
    if lg == 0 {
        return Ok(Vec::new(alloc));
    }
    let slots = free_slots::<E, A>(alloc, lg)?;
    Ok(slots)
}
