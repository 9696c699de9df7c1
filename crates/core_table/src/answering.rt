//! Results of tables: the entries in slots below a theta, as compact states.
ghost use Rattle.std.specs.Prelude.{◌≡◌, ◌<◌, ◌≤◌, ◌^◌, [], ◌∷◌, ◌++◌, length, true, false, None, IfOk};
ghost use Rattle.std.specs.List.{AllByRecursion};
ghost use Rattle.core_compact.specs.CompactState.{IsCompactOf};
ghost use Rattle.core_laws.specs.Maps.{IsApart, below, map_of};
ghost use Rattle.core_laws.specs.Cuts.{cut, retained};
ghost use Rattle.core_laws.specs.Entries.{ClonesEqual};
ghost use Rattle.core_laws.specs.Refusal.{Refuses};
ghost use Rattle.core_laws.specs.Cuts.{IsRetained};
ghost use Rattle.core_slots.specs.SlotLayout.{entries_in, slot_map};

use crate::iter::{Marked, first_in};
use core_compact::{CompactSketchState, is_answer_ordered, sort_by_hash};
use core_laws::SketchEntry;
use core_slots::{SlotEntry, hash_of_rank};
use sketch_base::Error;
use std::alloc::{AllocError, Allocator};

/// Clones of the entries below a theta, in the order of the slots, with room for `room` of them from the start. No
/// branch depends on the contents of a slot.
pub(crate) fn entries_below<'a, E: SlotEntry + Clone + 'a, A: Allocator>(
    alloc: A,
    slots: &'a [E::Slot],
    theta: u64,
    room: usize,
) -> Result<Vec<E, A>, AllocError>
    requires clones_equal { ClonesEqual E.is_clone }
    ensures listed { IfOk result (λ v. v.items ≡ below E.key (entries_in E.content slots.now) theta) }
{
    let mut left = Marked {
        slots,
        ahead: 0,
        marks: 0,
    };
    let mut clones = Vec::with_capacity(alloc, room)?;
    while let (Some(entry), behind) = first_in::<E>(left, Some(theta)) {
        clones.push(entry.clone()?)?;
        left = behind;
    }
    Ok(clones)
}

/// The entries, whose hashes are distinct, in ascending order.
pub fn sorted_by_hash<E: SketchEntry + Drop, A: Allocator>(mut entries: Vec<E, A>) -> Vec<E, A>
    requires { IsApart E.key entries.items }
    ensures { result.items ≡ map_of E.key entries.items }
{
    sort_by_hash(&mut entries);
    entries
}

/// The entries below a theta as the state of a sketch that is not empty, with room for `room` of them from the start.
/// It is ordered if `ordered`, or if there is one entry and theta is the greatest.
pub(crate) fn state_below<E: SlotEntry + Clone, A: Allocator>(
    alloc: A,
    slots: &[E::Slot],
    theta: u64,
    room: usize,
    seed_hash: u16,
    ordered: bool,
) -> Result<CompactSketchState<E, A>, Error>
    requires clones_equal { ClonesEqual E.is_clone }
    requires apart { IsApart E.key (entries_in E.content slots.now) }
    requires sound { IsRetained E.key (retained E.key (slot_map E.key E.content slots.now) theta) }
    requires limited { length (below E.key (slot_map E.key E.content slots.now) theta) < 2 ^ 32 }
    ensures ok { IfOk result
        (IsCompactOf E.key (retained E.key (slot_map E.key E.content slots.now) theta) seed_hash ordered) }
    ensures refused { Refuses result None true }
{
    let entries = entries_below::<E, A>(alloc, slots, theta, room)?;
    let in_order = is_answer_ordered(ordered, entries.len(), theta);
    if in_order {
        return Ok(CompactSketchState::non_empty(sorted_by_hash(entries), theta, seed_hash, true));
    }
    Ok(CompactSketchState::non_empty(entries, theta, seed_hash, false))
}

/// The theta of the entries below `theta`, cut to k: the same theta, or the (k+1)th smallest hash if that is less.
/// The search expects the entries to be spread evenly below `own_theta`, which affects only its time.
pub(crate) fn cut_theta<E: SlotEntry, A: Allocator + Drop>(
    alloc: A,
    slots: &[E::Slot],
    count: usize,
    nominal: usize,
    own_theta: u64,
    theta: u64,
) -> Result<u64, AllocError>
    requires apart { IsApart E.key (entries_in E.content slots.now) }
    requires counted { count ≡ length (entries_in E.content slots.now) }
    requires nonzero { AllByRecursion (λ x. 0 < E.key x) (slot_map E.key E.content slots.now) }
    requires low { 0 < theta }
    ensures cut { IfOk result (λ t.
        cut E.key nominal (slot_map E.key E.content slots.now) theta
        ≡ retained E.key (slot_map E.key E.content slots.now) t) }
    ensures low { IfOk result (λ t. 0 < t) }
    ensures high { IfOk result (λ t. t ≤ theta) }
{
    if count <= nominal {
        return Ok(theta);
    }
    let hash = hash_of_rank::<E, A>(alloc, None, slots, count, nominal, own_theta)?;
    Ok(hash.min(theta))
}
