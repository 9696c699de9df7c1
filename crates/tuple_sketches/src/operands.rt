//! The operators' calls on views, generic over the entries. The borrow checker accepts a view there if its entries
//! are a type parameter, but not if they are tuples.
ghost use Rattle.std.specs.Prelude.{◌≡◌, ◌||◌, ◌^◌, [], ◌∷◌, true, None, IfOk, IfErr, OnOk};
ghost use Rattle.core_laws.specs.Cuts.{IsRetained};
ghost use Rattle.core_laws.specs.Entries.{ClonesEqual};
ghost use Rattle.core_laws.specs.Refusal.{Refuses};
ghost use Rattle.core_laws.specs.Shown.{IsShown};
ghost use Rattle.core_operators.specs.ANotB.{difference_refusal, IsDifference};
ghost use Rattle.core_operators.specs.Intersection.{intersect_refusal, IsIntersection, IsMet, content_of};
ghost use Rattle.core_operators.specs.Intersection.{IsIntersectError};
ghost use Rattle.core_operators.specs.Union.{update_refusal, IsUnion, JoinsShown, UnitesShown, IsUpdateError};
ghost use Rattle.core_operators.specs.Union.{all_empty, update_all_refusal, JoinsAll, UnitesAll, IsUpdateAllError};
ghost use Rattle.core_state.specs.View.{shows, sequence};

use core_compact::CompactSketchState;
use core_operators::{IntersectionState, UnionState, a_not_b};
use core_policies::{IntersectionMergePolicy, UnionMergePolicy};
use core_slots::SlotEntry;
use core_state::SketchView;
use sketch_base::Error;
use std::alloc::Allocator;

/// Merges a view into a union: `UnionState::update`.
pub(crate) fn join_view<
    'v,
    E: SlotEntry + Clone,
    P: UnionMergePolicy<E> + Drop,
    A: Allocator + Clone,
    B: Allocator,
>(union: &mut UnionState<E, P, A>, view: SketchView<'v, E, B>) -> Result<(), Error>
where
    E::Slot: 'v,
    requires clones_equal { ClonesEqual E.is_clone }
    ensures skipped { OnOk result ((shows E.key view.entry).empty ≡ true → union.new ≡ union.old) }
    ensures joined { OnOk result (
        JoinsShown E.key (P.merges union.old.policy) (P.refuses union.old.policy) union.old union.new
        (shows E.key view.entry) (sequence view.entry)) }
    ensures united { OnOk result (
        UnitesShown E.key (P.merges union.old.policy) (P.refuses union.old.policy) union.old union.new
        (shows E.key view.entry) (sequence view.entry)) }
    ensures accepted { OnOk result (update_refusal union.old (shows E.key view.entry) ≡ None) }
    ensures shown { OnOk result (IsShown (shows E.key view.entry)) }
    ensures refused { IfErr result (
        IsUpdateError E.key (P.refuses union.old.policy) union.old union.new (shows E.key view.entry)
        (sequence view.entry)) }
    ensures sound { IsUnion union.old }
    ensures content { IsRetained E.key union.old.content }
{
    union.update(view)
}

/// Merges views into a union: `UnionState::update_all`.
pub(crate) fn join_views<
    'v,
    E: SlotEntry + Clone,
    P: UnionMergePolicy<E> + Drop,
    A: Allocator + Clone,
    B: Allocator,
>(union: &mut UnionState<E, P, A>, views: &[SketchView<'v, E, B>]) -> Result<(), Error>
where
    E::Slot: 'v,
    requires clones_equal { ClonesEqual E.is_clone }
    ensures skipped { OnOk result (all_empty (λ v. shows E.key v) views.now ≡ true → union.new ≡ union.old) }
    ensures joined { OnOk result (
        JoinsAll E.key (P.merges union.old.policy) (P.refuses union.old.policy) union.old union.new
        (λ v. shows E.key v) (λ v. sequence v) views.now) }
    ensures united { OnOk result (
        UnitesAll E.key (P.merges union.old.policy) (P.refuses union.old.policy) union.old union.new
        (λ v. shows E.key v) (λ v. sequence v) views.now) }
    ensures accepted { OnOk result (update_all_refusal union.old (λ v. shows E.key v) views.now ≡ None) }
    ensures refused { IfErr result (
        IsUpdateAllError E.key (P.merges union.old.policy) (P.refuses union.old.policy) union.old union.new
        (λ v. shows E.key v) (λ v. sequence v) views.now) }
    ensures sound { IsUnion union.old }
    ensures content { IsRetained E.key union.old.content }
{
    union.update_all(views)
}

/// Intersects with a view: `IntersectionState::update`.
pub(crate) fn meet_view<
    'v,
    E: SlotEntry + Clone,
    P: IntersectionMergePolicy<E> + Drop,
    A: Allocator + Clone,
    B: Allocator,
>(intersection: &mut IntersectionState<E, P, A>, view: SketchView<'v, E, B>) -> Result<(), Error>
where
    E::Slot: 'v,
    requires clones_equal { ClonesEqual E.is_clone }
    ensures met { OnOk result (
        IsMet E.key (P.merges intersection.old.policy) (P.refuses intersection.old.policy) intersection.old
        intersection.new (shows E.key view.entry) (sequence view.entry)) }
    ensures made_with { intersection.new ≡ record intersection.old { result = intersection.new.result } }
    ensures accepted { OnOk result (intersect_refusal intersection.old (shows E.key view.entry) ≡ None) }
    ensures refused { IfErr result (
        IsIntersectError E.key (P.refuses intersection.old.policy) intersection.old intersection.new
        (shows E.key view.entry) (sequence view.entry)) }
    ensures sound { IsIntersection intersection.old }
    ensures content { IsRetained E.key (content_of intersection.old.result) }
{
    intersection.update(view)
}

/// The difference of two views: `a_not_b::compute_with_entries`.
pub(crate) fn difference_of<
    'v,
    'w,
    E: SlotEntry + Clone,
    F: SlotEntry,
    A: Allocator + Clone,
    B: Allocator,
    C: Allocator,
>(
    alloc: A,
    seed_hash: u16,
    a: SketchView<'v, E, B>,
    b: SketchView<'w, F, C>,
    ordered: bool,
) -> Result<CompactSketchState<E, A>, Error>
where
    E::Slot: 'v,
    F::Slot: 'w,
    requires clones_equal { ClonesEqual E.is_clone }
    ensures ok { IfOk result
        (IsDifference E.key (shows E.key a.entry) (sequence a.entry) (shows F.key b.entry) ordered) }
    ensures refused { Refuses result (difference_refusal seed_hash (shows E.key a.entry) (shows F.key b.entry)) true }
{
    a_not_b::compute_with_entries(alloc, seed_hash, a, b, ordered)
}
