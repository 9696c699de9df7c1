//! Insertions into the slots of a table: sizes, growth and rebuilds.
ghost use Rattle.std.specs.Prelude.{◌≡◌, ◌+◌, ◌-◌, ◌*◌, ◌/◌, ◌<◌, ◌≤◌, ◌^◌, true, false, None, Some, IsSome};
ghost use Rattle.std.specs.Prelude.{length, map, IfOk, IsOk, OnOk, OnErr};
ghost use Rattle.core_laws.specs.Cuts.{cut};
ghost use Rattle.core_laws.specs.Maps.{with_entry};
ghost use Rattle.core_laws.specs.Refusal.{Refuses};
ghost use Rattle.core_slots.specs.SlotLayout.{slot, IsLaidOut, entries_in, slot_map};
ghost use Rattle.core_slots.specs.Placing.{LooksForEach, LooksAtPlaced};
ghost use Rattle.core_table.specs.HashTable.{threshold, HasSize, sub_multiple, ticked_if};
ghost use Rattle.core_table.specs.Insertion.{HasPlaceFor, Puts, kept_in, after_put, grown, IsCutOf, IsWritten};

use core_laws::{MIN_LG_K, MIN_LG_SLOTS};
use core_slots::{Count, SlotEntry, UpsertStep, hash_of_rank, keep_below, put_kept, put_spread};
use sketch_base::Error;
use std::alloc::{AllocError, Allocator};
use std::mem;

/// Counts of a table's work since it was made or last reset. Only clauses see them.
#[derive(Drop)]
pub struct Counts {
    pub(crate) inserted: Count,
    pub(crate) placed: Count,
    pub(crate) rebuilds: Count,
    pub(crate) fresh: Count,
    pub(crate) looks: Count,
    pub(crate) trims: Count,
}

/// Counts that are all 0.
pub(crate) fn nothing() -> Counts
    ensures { result ≡ record { inserted = 0; placed = 0; rebuilds = 0; fresh = 0; looks = 0; trims = 0 } }
{
    Counts {
        inserted: Count::new(),
        placed: Count::new(),
        rebuilds: Count::new(),
        fresh: Count::new(),
        looks: Count::new(),
        trims: Count::new(),
    }
}

/// The sizes of a table, how many entries its slots may have (`most`), and its theta.
#[derive(Clone, Copy)]
pub(crate) struct Sizes {
    pub(crate) lg_cur: u8,
    pub(crate) lg_nom: u8,
    pub(crate) grow: u8,
    pub(crate) most: usize,
    pub(crate) count: usize,
    pub(crate) theta: u64,
}

/// The binary logarithm of the slots that a table begins with: the least that is at least `lg_min` and from which
/// growth by `lg_resize_factor` reaches `lg_target`; `lg_target` itself if the factor is 0, and `lg_min` if
/// `lg_target` is less.
pub fn starting_sub_multiple(lg_target: u8, lg_min: u8, lg_resize_factor: u8) -> u8
    ensures { result ≡ sub_multiple lg_target lg_min lg_resize_factor }
{
    if lg_target <= lg_min {
        lg_min
    } else if lg_resize_factor == 0 {
        lg_target
    } else {
        (lg_target - lg_min) % lg_resize_factor + lg_min
    }
}

/// The binary logarithm of the slots that a table of a sketch begins with.
pub(crate) fn starting_size(lg_nom: u8, grow: u8) -> u8
    requires low { MIN_LG_K ≤ lg_nom }
    requires high { lg_nom ≤ 32 }
    requires grow { grow ≤ 3 }
    ensures value { result ≡ sub_multiple (lg_nom + 1) MIN_LG_SLOTS grow }
    ensures sized { HasSize result lg_nom grow 0 }
    ensures small { result < 40 }
{
    starting_sub_multiple(lg_nom + 1, MIN_LG_SLOTS, grow)
}

/// The binary logarithm of the slots that a table with 2^`lg_cur` slots has once it has grown for `count` entries,
/// which are at most fifteen eighths of the nominal ones.
pub(crate) fn size_for(lg_cur: u8, lg_nom: u8, grow: u8, count: usize) -> u8
    requires sized { HasSize lg_cur lg_nom grow 0 }
    requires large { 3 ≤ lg_nom }
    requires limited { count ≤ 15 * 2 ^ lg_nom / 8 }
    ensures sized { HasSize result lg_nom grow count }
    ensures small { result < 40 }
{
    let mut lg = lg_cur;
    while count > threshold_of(lg, lg_nom) {
        lg = (lg + grow).min(lg_nom + 1);
    }
    lg
}

/// How many entries the slots may have, for their binary logarithm and that of the nominal entries.
#[inline(always)]
pub(crate) fn threshold_of(lg_cur: u8, lg_nom: u8) -> usize
    requires { lg_cur ≤ 33 }
    ensures { result ≡ threshold lg_cur lg_nom }
{
    let size = nominal_size(lg_cur);
    if lg_cur <= lg_nom {
        size / 2
    } else {
        size - size / 16
    }
}

/// Puts an entry into the free slot where a search for it ends. If the slots then have more entries than they may,
/// they grow or are rebuilt. Returns the new sizes and theta.
#[inline(always)]
pub(crate) fn put_entry<E: SlotEntry + Drop, A: Allocator + Clone>(
    slots: &mut Vec<E::Slot, A>,
    sizes: Sizes,
    at: usize,
    entry: E,
    counts: &mut Counts,
) -> Result<Sizes, AllocError>
    requires place { HasPlaceFor E.key (map E.content slots.old.items) sizes at entry }
    requires room { sizes.lg_nom < 3 → sizes.count + 1 < 2 ^ sizes.lg_cur }
    requires inside { at < length slots.old.items }
    ensures puts { Puts E.key E.content sizes entry slots.old.items counts.old result slots.new.items counts.new }
    ensures room { sizes.count < threshold sizes.lg_cur sizes.lg_nom → IsOk result }
{
    let more = sizes.count + 1;
    if more <= sizes.most {
        slots[at] = entry.into_slot();
        counts.inserted.tick();
        counts.fresh.tick();
        return Ok(Sizes {
            count: more,
            ..sizes
        });
    }
    let settled = overflow::<E, A>(slots, sizes, at, entry, counts)?;
    Ok(settled)
}

/// Puts an entry into slots that may have no more of them: they grow or are rebuilt. It is inlined into the branch
/// that has checked this, so that only that branch writes the sizes to memory.
#[inline(always)]
fn overflow<E: SlotEntry + Drop, A: Allocator + Clone>(
    slots: &mut Vec<E::Slot, A>,
    sizes: Sizes,
    at: usize,
    entry: E,
    counts: &mut Counts,
) -> Result<Sizes, AllocError>
    requires place { HasPlaceFor E.key (map E.content slots.old.items) sizes at entry }
    requires room { sizes.lg_nom < 3 → sizes.count + 1 < 2 ^ sizes.lg_cur }
    requires inside { at < length slots.old.items }
    requires full { threshold sizes.lg_cur sizes.lg_nom < sizes.count + 1 }
    ensures puts { Puts E.key E.content sizes entry slots.old.items counts.old result slots.new.items counts.new }
{
    let full = sizes;
    if full.lg_cur <= full.lg_nom {
        let wider = grow::<E, A>(slots, full, at, entry, counts)?;
        return Ok(wider);
    }
    let cut = rebuild::<E, A>(slots, full, at, entry, counts)?;
    Ok(cut)
}

/// Puts an entry, and moves all entries to more slots.
#[inline(never)]
fn grow<E: SlotEntry + Drop, A: Allocator + Clone>(
    slots: &mut Vec<E::Slot, A>,
    sizes: Sizes,
    at: usize,
    entry: E,
    counts: &mut Counts,
) -> Result<Sizes, AllocError>
    requires place { HasPlaceFor E.key (map E.content slots.old.items) sizes at entry }
    requires growing { sizes.lg_cur ≤ sizes.lg_nom }
    requires inside { at < length slots.old.items }
    ensures laid_out { IfOk result (λ s. IsLaidOut E.key s.lg_cur (map E.content slots.new.items)) }
    ensures after { OnOk result
        (slot_map E.key E.content slots.new.items
        ≡ with_entry E.key (slot_map E.key E.content slots.old.items) entry) }
    ensures same { IfOk result (λ s. s ≡ grown sizes) }
    ensures err { OnErr result (slots.new.items ≡ slots.old.items) }
    ensures looks { LooksAtPlaced (counts.new.placed - counts.old.placed) counts.old.looks counts.new.looks }
    ensures looked { LooksForEach (counts.new.placed - counts.old.placed) counts.old.looks counts.new.looks }
    ensures ticked { OnOk result
        (counts.new
        ≡ record (ticked_if false true (2 ^ sizes.lg_nom) sizes.count counts.old) { looks = counts.new.looks }) }
    ensures unticked { OnErr result (counts.new ≡ record counts.old { looks = counts.new.looks }) }
{
    let lg_cur = (sizes.lg_cur + sizes.grow).min(sizes.lg_nom + 1);
    let looks_moving = &mut counts.looks;
    put_spread::<E, A>(
        slots,
        sizes.lg_cur,
        lg_cur,
        sizes.theta,
        at,
        entry,
        &mut counts.placed,
        looks_moving,
    )?;
    counts.inserted.tick();
    counts.fresh.tick();
    Ok(Sizes {
        lg_cur,
        most: threshold_of(lg_cur, sizes.lg_nom),
        count: sizes.count + 1,
        ..sizes
    })
}

/// Puts an entry, and keeps the k entries of least hash, in the same slots. Theta is then the next hash above them.
#[inline(never)]
fn rebuild<E: SlotEntry + Drop, A: Allocator + Clone>(
    slots: &mut Vec<E::Slot, A>,
    sizes: Sizes,
    at: usize,
    entry: E,
    counts: &mut Counts,
) -> Result<Sizes, AllocError>
    requires place { HasPlaceFor E.key (map E.content slots.old.items) sizes at entry }
    requires full { 15 * 2 ^ sizes.lg_nom / 8 < sizes.count + 1 }
    requires large { 8 ≤ 2 ^ sizes.lg_nom }
    requires inside { at < length slots.old.items }
    ensures laid_out { OnOk result (IsLaidOut E.key sizes.lg_cur (map E.content slots.new.items)) }
    ensures after { IfOk result (λ s.
        kept_in E.key E.content slots.new.items s.theta
        ≡ after_put E.key sizes (slot_map E.key E.content slots.old.items) entry) }
    ensures same { IfOk result (λ s. s ≡ record sizes { count = 2 ^ sizes.lg_nom; theta = s.theta }) }
    ensures count { OnOk result (length (entries_in E.content slots.new.items) ≡ 2 ^ sizes.lg_nom) }
    ensures err { OnErr result (slots.new.items ≡ slots.old.items) }
    ensures looks { LooksAtPlaced (counts.new.placed - counts.old.placed) counts.old.looks counts.new.looks }
    ensures looked { LooksForEach (counts.new.placed - counts.old.placed) counts.old.looks counts.new.looks }
    ensures ticked { OnOk result (
        counts.new
        ≡ record (ticked_if false false (2 ^ sizes.lg_nom) sizes.count counts.old) { looks = counts.new.looks }) }
    ensures unticked { OnErr result (counts.new ≡ record counts.old { looks = counts.new.looks }) }
{
    let nominal = nominal_size(sizes.lg_nom);
    let alloc = slots.allocator().clone()?;
    let count = sizes.count + 1;
    let cut_theta = hash_of_rank::<E, A>(
        alloc,
        Some(entry.hash()),
        slots,
        count,
        nominal,
        sizes.theta,
    )?;
    // Exactly `nominal` entries are below the new theta.
    let kept = nominal;
    let looks_placing = &mut counts.looks;
    put_kept::<E, A>(
        slots,
        sizes.lg_cur,
        cut_theta,
        kept,
        at,
        entry,
        &mut counts.placed,
        looks_placing,
    )?;
    counts.inserted.tick();
    counts.rebuilds.tick();
    counts.fresh = Count::new();
    Ok(Sizes {
        theta: cut_theta,
        count: nominal,
        ..sizes
    })
}

/// The nominal entries k, for their binary logarithm.
#[inline(always)]
pub(crate) fn nominal_size(lg_nom_size: u8) -> usize
    requires { lg_nom_size ≤ 33 }
    ensures power { result ≡ 2 ^ lg_nom_size }
    ensures small { result ≤ 2 ^ 33 }
{
    1usize << lg_nom_size
}

/// Lets a step write the entry in a slot. If it refuses, the entry is unchanged.
#[inline(always)]
pub(crate) fn write_at<E: SlotEntry + Drop, S: UpsertStep<E> + Drop>(
    slots: &mut [E::Slot],
    at: usize,
    step: S,
) -> Result<(), Error>
    requires inside { at < length slots.old }
    requires taken { IsSome (slot (map E.content slots.old) at) }
    requires nonzero { (x : E)
        → slot (map E.content slots.old) at ≡ Some x
        → (0 < E.key x) × (0 < E.key ((S.means step).writes x)) }
    ensures ok { OnOk result (IsWritten at (S.means step).writes (map E.content slots.old) (map E.content slots.new)) }
    ensures err { OnErr result (map E.content slots.new ≡ map E.content slots.old) }
    ensures size { length slots.new ≡ length slots.old }
    ensures refused { (x : E)
        → slot (map E.content slots.old) at ≡ Some x
        → Refuses result ((S.means step).refuses_existing x) (S.means step).allocates }
{
    let slot = mem::replace(&mut slots[at], E::free_slot());
    match E::from_slot(slot) {
        None => Ok(()),
        Some(entry) => {
            let mut written = entry;
            let result = step.existing(&mut written);
            slots[at] = written.into_slot();
            result
        }
    }
}

/// Keeps the k entries of least hash out of `count`, which is more than k. Returns the theta above them. The search
/// expects the entries to be spread evenly below `old_theta`, which affects only its time.
pub(crate) fn cut_slots<E: SlotEntry + Drop, A: Allocator + Clone>(
    slots: &mut Vec<E::Slot, A>,
    lg: u8,
    count: usize,
    nominal: usize,
    old_theta: u64,
    placed: &mut Count,
) -> Result<u64, AllocError>
    requires small { lg < 40 }
    requires laid_out { IsLaidOut E.key lg (map E.content slots.old.items) }
    requires counted { count ≡ length (entries_in E.content slots.old.items) }
    requires many { nominal < length (entries_in E.content slots.old.items) }
    requires room { length (entries_in E.content slots.old.items) ≤ 2 ^ lg }
    ensures laid_out { OnOk result (IsLaidOut E.key lg (map E.content slots.new.items)) }
    ensures after { IfOk result (λ theta.
        IsCutOf E.key nominal (slot_map E.key E.content slots.old.items) (kept_in E.key E.content slots.new.items theta)) }
    ensures count { OnOk result (length (entries_in E.content slots.new.items) ≡ nominal) }
    ensures placed { OnOk result (placed.new ≡ placed.old + nominal) }
    ensures placed_err { OnErr result (placed.new ≡ placed.old) }
    ensures err { OnErr result (slots.new.items ≡ slots.old.items) }
{
    let alloc = slots.allocator().clone()?;
    let theta = hash_of_rank::<E, A>(alloc, None, slots, count, nominal, old_theta)?;
    let mut looks = Count::new();
    keep_below::<E, A>(slots, lg, theta, nominal, placed, &mut looks)?;
    Ok(theta)
}
