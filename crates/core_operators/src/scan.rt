//! A difference of two ascending lists, in one pass over both or by looking up the entries of the one in the other.
ghost use Rattle.std.specs.Prelude.{◌≡◌, ◌+◌, ◌*◌, ◌<◌, ◌≤◌, ◌==◌, ◌&&◌, ◌||◌, ◌++◌, if◌then◌else◌, true, None};
ghost use Rattle.std.specs.Prelude.{length, map, take, IfOk, OnOk};
ghost use Rattle.core_laws.specs.Maps.{IsAscending, below};
ghost use Rattle.core_operators.specs.ANotB.{lacking_below};
ghost use Rattle.core_operators.specs.Search.{AreFewLookUps, is_much_longer};
ghost use Rattle.core_laws.specs.Entries.{ClonesEqual};
ghost use Rattle.core_laws.specs.Operators.{lacking};
ghost use Rattle.core_laws.specs.Refusal.{Refuses};

use crate::search::{found_by_halves, is_much_longer};
use core_laws::SketchEntry;
use core_slots::Count;
use sketch_base::Error;
use std::alloc::{AllocError, Allocator};

/// How many entries are gathered at most before they are cloned.
pub(crate) const BLOCK: usize = 64;

/// How many entries `sift` kept, and what is left to compare.
#[derive(Drop)]
struct Sifted<'a, 'b, E, F> {
    /// How many entries were kept.
    count: usize,
    entries: &'a [E],
    others: &'b [F],
}

/// 1 if `so` is true, otherwise 0.
#[inline(always)]
pub(crate) fn number_if(so: bool) -> usize
    ensures value { result ≡ if so then 1 else 0 }
    ensures small { result ≤ 1 }
{
    so as usize
}

/// Writes the entries below theta whose hashes `others` lacks to the front of `kept`, in their order, until `kept` is
/// full or one of the lists ends or theta is reached. Both lists ascend. Which of two hashes is less is as good as
/// random, so the loop has no branch on it. Counts each comparison of two hashes in `compared`; a comparison moves
/// past one entry or two.
#[inline(always)]
fn sift<'a, 'b, E: SketchEntry, F: SketchEntry>(
    entries: &'a [E],
    others: &'b [F],
    theta: u64,
    kept: &mut [&'a E; BLOCK],
    compared: &mut Count,
) -> Sifted<'a, 'b, E, F>
    requires ascending { IsAscending E.key entries.now }
    requires others_ascend { IsAscending F.key others.now }
    ensures kept { let left = lacking_below E.key F.key theta in
        map (λ x. x.now) (take result.count kept.new) ++ left result.entries.now result.others.now
        ≡ left entries.entry.now others.entry.now }
    ensures ascending { IsAscending E.key result.entries.now }
    ensures others_ascend { IsAscending F.key result.others.now }
    ensures whole { result.count < 64
        → lacking E.key F.key (below E.key result.entries.now theta) result.others.now
        ≡ below E.key result.entries.now theta }
    ensures limited { result.count ≤ 64 }
    ensures room { length kept.new ≡ 64 }
    ensures fewer { result.count + length result.entries.now ≤ length entries.entry.now }
    ensures compares { length entries.entry.now + length others.entry.now + 2 * compared.old
        ≤ length result.entries.now + length result.others.now + 2 * compared.new }
    ensures compared { compared.new + length result.entries.now + length result.others.now
        ≤ compared.old + length entries.entry.now + length others.entry.now }
{
    let mut left = entries;
    let mut others_left = others;
    let mut count = 0usize;
    while count < BLOCK {
        let Some(entry) = left.first() else {
            break;
        };
        let Some(other) = others_left.first() else {
            break;
        };
        let hash = entry.hash();
        let known = other.hash();
        if hash >= theta {
            break;
        }
        compared.tick();
        kept[count] = entry;
        count += number_if(hash < known);
        left = &left[number_if(hash <= known)..];
        others_left = &others_left[number_if(known <= hash)..];
    }
    Sifted {
        count,
        entries: left,
        others: others_left,
    }
}

/// Appends clones of entries.
#[inline(always)]
pub(crate) fn push_clones<E: Clone + Drop, A: Allocator>(
    entries: &mut Vec<E, A>,
    borrowed: &[&E],
) -> Result<(), AllocError>
    requires clones_equal { ClonesEqual E.is_clone }
    ensures { OnOk result (entries.new.items ≡ entries.old.items ++ map (λ x. x.now) borrowed.now) }
{
    for entry in borrowed {
        entries.push((*entry).clone()?)?;
    }
    Ok(())
}

/// Appends clones of the entries below theta. The entries ascend.
pub(crate) fn push_below<E: SketchEntry + Clone + Drop, A: Allocator>(
    kept: &mut Vec<E, A>,
    entries: &[E],
    theta: u64,
) -> Result<(), AllocError>
    requires clones_equal { ClonesEqual E.is_clone }
    requires ascending { IsAscending E.key entries.now }
    ensures { OnOk result (kept.new.items ≡ kept.old.items ++ below E.key entries.now theta) }
{
    for entry in entries {
        if entry.hash() >= theta {
            break;
        }
        kept.push(entry.clone()?)?;
    }
    Ok(())
}

/// Appends clones of the entries below theta whose hashes `others` lacks, by a binary search for each entry. Both
/// lists ascend. Counts each comparison of two hashes in `compared`: at most k for each entry, if there are fewer
/// than 2^k others.
fn push_lacking<E: SketchEntry + Clone + Drop, F: SketchEntry, A: Allocator>(
    kept: &mut Vec<E, A>,
    entries: &[E],
    others: &[F],
    theta: u64,
    compared: &mut Count,
) -> Result<(), AllocError>
    requires clones_equal { ClonesEqual E.is_clone }
    requires ascending { IsAscending E.key entries.now }
    requires others_ascend { IsAscending F.key others.now }
    ensures kept { OnOk result
        (kept.new.items ≡ kept.old.items ++ lacking E.key F.key (below E.key entries.now theta) others.now) }
    ensures grows { compared.old ≤ compared.new }
    ensures compared { AreFewLookUps compared.old compared.new (length entries.now) (length others.now) }
{
    for entry in entries {
        let hash = entry.hash();
        if hash >= theta {
            break;
        }
        if found_by_halves(others, hash, compared).is_none() {
            kept.push(entry.clone()?)?;
        }
    }
    Ok(())
}

/// The difference of two ascending lists, below theta. If there are many more others than entries, the entries are
/// looked up among them; otherwise both are read side by side.
///
/// Counts each comparison of two hashes in `compared`: at most as many as both lists have entries. If there are many
/// more others, but fewer than 2^k, at most k for each entry.
pub(crate) fn ascending_difference<E: SketchEntry + Clone + Drop, F: SketchEntry, A: Allocator>(
    alloc: A,
    entries: &[E],
    others: &[F],
    theta: u64,
    compared: &mut Count,
) -> Result<Vec<E, A>, Error>
    requires clones_equal { ClonesEqual E.is_clone }
    requires ascending { IsAscending E.key entries.now }
    requires others_ascend { IsAscending F.key others.now }
    ensures ok { IfOk result (λ v. v.items ≡ lacking E.key F.key (below E.key entries.now theta) others.now) }
    ensures refused { Refuses result None true }
    ensures grows { compared.old ≤ compared.new }
    ensures compared { compared.new ≤ compared.old + length entries.now + length others.now }
    ensures shorter { is_much_longer (length others.now) (length entries.now) ≡ true
        → AreFewLookUps compared.old compared.new (length entries.now) (length others.now) }
{
    let mut kept = Vec::new(alloc);
    if is_much_longer(others.len(), entries.len()) {
        push_lacking(&mut kept, entries, others, theta, compared)?;
        return Ok(kept);
    }
    let mut left = entries;
    let mut others_left = others;
    while let Some(first) = left.first() {
        let mut found = [first; BLOCK];
        let sifted = sift(left, others_left, theta, &mut found, compared);
        push_clones(&mut kept, &found[..sifted.count])?;
        left = sifted.entries;
        others_left = sifted.others;
        if sifted.count < BLOCK {
            break;
        }
    }
    push_below(&mut kept, left, theta)?;
    Ok(kept)
}
