//! Groups in the order of the numbers that are printed of them, and the first ones of a list.
ghost use Rattle.std.specs.Prelude.{◌≡◌, ◌-◌, ℕ, List, IfOk, flat_map};
ghost use Rattle.std.specs.Option.{option_map};
ghost use Rattle.std.specs.List.Sorted.{IsPermutation, IsSorted};
ghost use Rattle.distinct_commands.specs.Ranked.{AreRanked, HasTexts, ranked_cmp, first_items, is_full, reaches};

use std::alloc::{AllocError, Global};
use std::cmp::Ordering;

/// What is printed of a group, and what it is ordered by.
#[derive(Drop)]
pub struct Ranked {
    /// The number that is printed of it: an estimate, or a total.
    pub number: u128,
    /// The name of the group.
    pub name: Vec<u8>,
    /// What is printed of it.
    pub text: Vec<u8>,
}

/// Whether a number is at least the least one that is printed, if there is one.
pub fn reaches(least: Option<u64>, number: u128) -> bool
    ensures { result ≡ reaches least number }
{
    match least {
        Some(least) => u128::from(least) <= number,
        None => true,
    }
}

/// Whether nothing more is printed, if this many may be; any number may be if `None`.
pub fn is_full(room: Option<u64>) -> bool
    ensures { result ≡ is_full room }
{
    match room {
        Some(0) => true,
        _ => false,
    }
}

/// How many may be printed after one of this many; any number if `None`.
pub fn one_less(room: Option<u64>) -> Option<u64>
    ensures { result ≡ option_map (λ count. count - 1) room }
{
    match room {
        Some(count) => Some(count.saturating_sub(1)),
        None => None,
    }
}

/// The order of two groups: the one of the greater number is first, and of equal numbers that of the lower name.
fn order_of(group: &Ranked, other: &Ranked) -> Ordering
    ensures { result ≡ ranked_cmp group.now other.now }
{
    match other.number.cmp(&group.number) {
        Ordering::Equal => group.name.as_slice().cmp(other.name.as_slice()),
        order => order,
    }
}

/// Sorts groups.
fn sort_groups(groups: &mut Vec<Ranked>)
    ensures permutation { IsPermutation groups.old.items groups.new.items }
    ensures sorted { IsSorted ranked_cmp groups.new.items }
{
    groups.sort_unstable_by(|group, other| order_of(group, other));
}

/// The texts of the first groups, as many as `most`, or of all, one after another. The only error is `AllocError`.
pub fn first_texts(
    alloc: Global,
    groups: &[Ranked],
    most: Option<u64>,
) -> Result<Vec<u8>, AllocError>
    ensures { IfOk result (λ v. v.items ≡ flat_map (λ group. group.text.items) (first_items most groups.now)) }
{
    let mut text = Vec::new(alloc);
    let mut left = groups;
    let mut room = most;
    while let Some((group, others)) = left.split_first() {
        if is_full(room) {
            return Ok(text);
        }
        text.extend_from_slice(group.text.as_slice())?;
        left = others;
        room = one_less(room);
    }
    Ok(text)
}

/// The texts of the first groups, as many as `most`, or of all, in the order of their numbers: the greatest first, and of
/// equal numbers in the ascending order of the bytes of their names. The only error is `AllocError`.
pub fn first_ranked_text(
    alloc: Global,
    groups: Vec<Ranked>,
    most: Option<u64>,
) -> Result<Vec<u8>, AllocError>
    ensures { (number : List ℕ → ℕ) (text : List ℕ → List ℕ) (names : List (List ℕ))
        → HasTexts number text names groups.items
        → IfOk result (λ v.
        (ordered : List (List ℕ)) × AreRanked number names ordered × (v.items ≡ flat_map text (first_items most ordered))) }
{
    let mut groups = groups;
    sort_groups(&mut groups);
    first_texts(alloc, groups.as_slice(), most)
}
