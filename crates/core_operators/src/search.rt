//! Binary search, for a short list beside a much longer one.
ghost use Rattle.std.specs.Prelude.{◌≡◌, ℕ, ◌+◌, ◌*◌, ◌/◌, ◌<◌, ◌≤◌, ◌^◌, nat_lt, length, IfSome};
ghost use Rattle.std.specs.Option.{option_copied};
ghost use Rattle.core_laws.specs.Maps.{IsAscending, entry_at};
ghost use Rattle.core_operators.specs.Search.{is_much_longer};

use core_laws::SketchEntry;
use core_slots::Count;

/// A list is searched, and not read from end to end, if it has more than this many times as many entries as the
/// other.
const MUCH_LONGER: usize = 128;

/// Whether the entries of a list of `count` entries are looked up in another of `other_count`: it has more than 128
/// times as many. A search then takes fewer comparisons than a pass over both.
pub(crate) fn is_much_longer(other_count: usize, count: usize) -> bool
    ensures value { result ≡ is_much_longer other_count count }
    ensures fits { other_count < 2 ^ 64 }
{
    other_count / MUCH_LONGER > count
}

/// The entry of a hash in an ascending list, if there is one, by binary search.
///
/// Counts each comparison of two hashes in `compared`: at most k if the list has fewer than 2^k entries.
pub(crate) fn found_by_halves<'a, E: SketchEntry>(
    entries: &'a [E],
    hash: u64,
    compared: &mut Count,
) -> Option<&'a E>
    requires { IsAscending E.key entries.now }
    ensures found { option_copied result ≡ entry_at E.key entries.entry.now hash }
    ensures grows { compared.old ≤ compared.new }
    ensures looks { IfSome result (λ _. compared.old < compared.new) }
    ensures compared { (k : ℕ) → length entries.entry.now < 2 ^ k → compared.new ≤ compared.old + k }
{
    let mut left = entries;
    loop {
        let (before, rest) = left.split_at(left.len() / 2);
        let Some((entry, behind)) = rest.split_first() else {
            return None;
        };
        let known = entry.hash();
        compared.tick();
        if known == hash {
            return Some(entry);
        }
        left = if known < hash { behind } else { before };
    }
}
