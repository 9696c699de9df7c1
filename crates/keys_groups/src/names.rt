//! Names of groups, each with a number, in a table by their hashes.
ghost use Rattle.std.specs.Prelude.{◌≡◌, ◌<◌, ◌+◌, ◌∷◌, ◌++◌, ℕ, List, [], length, slice_get};
ghost use Rattle.std.specs.Prelude.{Some, IfSome, IfNone, IfOk, OnOk, true, false};
ghost use Rattle.keys_groups.specs.Names.{IsIndex, Mark, name_hash, tag_of, bucket_of, texts_of};
ghost use Rattle.keys_groups.specs.Names.{HasMark, IsReachedIn, is_named, mark_of};
ghost use Rattle.keys_groups.specs.declared.names.TheConstants.{WIDTH};

use keys_lines::{Hashing, Key, line_hash};
use std::alloc::{AllocError, Global};
use std::collections::BTreeMap;

/// How many names of one level may have the same bucket.
const WIDTH: usize = 8;

/// The number of buckets of the first level.
const FIRST: u64 = 64;

/// How many times as many buckets the next level has.
const STEP: u64 = 8;

/// A place for a name.
#[derive(Clone, Copy)]
pub(crate) struct Mark {
    /// The low half of the hash of the name.
    tag: u32,
    /// One more than the number of the name; 0 if the place is free.
    next: u32,
}

/// Buckets, of which each name may use one.
#[derive(Clone, Copy)]
pub(crate) struct Level {
    /// The first bucket.
    from: u64,
    /// How many there are.
    count: u64,
}

/// From a name to its number.
///
/// A name is in one of its buckets, of which it has one in each level, or in a tree if they were full. Nothing is
/// moved: a place that is taken stays so, and a level is added only if there are half as many names as the last level
/// has places. The hash has no secret, so whoever chooses names can fill their buckets. But whatever the names are, a
/// search compares a name with at most `WIDTH` others for each level, and then with those on one path of the tree.
#[derive(Drop)]
pub(crate) struct NameIndex {
    buckets: Vec<[Mark; WIDTH]>,
    levels: Vec<Level>,
    others: BTreeMap<Vec<u8>, usize>,
}

/// The hash of a name.
#[inline(always)]
fn name_hash(name: &[u8]) -> u64
    ensures { result ≡ name_hash name.now }
{
    let hashing = Hashing {
        key: Key::Line,
        seed: 0,
    };
    line_hash(hashing, name)
}

/// The low half of a hash.
#[inline(always)]
fn tag_of(hash: u64) -> u32
    ensures { result ≡ tag_of hash }
{
    (hash % 0x1_0000_0000) as u32
}

/// The bucket of a hash in a level.
#[inline(always)]
fn bucket_of(level: &Level, hash: u64) -> usize
    ensures { result ≡ bucket_of level.now hash }
{
    let within = (hash >> 32).wrapping_mul(level.count) >> 31;
    level.from.wrapping_add(within) as usize
}

/// Whether the entry of a number has this name.
#[inline(always)]
fn has_name<V>(entries: &[(Vec<u8>, V)], number: usize, name: &[u8]) -> bool
    ensures named { result ≡ true → slice_get (texts_of entries.now) number ≡ Some name.now }
    ensures other { result ≡ false → slice_get (texts_of entries.now) number ≡ Some name.now → ⊥ }
{
    match entries.get(number) {
        Some(entry) => entry.0.as_slice() == name,
        None => false,
    }
}

/// The number of a mark, if it is that of this name.
#[inline(always)]
fn number_of<V>(mark: Mark, tag: u32, entries: &[(Vec<u8>, V)], name: &[u8]) -> Option<usize>
    ensures found { IfSome result (λ number. slice_get (texts_of entries.now) number ≡ Some name.now) }
    ensures absent { IfNone result ((number : ℕ)
        → mark ≡ record { tag = tag; next = number + 1 }
        → slice_get (texts_of entries.now) number ≡ Some name.now
        → ⊥) }
{
    if mark.tag != tag {
        return None;
    }
    if mark.next == 0 {
        return None;
    }
    let number = mark.next as usize - 1;
    if has_name(entries, number, name) {
        Some(number)
    } else {
        None
    }
}

/// The number of a name whose mark is in a bucket.
#[inline(always)]
fn find_in_bucket<V>(
    bucket: &[Mark; WIDTH],
    hash: u64,
    entries: &[(Vec<u8>, V)],
    name: &[u8],
) -> Option<usize>
    ensures found { IfSome result (λ number. slice_get (texts_of entries.now) number ≡ Some name.now) }
    ensures absent { IfNone result ((place number : ℕ)
        → slice_get bucket.now place ≡ Some (mark_of hash number)
        → slice_get (texts_of entries.now) number ≡ Some name.now
        → ⊥) }
{
    let tag = tag_of(hash);
    for place in 0..WIDTH {
        if let Some(number) = number_of(bucket[place], tag, entries, name) {
            return Some(number);
        }
    }
    None
}

/// The first free place of a bucket.
fn free_place(bucket: &[Mark; WIDTH]) -> Option<usize>
    ensures bound { IfSome result (λ place. place < WIDTH) }
    ensures free { IfSome result (λ place. (mark : Mark) × (slice_get bucket.now place ≡ Some mark) × (mark.next ≡ 0)) }
{
    for place in 0..WIDTH {
        if bucket[place].next == 0 {
            return Some(place);
        }
    }
    None
}

/// Puts a name of this hash and number at a free place of a bucket, if it has one. Returns whether it has.
fn put_in_bucket(buckets: &mut Vec<[Mark; WIDTH]>, at: usize, mark: Mark) -> bool
    ensures kept { (bucket hash number : ℕ)
        → HasMark buckets.old.items bucket hash number
        → HasMark buckets.new.items bucket hash number }
    ensures put { result ≡ true → (hash number : ℕ)
        → mark ≡ mark_of hash number
        → HasMark buckets.new.items at hash number }
{
    if at >= buckets.len() {
        return false;
    }
    let mut bucket = buckets[at];
    let Some(place) = free_place(&bucket) else {
        return false;
    };
    bucket[place] = mark;
    buckets[at] = bucket;
    true
}

/// Puts a name of this hash and number into one of its buckets, if one has a free place. Returns whether one has.
fn put_in_levels(buckets: &mut Vec<[Mark; WIDTH]>, levels: &[Level], hash: u64, next: u32) -> bool
    ensures kept { (bucket other number : ℕ)
        → HasMark buckets.old.items bucket other number
        → HasMark buckets.new.items bucket other number }
    ensures put { result ≡ true → (number : ℕ)
        → next ≡ number + 1
        → IsReachedIn buckets.new.items levels.now hash number }
{
    let mark = Mark {
        tag: tag_of(hash),
        next,
    };
    let mut left = levels;
    while let Some((level, others)) = left.split_first() {
        if put_in_bucket(buckets, bucket_of(level, hash), mark) {
            return true;
        }
        left = others;
    }
    false
}

/// The number of buckets of a level before these.
fn next_count(levels: &[Level]) -> u64 {
    match levels.first() {
        Some(level) => level.count.saturating_mul(STEP),
        None => FIRST,
    }
}

/// Appends free buckets.
fn grow_buckets(buckets: &mut Vec<[Mark; WIDTH]>, count: usize) -> Result<(), AllocError>
    ensures { (bucket hash number : ℕ)
        → HasMark buckets.old.items bucket hash number
        → HasMark buckets.new.items bucket hash number }
{
    let free = Mark { tag: 0, next: 0 };
    let size = buckets.len().saturating_add(count);
    buckets.resize(size, [free; WIDTH])
}

impl NameIndex {
    /// The index of no names.
    pub(crate) fn new(alloc: Global) -> NameIndex
        ensures { IsIndex result [] }
    {
        NameIndex {
            buckets: Vec::new(alloc),
            levels: Vec::new(alloc),
            others: BTreeMap::new(alloc),
        }
    }

    /// The number of a name, if it has a place in its bucket of a level.
    #[inline(always)]
    fn find_in_level<V>(
        &self,
        level: &Level,
        hash: u64,
        entries: &[(Vec<u8>, V)],
        name: &[u8],
    ) -> Option<usize>
        ensures found { IfSome result (λ number. slice_get (texts_of entries.now) number ≡ Some name.now) }
        ensures absent { IfNone result ((number : ℕ)
            → HasMark self.now.buckets.items (bucket_of level.now hash) hash number
            → slice_get (texts_of entries.now) number ≡ Some name.now
            → ⊥) }
    {
        let Some(bucket) = self.buckets.get(bucket_of(level, hash)) else {
            return None;
        };
        find_in_bucket(bucket, hash, entries, name)
    }

    /// The number of a name that may be in the tree.
    #[inline(never)]
    fn find_other<V>(&self, entries: &[(Vec<u8>, V)], name: &[u8]) -> Option<usize>
        ensures found { IfSome result (λ number. slice_get (texts_of entries.now) number ≡ Some name.now) }
        ensures absent { IfNone result ((number : ℕ)
            → is_named self.now.others name.now number
            → slice_get (texts_of entries.now) number ≡ Some name.now
            → ⊥) }
    {
        let Some(number) = self.others.get(name) else {
            return None;
        };
        let number = *number;
        if has_name(entries, number, name) {
            Some(number)
        } else {
            None
        }
    }

    /// The number of a name of these entries; `None` if none has it.
    pub(crate) fn find<V>(&self, entries: &[(Vec<u8>, V)], name: &[u8]) -> Option<usize>
        requires index { IsIndex self.now (texts_of entries.now) }
        ensures found { IfSome result (λ number. slice_get (texts_of entries.now) number ≡ Some name.now) }
        ensures absent { IfNone result ((number : ℕ) → slice_get (texts_of entries.now) number ≡ Some name.now → ⊥) }
    {
        let hash = name_hash(name);
        let mut left = self.levels.as_slice();
        while let Some((level, others)) = left.split_first() {
            if let Some(number) = self.find_in_level(level, hash, entries, name) {
                return Some(number);
            }
            left = others;
        }
        self.find_other(entries, name)
    }

    /// Adds a level before the others.
    fn grow(&mut self) -> Result<(), AllocError>
        ensures kept { (hash number : ℕ)
            → IsReachedIn self.old.buckets.items self.old.levels.items hash number
            → IsReachedIn self.new.buckets.items self.new.levels.items hash number }
        ensures others { self.new.others ≡ self.old.others }
    {
        let count = next_count(self.levels.as_slice());
        let from = self.buckets.len();
        let level = Level {
            from: from as u64,
            count,
        };
        grow_buckets(&mut self.buckets, count as usize)?;
        self.levels.insert(0, level)?;
        Ok(())
    }

    /// Whether another level is worth its memory for this number of names.
    fn is_worth_growing(&self, names: usize) -> bool {
        match self.levels.first() {
            Some(level) => level.count.saturating_mul(4) <= names as u64,
            None => true,
        }
    }

    /// Puts a name of this hash and number into one of its buckets, if one has a free place or may be added. Returns
    /// whether it did.
    fn put(&mut self, hash: u64, number: usize) -> Result<bool, AllocError>
        ensures kept { (other before : ℕ)
            → IsReachedIn self.old.buckets.items self.old.levels.items other before
            → IsReachedIn self.new.buckets.items self.new.levels.items other before }
        ensures put { IfOk result (λ put. put ≡ true
            → IsReachedIn self.new.buckets.items self.new.levels.items hash number) }
        ensures others { self.new.others ≡ self.old.others }
    {
        if number >= 0xFFFF_FFFF {
            return Ok(false);
        }
        let next = number as u32 + 1;
        if put_in_levels(&mut self.buckets, self.levels.as_slice(), hash, next) {
            return Ok(true);
        }
        if !self.is_worth_growing(number) {
            return Ok(false);
        }
        self.grow()?;
        Ok(put_in_levels(&mut self.buckets, self.levels.as_slice(), hash, next))
    }

    /// Puts the number of a name into the tree.
    fn put_other(&mut self, alloc: Global, name: &[u8], number: usize) -> Result<(), AllocError>
        ensures { (texts : List (List ℕ))
            → number ≡ length texts
            → IsIndex self.old texts
            → ((before : ℕ) → slice_get texts before ≡ Some name.now → ⊥)
            → OnOk result (IsIndex self.new (texts ++ name.now ∷ [])) }
    {
        let key = Vec::from_slice(alloc, name)?;
        self.others.insert(key, number)?;
        Ok(())
    }

    /// Gives a name that has none the next number. `number` is the number of those that have one.
    #[inline(never)]
    pub(crate) fn add(
        &mut self,
        alloc: Global,
        name: &[u8],
        number: usize,
    ) -> Result<(), AllocError>
        ensures { (texts : List (List ℕ))
            → number ≡ length texts
            → IsIndex self.old texts
            → ((before : ℕ) → slice_get texts before ≡ Some name.now → ⊥)
            → OnOk result (IsIndex self.new (texts ++ name.now ∷ [])) }
    {
        let hash = name_hash(name);
        let put = self.put(hash, number)?;
        if put {
            return Ok(());
        }
        self.put_other(alloc, name, number)
    }
}
