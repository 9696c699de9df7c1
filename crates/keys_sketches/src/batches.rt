//! Unions that merge the sketches of many images at once.
ghost use Rattle.std.specs.Prelude.{◌≡◌, ℕ, List, [], IfOk, IfErr, OnOk};
ghost use Rattle.keys_sketches.specs.Batches.{HasRead, IsReadyFor};
ghost use Rattle.keys_sketches.specs.Refusals.{IsImageRefusal, IsMergeError};

use crate::image_union::ImageUnion;
use sketch_base::Error;
use std::alloc::Allocator;

/// The most sketches that wait.
const MAX_SKETCHES: usize = 64;

/// The most entries of sketches that wait.
const MAX_ENTRIES: usize = 1 << 17;

/// A union that merges many sketches at once.
pub trait SketchUnion<A: Allocator>: Drop {
    /// The sketch of an image.
    type Sketch: Drop;

    ghost use Rattle.std.specs.Prelude.{None, ℕ, List, Option, ◌++◌};
    ghost use Rattle.sketch_base.specs.declared.error.ErrorKind.{ErrorKind};
    ghost use Rattle.keys_sketches.specs.Shards.{AreReadBy};

    /// What it is made with beside its seed: its `lg_k`, and how it combines summaries, if it does.
    ghost Settings: { Type 0 };

    /// Whether it has united the sketches in images of a seed, with settings.
    ghost has_united: { (seed : ℕ) → Settings → (images : List (List ℕ)) → Self → Type 0 };

    /// Whether it has these settings and accepts sketches of a seed: it has not failed.
    ghost is_ready: { (seed : ℕ) → Settings → Self → Type 0 };

    /// Whether an image of a seed is read as a sketch.
    ghost reads: { (seed : ℕ) → (image : List ℕ) → Self.Sketch → Type 0 };

    /// Whether bytes are no image of a seed.
    ghost is_no_image: { (seed : ℕ) → List ℕ → Type 0 };

    /// The kind with which a union with settings may refuse to merge sketches that it has read; `None` if it never
    /// refuses any.
    ghost merge_refusal: { Settings → Option ErrorKind };

    /// The sketch of an image. Refused with `InvalidData` only if the bytes aren't an image of this seed, and with
    /// `OutOfMemory`.
    fn read(alloc: A, seed: u64, image: &[u8]) -> Result<Self::Sketch, Error>
        ensures reads { IfOk result (reads seed image.now) }
        ensures refused { IfErr result (IsImageRefusal None (is_no_image seed image.now)) };

    /// How many entries a sketch retains.
    fn retained(sketch: &Self::Sketch) -> usize;

    /// The greatest summary of a sketch; 0 if it has none, or if the union refuses no summaries. If those of all
    /// sketches are below 2^64 together, they can be merged.
    fn greatest(&self, sketch: &Self::Sketch) -> u64;

    /// Merges sketches of this seed. If the union has not failed, it is refused only with `OutOfMemory`, and with
    /// `Policy` if the union's policy may refuse to merge summaries. What the union has after a refusal is
    /// unspecified.
    fn merge(&mut self, alloc: A, sketches: &[Self::Sketch]) -> Result<(), Error>
        ensures united { (seed : ℕ) (settings : Settings) (first others : List (List ℕ))
            → has_united seed settings first self.old
            → AreReadBy (reads seed) others sketches.now
            → OnOk result (has_united seed settings (first ++ others) self.new) }
        ensures refused { (seed : ℕ) (settings : Settings) (images : List (List ℕ))
            → is_ready seed settings self.old
            → AreReadBy (reads seed) images sketches.now
            → IfErr result (IsMergeError (merge_refusal settings)) }
        ensures ready { (seed : ℕ) (settings : Settings)
            → is_ready seed settings self.old
            → OnOk result (is_ready seed settings self.new) };
}

/// A union, and sketches that wait to be merged into it together. `update_all` takes a fraction of the time of one
/// `update` each.
///
/// They wait until they are 64, or have more than 2^17 entries together. So at most 2^17 entries and one more sketch
/// wait in memory: beside that sketch, 1 MB of hashes, or 2 MB if each hash has a summary of 64 bits.
///
/// A policy that refuses sums of 2^64 or more refuses one only if the image that was added last made it so large: if
/// the greatest summaries of all sketches are 2^64 or more together, what waits is merged before another image is
/// added. No clause says this, or how many sketches wait.
#[derive(Drop)]
pub struct Batch<U: SketchUnion<A>, A: Allocator> {
    union: U,
    waiting: Vec<U::Sketch, A>,
    /// How many entries wait.
    entries: usize,
    /// The greatest summaries of all sketches together, at most 2^64 - 1.
    greatest: u64,
}

impl<U: SketchUnion<A>, A: Allocator + Clone + Drop> Batch<U, A> {
    /// A batch for a new union, in which nothing waits. Its memory is of this allocator.
    pub fn new(union: U, alloc: A) -> Batch<U, A>
        ensures united { (seed : ℕ) (settings : U.Settings) (images : List (List ℕ))
            → U.has_united seed settings images union
            → HasRead (U.has_united seed settings) (U.reads seed) images result.union result.waiting.items }
        ensures ready { (seed : ℕ) (settings : U.Settings)
            → U.is_ready seed settings union
            → IsReadyFor (U.is_ready seed settings) (U.reads seed) result.union result.waiting.items }
    {
        Batch {
            union,
            waiting: Vec::new(alloc),
            entries: 0,
            greatest: 0,
        }
    }

    /// Merges the sketches that wait.
    fn merge_waiting(&mut self) -> Result<(), Error>
        ensures united { (seed : ℕ) (settings : U.Settings) (images : List (List ℕ))
            → HasRead (U.has_united seed settings) (U.reads seed) images self.old.union self.old.waiting.items
            → OnOk result (U.has_united seed settings images self.new.union) }
        ensures none_waits { OnOk result (self.new.waiting.items ≡ []) }
        ensures refused { (seed : ℕ) (settings : U.Settings)
            → IsReadyFor (U.is_ready seed settings) (U.reads seed) self.old.union self.old.waiting.items
            → IfErr result (IsMergeError (U.merge_refusal settings)) }
        ensures ready { (seed : ℕ) (settings : U.Settings)
            → IsReadyFor (U.is_ready seed settings) (U.reads seed) self.old.union self.old.waiting.items
            → OnOk result (U.is_ready seed settings self.new.union) }
    {
        let alloc = self.waiting.allocator().clone()?;
        self.union.merge(alloc, self.waiting.as_slice())?;
        self.waiting.clear();
        self.entries = 0;
        Ok(())
    }

    /// The union, once the sketches that wait are merged. If the union has not failed, it is refused only as a merge
    /// is.
    pub fn into_union(mut self) -> Result<U, Error>
        ensures united { (seed : ℕ) (settings : U.Settings) (images : List (List ℕ))
            → HasRead (U.has_united seed settings) (U.reads seed) images self.union self.waiting.items
            → IfOk result (U.has_united seed settings images) }
        ensures refused { (seed : ℕ) (settings : U.Settings)
            → IsReadyFor (U.is_ready seed settings) (U.reads seed) self.union self.waiting.items
            → IfErr result (IsMergeError (U.merge_refusal settings)) }
        ensures ready { (seed : ℕ) (settings : U.Settings)
            → IsReadyFor (U.is_ready seed settings) (U.reads seed) self.union self.waiting.items
            → IfOk result (U.is_ready seed settings) }
    {
        self.merge_waiting()?;
        Ok(self.union)
    }
}

impl<U: SketchUnion<A>, A: Allocator + Clone + Drop> ImageUnion for Batch<U, A> {
    ghost use Rattle.keys_sketches.specs.Batches.{HasRead, IsReadyFor};

    ghost Settings = { U.Settings };

    ghost has_united = { λ seed settings images b.
        HasRead (U.has_united seed settings) (U.reads seed) images b.union b.waiting.items };

    ghost is_ready = { λ seed settings b. IsReadyFor (U.is_ready seed settings) (U.reads seed) b.union b.waiting.items };

    ghost is_no_image = { U.is_no_image };

    ghost merge_refusal = { U.merge_refusal };

    /// Reads the image into memory of the batch's own allocator. Its sketch may be merged later.
    fn add_image<B: Allocator + Clone + Drop>(
        &mut self,
        _alloc: B,
        seed: u64,
        image: &[u8],
    ) -> Result<(), Error> {
        let own = self.waiting.allocator().clone()?;
        let sketch = U::read(own, seed, image)?;
        let greatest = self.union.greatest(&sketch);
        let is_sure = greatest <= u64::MAX - self.greatest;
        self.greatest = self.greatest.saturating_add(greatest);
        self.entries = self.entries.saturating_add(U::retained(&sketch));
        self.waiting.push(sketch)?;
        if is_sure && self.waiting.len() < MAX_SKETCHES && self.entries <= MAX_ENTRIES {
            return Ok(());
        }
        self.merge_waiting()
    }
}
