//! Unions of images, and which lines they are the images of.
ghost use Rattle.std.specs.Prelude.{◌≡◌, ℕ, List, [], map, true, None, IfOk, IfErr, OnOk, IfSome, length};
ghost use Rattle.core_compact.specs.CompactState.{shown_of};
ghost use Rattle.core_laws.specs.Entries.{hash_key};
ghost use Rattle.core_laws.specs.Shown.{shown_value};
ghost use Rattle.theta_sketches.specs.View.{view_shows, view_sequence};
ghost use Rattle.std.specs.List.{concat};
ghost use Rattle.keys_lines.specs.Keys.{hashing_of};
ghost use Rattle.keys_lines.specs.Lines.{lines_of_all, AreWhole};
ghost use Rattle.keys_lines.specs.declared.key.Key.{Key};
ghost use Rattle.keys_sketches.specs.Batches.{HasRead, IsReadyFor};
ghost use Rattle.keys_sketches.specs.Keys.{image_of_text, image_of_lines, HaveSameLines};
ghost use Rattle.keys_sketches.specs.Shards.{ReadsUnder, AreImagesOfTexts, values_of_sketches};
ghost use Rattle.keys_sketches.specs.Unions.{HasUnited, IsReady, IsUnitedImage, UnitesTexts};
ghost use Rattle.keys_sketches.specs.Refusals.{IsUniteRefusal, FailsIf};
ghost use Rattle.core_laws.specs.Refusal.{Refuses};
ghost use Rattle.core_laws.specs.declared.TheConstants.{MAX_THETA};
ghost use Rattle.core_laws.specs.Settings.{settings_refusal};

use crate::batches::{Batch, SketchUnion};
use crate::image_union::{ImageUnion, add_images};
use crate::images::{image_of, new_union, read_image};
use crate::sketching::{ReadError, Watch, add_text, new_sketch, trim_and_compact};
use crate::sources::Sources;
use keys_lines::Hashing;
use sketch_base::Error;
use std::alloc::{AllocError, Allocator, Global};
use theta_sketches::laws::{one_reading, read_again};
use theta_sketches::{CompactThetaSketch, ThetaSketchView, ThetaUnion};

impl<A: Allocator + Clone> ImageUnion for ThetaUnion<A> {
    ghost use Rattle.std.specs.Prelude.{ℕ, None};
    ghost use Rattle.keys_sketches.specs.Refusals.{IsNoImage};
    ghost use Rattle.keys_sketches.specs.Unions.{HasUnited, IsReady};

    ghost Settings = { ℕ };

    ghost has_united = { HasUnited };

    ghost is_ready = { λ seed lg_k u. IsReady seed u };

    ghost is_no_image = { IsNoImage };

    ghost merge_refusal = { λ lg_k. None };

    fn add_image<B: Allocator + Clone + Drop>(
        &mut self,
        alloc: B,
        seed: u64,
        image: &[u8],
    ) -> Result<(), Error> {
        let sketch = read_image(alloc, seed, image)?;
        self.update(sketch.as_view())?;
        Ok(())
    }
}

/// Views of sketches, in their order.
pub fn views_of<'a, A: Allocator + Clone + Drop>(
    alloc: A,
    sketches: &'a [CompactThetaSketch<A>],
) -> Result<Vec<ThetaSketchView<'a, A>, A>, AllocError>
    ensures shown { IfOk result (λ v. map (λ view. view_shows view) v.items ≡ map (shown_of hash_key) sketches.now) }
    ensures listed { IfOk result (λ v. map (λ view. view_sequence view) v.items ≡ map (λ s. s.entries) sketches.now) }
    ensures values { IfOk result (λ v.
        map (λ view. shown_value hash_key (view_shows view) (view_sequence view)) v.items
        ≡ values_of_sketches sketches.now) }
{
    let mut views = Vec::with_capacity(alloc, sketches.len())?;
    for sketch in sketches {
        views.push(sketch.as_view())?;
    }
    Ok(views)
}

impl<A: Allocator + Clone + Drop> SketchUnion<A> for ThetaUnion<A> {
    type Sketch = CompactThetaSketch<A>;

    ghost use Rattle.std.specs.Prelude.{ℕ, None};
    ghost use Rattle.keys_sketches.specs.Refusals.{IsNoImage};
    ghost use Rattle.keys_sketches.specs.Shards.{ReadsUnder};
    ghost use Rattle.keys_sketches.specs.Unions.{HasUnited, IsReady};

    ghost Settings = { ℕ };

    ghost has_united = { HasUnited };

    ghost is_ready = { λ seed lg_k u. IsReady seed u };

    ghost reads = { ReadsUnder };

    ghost is_no_image = { IsNoImage };

    ghost merge_refusal = { λ lg_k. None };

    fn read(alloc: A, seed: u64, image: &[u8]) -> Result<CompactThetaSketch<A>, Error> {
        read_image(alloc, seed, image)
    }

    fn retained(sketch: &CompactThetaSketch<A>) -> usize {
        sketch.num_retained()
    }

    fn greatest(&self, _sketch: &CompactThetaSketch<A>) -> u64 {
        0
    }

    fn merge(&mut self, alloc: A, sketches: &[CompactThetaSketch<A>]) -> Result<(), Error> {
        let views = views_of(alloc, sketches)?;
        self.update_all(views.as_slice())?;
        Ok(())
    }
}

/// The image of the result of a union, ordered. If the union has not failed, it is refused only with `OutOfMemory`.
pub fn united_image<A: Allocator + Clone + Drop>(union: &ThetaUnion<A>) -> Result<Vec<u8, A>, Error>
    ensures image { (seed lg_k : ℕ) (images : List (List ℕ))
        → HasUnited seed lg_k images union.now
        → IfOk result (λ v. IsUnitedImage seed lg_k images v.items) }
    ensures refused { (seed : ℕ) → IsReady seed union.now → Refuses result None true }
{
    let sketch = union.to_sketch(true)?;
    image_of(&sketch)
}

/// A batch for a new union of 2^`lg_k` nominal entries, of sketches of this seed.
fn new_batch<A: Allocator + Clone + Drop>(
    alloc: A,
    seed: u64,
    lg_k: u8,
) -> Result<Batch<ThetaUnion<A>, A>, Error>
    ensures united { IfOk result (λ b. HasRead (HasUnited seed lg_k) (ReadsUnder seed) [] b.union b.waiting.items) }
    ensures ready { IfOk result (λ b. IsReadyFor (IsReady seed) (ReadsUnder seed) b.union b.waiting.items) }
    ensures refused { Refuses result (settings_refusal lg_k MAX_THETA seed) true }
{
    let own = alloc.clone()?;
    let union = new_union(alloc, seed, lg_k)?;
    Ok(Batch::new(union, own))
}

/// The image of the result of a union, ordered, once the sketches that wait are merged. If the union has not failed,
/// it is refused only with `OutOfMemory`.
fn image_of_batch<A: Allocator + Clone + Drop>(
    batch: Batch<ThetaUnion<A>, A>,
) -> Result<Vec<u8, A>, Error>
    ensures image { (seed lg_k : ℕ) (images : List (List ℕ))
        → HasRead (HasUnited seed lg_k) (ReadsUnder seed) images batch.union batch.waiting.items
        → IfOk result (λ v. IsUnitedImage seed lg_k images v.items) }
    ensures refused { (seed : ℕ)
        → IsReadyFor (IsReady seed) (ReadsUnder seed) batch.union batch.waiting.items
        → Refuses result None true }
{
    let union = batch.into_union()?;
    united_image(&union)
}

/// The image of a union, and how many images were united.
#[derive(Debug, Drop)]
pub struct United<A: Allocator = Global> {
    pub image: Vec<u8, A>,
    /// How many images were united, from 0 to 2^64 - 2.
    pub count: u64,
}

/// The image of the union of images of this seed, each with its own reader, and the number of these images.
///
/// If the images are those of texts that were sketched apart, by one key, with this seed and at least this `lg_k`, it
/// is the image of all their lines, byte for byte, in any order of the images. If each text but the last is empty or
/// ends in an LF, it is also the image of the concatenated texts. An image doesn't show the key and the `lg_k` that
/// it was made with.
///
/// Each image is read and checked before the next source is opened. Its sketch waits until 64 sketches wait, or they
/// have more than 2^17 entries together, and is then merged with them. So in memory beside the union are at most one
/// image, its sketch and 1 MB of other sketches.
///
/// Refused with `InvalidArgument` only for an `lg_k` that isn't from 4 to 26 or a seed whose seed hash is 0; with
/// `InvalidData` only if some source is no image of a theta sketch of this seed; and with `OutOfMemory`. If a source
/// fails, or can't be opened, its error is returned: only if sources may fail, so never for images in memory. For a
/// wrong `lg_k` or seed nothing is read; no clause says so.
pub fn unite_images<A: Allocator + Clone + Drop, S: Sources>(
    alloc: A,
    seed: u64,
    lg_k: u8,
    images: &mut S,
) -> Result<United<A>, ReadError>
    ensures united { IfSome (S.texts images.old) (λ all. IfOk result (λ u. IsUnitedImage seed lg_k all u.image.items)) }
    ensures counted { IfSome (S.texts images.old) (λ all. IfOk result (λ u. u.count ≡ length all)) }
    ensures whole { IfSome (S.texts images.old) (λ all.
        (key : Key) (texts : List (List ℕ))
        → AreWhole texts
        → AreImagesOfTexts (hashing_of key seed) lg_k all texts
        → IfOk result (λ u. u.image.items ≡ image_of_text (hashing_of key seed) lg_k (concat texts))) }
    ensures apart { IfSome (S.texts images.old) (λ all. IfOk result (λ u. UnitesTexts seed lg_k all u.image.items)) }
    ensures accepted { OnOk result (settings_refusal lg_k MAX_THETA seed ≡ None) }
    ensures refused { IfErr result (IsUniteRefusal seed (settings_refusal lg_k MAX_THETA seed) (S.texts images.old)) }
    ensures fallible { IfErr result (FailsIf S.may_fail) }
{
    one_reading();
    read_again();
    let mut batch = new_batch(alloc.clone()?, seed, lg_k)?;
    let count = add_images(&mut batch, alloc, seed, images)?;
    let image = image_of_batch(batch)?;
    Ok(United { image, count })
}

/// The image of the lines of one text.
fn image_of_text<W: Watch>(
    alloc: Global,
    hashing: Hashing,
    lg_k: u8,
    text: &[u8],
    watch: &mut W,
) -> Result<Vec<u8>, Error>
    ensures image { IfOk result (λ v. v.items ≡ image_of_text hashing lg_k text.now) }
    ensures refused { Refuses result (settings_refusal lg_k MAX_THETA hashing.seed) true }
{
    let mut sketch = new_sketch(alloc, hashing.seed, lg_k)?;
    add_text(&mut sketch, hashing, text, watch)?;
    let compact = trim_and_compact(&mut sketch)?;
    image_of(&compact)
}

/// The image of all lines of texts in memory, each text cut into lines by itself: each is sketched apart, and their
/// images are united. The result doesn't depend on the order of the texts or of their lines, or on repeats.
///
/// Refused with `InvalidArgument` for an `lg_k` that isn't from 4 to 26 or a seed whose seed hash is 0, and else only
/// with `OutOfMemory`.
pub fn image_of_texts<W: Watch>(
    alloc: Global,
    hashing: Hashing,
    lg_k: u8,
    texts: &[Vec<u8>],
    watch: &mut W,
) -> Result<Vec<u8>, Error>
    ensures image { (lines : List (List ℕ))
        → HaveSameLines (lines_of_all (map (λ text. text.items) texts.now)) lines
        → IfOk result (λ v. v.items ≡ image_of_lines hashing lg_k lines) }
    ensures refused { Refuses result (settings_refusal lg_k MAX_THETA hashing.seed) true }
{
    one_reading();
    read_again();
    let mut union = new_union(alloc, hashing.seed, lg_k)?;
    let mut left = texts;
    while let Some((text, others)) = left.split_first() {
        let image = image_of_text(alloc, hashing, lg_k, text.as_slice(), watch)?;
        union.add_image(alloc, hashing.seed, image.as_slice())?;
        left = others;
    }
    united_image(&union)
}
