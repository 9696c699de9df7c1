//! Unions to which images are added one after another.
ghost use Rattle.std.specs.Prelude.{◌≡◌, ◌++◌, ◌∷◌, ℕ, List, [], IfOk, IfErr, OnOk, IfSome, length};
ghost use Rattle.keys_sketches.specs.Refusals.{IsImageRefusal, IsImageFailure, HasFault, FailsIf};

use crate::sketching::{ReadError, read_failure};
use crate::sources::{Sources, TextReader};
use sketch_base::Error;
use std::alloc::{AllocError, Allocator};

/// A union to which images of sketches are added.
pub trait ImageUnion {
    ghost use Rattle.std.specs.Prelude.{ℕ, List, Option};
    ghost use Rattle.sketch_base.specs.declared.error.ErrorKind.{ErrorKind};

    /// What it is made with beside its seed: its `lg_k`, and how it combines summaries, if it does.
    ghost Settings: { Type 0 };

    /// Whether it has united the sketches in images of a seed, with settings.
    ghost has_united: { (seed : ℕ) → Settings → (images : List (List ℕ)) → Self → Type 0 };

    /// Whether it has these settings and accepts images of a seed: it has not failed.
    ghost is_ready: { (seed : ℕ) → Settings → Self → Type 0 };

    /// Whether bytes are no image of a seed.
    ghost is_no_image: { (seed : ℕ) → List ℕ → Type 0 };

    /// The kind with which a union with settings may refuse to merge a sketch that it has read; `None` if it never
    /// refuses one.
    ghost merge_refusal: { Settings → Option ErrorKind };

    /// Adds an image to a union of sketches of this seed. If the union has not failed, it is refused only with
    /// `InvalidData`, if the bytes aren't an image of this seed, with `OutOfMemory`, and with `Policy` if the union's
    /// policy may refuse to merge summaries. What the union has after a refusal is unspecified.
    fn add_image<B: Allocator + Clone + Drop>(
        &mut self,
        alloc: B,
        seed: u64,
        image: &[u8],
    ) -> Result<(), Error>
        ensures united { (settings : Settings) (images : List (List ℕ))
            → has_united seed settings images self.old
            → OnOk result (has_united seed settings (images ++ image.now ∷ []) self.new) }
        ensures refused { (settings : Settings)
            → is_ready seed settings self.old
            → IfErr result (IsImageRefusal (merge_refusal settings) (is_no_image seed image.now)) }
        ensures ready { (settings : Settings)
            → is_ready seed settings self.old
            → OnOk result (is_ready seed settings self.new) };
}

/// Adds the image in a reader to a union.
fn add_reader<U: ImageUnion, B: Allocator + Clone + Drop, R: TextReader>(
    union: &mut U,
    alloc: B,
    seed: u64,
    reader: &mut R,
) -> Result<(), ReadError>
    ensures united { (settings : U.Settings) (images : List (List ℕ))
        → U.has_united seed settings images union.old
        → IfSome (R.remaining reader.old) (λ image.
        OnOk result (U.has_united seed settings (images ++ image ∷ []) union.new)) }
    ensures refused { (settings : U.Settings)
        → U.is_ready seed settings union.old
        → IfErr result (IsImageFailure (U.merge_refusal settings) (IfSome (R.remaining reader.old) (U.is_no_image seed))) }
    ensures ready { (settings : U.Settings)
        → U.is_ready seed settings union.old
        → OnOk result (U.is_ready seed settings union.new) }
    ensures fallible { IfErr result (FailsIf R.may_fail) }
{
    let mut image = Vec::new(alloc.clone()?);
    if let Err(error) = reader.read_to_end(&mut image) {
        return Err(read_failure(R::may_fail(), error));
    }
    union.add_image(alloc, seed, image.as_slice())?;
    Ok(())
}

/// Adds images one after another to a union. Returns their number.
///
/// If the union has not failed, it is refused only with `InvalidData`, if some source is no image of this seed, with
/// `OutOfMemory`, and with `Policy` if the union's policy may refuse to merge summaries. If a source fails, or can't
/// be opened, its error is returned: only if sources may fail, so never for texts in memory. After an error, what the
/// union has is unspecified.
pub fn add_images<U: ImageUnion, B: Allocator + Clone + Drop, S: Sources>(
    union: &mut U,
    alloc: B,
    seed: u64,
    sources: &mut S,
) -> Result<u64, ReadError>
    ensures united { (settings : U.Settings) (images : List (List ℕ))
        → U.has_united seed settings images union.old
        → IfSome (S.texts sources.old) (λ more. OnOk result (U.has_united seed settings (images ++ more) union.new)) }
    ensures counted { IfSome (S.texts sources.old) (λ more. IfOk result (λ count. count ≡ length more)) }
    ensures refused { (settings : U.Settings)
        → U.is_ready seed settings union.old
        → IfErr result (IsImageFailure (U.merge_refusal settings) (IfSome (S.texts sources.old) (HasFault (U.is_no_image seed)))) }
    ensures ready { (settings : U.Settings)
        → U.is_ready seed settings union.old
        → OnOk result (U.is_ready seed settings union.new) }
    ensures fallible { IfErr result (FailsIf S.may_fail) }
{
    for count in 0..u64::MAX {
        match sources.next_source() {
            Ok(Some(mut source)) => {
                add_reader(union, alloc.clone()?, seed, &mut source)?;
            }
            Ok(None) => return Ok(count),
            Err(error) => return Err(read_failure(S::may_fail(), error)),
        }
    }
    Err(ReadError::Refused(Error::from(AllocError)))
}
