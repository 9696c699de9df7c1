//! What is shown of sketches.
ghost use Rattle.std.specs.Prelude.{◌≤◌, IfOk};
ghost use Rattle.estimates.specs.declared.fraction.TheConstants.{MAX_PLACES};

use crate::words::{Fault, put_bytes};
use sketch_base::Error;
use std::alloc::{AllocError, Allocator};
use theta_core::{Decimal, MAX_PLACES, ThetaFamilySketchMetadata, estimate_decimal};

/// The facts that a sketch of either kind and family answers.
#[derive(Clone, Copy)]
pub struct Facts {
    pub empty: bool,
    pub theta: u64,
    pub count: usize,
    pub fraction: (u128, u128),
    pub estimating: bool,
    pub seed_hash: u16,
}

/// The word of a sketch's emptiness.
fn emptiness(empty: bool) -> &'static str {
    if empty { "empty" } else { "nonempty" }
}

/// The word of a sketch's order.
pub fn order_word(ordered: bool) -> &'static str {
    if ordered { "ordered" } else { "unordered" }
}

/// Appends the facts of a sketch.
pub fn put_facts(text: &mut String, facts: Facts) -> Result<(), AllocError> {
    let empty = emptiness(facts.empty);
    let theta = facts.theta;
    let count = facts.count;
    let (retained, below) = facts.fraction;
    let mode = if facts.estimating {
        "estimating"
    } else {
        "exact"
    };
    let seed_hash = facts.seed_hash;
    write!(
        text,
        "{empty} theta={theta} count={count} estimate={retained}/{below} {mode}"
    )?;
    write!(text, " seed_hash={seed_hash}")
}

/// Appends the facts of a view.
pub fn put_viewed(
    text: &mut String,
    empty: bool,
    theta: u64,
    count: usize,
    seed_hash: u16,
    ordered: bool,
) -> Result<(), AllocError> {
    let empty = emptiness(empty);
    let order = order_word(ordered);
    write!(
        text,
        "{empty} theta={theta} count={count} seed_hash={seed_hash} {order}"
    )
}

/// Appends the metadata of a view.
pub fn put_metadata(
    text: &mut String,
    metadata: ThetaFamilySketchMetadata,
) -> Result<(), AllocError> {
    match metadata {
        ThetaFamilySketchMetadata::Empty { seed_hash } => {
            write!(text, " metadata=empty:{seed_hash}")
        }
        ThetaFamilySketchMetadata::NonEmpty {
            seed_hash,
            theta,
            ordered,
            num_retained,
        } => {
            let order = order_word(ordered);
            write!(
                text,
                " metadata=nonempty:{seed_hash}:{theta}:{order}:{num_retained}"
            )
        }
    }
}

/// Appends hashes in square brackets.
pub fn put_hashes(text: &mut String, hashes: &[u64]) -> Result<(), AllocError> {
    text.push_str(" [")?;
    let mut is_first = true;
    for hash in hashes {
        if !is_first {
            text.push(' ')?;
        }
        is_first = false;
        let hash = *hash;
        write!(text, "{hash}")?;
    }
    text.push(']')
}

/// Appends whether the hashes of a view are those of its iterators.
pub fn put_same(text: &mut String, same: bool) -> Result<(), AllocError> {
    let word = if same { "same" } else { "other" };
    write!(text, " hashes={word}")
}

/// Appends the image of a sketch, or why it isn't written.
pub fn put_image<A: Allocator>(
    text: &mut String,
    image: Result<Vec<u8, A>, Error>,
) -> Result<(), Fault> {
    let image = image?;
    put_bytes(text, image.as_slice())?;
    Ok(())
}

/// A number of decimals that a decimal number may have.
pub fn places_of(word: &str) -> Result<u32, Fault>
    ensures { IfOk result (λ places. places ≤ MAX_PLACES) }
{
    let places = word.parse::<u32>().map_err(|_| Fault::Unknown)?;
    if MAX_PLACES < places {
        return Err(Fault::Condition);
    }
    Ok(places)
}

/// Appends a decimal number as it is printed.
pub fn put_decimal(text: &mut String, decimal: Decimal) -> Result<(), AllocError> {
    write!(text, "{decimal}")
}

/// Appends the parts of a decimal number.
pub fn put_parts(text: &mut String, decimal: Decimal) -> Result<(), AllocError> {
    let whole = decimal.whole();
    let decimals = decimal.decimals();
    let places = decimal.places();
    write!(text, "{whole} {decimals} {places}")
}

/// The decimal number of a fraction.
pub fn decimal_of(fraction: (u128, u128), places: u32) -> Result<Decimal, Fault> {
    let (_, below) = fraction;
    if below == 0 || (i64::MAX as u128) < below || MAX_PLACES < places {
        return Err(Fault::Condition);
    }
    Ok(estimate_decimal(fraction, places))
}
