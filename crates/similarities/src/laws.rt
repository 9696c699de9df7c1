//! Laws of similarities: each is the contract of a function that does nothing, so that a caller can use it.
ghost use Rattle.std.specs.Prelude.{ℕ, ◌<◌, ◌≤◌};
ghost use Rattle.estimates.specs.declared.bounds.Deviations.{Deviations};
ghost use Rattle.similarities.specs.Similarities.{IsConsistent, IsNear, share_bounds, similarity_of};
ghost use Rattle.similarities.specs.declared.similarity.Overlap.{Overlap};
ghost use Rattle.similarities.specs.declared.similarity.TheConstants.{MILLION};

use crate::similarity::{MILLION, Overlap};
use estimates::Deviations;

/// The share of a similarity is within its bounds, and these are at most one.
pub fn similarities_are_consistent()
    ensures { (deviations : Deviations) (o : Overlap) → IsConsistent (similarity_of deviations o) }
{}

/// Each share that is near is within the bounds. A share is near (`IsNear`) if the number of shared hashes is within z
/// standard deviations of the number that is expected for it.
pub fn near_is_within()
    ensures lower { (z s n q : ℕ) → 0 < n → s ≤ n → q ≤ MILLION → IsNear z s n q → (share_bounds z s n).lower ≤ q }
    ensures upper { (z s n q : ℕ) → 0 < n → s ≤ n → q ≤ MILLION → IsNear z s n q → q ≤ (share_bounds z s n).upper }
{}
