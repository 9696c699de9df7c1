//! The estimates of compact states.
ghost use Rattle.std.specs.Prelude.{◌≡◌, ◌≤◌};
ghost use Rattle.core_compact.specs.CompactState.{IsCompact};
ghost use Rattle.core_state.specs.Fraction.{compact_fraction};
ghost use Rattle.estimates.specs.Fraction.{decimal_of};
ghost use Rattle.estimates.specs.declared.fraction.TheConstants.{MAX_PLACES};

use core_compact::CompactSketchState;
use core_laws::SketchEntry;
use estimates::{Decimal, MAX_PLACES, count_fraction, estimate_decimal};
use std::alloc::Allocator;

/// The estimated number of distinct values that a compact sketch has seen, as a fraction: its retained entries times
/// `MAX_THETA`, over theta, not reduced; 0 over 1 for an empty sketch.
pub fn compact_fraction<E: SketchEntry, A: Allocator>(
    state: &CompactSketchState<E, A>,
) -> (u128, u128)
    ensures fraction { result ≡ compact_fraction state.now }
    ensures sound { IsCompact E.key state.now }
{
    count_fraction(
        state.is_empty(),
        state.retained_entries().len(),
        state.theta(),
    )
}

/// The estimate of a compact sketch as a decimal number with `places` decimals, from 0 to 19, rounded down; 0 for an
/// empty sketch.
pub fn compact_decimal<E: SketchEntry, A: Allocator>(
    state: &CompactSketchState<E, A>,
    places: u32,
) -> Decimal
    requires limited { places ≤ MAX_PLACES }
    ensures { result ≡ decimal_of (compact_fraction state.now) places }
{
    estimate_decimal(compact_fraction(state), places)
}
