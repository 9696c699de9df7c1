//! Estimates, as fractions, as decimal numbers and as whole ones.
ghost use Rattle.std.specs.Prelude.{◌≡◌, ◌<◌, ◌≤◌, ◌*◌, ◌^◌, if◌then◌else◌};
ghost use Rattle.core_laws.specs.declared.TheConstants.{MAX_THETA};
ghost use Rattle.estimates.specs.Fraction.{decimal_of, nearest};
ghost use Rattle.estimates.specs.declared.fraction.TheConstants.{MAX_PLACES};

use core_laws::MAX_THETA;
use std::fmt;

/// The estimate of `count` entries at a theta: `count` times `MAX_THETA`, over theta, not reduced; 0 over 1 for an
/// empty sketch.
pub fn count_fraction(empty: bool, count: usize, theta: u64) -> (u128, u128)
    ensures { result ≡ (if empty then (0, 1) else (count * MAX_THETA, theta)) }
{
    if empty {
        return (0, 1);
    }
    (count as u128 * MAX_THETA as u128, theta as u128)
}

/// The greatest number of decimals of a `Decimal`.
pub const MAX_PLACES: u32 = 19;

/// A decimal number of at least 0, with 0 to 19 decimals: its whole part, and its decimals as one number.
#[derive(Debug, Clone, Copy, PartialEq, Eq)]
pub struct Decimal {
    pub(crate) whole: u128,
    pub(crate) decimals: u128,
    pub(crate) places: u32,
}

impl Decimal {
    /// The whole part.
    pub fn whole(&self) -> u128
        ensures { result ≡ self.now.whole }
    {
        self.whole
    }

    /// The decimals as one number, below 10^`places`: 5 for 0.05 of two decimals.
    pub fn decimals(&self) -> u128
        ensures { result ≡ self.now.decimals }
    {
        self.decimals
    }

    /// How many decimals it has, from 0 to 19.
    pub fn places(&self) -> u32
        ensures { result ≡ self.now.places }
    {
        self.places
    }
}

/// Prints the whole part, a point and all `places` decimals; no point if `places` is 0.
impl fmt::Display for Decimal {
    fn fmt<W: fmt::Write>(&self, f: &mut fmt::Formatter<W>) -> fmt::Result {
        let Decimal {
            whole,
            decimals,
            places,
        } = *self;
        write!(f, "{whole}")?;
        if places == 0 {
            return Ok(());
        }
        let width = places as usize;
        write!(f, ".{decimals:0width$}")
    }
}

/// The quotient of a fraction as a decimal number with `places` decimals, from 0 to 19, rounded down. The divisor is
/// a theta, from 1 to `MAX_THETA`.
pub fn estimate_decimal(fraction: (u128, u128), places: u32) -> Decimal
    requires low { 0 < fraction.1 }
    requires high { fraction.1 ≤ MAX_THETA }
    requires limited { places ≤ MAX_PLACES }
    ensures { result ≡ decimal_of fraction places }
{
    let (count, theta) = fraction;
    let power = 10u128.pow(places);
    Decimal {
        whole: count / theta,
        decimals: count % theta * power / theta,
        places,
    }
}

/// The nearest whole number to a fraction; a half is rounded up. The numerator must be below 2^126, and the divisor
/// from 1 to below 2^64.
pub fn nearest(over: u128, under: u128) -> u128
    requires not_zero { 0 < under }
    requires small { over < 2 ^ 126 }
    requires low { under < 2 ^ 64 }
    ensures { result ≡ nearest over under }
{
    (2 * over + under) / (2 * under)
}
