//! The similarity of two sketches, by what they retain below the lesser of their thetas.
ghost use Rattle.std.specs.Prelude.{◌≡◌, ◌<◌, ◌≤◌, ◌*◌, ◌-◌, ◌^◌};
ghost use Rattle.estimates.specs.Bounds.{ceil_sqrt, deviation_count};
ghost use Rattle.similarities.specs.Similarities.{deviations_of, measured, share_bounds, similarity_of};
ghost use Rattle.similarities.specs.Similarities.{similarity_with, united};

use core_laws::MAX_THETA;
use estimates::{Deviations, Interval, nearest};

/// One, in the unit of shares: a share is a whole number of millionths.
pub const MILLION: u128 = 1_000_000;

/// How many of two sketches aren't empty.
#[derive(Debug, Clone, Copy, PartialEq, Eq)]
pub enum Nonempty {
    Neither,
    One,
    Both,
}

/// What two sketches retain below the lesser of their thetas.
#[derive(Debug, Clone, Copy, PartialEq, Eq)]
pub struct Overlap {
    /// How many of them aren't empty.
    pub nonempty: Nonempty,
    /// How many hashes both retain.
    pub shared: u32,
    /// How many hashes the first alone retains.
    pub first: u32,
    /// How many hashes the second alone retains.
    pub second: u32,
    /// The lesser theta, from 1 to `MAX_THETA`.
    pub theta: u64,
}

impl Overlap {
    /// How many hashes at least one retains.
    pub fn united(&self) -> u64
        ensures value { result ≡ united self.now }
        ensures small { result < 2 ^ 34 }
        ensures shared { self.now.shared ≤ result }
    {
        self.shared as u64 + self.first as u64 + self.second as u64
    }
}

/// How similar the streams of two sketches are. `similarity_of` returns one.
#[derive(Debug, Clone, Copy, PartialEq, Eq)]
pub struct Similarity {
    /// The share of the hashes of both streams among those of at least one, in millionths, rounded to the nearest; a
    /// half is rounded up.
    pub share: u128,
    /// Bounds of the share, in millionths, rounded outwards.
    pub interval: Interval,
    /// Whether the share is that of the streams, and no estimate.
    pub exact: bool,
    /// How many hashes both retain below the lesser theta.
    pub shared: u32,
    /// How many hashes at least one retains there.
    pub united: u64,
    /// The lesser theta, from 1 to `MAX_THETA`.
    pub theta: u64,
}

/// The number of standard deviations of bounds: 0 of an exact share.
fn deviations_of(exact: bool, deviations: Deviations) -> u128
    ensures value { result ≡ deviations_of exact deviations }
    ensures small { result ≤ 3 }
{
    if exact {
        return 0;
    }
    match deviations {
        Deviations::One => 1,
        Deviations::Two => 2,
        Deviations::Three => 3,
    }
}

/// The least whole number whose square is at least `number`.
fn ceil_sqrt(number: u128) -> u128
    ensures value { result ≡ ceil_sqrt number }
    ensures small { result ≤ 2 ^ 64 }
{
    let root = number.isqrt();
    if root * root < number { root + 1 } else { root }
}

/// The product of two numbers of hashes.
fn product(first: u64, second: u64) -> u128
    requires first { first < 2 ^ 34 }
    requires second { second < 2 ^ 34 }
    ensures value { result ≡ first * second }
    ensures small { result < 2 ^ 68 }
{
    first as u128 * second as u128
}

/// Bounds of a share, in millionths: the ends of the Wilson score interval for `number` standard deviations, at most
/// 3, if `shared` of `united` hashes, fewer than 2^34, are shared. They are rounded outwards.
fn share_bounds(number: u128, shared: u64, united: u64) -> Interval
    requires deviations { number ≤ 3 }
    requires some { 0 < united }
    requires inside { shared ≤ united }
    requires limited { united < 2 ^ 34 }
    ensures { result ≡ share_bounds number shared united }
{
    let square = number * number;
    let count = united as u128;
    let spread = square * count + 4 * product(shared, united - shared);
    let scaled = square * (MILLION * MILLION) * spread;
    let reach = ceil_sqrt(scaled.div_ceil(count));
    let middle = MILLION * (2 * shared as u128 + square);
    let unit = 2 * (count + square);
    Interval {
        lower: middle.saturating_sub(reach) / unit,
        upper: (middle + reach).div_ceil(unit),
    }
}

/// A similarity with this share and these bounds.
fn similarity_with(
    overlap: Overlap,
    exact: bool,
    share: u128,
    lower: u128,
    upper: u128,
) -> Similarity
    ensures { result ≡ similarity_with overlap exact share lower upper }
{
    Similarity {
        share,
        interval: Interval { lower, upper },
        exact,
        shared: overlap.shared,
        united: overlap.united(),
        theta: overlap.theta,
    }
}

/// The similarity of two sketches that aren't empty. If no hash is left it is unknown: a half, from 0 to 1.
fn measured(deviations: Deviations, overlap: Overlap) -> Similarity
    ensures { result ≡ measured deviations overlap }
{
    let united = overlap.united();
    if united == 0 {
        return similarity_with(overlap, false, MILLION / 2, 0, MILLION);
    }
    let exact = overlap.theta == MAX_THETA;
    let number = deviations_of(exact, deviations);
    let bounds = share_bounds(number, overlap.shared as u64, united);
    let share = nearest(overlap.shared as u128 * MILLION, united as u128);
    similarity_with(overlap, exact, share, bounds.lower, bounds.upper)
}

/// The similarity of two sketches by what they retain, with bounds for these standard deviations. That of two empty
/// sketches is 1, and that of one that is empty and one that isn't is 0. If neither is empty and no hash is left below
/// the lesser theta, it is unknown: a half, from 0 to 1. If theta is the greatest it is exact, and the bounds only round
/// it.
pub fn similarity_of(overlap: Overlap, deviations: Deviations) -> Similarity
    ensures { result ≡ similarity_of deviations overlap }
{
    match overlap.nonempty {
        Nonempty::Neither => similarity_with(overlap, true, MILLION, MILLION, MILLION),
        Nonempty::One => similarity_with(overlap, true, 0, 0, 0),
        Nonempty::Both => measured(deviations, overlap),
    }
}
