//! Whole numbers whose sums are checked, as summaries.
ghost use Rattle.std.specs.Prelude.{◌≡◌, ℤ, pos, negsuc, ◌-◌, ◌^◌, Option, Some, refl, false, is_none, MatchResult};
ghost use Rattle.std.specs.Option.{option_map};
ghost use Rattle.core_laws.specs.Refusal.{Refuses, policy_refusal};
ghost use Rattle.core_policies.specs.Sums.{sum_within};

use sketch_base::{Error, ErrorKind};

/// Whole numbers of a type, whose sum is checked against the bounds of the type: `u32`, `u64`, `i32` and `i64`.
pub trait CheckedSum: Copy {
    /// The whole number that a value represents.
    ghost whole: { Self → ℤ };

    /// The least whole number that a sum may be.
    ghost least: { ℤ };

    /// The greatest whole number that a sum may be.
    ghost greatest: { ℤ };

    /// The value that represents 0.
    ghost ZERO: { Self };

    /// The value that represents 0.
    const ZERO: Self;

    /// The value that represents the sum; none if the type has no such value.
    ghost sums: { Self → Self → Option Self };

    /// The sum of two values, or none if it is less than the least number of the type or greater than the greatest.
    fn checked_sum(self, other: Self) -> Option<Self>
        ensures named { result ≡ sums self other }
        ensures whole { option_map whole result ≡ sum_within least greatest (whole self) (whole other) };

    /// Different values represent different numbers.
    ghost distinct: { (x y : Self) → whole x ≡ whole y → x ≡ y };

    /// `ZERO` represents 0.
    ghost zero: { whole ZERO ≡ pos 0 };

    /// A sum represents the sum of the whole numbers, and is none exactly if that is out of bounds.
    ghost summed: { (x y : Self) → option_map whole (sums x y) ≡ sum_within least greatest (whole x) (whole y) };
}

impl CheckedSum for u32 {
    ghost use Rattle.core_policies.specs.Sums.{unsigned_sum, unsigned-distinct, unsigned-summed};

    ghost whole = { λ x. pos x };

    ghost least = { pos 0 };

    ghost greatest = { pos (2 ^ 32 - 1) };

    ghost ZERO = { 0 };

    const ZERO: u32 = 0;

    ghost sums = { λ x y. unsigned_sum 32 x y };

    fn checked_sum(self, other: u32) -> Option<u32> {
        self.checked_add(other)
    }

    ghost distinct = { λ x y same. unsigned-distinct x y same };

    ghost zero = { refl };

    ghost summed = { λ x y. unsigned-summed 32 x y };
}

impl CheckedSum for u64 {
    ghost use Rattle.core_policies.specs.Sums.{unsigned_sum, unsigned-distinct, unsigned-summed};

    ghost whole = { λ x. pos x };

    ghost least = { pos 0 };

    ghost greatest = { pos (2 ^ 64 - 1) };

    ghost ZERO = { 0 };

    const ZERO: u64 = 0;

    ghost sums = { λ x y. unsigned_sum 64 x y };

    fn checked_sum(self, other: u64) -> Option<u64> {
        self.checked_add(other)
    }

    ghost distinct = { λ x y same. unsigned-distinct x y same };

    ghost zero = { refl };

    ghost summed = { λ x y. unsigned-summed 64 x y };
}

impl CheckedSum for i32 {
    ghost use Rattle.core_policies.specs.Sums.{signed-summed};

    ghost whole = { λ x. x };

    ghost least = { negsuc (2 ^ 31 - 1) };

    ghost greatest = { pos (2 ^ 31 - 1) };

    ghost ZERO = { pos 0 };

    const ZERO: i32 = 0;

    ghost sums = { λ x y. sum_within (negsuc (2 ^ 31 - 1)) (pos (2 ^ 31 - 1)) x y };

    fn checked_sum(self, other: i32) -> Option<i32> {
        self.checked_add(other)
    }

    ghost distinct = { λ x y same. same };

    ghost zero = { refl };

    ghost summed = { λ x y. signed-summed (negsuc (2 ^ 31 - 1)) (pos (2 ^ 31 - 1)) x y };
}

impl CheckedSum for i64 {
    ghost use Rattle.core_policies.specs.Sums.{signed-summed};

    ghost whole = { λ x. x };

    ghost least = { negsuc (2 ^ 63 - 1) };

    ghost greatest = { pos (2 ^ 63 - 1) };

    ghost ZERO = { pos 0 };

    const ZERO: i64 = 0;

    ghost sums = { λ x y. sum_within (negsuc (2 ^ 63 - 1)) (pos (2 ^ 63 - 1)) x y };

    fn checked_sum(self, other: i64) -> Option<i64> {
        self.checked_add(other)
    }

    ghost distinct = { λ x y same. same };

    ghost zero = { refl };

    ghost summed = { λ x y. signed-summed (negsuc (2 ^ 63 - 1)) (pos (2 ^ 63 - 1)) x y };
}

/// Adds to a summary. Refused with `Policy` if the sum is out of bounds; then the summary is unchanged.
pub(crate) fn add_to<S: CheckedSum>(summary: &mut S, value: S) -> Result<(), Error>
    ensures added { MatchResult result (λ _. S.sums summary.old value ≡ Some summary.new) (λ _.
        summary.new ≡ summary.old) }
    ensures refused { Refuses result (policy_refusal (is_none (S.sums summary.old value))) false }
{
    match summary.checked_sum(value) {
        Some(sum) => {
            *summary = sum;
            Ok(())
        }
        None => Err(Error::new(ErrorKind::Policy)),
    }
}
