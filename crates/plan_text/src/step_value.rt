//! What an update of a plan carries beside its hash, and the lines that say updates.
ghost use Rattle.std.specs.Prelude.{◌≡◌};
ghost use Rattle.plan_text.specs.Reading.{step_of};

use crate::line::StepLine;
use crate::plan::Step;

/// What an update carries beside its hash. Each kind of value has its own form of line.
pub trait StepValue: Copy + Drop {
    ghost use Rattle.std.specs.Prelude.{ℕ, Option};

    /// The value for the number after a hash (`None`: no number follows); `None` if this kind of value has no such
    /// line.
    ghost as_value: { Option ℕ → Option Self };

    /// The value for the number after a hash, `None` if no number follows. Returns `None` if this kind of value is
    /// not written so.
    fn from_number(number: Option<u64>) -> Option<Self>
        ensures { result ≡ as_value number };
}

/// Updates of a theta sketch carry a hash and nothing else.
impl StepValue for () {
    ghost use Rattle.plan_text.specs.Reading.{theta_value};

    ghost as_value = { theta_value };

    fn from_number(number: Option<u64>) -> Option<()> {
        match number {
            None => Some(()),
            Some(_) => None,
        }
    }
}

/// Updates of a tuple sketch carry a hash and a number.
impl StepValue for u64 {
    ghost use Rattle.plan_text.specs.Reading.{tuple_value};

    ghost as_value = { tuple_value };

    fn from_number(number: Option<u64>) -> Option<u64> {
        number
    }
}

/// The step that a line says; `None` if its update isn't of this kind of value.
pub fn step_of<V: StepValue>(line: StepLine) -> Option<Step<V>>
    ensures { result ≡ step_of V.as_value line }
{
    match line {
        StepLine::Add(hash, number) => {
            let value = V::from_number(number)?;
            Some(Step::Add(hash, value))
        }
        StepLine::Trim => Some(Step::Trim),
        StepLine::Reset => Some(Step::Reset),
    }
}
