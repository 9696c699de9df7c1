//! Steps of insertions that lines name.
use sketch_base::{Error, ErrorKind};
use theta_core::UpsertStep;

/// The step that leaves what exists as it is, and makes nothing.
#[derive(Clone, Copy)]
pub struct Declining;

impl<X> UpsertStep<X> for Declining {
    ghost use Rattle.std.specs.Prelude.{None, false};

    ghost means = { λ step.
        record {
          writes = λ x. x;
          refuses_existing = λ _. None;
          makes = None;
          refuses_absent = None;
          allocates = false;
        } };

    fn existing(self, _entry: &mut X) -> Result<(), Error> {
        Ok(())
    }

    fn absent(self) -> Result<Option<X>, Error> {
        Ok(None)
    }
}

/// The step that refuses, whatever there is.
#[derive(Clone, Copy)]
pub struct Refusing;

impl<X> UpsertStep<X> for Refusing {
    ghost use Rattle.std.specs.Prelude.{None, Some, false};
    ghost use Rattle.sketch_base.specs.declared.error.ErrorKind.TheVariants.{Policy};

    ghost means = { λ step.
        record {
          writes = λ x. x;
          refuses_existing = λ _. Some Policy;
          makes = None;
          refuses_absent = Some Policy;
          allocates = false;
        } };

    fn existing(self, _entry: &mut X) -> Result<(), Error> {
        Err(Error::new(ErrorKind::Policy))
    }

    fn absent(self) -> Result<Option<X>, Error> {
        Err(Error::new(ErrorKind::Policy))
    }
}

/// The step that adds a value to a summary, or makes a summary of it. A sum past 64 bits is refused.
#[derive(Clone, Copy)]
pub struct Adding {
    pub value: u64,
}

impl UpsertStep<u64> for Adding {
    ghost use Rattle.std.specs.Prelude.{None, Some, false, nat_lt, if◌then◌else◌, ◌+◌, ◌^◌};
    ghost use Rattle.sketch_base.specs.declared.error.ErrorKind.TheVariants.{Policy};

    ghost means = { λ step.
        record {
          writes = λ x. x + step.value;
          refuses_existing = λ x. if nat_lt (x + step.value) (2 ^ 64) then None else Some Policy;
          makes = Some step.value;
          refuses_absent = None;
          allocates = false;
        } };

    fn existing(self, summary: &mut u64) -> Result<(), Error> {
        match summary.checked_add(self.value) {
            Some(sum) => {
                *summary = sum;
                Ok(())
            }
            None => Err(Error::new(ErrorKind::Policy)),
        }
    }

    fn absent(self) -> Result<Option<u64>, Error> {
        Ok(Some(self.value))
    }
}
