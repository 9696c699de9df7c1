//! A number that only clauses see.
ghost use Rattle.std.specs.Prelude.{◌≡◌, ℕ, ◌+◌};

use std::marker::Model;
use std::mem;
use std::snapshot::Snapshot;

/// A number, from 0 on, that contracts see and that takes no memory. It is as honest as the code that ticks it.
#[derive(Drop)]
pub struct Count {
    before: Snapshot<Option<Count>>,
}

impl Model for Count {
    ghost use Rattle.std.specs.Prelude.{ℕ, ◌+◌};
    ghost use Rattle.std.specs.Option.{option_map_or};

    ghost Value = { ℕ };

    ghost view = { λ c. option_map_or (λ n. n + 1) c.before.value 0 };

    ghost size = { λ n. n };
}

impl Count {
    /// Begins at 0.
    pub fn new() -> Count
        ensures { result ≡ 0 }
    {
        Count {
            before: Snapshot::of(&None),
        }
    }

    /// Counts one more.
    pub fn tick(&mut self)
        ensures { self.new ≡ self.old + 1 }
    {
        let before = Some(mem::replace(self, Count::new()));
        *self = Count {
            before: Snapshot::of(&before),
        };
    }
}

const _: () = prove!(size_of::<Count>() == 0);
