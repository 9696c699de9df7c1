//! Builders of tuple sketches.
ghost use Rattle.std.specs.Prelude.{◌≡◌, true, IfOk};
ghost use Rattle.core_laws.specs.Refusal.{Refuses};
ghost use Rattle.core_state.specs.Settings.{default_settings};
ghost use Rattle.core_laws.specs.Settings.{settings_refusal};
ghost use Rattle.core_table.specs.HashTable.{empty_table};
ghost use Rattle.tuple_sketches.specs.Streams.{nothing, IsSketchOf};

use crate::sketch::TupleSketch;
use core_policies::SummaryPolicy;
use core_state::Settings;
use core_table::ResizeFactor;
use sketch_base::Error;
use std::alloc::Allocator;

/// Builds a tuple sketch under a policy. Nothing is checked before `build`. The crate's documentation has an example.
#[derive(Debug, Clone, Drop)]
pub struct TupleSketchBuilder<P> {
    settings: Settings,
    policy: P,
}

impl<P> TupleSketchBuilder<P> {
    /// A builder with this policy, 4096 nominal entries, the greatest starting theta and the default seed, 9001.
    pub fn new(policy: P) -> Self
        ensures { result ≡ record { settings = default_settings; policy = policy } }
    {
        let settings = Settings::default();
        TupleSketchBuilder { settings, policy }
    }

    /// Sets 2^`lg_k` nominal entries; `build` requires `lg_k` from 4 to 26.
    pub fn lg_k(mut self, lg_k: u8) -> Self
        ensures { result ≡ record self { settings = record self.settings { lg_k = lg_k } } }
    {
        self.settings = self.settings.with_lg_k(lg_k);
        self
    }

    /// Sets the resize factor: by how much the number of slots grows. No value depends on it, only `estimated_size`,
    /// unspecified orders and requests for memory.
    pub fn resize_factor(mut self, resize_factor: ResizeFactor) -> Self
        ensures { result ≡ record self { settings = record self.settings { resize_factor = resize_factor } } }
    {
        self.settings = self.settings.with_resize_factor(resize_factor);
        self
    }

    /// Sets the starting theta; `build` requires it from 1 to `MAX_THETA`.
    pub fn starting_theta(mut self, starting_theta: u64) -> Self
        ensures { result ≡ record self { settings = record self.settings { starting_theta = starting_theta } } }
    {
        self.settings = self.settings.with_starting_theta(starting_theta);
        self
    }

    /// Sets the seed; `build` refuses one whose seed hash is 0.
    pub fn seed(mut self, seed: u64) -> Self
        ensures { result ≡ record self { settings = record self.settings { seed = seed } } }
    {
        self.settings = self.settings.with_seed(seed);
        self
    }
}

impl<P: SummaryPolicy + Drop> TupleSketchBuilder<P> {
    /// Builds an empty sketch in memory of `alloc`. Refused with `InvalidArgument` if a setting is out of range or
    /// the seed hash is 0, and with `OutOfMemory`.
    pub fn build<A: Allocator + Drop>(self, alloc: A) -> Result<TupleSketch<P, A>, Error>
        ensures empty { IfOk result (λ s. s.state.empty ≡ true) }
        ensures made { IfOk result (λ s.
            s.state.map ≡ empty_table self.settings.lg_k self.settings.starting_theta self.settings.seed) }
        ensures policy { IfOk result (λ s. s.policy ≡ self.policy) }
        ensures given { IfOk result (λ s.
            IsSketchOf self.settings.lg_k self.settings.starting_theta self.settings.seed s.state nothing) }
        ensures refused { Refuses result
            (settings_refusal self.settings.lg_k self.settings.starting_theta self.settings.seed) true }
    {
        let TupleSketchBuilder { settings, policy } = self;
        TupleSketch::new(alloc, settings, policy)
    }
}
