//! Builders of theta sketches and unions.
ghost use Rattle.std.specs.Prelude.{◌≡◌, ◌^◌, [], true, IfOk};
ghost use Rattle.sketch_base.specs.Seed.{seed_hash};
ghost use Rattle.core_laws.specs.Refusal.{Refuses};
ghost use Rattle.core_state.specs.Settings.{default_settings};
ghost use Rattle.core_laws.specs.Settings.{settings_refusal};
ghost use Rattle.core_table.specs.HashTable.{empty_table};
ghost use Rattle.core_operators.specs.Union.{empty_union};
ghost use Rattle.theta_sketches.specs.Streams.{IsSketchOf, IsUnionOf, IsUnionOfSamples};

use crate::sketch::ThetaSketch;
use crate::union::ThetaUnion;
use core_state::Settings;
use core_table::ResizeFactor;
use sketch_base::Error;
use std::alloc::Allocator;
use std::marker::Model;

/// Builds a theta sketch. Nothing is checked before `build`. The crate's documentation has an example.
#[derive(Debug, Clone, Drop)]
pub struct ThetaSketchBuilder {
    settings: Settings,
}

impl Model for ThetaSketchBuilder {
    ghost use Rattle.core_state.specs.Settings.{Settings};

    ghost Value = { Settings };

    ghost view = { λ b. b.settings };

    ghost inverse = { λ s. record { settings = s } };
}

impl Default for ThetaSketchBuilder {
    ghost is_default = { λ b. b ≡ default_settings };

    /// A builder with 4096 nominal entries, the greatest starting theta and the default seed, 9001.
    fn default() -> Self {
        let settings = Settings::default();
        ThetaSketchBuilder { settings }
    }
}

impl ThetaSketchBuilder {
    /// Sets 2^`lg_k` nominal entries; `build` requires `lg_k` from 4 to 26.
    pub fn lg_k(mut self, lg_k: u8) -> Self
        ensures { result ≡ record self { lg_k = lg_k } }
    {
        self.settings = self.settings.with_lg_k(lg_k);
        self
    }

    /// Sets the resize factor: by how much the number of slots grows. No value depends on it, only `estimated_size`,
    /// unspecified orders and requests for memory.
    pub fn resize_factor(mut self, resize_factor: ResizeFactor) -> Self
        ensures { result ≡ record self { resize_factor = resize_factor } }
    {
        self.settings = self.settings.with_resize_factor(resize_factor);
        self
    }

    /// Sets the starting theta; `build` requires it from 1 to `MAX_THETA`.
    pub fn starting_theta(mut self, starting_theta: u64) -> Self
        ensures { result ≡ record self { starting_theta = starting_theta } }
    {
        self.settings = self.settings.with_starting_theta(starting_theta);
        self
    }

    /// Sets the seed; `build` refuses one whose seed hash is 0.
    pub fn seed(mut self, seed: u64) -> Self
        ensures { result ≡ record self { seed = seed } }
    {
        self.settings = self.settings.with_seed(seed);
        self
    }

    /// Builds an empty sketch in memory of `alloc`. Refused with `InvalidArgument` if a setting is out of range or
    /// the seed hash is 0, and with `OutOfMemory`.
    pub fn build<A: Allocator + Drop>(self, alloc: A) -> Result<ThetaSketch<A>, Error>
        ensures empty { IfOk result (λ s. s.empty ≡ true) }
        ensures made { IfOk result (λ s. s.map ≡ empty_table self.lg_k self.starting_theta self.seed) }
        ensures given { IfOk result (λ s. IsSketchOf self.lg_k self.starting_theta self.seed s []) }
        ensures refused { Refuses result (settings_refusal self.lg_k self.starting_theta self.seed) true }
    {
        ThetaSketch::new(alloc, self.settings)
    }
}

/// Builds a theta union. Nothing is checked before `build`. The crate's documentation has an example.
#[derive(Debug, Clone, Drop)]
pub struct ThetaUnionBuilder {
    settings: Settings,
}

impl Model for ThetaUnionBuilder {
    ghost use Rattle.core_state.specs.Settings.{Settings};

    ghost Value = { Settings };

    ghost view = { λ b. b.settings };

    ghost inverse = { λ s. record { settings = s } };
}

impl Default for ThetaUnionBuilder {
    ghost is_default = { λ b. b ≡ default_settings };

    /// A builder with 4096 nominal entries, the greatest starting theta and the default seed, 9001.
    fn default() -> Self {
        let settings = Settings::default();
        ThetaUnionBuilder { settings }
    }
}

impl ThetaUnionBuilder {
    /// Sets 2^`lg_k` nominal entries; `build` requires `lg_k` from 4 to 26.
    pub fn lg_k(mut self, lg_k: u8) -> Self
        ensures { result ≡ record self { lg_k = lg_k } }
    {
        self.settings = self.settings.with_lg_k(lg_k);
        self
    }

    /// Sets the resize factor: by how much the number of slots grows. No value depends on it, only `estimated_size`,
    /// unspecified orders and requests for memory.
    pub fn resize_factor(mut self, resize_factor: ResizeFactor) -> Self
        ensures { result ≡ record self { resize_factor = resize_factor } }
    {
        self.settings = self.settings.with_resize_factor(resize_factor);
        self
    }

    /// Sets the starting theta; `build` requires it from 1 to `MAX_THETA`.
    pub fn starting_theta(mut self, starting_theta: u64) -> Self
        ensures { result ≡ record self { starting_theta = starting_theta } }
    {
        self.settings = self.settings.with_starting_theta(starting_theta);
        self
    }

    /// Sets the seed; `build` refuses one whose seed hash is 0.
    pub fn seed(mut self, seed: u64) -> Self
        ensures { result ≡ record self { seed = seed } }
    {
        self.settings = self.settings.with_seed(seed);
        self
    }

    /// Builds an empty union in memory of `alloc`. Refused with `InvalidArgument` if a setting is out of range or the
    /// seed hash is 0, and with `OutOfMemory`.
    pub fn build<A: Allocator + Drop>(self, alloc: A) -> Result<ThetaUnion<A>, Error>
        ensures made { IfOk result (λ u. u ≡ empty_union self.lg_k self.starting_theta (seed_hash self.seed) u.policy) }
        ensures given { IfOk result (λ u. IsUnionOf self.lg_k (2 ^ self.lg_k) self.starting_theta u []) }
        ensures sampled { IfOk result (λ u. IsUnionOfSamples u []) }
        ensures refused { Refuses result (settings_refusal self.lg_k self.starting_theta self.seed) true }
    {
        ThetaUnion::new(alloc, self.settings)
    }
}
