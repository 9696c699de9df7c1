//! The settings of a sketch or a union.
ghost use Rattle.std.specs.Prelude.{◌≡◌};
ghost use Rattle.core_state.specs.Settings.{default_settings};

use core_laws::{DEFAULT_LG_K, MAX_THETA};
use core_table::ResizeFactor;
use sketch_base::DEFAULT_UPDATE_SEED;
use std::marker::Model;

/// The settings of a sketch or a union. Nothing is checked here: building refuses settings that are out of range.
#[derive(Debug, Clone, Copy)]
pub struct Settings {
    lg_k: u8,
    resize_factor: ResizeFactor,
    starting_theta: u64,
    seed: u64,
}

impl Model for Settings {
    ghost use Rattle.core_state.specs.Settings.{Settings};

    ghost Value = { Settings };

    ghost view = { λ b.
        record {
          lg_k = b.lg_k;
          resize_factor = b.resize_factor;
          starting_theta = b.starting_theta;
          seed = b.seed;
        } };

    ghost inverse = { λ s.
        record {
          lg_k = s.lg_k;
          resize_factor = s.resize_factor;
          starting_theta = s.starting_theta;
          seed = s.seed;
        } };
}

impl Default for Settings {
    ghost is_default = { λ b. b ≡ default_settings };

    /// Settings with 4096 nominal entries, the greatest starting theta and the default seed, 9001.
    fn default() -> Self {
        Settings {
            lg_k: DEFAULT_LG_K,
            resize_factor: ResizeFactor::X8,
            starting_theta: MAX_THETA,
            seed: DEFAULT_UPDATE_SEED,
        }
    }
}

impl Settings {
    /// Sets 2^`lg_k` nominal entries. Building refuses an `lg_k` that isn't from 4 to 26.
    pub fn with_lg_k(mut self, lg_k: u8) -> Self
        ensures { result ≡ record self { lg_k = lg_k } }
    {
        self.lg_k = lg_k;
        self
    }

    /// Sets the resize factor: by how much the number of slots grows. No value depends on it.
    pub fn with_resize_factor(mut self, resize_factor: ResizeFactor) -> Self
        ensures { result ≡ record self { resize_factor = resize_factor } }
    {
        self.resize_factor = resize_factor;
        self
    }

    /// Sets the starting theta. Building refuses one that isn't from 1 to `MAX_THETA`.
    pub fn with_starting_theta(mut self, starting_theta: u64) -> Self
        ensures { result ≡ record self { starting_theta = starting_theta } }
    {
        self.starting_theta = starting_theta;
        self
    }

    /// Sets the seed. Building refuses one whose seed hash is 0.
    pub fn with_seed(mut self, seed: u64) -> Self
        ensures { result ≡ record self { seed = seed } }
    {
        self.seed = seed;
        self
    }

    /// The binary logarithm of the nominal entries as it was set, which may be out of range.
    pub fn lg_k(&self) -> u8
        ensures { result ≡ self.now.lg_k }
    {
        self.lg_k
    }

    /// The resize factor.
    pub fn resize_factor(&self) -> ResizeFactor
        ensures { result ≡ self.now.resize_factor }
    {
        self.resize_factor
    }

    /// The starting theta as it was set, which may be out of range.
    pub fn starting_theta(&self) -> u64
        ensures { result ≡ self.now.starting_theta }
    {
        self.starting_theta
    }

    /// The seed for hashing values.
    pub fn seed(&self) -> u64
        ensures { result ≡ self.now.seed }
    {
        self.seed
    }
}
