//! Settings of sketches, unions and states.
use crate::words::{Fault, number, small_number};
use theta_core::{ResizeFactor, Settings as StateSettings};

/// The settings that a line names. One that it doesn't name is the builder's default.
#[derive(Clone, Copy)]
pub struct Settings {
    pub lg_k: Option<u8>,
    pub factor: Option<ResizeFactor>,
    pub start: Option<u64>,
    pub seed: Option<u64>,
}

/// The resize factor of a word.
pub fn factor_of(word: &str) -> Result<ResizeFactor, Fault> {
    match word {
        "1" => Ok(ResizeFactor::X1),
        "2" => Ok(ResizeFactor::X2),
        "4" => Ok(ResizeFactor::X4),
        "8" => Ok(ResizeFactor::X8),
        _ => Err(Fault::Unknown),
    }
}

impl Settings {
    /// Takes the setting of one word.
    fn set(&mut self, word: &str) -> Result<(), Fault> {
        match word.split_once('=') {
            Some(("lg_k", value)) => self.lg_k = Some(small_number(value)?),
            Some(("factor", value)) => self.factor = Some(factor_of(value)?),
            Some(("start", value)) => self.start = Some(number(value)?),
            Some(("seed", value)) => self.seed = Some(number(value)?),
            _ => return Err(Fault::Unknown),
        }
        Ok(())
    }

    /// The settings of words with a separator between; none of an empty text.
    pub fn read(words: &str, separator: char) -> Result<Settings, Fault> {
        let mut settings = Settings {
            lg_k: None,
            factor: None,
            start: None,
            seed: None,
        };
        if !words.is_empty() {
            for word in words.split(separator) {
                settings.set(word)?;
            }
        }
        Ok(settings)
    }
}

/// Refuses settings of an object that has none.
pub fn no_settings(words: &str) -> Result<(), Fault> {
    if words.is_empty() {
        Ok(())
    } else {
        Err(Fault::Unknown)
    }
}

/// The seed that settings name, which are none else.
pub fn seed_alone(words: &str) -> Result<Option<u64>, Fault> {
    if words.is_empty() {
        return Ok(None);
    }
    match words.strip_prefix("seed=") {
        Some(value) => Ok(Some(number(value)?)),
        None => Err(Fault::Unknown),
    }
}

/// The settings of a state. One that a line doesn't name is the default.
pub fn settings_of(words: Settings) -> StateSettings {
    let mut settings = StateSettings::default();
    if let Some(lg_k) = words.lg_k {
        settings = settings.with_lg_k(lg_k);
    }
    if let Some(factor) = words.factor {
        settings = settings.with_resize_factor(factor);
    }
    if let Some(start) = words.start {
        settings = settings.with_starting_theta(start);
    }
    if let Some(seed) = words.seed {
        settings = settings.with_seed(seed);
    }
    settings
}
