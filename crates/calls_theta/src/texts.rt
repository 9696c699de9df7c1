//! `texts`: the union of the lines of texts.
use calls_language::object::{Call, Memory, Object};
use calls_language::settings::Settings;
use calls_language::words::{Fault, put_bytes};
use keys_lines::{Hashing, Key};
use keys_sketches::{Watch, image_of_texts};
use std::alloc::{Allocator, Global};
use theta_sketches::{DEFAULT_UPDATE_SEED, ThetaSketch};

/// The settings of sketches of lines.
#[derive(Clone, Copy)]
pub struct Texts {
    lg_k: u8,
    seed: u64,
}

/// Watches nothing.
#[derive(Drop)]
struct NoWatch;

impl Watch for NoWatch {
    fn on_read<A: Allocator>(&mut self, _bytes: usize, _lines: u64, _sketch: &ThetaSketch<A>) {}
}

/// The bytes of a text: `_` is the end of a line, and `-` alone is an empty text.
fn text_of(plain: Global, word: &str) -> Result<Vec<u8>, Fault> {
    let mut bytes = Vec::new(plain);
    if word == "-" {
        return Ok(bytes);
    }
    for byte in word.as_bytes() {
        bytes.push(if *byte == b'_' { b'\n' } else { *byte })?;
    }
    Ok(bytes)
}

impl Texts {
    /// Appends the image of the lines of texts, with blanks between.
    fn put_image(&self, plain: Global, words: &str, answer: &mut String) -> Result<(), Fault> {
        let mut texts = Vec::new(plain);
        if !words.is_empty() {
            for word in words.split(' ') {
                texts.push(text_of(plain, word)?)?;
            }
        }
        let hashing = Hashing {
            key: Key::Line,
            seed: self.seed,
        };
        let image = image_of_texts(plain, hashing, self.lg_k, texts.as_slice(), &mut NoWatch)?;
        put_bytes(answer, image.as_slice())?;
        Ok(())
    }
}

impl<A: Drop> Object<A> for Texts {
    fn make(_plain: Global, _alloc: A, settings: &str) -> Result<Self, Fault> {
        let settings = Settings::read(settings, ' ')?;
        Ok(Texts {
            lg_k: settings.lg_k.unwrap_or(12),
            seed: settings.seed.unwrap_or(DEFAULT_UPDATE_SEED),
        })
    }

    fn call(
        &mut self,
        memory: Memory<'_>,
        call: Call<'_>,
        answer: &mut String,
    ) -> Result<(), Fault> {
        match (call.verb, call.argument) {
            ("image", words) => self.put_image(memory.plain(), words, answer),
            ("see", "") => {
                answer.push_str("ok")?;
                Ok(())
            }
            _ => Err(Fault::Unknown),
        }
    }
}
