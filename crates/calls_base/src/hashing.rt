//! `murmur`: the hasher, fed in pieces.
use calls_language::arguments::{hex_of, two_words};
use calls_language::object::{Call, Memory, Object};
use calls_language::settings::seed_alone;
use calls_language::words::{Fault, number, small_number};
use sketch_base::{DEFAULT_UPDATE_SEED, MurmurHash3X64128};
use std::alloc::{AllocError, Global};
use std::hash::{Hash, Hasher};

/// A hasher and its seed.
#[derive(Drop)]
pub struct Murmur {
    seed: u64,
    hasher: MurmurHash3X64128,
}

/// Appends both halves of a hash.
fn put_halves(answer: &mut String, halves: (u64, u64)) -> Result<(), AllocError> {
    let (first, second) = halves;
    write!(answer, "{first:016x} {second:016x}")
}

impl Murmur {
    /// Writes a number or bytes; returns whether the word names a way to.
    fn write(&mut self, plain: Global, call: Call<'_>) -> Result<bool, Fault> {
        let word = call.argument;
        let hasher = &mut self.hasher;
        match call.verb {
            "bytes" => hasher.write(hex_of(plain, word)?.as_slice()),
            "text" => word.hash(hasher),
            "u8" => hasher.write_u8(small_number(word)?),
            "u16" => word
                .parse::<u16>()
                .map_err(|_| Fault::Unknown)?
                .hash(hasher),
            "u32" => word
                .parse::<u32>()
                .map_err(|_| Fault::Unknown)?
                .hash(hasher),
            "u64" => number(word)?.hash(hasher),
            "i32" => word
                .parse::<i32>()
                .map_err(|_| Fault::Unknown)?
                .hash(hasher),
            "i64" => word
                .parse::<i64>()
                .map_err(|_| Fault::Unknown)?
                .hash(hasher),
            _ => return Ok(false),
        }
        Ok(true)
    }

    /// Begins with the front of 32 bytes.
    fn begin(&mut self, plain: Global, argument: &str) -> Result<(), Fault> {
        let (digits, count) = two_words(argument)?;
        let bytes = hex_of(plain, digits)?;
        let count = number(count)? as usize;
        let Some((front, rest)) = bytes.as_slice().split_first_chunk::<32>() else {
            return Err(Fault::Unknown);
        };
        if !rest.is_empty() {
            return Err(Fault::Unknown);
        }
        if count >= 32 {
            return Err(Fault::Condition);
        }
        self.hasher = MurmurHash3X64128::of_front(self.seed, front, count);
        Ok(())
    }
}

impl<A: Drop> Object<A> for Murmur {
    fn make(_plain: Global, _alloc: A, settings: &str) -> Result<Self, Fault> {
        let seed = seed_alone(settings)?.unwrap_or(DEFAULT_UPDATE_SEED);
        let hasher = MurmurHash3X64128::with_seed(seed);
        Ok(Murmur { seed, hasher })
    }

    fn call(
        &mut self,
        memory: Memory<'_>,
        call: Call<'_>,
        answer: &mut String,
    ) -> Result<(), Fault> {
        if self.write(memory.plain(), call)? {
            answer.push_str("ok")?;
            return Ok(());
        }
        match call.verb {
            "front" => {
                self.begin(memory.plain(), call.argument)?;
                answer.push_str("ok")?;
            }
            "finish" => {
                let first = self.hasher.finish();
                write!(answer, "{first:016x}")?;
            }
            "finish128" | "see" => put_halves(answer, self.hasher.finish128())?,
            _ => return Err(Fault::Unknown),
        }
        Ok(())
    }

    fn see(&self, text: &mut String) -> Result<(), Fault> {
        put_halves(text, self.hasher.finish128())?;
        Ok(())
    }
}
