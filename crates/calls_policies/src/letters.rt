//! Letters: a summary of any width up to 255 bytes, in memory that may be refused.
ghost use Rattle.std.specs.Prelude.{◌≡◌, [], Some, true, is_none, MatchResult};
ghost use Rattle.core_laws.specs.Refusal.{Refuses, policy_refusal};
ghost use Rattle.calls_policies.specs.Letters.{appended};

use crate::policies::FromWord;
use crate::summaries::Summary;
use calls_language::words::Fault;
use sketch_base::{Error, ErrorKind, SketchBytes, SketchSlice};
use std::alloc::{AllocError, Allocator};
use std::marker::Model;
use tuple_sketches::{SummaryCombinePolicy, SummaryPolicy, SummaryUpdatePolicy, TupleSummaryValue};

/// Up to 255 bytes. Its value in contracts is the bytes.
#[derive(Drop)]
pub struct Letters<A: Allocator> {
    bytes: Vec<u8, A>,
}

impl<A: Allocator> Model for Letters<A> {
    ghost use Rattle.std.specs.Prelude.{ℕ, List, ◌<◌, length};

    ghost Value = { List ℕ };

    ghost view = { λ s. s.bytes.items };

    ghost invariant = { λ s. length s.bytes.items < 256 };
}

impl<A: Allocator + Clone + Drop> Clone for Letters<A> {
    ghost is_clone = { λ letters copy. copy ≡ letters };

    fn clone(&self) -> Result<Self, AllocError> {
        let alloc = self.bytes.allocator().clone()?;
        let bytes = Vec::from_clones(alloc, &self.bytes)?;
        Ok(Letters { bytes })
    }
}

/// One byte with the number of bytes, then the bytes.
impl<A: Allocator + Clone + Drop> TupleSummaryValue<A> for Letters<A> {
    ghost use Rattle.std.specs.Prelude.{◌∷◌, ◌<◌, length};
    ghost use Rattle.calls_policies.specs.Letters.{SpellsLetters, one_letters, letters_written};

    ghost spells = { SpellsLetters };

    ghost is_value = { λ x. length x < 256 };

    ghost text = { λ x. length x ∷ x };

    fn serialize_size(&self) -> usize {
        1 + self.bytes.len()
    }

    fn serialize_value<B: Allocator>(&self, bytes: &mut SketchBytes<B>) -> Result<(), Error> {
        bytes.write_u8(self.bytes.len() as u8)?;
        bytes.write(&self.bytes)
    }

    fn deserialize_value(alloc: &A, slice: &mut SketchSlice<'_>) -> Result<Self, Error> {
        let count = slice.read_u8()?;
        let mut bytes = Vec::new(alloc.clone()?);
        bytes.resize(count as usize, 0)?;
        slice.read_exact(&mut bytes)?;
        Ok(Letters { bytes })
    }

    ghost one_spelling = { one_letters };

    ghost text_spells = { letters_written };
}

impl<A: Allocator + Clone + Drop> Summary<A> for Letters<A> {
    fn read(alloc: A, word: &str) -> Result<Letters<A>, Fault> {
        if 255 < word.len() {
            return Err(Fault::Unknown);
        }
        let bytes = Vec::from_clones(alloc, word.as_bytes());
        let bytes = bytes.map_err(|_| Fault::Refused(ErrorKind::OutOfMemory))?;
        Ok(Letters { bytes })
    }

    fn put(&self, text: &mut String) -> Result<(), AllocError> {
        for byte in &self.bytes {
            if byte.is_ascii_lowercase() {
                text.push(*byte as char)?;
            } else {
                text.push('?')?;
            }
        }
        Ok(())
    }

    ghost clones_equal = { λ x y same. same };
}

/// Appends letters to letters, and refuses more than 255.
#[derive(Drop)]
pub struct Appending<A: Allocator> {
    alloc: A,
}

impl<A: Allocator + Copy> Clone for Appending<A> {
    ghost is_clone = { λ policy copy. copy ≡ policy };

    fn clone(&self) -> Result<Self, AllocError> {
        Ok(*self)
    }
}

impl<A: Allocator + Copy> Copy for Appending<A> {}

/// Appends bytes to letters, and refuses more than 255.
fn append<A: Allocator>(letters: &mut Letters<A>, bytes: &[u8]) -> Result<(), Error>
    ensures appended { MatchResult result (λ _. appended letters.old bytes.now ≡ Some letters.new) (λ _.
        letters.new ≡ letters.old) }
    ensures refused { Refuses result (policy_refusal (is_none (appended letters.old bytes.now))) true }
{
    if 255 < letters.bytes.len() + bytes.len() {
        return Err(Error::new(ErrorKind::Policy));
    }
    letters.bytes.extend_from_slice(bytes)?;
    Ok(())
}

impl<A: Allocator + Copy + Drop> SummaryPolicy for Appending<A> {
    type Summary = Letters<A>;

    ghost creates = { λ policy. Some [] };

    ghost takes_memory = { λ policy. true };

    fn create(&self) -> Result<Letters<A>, Error> {
        let bytes = Vec::new(self.alloc);
        Ok(Letters { bytes })
    }
}

impl<A: Allocator + Copy + Drop> SummaryUpdatePolicy<Letters<A>> for Appending<A> {
    ghost updates = { λ policy x y. appended x y };

    fn update(&self, letters: &mut Letters<A>, value: Letters<A>) -> Result<(), Error> {
        append(letters, &value.bytes)
    }
}

impl<A: Allocator + Copy + Drop> SummaryCombinePolicy for Appending<A> {
    ghost combines = { λ policy x y. appended x y };

    fn combine(&self, letters: &mut Letters<A>, incoming: &Letters<A>) -> Result<(), Error> {
        append(letters, &incoming.bytes)
    }
}

impl<A: Allocator + Copy> FromWord<A> for Appending<A> {
    fn from_word(alloc: A, _word: &str) -> Result<Self, Fault> {
        Ok(Appending { alloc })
    }
}
