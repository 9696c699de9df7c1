//! `difference`: differences of states, of which the second may show its hashes alone.
use crate::state_operands::operand_of;
use calls_language::arguments::{half_number, three_words};
use calls_language::entries::put_answer;
use calls_language::object::{Call, Memory, Object};
use calls_language::words::{Fault, order_flag};
use std::alloc::{Allocator, Global};
use theta_core::{
    HashIter, KeySketch, SketchView, ThetaEntry, ThetaFamilySketchMetadata, TupleEntry, a_not_b,
};

/// The seed hash of the default seed.
const DEFAULT_SEED_HASH: u16 = 0x93cc;

/// A sketch that shows its hashes, and no entries.
#[derive(Clone, Copy)]
struct HashesAlone<'a> {
    view: SketchView<'a, ThetaEntry>,
}

impl<'a> KeySketch for HashesAlone<'a> {
    ghost use Rattle.core_laws.specs.Entries.{hash_key};
    ghost use Rattle.core_state.specs.View.{shows};

    type Hashes = HashIter<'a, ThetaEntry>;

    ghost shown = { λ s. shows hash_key s.view };

    ghost rest = { λ s. s.rest };

    fn metadata(self) -> ThetaFamilySketchMetadata {
        self.view.metadata()
    }

    fn hashes(self) -> HashIter<'a, ThetaEntry> {
        self.view.hashes()
    }

    ghost yields = { λ s r t gives. gives.0 };

    ghost may_go_on = { λ s. tt };

    ghost ends = { λ s. tt };
}

/// Differences of sketches of one seed hash.
#[derive(Drop)]
pub struct DifferenceObject<A> {
    alloc: A,
    seed_hash: u16,
}

impl<A: Allocator + Copy + Drop> DifferenceObject<A> {
    /// Appends a difference of hashes.
    fn put_hashes(
        &self,
        memory: Memory<'_>,
        call: Call<'_>,
        answer: &mut String,
    ) -> Result<(), Fault> {
        let (a, b, order) = three_words(call.argument)?;
        let ordered = order_flag(order)?;
        memory.pause();
        let a = operand_of::<ThetaEntry>(memory.plain(), a)?;
        let b = operand_of::<ThetaEntry>(memory.plain(), b)?;
        memory.refuse();
        let state = if call.verb == "entries" {
            a_not_b::compute_with_entries(self.alloc, self.seed_hash, a.view(), b.view(), ordered)?
        } else {
            let b = HashesAlone { view: b.view() };
            a_not_b::compute(self.alloc, self.seed_hash, a.view(), b, ordered)?
        };
        put_answer(answer, &state)?;
        Ok(())
    }

    /// Appends a difference of tuples and hashes.
    fn put_tuples(
        &self,
        memory: Memory<'_>,
        call: Call<'_>,
        answer: &mut String,
    ) -> Result<(), Fault> {
        let (a, b, order) = three_words(call.argument)?;
        let ordered = order_flag(order)?;
        memory.pause();
        let a = operand_of::<TupleEntry<u64>>(memory.plain(), a)?;
        let b = operand_of::<ThetaEntry>(memory.plain(), b)?;
        memory.refuse();
        let state = if call.verb == "tuples_entries" {
            a_not_b::compute_with_entries(self.alloc, self.seed_hash, a.view(), b.view(), ordered)?
        } else {
            let b = HashesAlone { view: b.view() };
            a_not_b::compute(self.alloc, self.seed_hash, a.view(), b, ordered)?
        };
        put_answer(answer, &state)?;
        Ok(())
    }
}

impl<A: Allocator + Copy + Drop> Object<A> for DifferenceObject<A> {
    fn make(_plain: Global, alloc: A, settings: &str) -> Result<Self, Fault> {
        let seed_hash = match settings.strip_prefix("seed_hash=") {
            Some(word) => half_number(word)?,
            None if settings.is_empty() => DEFAULT_SEED_HASH,
            None => return Err(Fault::Unknown),
        };
        Ok(DifferenceObject { alloc, seed_hash })
    }

    fn call(
        &mut self,
        memory: Memory<'_>,
        call: Call<'_>,
        answer: &mut String,
    ) -> Result<(), Fault> {
        match call.verb {
            "compute" | "entries" => self.put_hashes(memory, call, answer),
            "tuples" | "tuples_entries" => self.put_tuples(memory, call, answer),
            "see" => self.see(answer),
            _ => Err(Fault::Unknown),
        }
    }
}
