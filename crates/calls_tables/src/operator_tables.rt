//! `operator_table`: a table of hashes with the slots that an operator asks for.
use crate::hash_tables::HashTableObject;
use calls_language::object::{Call, Left, Memory, Object};
use calls_language::words::{Fault, number, small_number};
use sketch_base::{DEFAULT_UPDATE_SEED, ErrorKind, compute_seed_hash};
use std::alloc::{Allocator, Global};
use theta_core::{MAX_THETA, SketchHashTable, ThetaHashTable};

/// The most slots of such a table in lines, as a binary logarithm.
const MOST_LG_SLOTS: u8 = 20;

/// A table of an operator.
#[derive(Drop)]
pub struct OperatorTable<A: Allocator> {
    own: HashTableObject<A>,
}

/// The settings of a table of an operator.
#[derive(Clone, Copy)]
struct OperatorWords {
    lg_cur: u8,
    lg_nom: u8,
    theta: u64,
    seed: u64,
}

impl OperatorWords {
    /// Takes the setting of one word.
    fn set(&mut self, word: &str) -> Result<(), Fault> {
        match word.split_once('=') {
            Some(("lg_cur", value)) => self.lg_cur = small_number(value)?,
            Some(("lg_nom", value)) => self.lg_nom = small_number(value)?,
            Some(("theta", value)) => self.theta = number(value)?,
            Some(("seed", value)) => self.seed = number(value)?,
            _ => return Err(Fault::Unknown),
        }
        Ok(())
    }

    /// The settings of words with blanks between.
    fn read(words: &str) -> Result<OperatorWords, Fault> {
        let mut read = OperatorWords {
            lg_cur: 0,
            lg_nom: 0,
            theta: MAX_THETA,
            seed: DEFAULT_UPDATE_SEED,
        };
        if !words.is_empty() {
            for word in words.split(' ') {
                read.set(word)?;
            }
        }
        Ok(read)
    }
}

/// A table of an operator with these settings.
fn operator_table<A: Allocator + Drop>(
    alloc: A,
    words: OperatorWords,
) -> Result<ThetaHashTable<A>, Fault> {
    let OperatorWords {
        lg_cur,
        lg_nom,
        theta,
        seed,
    } = words;
    let Ok(seed_hash) = compute_seed_hash(seed, ErrorKind::InvalidArgument) else {
        return Err(Fault::Condition);
    };
    let is_twice = lg_nom < MOST_LG_SLOTS && lg_cur == lg_nom + 1;
    let is_none = lg_cur == 0 && lg_nom == 0;
    if !is_twice && !is_none || theta == 0 || theta > MAX_THETA {
        return Err(Fault::Condition);
    }
    Ok(SketchHashTable::for_set_operation(alloc, lg_cur, lg_nom, theta, seed, seed_hash)?)
}

impl<A: Allocator + Copy + Drop> Object<A> for OperatorTable<A> {
    fn make(_plain: Global, alloc: A, settings: &str) -> Result<Self, Fault> {
        let table = operator_table(alloc, OperatorWords::read(settings)?)?;
        Ok(OperatorTable {
            own: HashTableObject { table },
        })
    }

    fn call(
        &mut self,
        memory: Memory<'_>,
        call: Call<'_>,
        answer: &mut String,
    ) -> Result<(), Fault> {
        self.own.call(memory, call, answer)
    }

    fn see(&self, text: &mut String) -> Result<(), Fault> {
        self.own.see(text)
    }

    fn left_by(verb: &str) -> Left {
        <HashTableObject<A> as Object<A>>::left_by(verb)
    }
}
