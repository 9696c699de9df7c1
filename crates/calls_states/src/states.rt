//! `state` and `tuple_state`: compact states of hashes and of tuples.
ghost use Rattle.core_laws.specs.Entries.{ClonesEqual};

use calls_language::arguments::half_number;
use calls_language::entries::ShownEntry;
use calls_language::series::{as_unsigned, numbers_of};
use calls_language::words::{Fault, number, order_flag};
use sketch_base::ErrorKind;
use std::alloc::{Allocator, Global};
use theta_core::image::{ImageEntry, ImageLayout, Preamble, read_after_preamble};
use theta_core::{CompactSketchState, MAX_THETA};

/// The seed hash of the default seed.
const DEFAULT_SEED_HASH: u16 = 0x93cc;

/// The settings of a compact state. Its entries are series with commas between, maybe with values.
#[derive(Clone, Copy)]
pub struct StateWords<'w> {
    pub empty: bool,
    pub theta: u64,
    pub seed_hash: u16,
    pub ordered: bool,
    pub entries: &'w str,
}

impl<'w> StateWords<'w> {
    /// Takes the setting of one word.
    fn set(&mut self, word: &'w str) -> Result<(), Fault> {
        match word.split_once('=') {
            Some(("theta", value)) => self.theta = number(value)?,
            Some(("seed_hash", value)) => self.seed_hash = half_number(value)?,
            Some(("order", value)) => self.ordered = order_flag(value)?,
            Some(("entries", value)) => self.entries = value,
            None if word == "empty" => self.empty = true,
            _ => return Err(Fault::Unknown),
        }
        Ok(())
    }

    /// The settings of words with blanks between.
    pub fn read(words: &'w str) -> Result<StateWords<'w>, Fault> {
        let mut read = StateWords {
            empty: false,
            theta: MAX_THETA,
            seed_hash: DEFAULT_SEED_HASH,
            ordered: true,
            entries: "",
        };
        if !words.is_empty() {
            for word in words.split(' ') {
                read.set(word)?;
            }
        }
        Ok(read)
    }
}

/// An entry whose values lines can name.
pub trait NamedEntry: ShownEntry + Clone + ImageEntry<Global> {
    /// Appends the bytes of entries of a series with this value.
    fn put_bytes(hash: u64, value: &str, bytes: &mut Vec<u8>) -> Result<(), Fault>;
}

/// The bytes of entries, as an image has them.
fn entry_bytes<E: NamedEntry>(plain: Global, entries: &str) -> Result<(Vec<u8>, u32), Fault> {
    let mut bytes = Vec::new(plain);
    let mut count = 0u32;
    if entries.is_empty() {
        return Ok((bytes, count));
    }
    for word in entries.split(',') {
        let (series, value) = word.split_once(':').unwrap_or((word, ""));
        for number in &numbers_of(plain, series)? {
            E::put_bytes(as_unsigned(*number)?, value, &mut bytes)?;
            count = count.saturating_add(1);
        }
    }
    Ok((bytes, count))
}

/// The state of settings, in plain memory, as it is read from an image's entries.
fn plain_state<E: NamedEntry>(
    plain: Global,
    words: StateWords<'_>,
) -> Result<CompactSketchState<E>, Fault> {
    let (bytes, count) = entry_bytes::<E>(plain, words.entries)?;
    if words.theta == 0 || words.theta > MAX_THETA {
        return Err(Fault::Condition);
    }
    let preamble = Preamble {
        start: 0,
        count,
        theta: words.theta,
        ordered: words.ordered,
    };
    let layout = Ok(ImageLayout::Filled(preamble));
    match read_after_preamble::<E, Global>(plain, bytes.as_slice(), layout, words.seed_hash) {
        Ok(state) => Ok(state),
        Err(_) => Err(Fault::Condition),
    }
}

/// The state of settings.
pub fn state_of<E: NamedEntry, A: Allocator + Clone>(
    plain: Global,
    alloc: A,
    words: StateWords<'_>,
) -> Result<CompactSketchState<E, A>, Fault>
    requires clones_equal { ClonesEqual E.is_clone }
{
    if words.empty {
        return Ok(CompactSketchState::empty(alloc, words.seed_hash));
    }
    let state = plain_state::<E>(plain, words)?;
    copied(alloc, &state)
}

/// The same state as another that isn't empty, in other memory.
fn copied<E: NamedEntry, A: Allocator + Clone>(
    alloc: A,
    state: &CompactSketchState<E>,
) -> Result<CompactSketchState<E, A>, Fault>
    requires clones_equal { ClonesEqual E.is_clone }
{
    if state.is_empty() {
        return Err(Fault::Condition);
    }
    let listed = state.retained_entries();
    let entries = match Vec::from_clones(alloc, listed) {
        Ok(entries) => entries,
        Err(_) => return Err(Fault::Refused(ErrorKind::OutOfMemory)),
    };
    Ok(CompactSketchState::non_empty(
        entries,
        state.theta(),
        state.seed_hash(),
        state.is_ordered(),
    ))
}
