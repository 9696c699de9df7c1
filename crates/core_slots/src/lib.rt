//! Entries of sketches, the steps of an insertion, and the slots in which a table stores entries by open addressing:
//! searches, writes, moves from some slots to others, laying out the same slots anew, looking up many hashes at once,
//! and the hash of a given rank among those in slots.
//!
//! There are 2^lg slots. The path of a hash begins at the slot of its low lg bits and continues by an odd stride
//! taken from its next 7 bits, so it meets each slot once. Contracts see slots as a list of their contents, and speak
//! of the map of the entries in them. The table above decides whether an entry may be retained, and when slots grow.
#![tactic(auto)]

mod count;
mod entry;
mod gathering;
pub mod laws;
mod lookup;
mod paths;
mod placing;
mod rehash;
mod selection;
mod slot_entry;
mod slots;
mod step;

pub use count::Count;
pub use entry::{ThetaEntry, TupleEntry};
pub use lookup::drop_retained;
pub use placing::settle_all;
pub use rehash::{keep_below, put_kept};
pub use selection::hash_of_rank;
pub use slot_entry::{PathEntry, SlotEntry};
pub use slots::{NEAR, Place, STRIDE_MASK, free_slots, put_spread, seek, seek_near};
pub use step::{EntryStep, PutStep, UpsertStep};
