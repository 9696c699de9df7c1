//! The steps of a sketch since it was new.

/// One step of a leaf. `V` is what an update carries beside its hash: nothing for a theta sketch.
#[derive(Drop)]
pub enum LeafStep<V> {
    /// An update with a hash, which may be any 64 bits: 0 and hashes of at least the sketch's theta are screened.
    Add(u64, V),
    /// Cuts the sketch to its nominal number of entries.
    Trim,
    /// Makes the sketch empty again.
    Reset,
}
