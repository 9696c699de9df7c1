//! Tuple sketches: estimates of how many distinct keys a stream has, with a summary for each retained key, such as a
//! sum, a count or a greatest value.
//!
//! A tuple sketch retains the entries of smallest hash, all below its theta, as a theta sketch retains hashes; beside
//! its hash, each entry has a summary. The sketch's policy creates the summary of a new key, updates it with each
//! value, and may refuse either. Contracts see a sketch's state (whether it is empty, its table as a map with a
//! theta, and its entries in the order of `iter`) and its policy. The value of a state is `sketch_value`: Empty, or
//! the retained entries as a map, ascending by hash, with the theta. Over whole streams a tuple sketch is a leaf, as
//! a theta sketch is, with the folds of each key's values as its entries (`laws`). The clauses `given`, `part` and
//! `sample` say instead what an object was given, as folds, and that it was given nothing else; those of results say
//! what they have of it (`kmin`, `least`, `below`). A program proves its own results from these clauses alone
//! (docs/use/PROVE-YOUR-PROGRAM.md, `crates/example_spending`).
//!
//! A compact sketch of the visits of each visitor, and the sum of all visits, which is 8:
//!
//! ```
//! fn visits(alloc: Global) -> Result<CompactTupleSketch<u64>, Error> {
//!     let policy = DefaultUpdatePolicy::<u64>::default();
//!     let mut sketch = TupleSketchBuilder::new(policy).lg_k(14).build(alloc)?;
//!     sketch.update("ann", 3)?;
//!     sketch.update("bob", 1)?;
//!     sketch.update("ann", 4)?;
//!     sketch.compact(true)
//! }
//!
//! fn total(entries: TupleSketchIter<'_, u64>) -> u64 {
//!     let sums = entries.map(|entry| *entry.summary());
//!     sums.fold(0, |total: u64, sum| total.saturating_add(sum))
//! }
//!
//! let visits = visits(alloc)?;
//! let view: TupleSketchView<'_, u64> = visits.as_view();
//! let total = total(view.iter());
//! ```
//!
//! The visits of two days together, and of the visitors of both days:
//!
//! ```
//! let sums = DefaultUnionPolicy::<u64>::default();
//! let mut union = TupleUnionBuilder::new(sums).lg_k(14).build(alloc)?;
//! union.update(monday.as_view())?;
//! union.update(tuesday.as_view())?;
//! let together = union.to_sketch(true)?;
//!
//! let mut intersection = TupleIntersection::new(alloc, sums)?;
//! intersection.update(monday.as_view())?;
//! intersection.update(tuesday.as_view())?;
//! let on_both_days = intersection.to_sketch(true)?;
//! ```
//!
//! The visits of all days, by one call for their compact sketches. Sketches that are all ordered are read only as far
//! as the union needs:
//!
//! ```
//! let mut views = Vec::new(alloc);
//! for day in &days {
//!     let view: TupleSketchView<'_, u64> = day.as_view();
//!     views.push(view)?;
//! }
//! let mut union = TupleUnionBuilder::new(sums).lg_k(14).build(alloc)?;
//! union.update_all(views.as_slice())?;
//! let all_together = union.to_sketch(true)?;
//! ```
//!
//! The greatest number of each key, in a sketch and in a union of sketches, by one policy:
//!
//! ```
//! let greatest = NumberPolicy::new(SummaryMode::Max);
//! let mut sketch = TupleSketchBuilder::new(greatest).build(alloc)?;
//! sketch.update("/index.html", 12)?;
//! sketch.update("/index.html", 9)?;
//! let mut union = TupleUnionBuilder::new(greatest).build(alloc)?;
//! union.update(sketch.as_view())?;
//! let slowest = union.to_sketch(true)?;
//! ```
//!
//! To bytes and back, for summaries that implement `TupleSummaryValue`:
//!
//! ```
//! let image = together.serialize()?;
//! let read = CompactTupleSketch::<u64>::deserialize(alloc, &image)?;
//! ```
#![tactic(auto)]

mod a_not_b;
mod builder;
mod compact_sketch;
mod image;
mod intersection;
pub mod laws;
mod numbers;
mod operands;
mod sketch;
mod union;
mod union_builder;
mod view;

pub use a_not_b::TupleANotB;
pub use builder::TupleSketchBuilder;
pub use compact_sketch::CompactTupleSketch;
pub use core_images::{Flaw, ReadError, TupleSummaryValue};
pub use core_laws::MAX_THETA;
pub use core_policies::{
    CheckedSum, DefaultUnionPolicy, DefaultUpdatePolicy, SummaryCombinePolicy, SummaryPolicy,
    SummaryUpdatePolicy,
};
pub use core_slots::TupleEntry;
pub use core_table::ResizeFactor;
pub use estimates::{Decimal, MAX_PLACES, estimate_decimal};
pub use image::{
    EMPTY_SKETCH_BYTES, SERIAL_VERSION, SERIAL_VERSION_LEGACY, SKETCH_TYPE, SKETCH_TYPE_LEGACY,
};
pub use intersection::TupleIntersection;
pub use numbers::{NumberPolicy, SummaryMode};
pub use sketch::TupleSketch;
pub use sketch_base::{DEFAULT_UPDATE_SEED, Error, ErrorKind, MurmurHash3X64128};
pub use union::TupleUnion;
pub use union_builder::TupleUnionBuilder;
pub use view::{TupleSketchIter, TupleSketchView};
