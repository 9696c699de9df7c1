//! Theta sketches: estimates of how many distinct values a stream has, with compact forms, unions, intersections,
//! differences and images.
//!
//! A theta sketch retains the hashes of a stream's values that are below its theta. If they become too many, it
//! lowers theta and drops the greatest hashes; the estimate follows from the number of retained hashes and theta. In
//! contracts, the value of a sketch is Empty, or the retained hashes as a map, ascending, with the theta. The
//! contracts of most calls are stated on that value. Their clauses `given`, `part` and `sample` say instead which
//! stream of hashes an object was given, and that it was given nothing else; those of results say what they have of
//! it (`kmin`, `least`, `below`). A program proves its own results from these clauses alone
//! (docs/use/PROVE-YOUR-PROGRAM.md, `crates/example_readme`).
//!
//! The visitors of two days: of either day, of both days, of the first day alone. The last lines write an image of
//! the first result and read it.
//!
//! ```
//! let mut monday = ThetaSketchBuilder::default().lg_k(14).build(alloc)?;
//! monday.update("ann")?;
//! let mut tuesday = ThetaSketchBuilder::default().lg_k(14).build(alloc)?;
//! tuesday.update("bob")?;
//!
//! let mut union = ThetaUnionBuilder::default().lg_k(14).build(alloc)?;
//! union.update(monday.as_view())?;
//! union.update(tuesday.as_view())?;
//! let either_day = union.to_sketch(true)?;
//!
//! let mut intersection = ThetaIntersection::default(alloc)?;
//! intersection.update(monday.as_view())?;
//! intersection.update(tuesday.as_view())?;
//! let both_days = intersection.to_sketch(true)?;
//!
//! let monday_alone = ThetaANotB::default()?.compute(alloc, monday.as_view(), tuesday.as_view(), true)?;
//!
//! let image = either_day.serialize()?;
//! let read = CompactThetaSketch::deserialize(alloc, &image)?;
//! ```
//!
//! The visitors of any day, by one call for the compact sketches of all days. If all are ordered, they are read only
//! as far as the union needs:
//!
//! ```
//! let mut views = Vec::new(alloc);
//! for day in &days {
//!     views.push(day.as_view())?;
//! }
//! let mut union = ThetaUnionBuilder::default().lg_k(14).build(alloc)?;
//! union.update_all(views.as_slice())?;
//! let any_day = union.to_sketch(true)?;
//! ```
#![tactic(auto)]

mod a_not_b;
mod builder;
mod compact_sketch;
mod image;
mod intersection;
pub mod laws;
mod policy;
mod sketch;
mod union;
mod view;

pub use a_not_b::ThetaANotB;
pub use builder::{ThetaSketchBuilder, ThetaUnionBuilder};
pub use compact_sketch::CompactThetaSketch;
pub use core_images::{Flaw, ReadError};
pub use core_laws::MAX_THETA;
pub use core_slots::ThetaEntry;
pub use core_state::ThetaSketchIter;
pub use core_table::ResizeFactor;
pub use estimates::{Decimal, MAX_PLACES, estimate_decimal};
pub use intersection::ThetaIntersection;
pub use sketch::ThetaSketch;
pub use sketch_base::{DEFAULT_UPDATE_SEED, Error, ErrorKind, MurmurHash3X64128};
pub use union::ThetaUnion;
pub use view::ThetaSketchView;
